// A receiver taken apart.
ghost use Rattle.std.specs.Prelude.{◌≡◌};
ghost use Rattle.avs_mirrors.specs.Half.{Sets, left_receiver};
ghost use Rattle.avs_receiver.specs.Held.{seen_of, parts_of};
ghost use Rattle.avs_receiver.specs.Meaning.{Finds, IsReceiverInStep, receiver_of};
ghost use Rattle.avs_receiver.specs.PartsView.{seen_parts};

use crate::half::Half;
use crate::receiver::Receiver;
use avs_dev::{Below, Disk};
use avs_sync::HalfParts;

impl<D: Disk, B: Below> Receiver<D, B> {
    /// Takes the receiver apart. On its parts it is found as having left.
    pub fn into_parts(self) -> HalfParts<D, B>
        ensures parts { seen_parts D.seen B.seen result ≡ parts_of (seen_of B.seen self) }
        ensures below { result.below ≡ self.below }
        ensures found { IsReceiverInStep (B.IsSound self.below) (seen_of B.seen self) → (kept : Sets) → Finds (seen_parts D.seen B.seen result) (left_receiver (receiver_of kept (seen_of B.seen self))) }
    {
        let Receiver { below, half } = self;
        let Half {
            host,
            sets,
            queue,
            land,
            ..
        } = half;
        HalfParts {
            host,
            below,
            sets: sets.into_sets(),
            queue,
            land: land.into_disk(),
        }
    }
}
