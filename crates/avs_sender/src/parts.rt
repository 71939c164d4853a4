// A sender taken apart.
ghost use Rattle.std.specs.Prelude.{◌≡◌, IsNone};
ghost use Rattle.avs_sender.specs.Held.{seen_of, parts_of};
ghost use Rattle.avs_sender.specs.Meaning.{IsSenderInStep, found_again, found_of, sender_of};
ghost use Rattle.avs_sender.specs.PartsView.{seen_parts};

use crate::half::Half;
use crate::sender::Sender;
use avs_dev::{Below, Disk};
use avs_sync::HalfParts;

impl<D: Disk, B: Below> Sender<D, B> {
    /// Takes the sender apart. On its parts it is found as having left.
    pub fn into_parts(self) -> HalfParts<D, B>
        ensures parts { seen_parts D.seen B.seen result ≡ parts_of (seen_of B.seen self) }
        ensures below { result.below ≡ self.below }
        ensures queue { IsNone result.queue }
        ensures found { IsSenderInStep (B.IsSound self.below) (seen_of B.seen self)
            → found_again (seen_parts D.seen B.seen result) ≡ found_of (sender_of (seen_of B.seen self)) }
    {
        let Sender { below, half } = self;
        let Half {
            host,
            sets,
            land,
            ..
        } = half;
        HalfParts {
            host,
            below,
            sets: sets.into_sets(),
            queue: None,
            land,
        }
    }
}
