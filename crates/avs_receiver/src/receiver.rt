// A receiver: what lies below it, and its half.
use crate::half::Half;
use avs_dev::{Below, Disk};
use std::marker::Model;

/// The receiving half of a mirror group, over volumes and a note that lie below it. A mirror set is named by its place among
/// the half's sets. A call that answers that a device failed leaves the receiver as its disks stand: what it stands for then is
/// what `load` finds on its parts. No call but `load` and `bits` takes memory.
#[derive(Drop)]
pub struct Receiver<D: Disk, B: Below> {
    pub(crate) below: B,
    pub(crate) half: Half<D>,
}

impl<D: Disk, B: Below> Model for Receiver<D, B> {
    ghost use Rattle.avs_halves.specs.Over.{IsOver};
    ghost use Rattle.avs_receiver.specs.Held.{ReceiverOf};

    ghost Value = { ReceiverOf B };

    ghost view = { λ r. record { below = r.below; half = r.half } };

    ghost invariant = { λ r. IsOver (B.seen r.below) r.half.sets };
}
