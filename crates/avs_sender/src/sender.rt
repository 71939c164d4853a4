// A sender: what lies below it, and its half.
use crate::half::Half;
use avs_dev::{Below, Disk};
use std::marker::Model;

/// The sending half of a mirror group, over volumes and a note that lie below it. A mirror set is named by its place among
/// the half's sets. A call that answers that a device failed leaves the sender in logging: what it stands for then is what
/// `load` finds on its parts.
#[derive(Drop)]
pub struct Sender<D: Disk, B: Below> {
    pub(crate) below: B,
    pub(crate) half: Half<D>,
}

impl<D: Disk, B: Below> Model for Sender<D, B> {
    ghost use Rattle.avs_halves.specs.Over.{IsOver};
    ghost use Rattle.avs_sender.specs.Held.{SenderOf};

    ghost Value = { SenderOf B };

    ghost view = { λ s. record { below = s.below; half = s.half } };

    ghost invariant = { λ s. IsOver (B.seen s.below) s.half.sets };
}
