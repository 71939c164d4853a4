// What a call that refuses hands back.
use avs_seg::{Failed, NoMemory};

/// The parts that a call took, and why it refused them.
#[derive(Debug, Drop)]
pub struct Back<P, W> {
    pub parts: P,
    pub why: W,
}

/// Why a call refused the disks that it was given.
#[derive(Clone, Copy, Debug, PartialEq, Eq)]
pub enum Why {
    /// A disk has `have` blocks, and `need` are needed.
    Size { need: u32, have: u32 },

    /// The field of this number of a record on the disk breaks its rule.
    BadRecord(u32),

    NoMemory,

    /// A disk failed.
    Fault,
}

impl From<Failed> for Why {
    ghost use Rattle.std.specs.Prelude.{◌≡◌};
    ghost use Rattle.avs_dev.specs.declared.back.Why.TheVariants.{Fault};

    ghost from_gives = { λ _ w. w ≡ Fault };

    fn from(_: Failed) -> Self {
        Why::Fault
    }
}

impl From<NoMemory> for Why {
    ghost use Rattle.std.specs.Prelude.{◌≡◌};
    ghost use Rattle.avs_dev.specs.declared.back.Why.TheVariants.{NoMemory};

    ghost from_gives = { λ _ w. w ≡ NoMemory };

    fn from(_: NoMemory) -> Self {
        Why::NoMemory
    }
}

/// One disk, handed back.
pub type Closed<D> = Back<D, Why>;

/// Two disks, handed back.
pub type Closed2<D> = Back<(D, D), Why>;
