// Why a call that saves chunks was refused.
use avs_seg::Failed;

/// Why chunks were not saved.
#[derive(Clone, Copy, Debug, PartialEq, Eq, Drop)]
pub enum CompactFault {
    /// There is no room for the slots that the chunks need: how many the set would need, and how many it has room for.
    Offline { need: u32, slots: u32 },
    /// A disk failed.
    Failed,
}

impl From<Failed> for CompactFault {
    ghost use Rattle.std.specs.Prelude.{◌≡◌};
    ghost use Rattle.avs_compact.specs.declared.fault.CompactFault.TheVariants.{Failed};

    ghost from_gives = { λ _ e. e ≡ Failed };

    fn from(_: Failed) -> Self {
        CompactFault::Failed
    }
}
