// What makes disks.
ghost use Rattle.avs_dev.specs.Rack.{RackSeen, Makes};

use crate::disk::Arm;
use avs_seg::NoMemory;
use std::alloc::{AllocError, Global};

/// Why a rack made no disk.
#[derive(Clone, Copy, Debug, PartialEq, Eq)]
pub enum RackFault {
    /// The rack failed.
    Refused,

    /// There was no memory left.
    NoMemory,
}

impl From<NoMemory> for RackFault {
    ghost use Rattle.std.specs.Prelude.{◌≡◌};
    ghost use Rattle.avs_dev.specs.declared.rack.RackFault.TheVariants.{NoMemory};

    ghost from_gives = { λ _ e. e ≡ NoMemory };

    fn from(_: NoMemory) -> Self {
        RackFault::NoMemory
    }
}

impl From<AllocError> for RackFault {
    ghost use Rattle.std.specs.Prelude.{◌≡◌};
    ghost use Rattle.avs_dev.specs.declared.rack.RackFault.TheVariants.{NoMemory};

    ghost from_gives = { λ _ e. e ≡ NoMemory };

    fn from(_: AllocError) -> Self {
        RackFault::NoMemory
    }
}

/// What makes disks.
pub trait Rack {
    type D: Arm;

    /// What contracts see of it.
    ghost seen: { Self → RackSeen };

    /// Makes a disk of so many blocks of zeros.
    fn make(&mut self, alloc: Global, blocks: u32) -> Result<Self::D, RackFault>
        ensures { Makes Self.D.seen (seen self.old) blocks result (seen self.new) };
}
