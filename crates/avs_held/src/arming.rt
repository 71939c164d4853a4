// The disks of a set, by number.
ghost use Rattle.std.specs.Prelude.{◌≡◌};
ghost use Rattle.avs_held.specs.Held.{seen_of};
ghost use Rattle.avs_held.specs.Arming.{ArmsOne, written_of};

use crate::held::HeldSet;
use avs_dev::{Arm, Disk, Tear};

impl<D: Disk> HeldSet<D> {
    /// How many blocks have been written on a disk. The disks that are there are numbered from 0, first the
    /// shadow's and then the bitmap's.
    pub fn written(&self, disk: u32) -> Option<u64>
        ensures { result ≡ written_of (seen_of self.now) disk }
    {
        self.chunks.written(disk)
    }

    /// Arms a tear on a disk, which is numbered as in `written`.
    pub fn arm(&mut self, disk: u32, tear: Tear) -> bool
    where
        D: Arm,
        ensures { ArmsOne (seen_of self.old) disk tear result (seen_of self.new) }
    {
        self.chunks.arm(disk, tear)
    }
}
