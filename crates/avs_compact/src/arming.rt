// The disks of a set, by number.
ghost use Rattle.std.specs.Prelude.{◌≡◌};
ghost use Rattle.avs_compact.specs.Arming.{ArmsOne, written_of};

use crate::compact::Compact;
use avs_dev::{Arm, Disk, Tear};

impl<D: Disk> Compact<D> {
    /// How many blocks have been written on a disk. The disks that are there are numbered from 0, first the
    /// shadow's and then the bitmap's.
    pub fn written(&self, disk: u32) -> Option<u64>
        ensures { result ≡ written_of self.now disk }
    {
        match &self.shadow {
            Some(shadow) if disk == 0 => Some(shadow.written()),
            Some(_) => self.flip.written(disk - 1),
            None => self.flip.written(disk),
        }
    }

    /// Arms a tear on a disk, which is numbered as in `written`.
    pub fn arm(&mut self, disk: u32, tear: Tear) -> bool
    where
        D: Arm,
        ensures { ArmsOne self.old disk tear result self.new }
    {
        match &mut self.shadow {
            Some(shadow) if disk == 0 => shadow.arm(tear),
            Some(_) => self.flip.arm(disk - 1, tear),
            None => self.flip.arm(disk, tear),
        }
    }
}
