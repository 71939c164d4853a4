// The disks of an import, by number.
ghost use Rattle.std.specs.Prelude.{◌≡◌};
ghost use Rattle.avs_join.specs.Arming.{ArmsImport, import_written};

use crate::import::Import;
use avs_dev::{Arm, Disk, Tear};

impl<D: Disk> Import<D> {
    /// How many blocks have been written on a disk. The volume's has number 0, the bitmap's 1, and there is no other.
    pub fn written(&self, disk: u32) -> Option<u64>
        ensures { result ≡ import_written self.now disk }
    {
        match disk {
            0 => Some(self.volume.written()),
            1 => self.bits.written(0),
            _ => None,
        }
    }

    /// Arms a tear on a disk, which is numbered as in `written`.
    pub fn arm(&mut self, disk: u32, tear: Tear) -> bool
    where
        D: Arm,
        ensures { ArmsImport self.old disk tear result self.new }
    {
        match disk {
            0 => self.volume.arm(tear),
            1 => self.bits.arm(0, tear),
            _ => false,
        }
    }
}
