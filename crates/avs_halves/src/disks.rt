// The disks of the bitmaps, by the places of their sets.
ghost use Rattle.std.specs.Prelude.{◌≡◌};
ghost use Rattle.avs_halves.specs.Changing.{ArmsSet, set_written};

use crate::mirrors::MirrorSets;
use avs_dev::{Arm, Disk, Tear};

impl<D: Disk> MirrorSets<D> {
    /// How many blocks have been written on the disk of a set's bitmap.
    pub fn written(&self, set: usize) -> Option<u64>
        ensures { result ≡ set_written self.now set }
    {
        let mirror = self.sets.get(set)?;
        mirror.bits.written(0)
    }

    /// Arms a tear on the disk of a set's bitmap.
    pub fn arm(&mut self, set: usize, tear: Tear) -> bool
    where
        D: Arm,
        ensures { ArmsSet self.old set tear result self.new }
    {
        set < self.sets.len() && self.sets[set].bits.arm(0, tear)
    }
}
