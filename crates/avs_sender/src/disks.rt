// The disks of a sender by their numbers: those of the bitmaps in the order of the sets, and behind them that of the landing
// volume.
ghost use Rattle.std.specs.Prelude.{◌≡◌};
ghost use Rattle.avs_sender.specs.Disks.{ArmsHalf, written_of};
ghost use Rattle.avs_sender.specs.Held.{seen_of};
ghost use Rattle.avs_sender.specs.Meaning.{sender_of};

use crate::half::Half;
use crate::sender::Sender;
use avs_dev::{Arm, Below, Disk, Tear};

impl<D: Disk> Half<D> {
    fn written(&self, disk: u32) -> Option<u64>
        ensures { result ≡ written_of self.now disk }
    {
        if disk as usize == self.sets.count() {
            return Some(self.land.written());
        }
        self.sets.written(disk as usize)
    }

    fn arm(&mut self, disk: u32, tear: Tear) -> bool
    where
        D: Arm,
        ensures { ArmsHalf self.old disk tear result self.new }
    {
        if disk as usize == self.sets.count() {
            return self.land.arm(tear);
        }
        self.sets.arm(disk as usize, tear)
    }
}

impl<D: Disk, B: Below> Sender<D, B> {
    /// How many blocks have been written on a disk; `None` exactly where there is no such disk.
    pub fn written(&self, disk: u32) -> Option<u64>
        ensures { result ≡ written_of self.now.half disk }
    {
        self.half.written(disk)
    }

    /// Arms a tear on a disk. The answer is false exactly where there is no such disk, or it can't be armed. What the sender stands
    /// for stays.
    pub fn arm(&mut self, disk: u32, tear: Tear) -> bool
    where
        D: Arm,
        ensures arms { ArmsHalf self.old.half disk tear result self.new.half }
        ensures below { self.new.below ≡ self.old.below }
        ensures same { sender_of (seen_of B.seen self.new) ≡ sender_of (seen_of B.seen self.old) }
    {
        self.half.arm(disk, tear)
    }
}
