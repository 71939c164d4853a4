// The disks of a receiver by their numbers.
ghost use Rattle.std.specs.Prelude.{◌≡◌};
ghost use Rattle.avs_receiver.specs.Disks.{ArmsHalf, ArmsSpot, half_written, spot_of, written_in};

use crate::half::Half;
use crate::receiver::Receiver;
use avs_dev::{Arm, Below, Disk, Tear};

// Which of its disks a half is asked for.
#[derive(Clone, Copy)]
pub(crate) enum Spot {
    Bitmap(usize),
    Queue,
    Landing,
}

impl<D: Disk> Half<D> {
    // The disk of a number: the bitmaps in order, the queue if there is one, the landing volume.
    fn spot(&self, disk: u32) -> Option<Spot>
        ensures { result ≡ spot_of self.now disk }
    {
        let bitmaps = self.sets.count();
        let place = disk as usize;
        if place < bitmaps {
            return Some(Spot::Bitmap(place));
        }
        match (place - bitmaps, self.queue.is_some()) {
            (0, true) => Some(Spot::Queue),
            (1, true) | (0, false) => Some(Spot::Landing),
            _ => None,
        }
    }

    fn arm_queue(&mut self, tear: Tear) -> bool
    where
        D: Arm,
        ensures { ArmsSpot self.old Spot.Queue tear result self.new }
    {
        match &mut self.queue {
            Some(queue) => queue.arm(tear),
            None => false,
        }
    }

    fn arm(&mut self, spot: Spot, tear: Tear) -> bool
    where
        D: Arm,
        ensures { ArmsSpot self.old spot tear result self.new }
    {
        match spot {
            Spot::Bitmap(set) => self.sets.arm(set, tear),
            Spot::Queue => self.arm_queue(tear),
            Spot::Landing => self.land.arm(0, tear),
        }
    }

    fn written(&self, spot: Spot) -> Option<u64>
        ensures { result ≡ written_in self.now spot }
    {
        match spot {
            Spot::Bitmap(set) => self.sets.written(set),
            Spot::Queue => self.queue.as_ref().map(|queue| queue.written()),
            Spot::Landing => self.land.written(0),
        }
    }
}

impl<D: Disk, B: Below> Receiver<D, B> {
    /// Arms a tear on one of its disks. They are counted from 0: the bitmaps in order, the queue if there is one, the landing volume.
    /// The answer is false where there is no such disk, or where it can't be armed.
    pub fn arm(&mut self, disk: u32, tear: Tear) -> bool
    where
        D: Arm,
        ensures arms { ArmsHalf self.old.half disk tear result self.new.half }
        ensures below { self.new.below ≡ self.old.below }
    {
        match self.half.spot(disk) {
            Some(spot) => self.half.arm(spot, tear),
            None => false,
        }
    }

    /// How many blocks have been written on one of its disks, by the same numbers.
    pub fn written(&self, disk: u32) -> Option<u64>
        ensures { result ≡ half_written self.now.half disk }
    {
        let spot = self.half.spot(disk)?;
        self.half.written(spot)
    }
}
