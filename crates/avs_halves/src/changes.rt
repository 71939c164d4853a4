// Bits of sets that are set and cleared.
ghost use Rattle.std.specs.Prelude.{◌≡◌, ◌+◌, ◌<◌, ◌≤◌, true, false, length, map};
ghost use Rattle.avs_halves.specs.SetBits.{set_at};
ghost use Rattle.avs_halves.specs.MirrorView.{set_bits};
ghost use Rattle.avs_halves.specs.Changing.{ChangesSets, run_of, every};

use crate::mirrors::{Mirror, MirrorSets};
use avs_dev::Disk;
use avs_seg::Failed;

// Takes every segment out of every set.
fn wipe_all<D: Disk>(sets: &mut [Mirror<D>]) -> Result<(), Failed>
    ensures { ChangesSets (every (map set_bits sets.old)) false (map set_bits sets.old) result (map set_bits sets.new) }
{
    for i in 0..sets.len() {
        sets[i].bits.wipe()?;
    }
    Ok(())
}

// Adds every segment to every set.
fn fill_all<D: Disk>(sets: &mut [Mirror<D>]) -> Result<(), Failed>
    ensures { ChangesSets (every (map set_bits sets.old)) true (map set_bits sets.old) result (map set_bits sets.new) }
{
    for i in 0..sets.len() {
        sets[i].bits.fill()?;
    }
    Ok(())
}

impl<D: Disk> MirrorSets<D> {
    /// Sets the bits of segments of a set.
    pub fn note(&mut self, set: u32, first: u32, count: u32) -> Result<(), Failed>
        requires set { set < length self.old }
        requires segs { first + count ≤ (set_at self.old set).bits.segs }
        ensures { ChangesSets (run_of set first count) true self.old result self.new }
    {
        self.sets[set as usize].bits.set(first, count)
    }

    /// Clears the bit of a segment of a set.
    pub fn clear(&mut self, set: u32, seg: u32) -> Result<(), Failed>
        requires set { set < length self.old }
        requires seg { seg < (set_at self.old set).bits.segs }
        ensures { ChangesSets (run_of set seg 1) false self.old result self.new }
    {
        self.sets[set as usize].bits.clear(seg)
    }

    /// Clears the bits of all sets.
    pub fn wipe(&mut self) -> Result<(), Failed>
        ensures { ChangesSets (every self.old) false self.old result self.new }
    {
        wipe_all(&mut self.sets)
    }

    /// Sets all bits of all sets.
    pub fn fill(&mut self) -> Result<(), Failed>
        ensures { ChangesSets (every self.old) true self.old result self.new }
    {
        fill_all(&mut self.sets)
    }
}
