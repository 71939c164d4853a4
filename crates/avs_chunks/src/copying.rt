// Copy steps, and how many of them are left.
ghost use Rattle.std.specs.Prelude.{◌≡◌, ◌*◌, ◌/◌, ◌<◌, ◌≤◌, ◌^◌, IsTrue, not, is_some, length};
ghost use Rattle.avs_chunks.specs.States.{code_of, state_in};
ghost use Rattle.avs_chunks.specs.ChunkSet.{IsSettled, CanSave, chunks_of, state_of};
ghost use Rattle.avs_chunks.specs.Due.{is_independent, is_due, NoneDue};
ghost use Rattle.avs_chunks.specs.Copying.{FindsDue, CopiesOne, back_of, left_of, moved_of};

use crate::chunks::Chunks;
use crate::states::{ChunkState, state_in};
use crate::words::{WORD, can_pass};
use avs_dev::Disk;
use avs_model::Kind;
use avs_seg::{Failed, seg_count};

// Whether a set is independent.
fn is_independent(kind: Kind) -> bool
    ensures { result ≡ is_independent kind }
{
    match kind {
        Kind::Ind => true,
        Kind::Dep | Kind::Compact => false,
    }
}

// Whether a chunk in a state is to be copied.
fn is_due(independent: bool, state: ChunkState) -> bool
    ensures { result ≡ is_due independent (code_of state) }
{
    match state {
        ChunkState::OnShadow => true,
        ChunkState::OnMaster => independent,
        ChunkState::OnBoth | ChunkState::Split => false,
    }
}

// The least chunk below an end that is to be copied, where none below `low` is. Words of chunks of which none is are passed
// at once.
fn first_due(bytes: &[u8], low: u32, end: u32, independent: bool) -> Option<u32>
    requires passed { NoneDue (state_in bytes.now) independent low }
    requires inside { end ≤ 4 * length bytes.now }
    requires whole { 8 * (length bytes.now / 8) ≡ length bytes.now }
    requires small { end < 2 ^ 31 }
    ensures { FindsDue (state_in bytes.now) independent end result }
{
    let mut chunk = low;
    while chunk < end {
        if can_pass(bytes, chunk, independent) {
            chunk += WORD;
        } else if is_due(independent, state_in(bytes, chunk)) {
            return Some(chunk);
        } else {
            chunk += 1;
        }
    }
    None
}

impl<D: Disk> Chunks<D> {
    // The least chunk that is to be copied.
    fn next_due(&self) -> Option<u32>
        ensures { FindsDue (state_of self.now) (is_independent self.now.kind) (chunks_of self.now) result }
    {
        let chunks = seg_count(self.blocks);
        first_due(&self.memory, self.low, chunks, is_independent(self.kind))
    }

    // The same. Chunks below it, or all where there is none, are not looked at again.
    fn pass_to_due(&mut self) -> Option<u32>
        ensures finds { FindsDue (state_of self.old) (is_independent self.old.kind) (chunks_of self.old) result }
        ensures same { self.new ≡ self.old }
    {
        let due = self.next_due();
        self.low = due.unwrap_or(seg_count(self.blocks));
        due
    }

    // Whether the set is independent and no chunk of it is to be copied.
    fn is_settled(&self) -> bool
        ensures settled { IsTrue result → IsSettled self.now }
        ensures unsettled { IsTrue (not result) → IsSettled self.now → ⊥ }
    {
        is_independent(self.kind) && self.counts.none_alone()
    }

    /// Whether chunks can be saved: the shadow's disk is there, or the set is independent and no chunk of it is to be copied.
    pub fn can_save(&self) -> bool
        ensures can { IsTrue result → CanSave self.now }
        ensures cannot { IsTrue (not result) → CanSave self.now → ⊥ }
    {
        self.shadow.is_some() || self.is_settled()
    }

    /// Copies the least chunk that stands on the shadow alone, or of an independent set on the master alone, to the other
    /// disk. The answer is that chunk, and None exactly where there is none.
    pub fn copy_one(&mut self, master: &mut D) -> Result<Option<u32>, Failed>
        requires blocks { (D.seen master.old).size ≡ self.old.blocks }
        requires there { IsTrue (is_some self.old.shadow) }
        ensures { CopiesOne self.old (D.seen master.old) result self.new (D.seen master.new) }
    {
        let Some(chunk) = self.pass_to_due() else {
            return Ok(None);
        };
        self.settle(master, chunk, ChunkState::OnBoth)?;
        Ok(Some(chunk))
    }

    /// How many chunks stand on the shadow alone.
    pub fn back(&self) -> u32
        ensures counted { result ≡ back_of self.now }
        ensures most { result ≤ 2 ^ 26 }
    {
        self.counts.back
    }

    /// How many chunks are split.
    pub fn moved(&self) -> u32
        ensures counted { result ≡ moved_of self.now }
        ensures most { result ≤ 2 ^ 26 }
    {
        self.counts.split
    }

    /// How many chunks of an independent set stand on the master alone. Of a set of another kind none counts.
    pub fn left(&self) -> u32
        ensures counted { result ≡ left_of self.now }
        ensures most { result ≤ 2 ^ 26 }
    {
        match self.kind {
            Kind::Ind => self.counts.alone,
            Kind::Dep | Kind::Compact => 0,
        }
    }
}
