// Parts of 2,048 chunks, told by a bit each: bit i mod 8 of byte i / 8, counted from the lowest.
ghost use Rattle.std.specs.Prelude.{◌≡◌, ◌==◌, ℕ, ◌+◌, ◌*◌, ◌<◌, ◌≤◌, ◌^◌, true, IsOk, length};
ghost use Rattle.avs_bits.specs.Bit.{bit_of, IsPut};
ghost use Rattle.avs_chunks.specs.States.{code_of, state_in, split, area_len};
ghost use Rattle.avs_chunks.specs.Counted.{AreCounted};
ghost use Rattle.avs_chunks.specs.ChunkSet.{chunks_of, state_of};
ghost use Rattle.avs_chunks.specs.Staging.{AreSetTo, StagesParts, split_to};

use crate::chunks::Chunks;
use crate::counting::{Counts, set_counted};
use crate::staging::stage_next;
use crate::states::{ChunkState, STATES, is_in, state_in};
use avs_dev::Disk;
use avs_seg::{Failed, seg_count};

// How many bytes have a bit for each chunk of a part.
const BITS: usize = 256;

/// Whether a chunk of a part is told.
pub(crate) fn has_bit(bits: &[u8; BITS], place: u32) -> bool
    requires { place < 2048 }
    ensures { result ≡ bit_of bits.now place }
{
    (bits[place as usize / 8] >> (place % 8)) & 1 == 1
}

// Tells a chunk of a part.
fn set_bit(bits: &mut [u8; BITS], place: u32)
    requires { place < 2048 }
    ensures { IsPut (bit_of bits.old) (bit_of bits.new) place (place + 1) true }
{
    bits[place as usize / 8] |= 1 << (place % 8);
}

// Tells the chunks from one on that are split.
fn tell_split(memory: &[u8], first: u32, out: &mut [u8; BITS])
    requires inside { first + 2048 ≤ 4 * length memory.now }
    requires small { first < 2 ^ 27 }
    ensures { (i : ℕ) → i < 2048 → bit_of out.new i ≡ (state_in memory.now (first + i) == split) }
{
    *out = [0; BITS];
    for place in 0..STATES {
        if is_in(memory, first + place, ChunkState::Split) {
            set_bit(out, place);
        }
    }
}

// The state of a chunk of a part, where those that are told are split.
fn split_state(memory: &[u8], split: &[u8; BITS], first: u32, end: u32, chunk: u32) -> ChunkState
    requires inside { chunk < 4 * length memory.now }
    requires low { first ≤ chunk }
    requires high { chunk < first + 2048 }
    ensures { code_of result ≡ split_to end split.now first (state_in memory.now) chunk }
{
    if chunk < end && has_bit(split, chunk - first) {
        return ChunkState::Split;
    }
    state_in(memory, chunk)
}

// Sets the states of a part as those in memory, with the chunks split that are told. The first `end` chunks are counted.
fn fill_split(
    next: &mut [u8],
    counts: Counts,
    end: u32,
    memory: &[u8],
    part: u32,
    split: &[u8; BITS],
) -> Counts
    requires few { end < 2 ^ 31 }
    requires counted { AreCounted (state_in next.old) end counts }
    requires inside { 512 * (part + 1) ≤ length memory.now }
    requires long { length next.old ≡ length memory.now }
    requires small { part < 2 ^ 15 }
    ensures len { length next.new ≡ length next.old }
    ensures set { AreSetTo (state_in next.old) (state_in next.new) (split_to end split.now (2048 * part) (state_in memory.now)) (2048 * part) (2048 * (part + 1)) }
    ensures counted { AreCounted (state_in next.new) end result }
{
    let mut counts = counts;
    for chunk in STATES * part..STATES * (part + 1) {
        let state = split_state(memory, split, STATES * part, end, chunk);
        counts = set_counted(next, counts, end, chunk, state);
    }
    counts
}

impl<D: Disk> Chunks<D> {
    /// Tells which chunks of a part are split. Bits behind the last chunk are zeros.
    pub fn moved_part(&self, part: u32, out: &mut [u8; 256]) -> Result<(), Failed>
        requires { part < area_len (chunks_of self.now) }
        ensures ok { IsOk result }
        ensures bits { (i : ℕ) → i < 2048 → bit_of out.new i ≡ (state_of self.now (2048 * part + i) == split) }
    {
        tell_split(&self.memory, STATES * part, out);
        Ok(())
    }

    /// Stages the states of a part as they are, with those chunks split that are told. Each of them is split already or the
    /// same on both disks, or was copied ahead.
    pub fn stage_split(&mut self, part: u32, split: &[u8; 256]) -> Result<(), Failed>
        requires { part < area_len (chunks_of self.old) }
        ensures { StagesParts self.old (split_to (chunks_of self.old) split.now (2048 * part) (state_of self.old)) part 1 result self.new }
    {
        let chunks = seg_count(self.blocks);
        let counts = self.next_counts;
        self.next_counts = fill_split(&mut self.next, counts, chunks, &self.memory, part, split);
        stage_next(&mut self.flip, &self.next, part)
    }
}
