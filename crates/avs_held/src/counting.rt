// States of chunks, and how many are in each.
ghost use Rattle.std.specs.Prelude.{◌≡◌, ◌==◌, ℕ, ◌+◌, ◌*◌, ◌<◌, ◌≤◌, ◌^◌, IsOk};
ghost use Rattle.avs_bits.specs.Bit.{bit_of};
ghost use Rattle.avs_model.specs.ShadowSets.{chunks_in};
ghost use Rattle.avs_chunks.specs.States.{code_of, area_len};
ghost use Rattle.avs_sets.specs.Sets.{split, chunks_of};
ghost use Rattle.avs_held.specs.Held.{lists_of, seen_of};

use crate::held::HeldSet;
use avs_chunks::ChunkState;
use avs_dev::Disk;
use avs_seg::Failed;

impl<D: Disk> HeldSet<D> {
    /// The state of a chunk.
    pub fn state(&self, chunk: u32) -> ChunkState
        requires { chunk < chunks_of (seen_of self.now) }
        ensures { code_of result ≡ (seen_of self.now).memory.state chunk }
    {
        self.chunks.state(chunk)
    }

    /// How many chunks stand on the shadow alone.
    pub fn back(&self) -> u32
        ensures counted { result ≡ chunks_in (seen_of self.now).size.blocks (lists_of (seen_of self.now)).back }
        ensures most { result ≤ 2 ^ 26 }
    {
        self.chunks.back()
    }

    /// How many chunks are split.
    pub fn moved(&self) -> u32
        ensures counted { result ≡ chunks_in (seen_of self.now).size.blocks (lists_of (seen_of self.now)).moved }
        ensures most { result ≤ 2 ^ 26 }
    {
        self.chunks.moved()
    }

    /// How many chunks of an independent set stand on the master alone. Of a set of another kind none counts.
    pub fn left(&self) -> u32
        ensures counted { result ≡ chunks_in (seen_of self.now).size.blocks (lists_of (seen_of self.now)).left }
        ensures most { result ≤ 2 ^ 26 }
    {
        self.chunks.left()
    }

    /// Tells which chunks of a part are split: bit i stands for the i-th chunk. Bits behind the last chunk are zeros.
    pub fn moved_part(&self, part: u32, out: &mut [u8; 256]) -> Result<(), Failed>
        requires { part < area_len (chunks_of (seen_of self.now)) }
        ensures ok { IsOk result }
        ensures bits { (i : ℕ) → i < 2048 → bit_of out.new i ≡ ((seen_of self.now).memory.state (2048 * part + i) == split) }
    {
        self.chunks.moved_part(part, out)
    }
}
