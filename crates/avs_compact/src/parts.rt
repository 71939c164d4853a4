// Parts of 2,048 chunks, told by a bit each: bit i mod 8 of byte i / 8, counted from the lowest.
ghost use Rattle.std.specs.Prelude.{◌≡◌, ◌==◌, ℕ, ◌+◌, ◌*◌, ◌<◌, ◌≤◌, false, ◌&&◌, IsOk, IfOk, if◌then◌else◌};
ghost use Rattle.avs_bits.specs.Bit.{bit_of};
ghost use Rattle.avs_entries.specs.Entries.{entry_in, state_by, split};
ghost use Rattle.avs_entries.specs.Parts.{lacking_told};
ghost use Rattle.avs_compact.specs.CompactSet.{chunks_of, entry_of};

use crate::compact::Compact;
use avs_dev::Disk;
use avs_entries::{PART, entry_in, has_bit, tell_split};
use avs_seg::{Failed, seg_count};

// 1 where a chunk is told and its entry tells no slot.
fn one_lacking(told: bool, entry: u32) -> u32
    ensures { result ≡ (if told && (entry == 0) then 1 else 0) }
{
    if told && entry == 0 { 1 } else { 0 }
}

impl<D: Disk> Compact<D> {
    /// Tells which chunks of a part are split. Bits behind the last chunk are zeros.
    pub fn moved_part(&self, part: u32, out: &mut [u8; 256]) -> Result<(), Failed>
        requires { 2048 * part < chunks_of self.now }
        ensures ok { IsOk result }
        ensures bits { (i : ℕ) → i < 2048 → bit_of out.new i ≡ (state_by (entry_of self.now (2048 * part + i)) == split) }
        ensures behind { (i : ℕ) → chunks_of self.now ≤ 2048 * part + i → bit_of out.new i ≡ false }
    {
        let chunks = seg_count(self.blocks);
        let first = PART * part;
        let count = (chunks - first).min(PART);
        tell_split(&self.memory, first, count, out);
        Ok(())
    }

    /// How many chunks of a part are told and have no slot.
    pub fn lacks(&self, part: u32, split: &[u8; 256]) -> Result<u32, Failed>
        requires { 2048 * part < chunks_of self.now }
        ensures ok { IsOk result }
        ensures counted { IfOk result (λ count. count ≡ lacking_told split.now part (entry_of self.now) (chunks_of self.now)) }
    {
        let chunks = seg_count(self.blocks);
        let first = PART * part;
        let count = (chunks - first).min(PART);
        let mut lacking = 0;
        for place in 0..count {
            lacking += one_lacking(has_bit(split, place), entry_in(&self.memory, first + place));
        }
        Ok(lacking)
    }
}
