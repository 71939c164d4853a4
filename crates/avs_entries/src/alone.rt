// The map of a set: a bit for each chunk that stands in its slot alone, by which the others are passed 64 at once.
ghost use Rattle.std.specs.Prelude.{◌≡◌, ◌≢◌, ℕ, ◌+◌, ◌*◌, ◌<◌, ◌≤◌, ◌^◌, true, false, length};
ghost use Rattle.avs_bits.specs.Bit.{bit_of, IsPut};
ghost use Rattle.avs_entries.specs.Entries.{entry_in, state_by, on_shadow};
ghost use Rattle.avs_entries.specs.Counting.{IsMapped, FindsDue};

use crate::entries::{ChunkState, entry_in, state_by};

// How many chunks a word of the map has.
const WORD: u32 = 64;

// Sets the bit of a chunk.
fn set_bit(map: &mut [u8], chunk: u32)
    requires { chunk < 8 * length map.old }
    ensures len { length map.new ≡ length map.old }
    ensures put { IsPut (bit_of map.old) (bit_of map.new) chunk (chunk + 1) true }
{
    map[chunk as usize / 8] |= 1 << (chunk % 8);
}

/// Clears the bit of a chunk, which stands elsewhere too.
pub fn clear_bit(map: &mut [u8], chunk: u32)
    requires { chunk < 8 * length map.old }
    ensures len { length map.new ≡ length map.old }
    ensures put { IsPut (bit_of map.old) (bit_of map.new) chunk (chunk + 1) false }
{
    map[chunk as usize / 8] &= !(1 << (chunk % 8));
}

/// Maps the first chunks anew.
pub fn map_anew(map: &mut [u8], bytes: &[u8], end: u32)
    requires inside { 4 * end ≤ length bytes.now }
    requires room { end ≤ 8 * length map.old }
    ensures len { length map.new ≡ length map.old }
    ensures mapped { IsMapped (entry_in bytes.now) end map.new }
{
    map.fill(0);
    for chunk in 0..end {
        if state_by(entry_in(bytes, chunk)) == ChunkState::OnShadow {
            set_bit(map, chunk);
        }
    }
}

// Whether no chunk of a word is mapped.
fn is_clear(map: &[u8], at: usize) -> bool
    requires { at + 8 ≤ length map.now }
    ensures { result ≡ true → (c : ℕ) → 8 * at ≤ c → c < 8 * at + 64 → bit_of map.now c ≡ false }
{
    let mut word = [0; 8];
    word.copy_from_slice(&map[at..at + 8]);
    u64::from_be_bytes(word) == 0
}

/// The least chunk from one on, below an end, that stands in its slot alone. None below that one does. Words of chunks of
/// which none does are passed at once.
pub fn first_due(bytes: &[u8], map: &[u8], from: u32, end: u32) -> Option<u32>
    requires inside { 4 * end ≤ length bytes.now }
    requires mapped { IsMapped (entry_in bytes.now) end map.now }
    requires before { (c : ℕ) → c < from → c < end → state_by (entry_in bytes.now c) ≢ on_shadow }
    requires small { end < 2 ^ 31 }
    ensures { FindsDue (entry_in bytes.now) end result }
{
    let mut chunk = from;
    while chunk < end {
        if chunk % WORD == 0 && end - chunk >= WORD && is_clear(map, chunk as usize / 8) {
            chunk += WORD;
        } else if state_by(entry_in(bytes, chunk)) == ChunkState::OnShadow {
            return Some(chunk);
        } else {
            chunk += 1;
        }
    }
    None
}
