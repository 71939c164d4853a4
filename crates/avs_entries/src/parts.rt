// Parts of 2,048 chunks, told by a bit each: bit i mod 8 of byte i / 8, counted from the lowest.
ghost use Rattle.std.specs.Prelude.{◌≡◌, ◌==◌, ℕ, ◌+◌, ◌-◌, ◌*◌, ◌<◌, ◌≤◌, ◌^◌, nat_lt, true, false, ◌&&◌, if◌then◌else◌, length};
ghost use Rattle.avs_bits.specs.Bit.{bit_of, IsPut};
ghost use Rattle.avs_entries.specs.Entries.{entry_in, entry_for, state_by, slot_by, split};
ghost use Rattle.avs_entries.specs.Parts.{split_to};
ghost use Rattle.avs_entries.specs.Staging.{AreSetTo};

use crate::entries::{ChunkState, ENTRIES, entry_for, entry_in, set_entry, slot_by, state_by};

// How many bytes have a bit for each chunk of a part.
const BITS: usize = 256;

/// How many chunks a part has.
pub const PART: u32 = 2048;

/// Whether a chunk of a part is told.
pub fn has_bit(bits: &[u8; BITS], place: u32) -> bool
    requires { place < 2048 }
    ensures { result ≡ bit_of bits.now place }
{
    (bits[place as usize / 8] >> (place % 8)) & 1 == 1
}

// Tells a chunk of a part.
fn set_bit(bits: &mut [u8; BITS], place: u32)
    requires { place < 2048 }
    ensures { IsPut (bit_of bits.old) (bit_of bits.new) place (place + 1) true }
{
    bits[place as usize / 8] |= 1 << (place % 8);
}

/// Tells of so many chunks from one on those that are split.
pub fn tell_split(memory: &[u8], first: u32, count: u32, out: &mut [u8; BITS])
    requires inside { 4 * (first + count) ≤ length memory.now }
    requires some { count ≤ 2048 }
    requires small { first < 2 ^ 27 }
    ensures told { (i : ℕ) → i < count → bit_of out.new i ≡ (state_by (entry_in memory.now (first + i)) == split) }
    ensures behind { (i : ℕ) → count ≤ i → bit_of out.new i ≡ false }
{
    *out = [0; BITS];
    for place in 0..count {
        if state_by(entry_in(memory, first + place)) == ChunkState::Split {
            set_bit(out, place);
        }
    }
}

// The entry of a chunk of a part, where those that are told are split.
fn split_entry(entry: u32, kept: u32, told: bool) -> u32
    ensures { result ≡ (if told then (if entry == 0 then kept else entry_for split (slot_by entry)) else entry) }
{
    if !told {
        return entry;
    }
    if entry == 0 {
        return kept;
    }
    entry_for(ChunkState::Split, slot_by(entry))
}

// Whether a chunk is there and told, of a part that begins with one.
fn is_told(split: &[u8; BITS], chunks: u32, first: u32, chunk: u32) -> bool
    requires low { first ≤ chunk }
    requires high { chunk < first + 2048 }
    ensures { result ≡ (nat_lt chunk chunks && bit_of split.now (chunk - first)) }
{
    if chunk >= chunks {
        return false;
    }
    has_bit(split, chunk - first)
}

/// Sets the entries of a block of a part as those in memory, with the chunks split that are told.
pub fn fill_split(
    next: &mut [u8],
    memory: &[u8],
    part: u32,
    at: u32,
    split: &[u8; BITS],
    chunks: u32,
)
    requires inside { 512 * (at + 1) ≤ length memory.now }
    requires long { length next.old ≡ length memory.now }
    requires low { 16 * part ≤ at }
    requires high { at < 16 * (part + 1) }
    requires small { at < 2 ^ 19 }
    ensures len { length next.new ≡ length next.old }
    ensures set { AreSetTo (entry_in next.old) (entry_in next.new)
        (split_to chunks split.now part (entry_in memory.now) (entry_in next.old)) (128 * at) (128 * (at + 1)) }
{
    let first = PART * part;
    for chunk in ENTRIES * at..ENTRIES * (at + 1) {
        let told = is_told(split, chunks, first, chunk);
        let entry = split_entry(entry_in(memory, chunk), entry_in(next, chunk), told);
        set_entry(next, chunk, entry);
    }
}
