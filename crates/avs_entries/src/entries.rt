// Entries of chunks in bytes, four bytes each.
ghost use Rattle.std.specs.Prelude.{◌≡◌, ◌≢◌, ◌⊎◌, ℕ, ◌+◌, ◌-◌, ◌*◌, ◌/◌, ◌%◌, ◌<◌, ◌≤◌, ◌^◌, IsTrue, not, length};
ghost use Rattle.avs_entries.specs.Entries.{entry_in, entry_for, code_of, state_by, slot_by};

use byteorder::{BigEndian, ByteOrder};

/// Where the contents of a chunk stand.
#[derive(Clone, Copy, Debug, PartialEq, Eq)]
pub enum ChunkState {
    /// On the master alone.
    OnMaster,
    /// On the master and in the chunk's slot, and they are the same.
    OnBoth,
    /// The master's on its disk, and the shadow's in the chunk's slot.
    Split,
    /// In the chunk's slot alone.
    OnShadow,
}

/// How many entries a block has.
pub const ENTRIES: u32 = 128;

// What an entry counts for its state.
const UNIT: u32 = 1 << 30;

/// The entry of a chunk that has a slot.
pub fn entry_for(state: ChunkState, slot: u32) -> u32
    requires { slot < 2 ^ 30 - 1 }
    ensures { result ≡ entry_for (code_of state) slot }
{
    UNIT * state as u32 + slot + 1
}

/// The state that an entry tells.
pub fn state_by(entry: u32) -> ChunkState
    ensures { code_of result ≡ state_by entry }
{
    match entry / UNIT {
        0 => ChunkState::OnMaster,
        1 => ChunkState::OnBoth,
        2 => ChunkState::Split,
        _ => ChunkState::OnShadow,
    }
}

/// The slot that an entry tells.
pub fn slot_by(entry: u32) -> u32
    ensures is { result ≡ slot_by entry }
    ensures small { result < 2 ^ 30 - 1 }
{
    (entry % UNIT).saturating_sub(1)
}

/// Whether an entry that is not 0 has the form of one.
pub(crate) fn has_form(entry: u32) -> bool
    ensures form { IsTrue result → (0 < entry / 2 ^ 30) × (0 < entry % 2 ^ 30) }
    ensures none { IsTrue (not result) → (entry / 2 ^ 30 ≡ 0) ⊎ (entry % 2 ^ 30 ≡ 0) }
{
    entry >= UNIT && entry % UNIT != 0
}

/// The entry of a chunk.
pub fn entry_in(bytes: &[u8], chunk: u32) -> u32
    requires { 4 * chunk + 4 ≤ length bytes.now }
    ensures { result ≡ entry_in bytes.now chunk }
{
    let at = 4 * chunk as usize;
    u32::from_be_bytes([bytes[at], bytes[at + 1], bytes[at + 2], bytes[at + 3]])
}

/// Sets the entry of a chunk.
pub fn set_entry(bytes: &mut [u8], chunk: u32, entry: u32)
    requires { 4 * chunk + 4 ≤ length bytes.old }
    ensures len { length bytes.new ≡ length bytes.old }
    ensures now { entry_in bytes.new chunk ≡ entry }
    ensures others { (c : ℕ) → c ≢ chunk → entry_in bytes.new c ≡ entry_in bytes.old c }
{
    BigEndian::write_u32(&mut bytes[4 * chunk as usize..], entry);
}

/// Makes the entries of chunks from one on zeros.
pub(crate) fn clear_from(bytes: &mut [u8], first: u32)
    requires small { length bytes.old < 2 ^ 29 }
    requires whole { 4 * (length bytes.old / 4) ≡ length bytes.old }
    ensures len { length bytes.new ≡ length bytes.old }
    ensures before { (c : ℕ) → c < first → entry_in bytes.new c ≡ entry_in bytes.old c }
    ensures behind { (c : ℕ) → first ≤ c → entry_in bytes.new c ≡ 0 }
{
    let end = bytes.len() as u32 / 4;
    for chunk in first..end {
        set_entry(bytes, chunk, 0);
    }
}
