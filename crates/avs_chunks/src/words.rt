// The states of 32 chunks at once, as a word: chunk j has the two bits from 2 * j on.
ghost use Rattle.std.specs.Prelude.{◌≡◌, ℕ, ◌+◌, ◌*◌, ◌/◌, ◌%◌, ◌^◌, ◌<◌, ◌≤◌, true, false, length};
ghost use Rattle.avs_chunks.specs.States.{state_in};
ghost use Rattle.avs_chunks.specs.Due.{is_due};

/// The chunks whose states a word has.
pub(crate) const WORD: u32 = 32;

// The lower bit of each state.
const LOWER: u64 = 0x5555_5555_5555_5555;

// The word with the states of the chunks whose states are in the eight bytes from one on.
fn word_at(bytes: &[u8], at: usize) -> u64
    requires { at + 8 ≤ length bytes.now }
    ensures { (j : ℕ) → j < 32 → result / 2 ^ (2 * j) % 4 ≡ state_in bytes.now (4 * at + j) }
{
    let mut word = [0; 8];
    word.copy_from_slice(&bytes[at..at + 8]);
    u64::from_le_bytes(word)
}

// Whether no chunk of a word is to be copied: none stands on the shadow alone, and of an independent set none on the
// master alone.
fn is_idle(word: u64, independent: bool) -> bool
    ensures { result ≡ true → (j : ℕ) → j < 32 → is_due independent (word / 2 ^ (2 * j) % 4) ≡ false }
{
    if word & (word >> 1) & LOWER != 0 {
        return false;
    }
    if independent {
        return (word | (word >> 1)) & LOWER == LOWER;
    }
    true
}

/// Whether a word of chunks begins at one, of which none is to be copied.
pub(crate) fn can_pass(bytes: &[u8], chunk: u32, independent: bool) -> bool
    requires inside { chunk < 4 * length bytes.now }
    requires whole { 8 * (length bytes.now / 8) ≡ length bytes.now }
    ensures { result ≡ true → (c : ℕ) → chunk ≤ c → c < chunk + 32 → is_due independent (state_in bytes.now c) ≡ false }
{
    chunk % WORD == 0 && is_idle(word_at(bytes, chunk as usize / 4), independent)
}
