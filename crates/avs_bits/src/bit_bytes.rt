// Bits in bytes.
ghost use Rattle.std.specs.Prelude.{◌≡◌, ◌⊎◌, ◌+◌, ◌*◌, ◌<◌, ◌≤◌, ◌^◌, ℕ, Bool, true, false, if◌then◌else◌, length};
ghost use Rattle.avs_bits.specs.Bit.{bit_of, byte_of, IsPut, FindsBit};

// Bit `place`.
pub(crate) fn has_bit(bytes: &[u8], place: u32) -> bool
    requires { place < 8 * length bytes.now }
    ensures { result ≡ bit_of bytes.now place }
{
    (bytes[place as usize / 8] >> (place % 8)) & 1 == 1
}

// Sets a bit.
fn set_bit(bytes: &mut Vec<u8>, place: u32)
    requires { place < 8 * length bytes.old.items }
    ensures len { length bytes.new.items ≡ length bytes.old.items }
    ensures put { IsPut (bit_of bytes.old.items) (bit_of bytes.new.items) place (place + 1) true }
{
    bytes[place as usize / 8] |= 1 << (place % 8);
}

// Clears a bit.
fn clear_bit(bytes: &mut Vec<u8>, place: u32)
    requires { place < 8 * length bytes.old.items }
    ensures len { length bytes.new.items ≡ length bytes.old.items }
    ensures put { IsPut (bit_of bytes.old.items) (bit_of bytes.new.items) place (place + 1) false }
{
    bytes[place as usize / 8] &= !(1 << (place % 8));
}

// Makes a bit as `on` says.
fn put_bit(bytes: &mut Vec<u8>, place: u32, on: bool)
    requires { place < 8 * length bytes.old.items }
    ensures len { length bytes.new.items ≡ length bytes.old.items }
    ensures put { IsPut (bit_of bytes.old.items) (bit_of bytes.new.items) place (place + 1) on }
{
    if on {
        set_bit(bytes, place);
    } else {
        clear_bit(bytes, place);
    }
}

// Makes the bits from one up to another as `on` says, one by one. Says whether one of them was not.
fn put_each(bytes: &mut Vec<u8>, from: u32, to: u32, on: bool) -> bool
    requires ordered { from ≤ to }
    requires inside { to ≤ 8 * length bytes.old.items }
    ensures len { length bytes.new.items ≡ length bytes.old.items }
    ensures put { IsPut (bit_of bytes.old.items) (bit_of bytes.new.items) from to on }
    ensures kept { result ≡ false → bytes.new.items ≡ bytes.old.items }
    ensures idle { ((p : ℕ) → from ≤ p → p < to → bit_of bytes.old.items p ≡ on) → result ≡ false }
{
    let mut changed = false;
    for place in from..to {
        if has_bit(bytes, place) != on {
            put_bit(bytes, place, on);
            changed = true;
        }
    }
    changed
}

// The byte whose bits are all as `on` says.
fn byte_of(on: bool) -> u8
    ensures { result ≡ byte_of on }
{
    if on { 0xff } else { 0 }
}

// Makes the bits of a byte as `on` says. Says whether one of them was not.
fn put_byte(bytes: &mut Vec<u8>, index: u32, on: bool) -> bool
    requires { index < length bytes.old.items }
    ensures len { length bytes.new.items ≡ length bytes.old.items }
    ensures put { IsPut (bit_of bytes.old.items) (bit_of bytes.new.items) (8 * index) (8 * (index + 1)) on }
    ensures kept { result ≡ false → bytes.new.items ≡ bytes.old.items }
    ensures idle { ((p : ℕ) → 8 * index ≤ p → p < 8 * (index + 1) → bit_of bytes.old.items p ≡ on) → result ≡ false }
{
    let byte = byte_of(on);
    if bytes[index as usize] == byte {
        return false;
    }
    bytes[index as usize] = byte;
    true
}

// Makes the bits of the bytes from one up to another as `on` says. Says whether one of them was not.
fn put_bytes(bytes: &mut Vec<u8>, first: u32, last: u32, on: bool) -> bool
    requires ordered { first ≤ last }
    requires inside { last ≤ length bytes.old.items }
    ensures len { length bytes.new.items ≡ length bytes.old.items }
    ensures put { IsPut (bit_of bytes.old.items) (bit_of bytes.new.items) (8 * first) (8 * last) on }
    ensures kept { result ≡ false → bytes.new.items ≡ bytes.old.items }
    ensures idle { ((p : ℕ) → 8 * first ≤ p → p < 8 * last → bit_of bytes.old.items p ≡ on) → result ≡ false }
{
    let mut changed = false;
    for index in first..last {
        if put_byte(bytes, index, on) {
            changed = true;
        }
    }
    changed
}

// Makes the bits from one up to another as `on` says, whole bytes at once. Says whether one of them was not.
pub(crate) fn put_bits(bytes: &mut Vec<u8>, from: u32, to: u32, on: bool) -> bool
    requires ordered { from ≤ to }
    requires inside { to ≤ 8 * length bytes.old.items }
    ensures len { length bytes.new.items ≡ length bytes.old.items }
    ensures put { IsPut (bit_of bytes.old.items) (bit_of bytes.new.items) from to on }
    ensures kept { result ≡ false → bytes.new.items ≡ bytes.old.items }
    ensures idle { ((p : ℕ) → from ≤ p → p < to → bit_of bytes.old.items p ≡ on) → result ≡ false }
{
    let first = from.div_ceil(8);
    let last = to / 8;
    if first >= last {
        return put_each(bytes, from, to, on);
    }
    let low = put_each(bytes, from, 8 * first, on);
    let middle = put_bytes(bytes, first, last, on);
    let high = put_each(bytes, 8 * last, to, on);
    low || middle || high
}

// Whether the 64 bits of the word from byte `at` on are all 0.
fn is_zero_word(bytes: &[u8], at: usize) -> bool
    requires { at + 8 ≤ length bytes.now }
    ensures { result ≡ true → (p : ℕ) → 8 * at ≤ p → p < 8 * at + 64 → bit_of bytes.now p ≡ false }
{
    let mut word = [0; 8];
    word.copy_from_slice(&bytes[at..at + 8]);
    u64::from_be_bytes(word) == 0
}

// The least bit set from a place on, below an end. Words of zeros are skipped, and bytes of zeros round them.
pub(crate) fn next_bit(bytes: &[u8], from: u32, end: u32) -> Option<u32>
    requires inside { end ≤ 8 * length bytes.now }
    requires fits { end < 2 ^ 31 }
    ensures { FindsBit (bit_of bytes.now) from end result }
{
    let mut place = from;
    while place < end {
        if place % 64 == 0 && end - place >= 64 && is_zero_word(bytes, place as usize / 8) {
            place += 64;
        } else if place % 8 == 0 && bytes[place as usize / 8] == 0 {
            place += 8;
        } else if has_bit(bytes, place) {
            return Some(place);
        } else {
            place += 1;
        }
    }
    None
}
