// Numbers and patterns.
ghost use Rattle.std.specs.Prelude.{◌≡◌, ◌<◌, ◌+◌, ◌-◌, ◌*◌, ◌^◌, nat_lt, if◌then◌else◌, Some, None, IsTrue, true, ◌&&◌};
ghost use Rattle.std.specs.List.{list_all};
ghost use Rattle.avs_model.specs.Names.{is_digit};
ghost use Rattle.avs_model.specs.Words.{is_numeral, number, is_hex, hex_value, pattern};
ghost use Rattle.avs_model.specs.Filling.{is_pattern_length};

use avs_model::Pattern;

// The bytes of the longest pattern.
const LONGEST_PATTERN: usize = 16;

fn is_digit(b: u8) -> bool
    ensures { result ≡ is_digit b }
{
    b.is_ascii_digit()
}

fn all_digits(word: &[u8]) -> bool
    ensures { result ≡ list_all is_digit word.now }
{
    word.iter().all(|b| is_digit(*b))
}

fn is_numeral(word: &[u8]) -> bool
    ensures { result ≡ is_numeral word.now }
{
    !word.is_empty() && all_digits(word) && (word.len() == 1 || word[0] != b'0')
}

// The number that a digit makes of the number before it, if that fits.
fn with_digit(value: u32, digit: u8) -> Option<u32>
    requires { is_digit digit ≡ true }
    ensures { result ≡ (if nat_lt (10 * value + (digit - 48)) (2 ^ 32) then Some (10 * value + (digit - 48)) else None) }
{
    value.checked_mul(10)?.checked_add(u32::from(digit - b'0'))
}

/// The number that a word is: decimal digits without a leading zero, at most 4,294,967,295.
pub fn number(word: &[u8]) -> Option<u32>
    ensures { result ≡ number word.now }
{
    if !is_numeral(word) {
        return None;
    }
    let mut value = 0;
    for digit in word {
        value = with_digit(value, *digit)?;
    }
    Some(value)
}

fn is_hex(b: u8) -> bool
    ensures { result ≡ is_hex b }
{
    matches!(b, b'0'..=b'9' | b'a'..=b'f')
}

fn hex_value(b: u8) -> u8
    requires { is_hex b ≡ true }
    ensures value { result ≡ hex_value b }
    ensures small { result < 16 }
{
    if is_digit(b) { b - b'0' } else { b - b'a' + 10 }
}

// The byte that two digits stand for.
fn hex_byte(high: u8, low: u8) -> Option<u8>
    ensures { result ≡ (if is_hex high && is_hex low then Some (16 * hex_value high + hex_value low) else None) }
{
    if is_hex(high) && is_hex(low) {
        Some(16 * hex_value(high) + hex_value(low))
    } else {
        None
    }
}

fn is_pattern_length(len: usize) -> bool
    ensures { result ≡ is_pattern_length len }
{
    matches!(len, 1 | 2 | 4 | 8 | 16)
}

/// The pattern that a word is: 2, 4, 8, 16 or 32 lower-case hexadecimal digits.
pub fn pattern(word: &[u8]) -> Option<Pattern>
    ensures { result ≡ pattern word.now }
{
    let len = word.len() / 2;
    if word.len() % 2 != 0 || !is_pattern_length(len) {
        return None;
    }
    let mut bytes = [0; LONGEST_PATTERN];
    for place in 0..len {
        bytes[place] = hex_byte(word[2 * place], word[2 * place + 1])?;
    }
    Some(Pattern::new(&bytes[..len]))
}
