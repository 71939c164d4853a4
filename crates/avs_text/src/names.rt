// Names of hosts, volumes and groups.
ghost use Rattle.std.specs.Prelude.{◌≡◌, ◌||◌, ◌==◌, IsTrue};
ghost use Rattle.std.specs.Str.{IsAscii};
ghost use Rattle.std.specs.List.{list_all};
ghost use Rattle.avs_model.specs.Names.{host_named, is_name_byte, is_volume_name, is_letter, is_digit, is_tag, is_group_name};

use avs_model::Host;

// The bytes of a volume's longest name.
const LONGEST_NAME: usize = 64;

// The bytes of a group's longest name that is no volume's.
const LONGEST_TAG: usize = 16;

/// The host that a word names: `p` or `s`.
pub fn host_named(word: &[u8]) -> Option<Host>
    ensures { result ≡ host_named word.now }
{
    match word {
        b"p" => Some(Host::P),
        b"s" => Some(Host::S),
        _ => None,
    }
}

fn is_name_byte(b: u8) -> bool
    ensures { result ≡ is_name_byte b }
{
    b.is_ascii_alphanumeric() || matches!(b, b'/' | b'.' | b'_' | b'-')
}

fn all_name_bytes(word: &[u8]) -> bool
    ensures { result ≡ list_all is_name_byte word.now }
{
    word.iter().all(|b| is_name_byte(*b))
}

/// Whether a word is a volume's name: `/`, and then 1 to 63 letters, digits and bytes of `/ . _ -`.
pub fn is_volume_name(word: &[u8]) -> bool
    ensures is { result ≡ is_volume_name word.now }
    ensures ascii { IsTrue result → IsAscii word.now }
{
    2 <= word.len() && word.len() <= LONGEST_NAME && word[0] == b'/' && all_name_bytes(word)
}

fn all_tag_bytes(word: &[u8]) -> bool
    ensures { result ≡ list_all (λ b. is_letter b || is_digit b || b == 95 || b == 45) word.now }
{
    word.iter()
        .all(|b| b.is_ascii_alphanumeric() || matches!(*b, b'_' | b'-'))
}

fn is_tag(word: &[u8]) -> bool
    ensures { result ≡ is_tag word.now }
{
    1 <= word.len() && word.len() <= LONGEST_TAG && all_tag_bytes(word)
}

/// Whether a word is a group's name: 1 to 16 letters, digits and bytes of `_ -`, or a volume's name, or `s:` and a volume's name.
pub fn is_group_name(word: &[u8]) -> bool
    ensures is { result ≡ is_group_name word.now }
    ensures ascii { IsTrue result → IsAscii word.now }
{
    is_tag(word) || is_volume_name(word) || word.starts_with(b"s:") && is_volume_name(&word[2..])
}
