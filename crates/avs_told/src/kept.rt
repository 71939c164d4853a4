// The line that a source is giving.
ghost use Rattle.std.specs.Prelude.{◌≡◌, ◌+◌, ◌≤◌, ◌<◌, ◌++◌, length, take, drop};
ghost use Rattle.avs_told.specs.Kept.{none_kept, begun, grown, without_feed};

use std::marker::Model;

// One byte more than a statement may have.
const KEPT: usize = 4097;

/// The first 4,097 bytes of the line that a source is giving, and the line's number.
#[derive(Drop)]
pub struct KeptLine {
    bytes: [u8; KEPT],
    len: usize,
    number: u64,
    fed: bool,
}

impl Model for KeptLine {
    ghost use Rattle.std.specs.Prelude.{◌≤◌, ◌≡◌, length};
    ghost use Rattle.avs_told.specs.Kept.{Kept, kept_of, kept_limit};

    ghost Value = { Kept };

    ghost view = { kept_of };

    ghost invariant = { λ k. (k.len ≤ kept_limit) × (length k.bytes ≡ kept_limit) };
}

// Puts bytes in place of those from `at` on.
fn put_at(out: &mut [u8], at: usize, bytes: &[u8])
    requires { at + length bytes.now ≤ length out.old }
    ensures { out.new ≡ take at out.old ++ (bytes.now ++ drop (at + length bytes.now) out.old) }
{
    let (_, rest) = out.split_at_mut(at);
    rest[..bytes.len()].copy_from_slice(bytes);
}

impl KeptLine {
    /// No line was begun.
    pub fn new() -> KeptLine
        ensures { result ≡ none_kept }
    {
        KeptLine {
            bytes: [0; KEPT],
            len: 0,
            number: 0,
            fed: true,
        }
    }

    // Begins the next line where the last one was given whole.
    fn begin(&mut self)
        ensures { self.new ≡ begun self.old }
    {
        if self.fed {
            self.len = 0;
            self.number = self.number.saturating_add(1);
        }
    }

    /// Some bytes more were given, of which none but the last is a line feed.
    pub fn grow(&mut self, piece: &[u8])
        requires { 0 < length piece.now }
        ensures { self.new ≡ grown self.old piece.now }
    {
        self.begin();
        let count = piece.len().min(KEPT - self.len);
        put_at(&mut self.bytes, self.len, &piece[..count]);
        self.len += count;
        self.fed = piece[piece.len() - 1] == b'\n';
    }

    // The bytes that are kept, with the line feed where that is among them.
    fn as_slice(&self) -> &[u8]
        ensures { result.now ≡ self.now.line }
    {
        &self.bytes[..self.len]
    }

    /// The bytes that are kept, without the line feed.
    pub fn text(&self) -> &[u8]
        ensures { result.now ≡ without_feed self.now.line }
    {
        let line = self.as_slice();
        if !line.is_empty() && line[line.len() - 1] == b'\n' {
            return &line[..line.len() - 1];
        }
        line
    }

    /// The line's number, counted from 1; 0 where none was begun.
    pub fn number(&self) -> u64
        ensures { result ≡ self.now.number }
    {
        self.number
    }
}
