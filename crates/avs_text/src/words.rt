// The words of a line.
ghost use Rattle.std.specs.Prelude.{◌≡◌, ◌<◌, ◌∷◌, [], List, ℕ, length, drop, position, not, IfSome, IfNone};
ghost use Rattle.std.specs.List.{position_or_len, take_while};
ghost use Rattle.avs_model.specs.Words.{words_of, is_blank, IsWord};

use std::marker::Model;

/// The words of a line that are left, in order. No call takes memory.
#[derive(Drop)]
pub struct WordReader<'a> {
    rest: &'a [u8],
}

impl<'a> Model for WordReader<'a> {
    ghost Value = { List (List ℕ) };

    ghost view = { λ r. words_of r.rest.now };
}

fn is_blank(b: u8) -> bool
    ensures { result ≡ is_blank b }
{
    matches!(b, b' ' | b'\t' | b'\r')
}

// Where the first word begins, if there is one.
fn word_start(bytes: &[u8]) -> Option<usize>
    ensures first { result ≡ position (λ b. not (is_blank b)) bytes.now }
    ensures within { IfSome result (λ place. place < length bytes.now) }
{
    bytes.iter().position(|b| !is_blank(*b))
}

// Where the first blank stands, if there is one.
fn first_blank(bytes: &[u8]) -> Option<usize>
    ensures first { result ≡ position is_blank bytes.now }
    ensures within { IfSome result (λ place. place < length bytes.now) }
{
    bytes.iter().position(|b| is_blank(*b))
}

// The bytes before the first blank, and what follows them.
fn split_word(bytes: &[u8]) -> (&[u8], &[u8])
    ensures word { result.0.now ≡ take_while (λ b. not (is_blank b)) bytes.now }
    ensures after { result.1.now ≡ drop (position_or_len is_blank bytes.now) bytes.now }
{
    bytes.split_at(first_blank(bytes).unwrap_or(bytes.len()))
}

impl<'a> WordReader<'a> {
    /// All words of a line.
    pub fn new(line: &'a [u8]) -> WordReader<'a>
        ensures { result ≡ words_of line.now }
    {
        WordReader { rest: line }
    }

    /// The next word, if one is left.
    pub fn next(&mut self) -> Option<&'a [u8]>
        ensures word { IfSome result (λ word. self.old ≡ word.now ∷ self.new) }
        ensures is_word { IfSome result (λ word. IsWord word.now) }
        ensures none { IfNone result (self.old ≡ []) }
        ensures ended { IfNone result (self.new ≡ []) }
    {
        let (_, rest) = self.rest.split_at(word_start(self.rest)?);
        let (word, after) = split_word(rest);
        self.rest = after;
        Some(word)
    }
}
