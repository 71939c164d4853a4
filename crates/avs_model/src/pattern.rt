// The pattern with which a write fills each block.
ghost use Rattle.std.specs.Prelude.{◌≡◌, ◌≤◌, List, ℕ, length, take, IsTrue};
ghost use Rattle.avs_model.specs.Filling.{is_pattern_length};

use std::marker::Model;

/// A pattern of 1, 2, 4, 8 or 16 bytes.
#[derive(Debug, Drop)]
pub struct Pattern {
    bytes: [u8; 16],
    len: usize,
}

impl Model for Pattern {
    ghost Value = { List ℕ };

    ghost view = { λ p. take p.len p.bytes };

    ghost invariant = { λ p. IsTrue (is_pattern_length p.len) };
}

impl Pattern {
    /// The pattern of these bytes.
    pub fn new(bytes: &[u8]) -> Pattern
        requires { IsTrue (is_pattern_length (length bytes.now)) }
        ensures { result ≡ bytes.now }
    {
        let mut held = [0; 16];
        held[..bytes.len()].copy_from_slice(bytes);
        Pattern {
            bytes: held,
            len: bytes.len(),
        }
    }

    pub fn as_slice(&self) -> &[u8]
        ensures bytes { result.now ≡ self.now }
        ensures length { IsTrue (is_pattern_length (length self.now)) }
    {
        &self.bytes[..self.len]
    }
}
