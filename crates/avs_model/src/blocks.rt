// Whole blocks.
ghost use Rattle.std.specs.Prelude.{◌≡◌, ◌*◌, ◌/◌, length};
ghost use Rattle.avs_seg.specs.Image.{Image, blocks_of};

use std::marker::Model;

/// Whole blocks, one after another.
#[derive(Debug, Drop)]
pub struct Blocks {
    bytes: Vec<u8>,
}

impl Model for Blocks {
    ghost Value = { Image };

    ghost view = { λ b. blocks_of b.bytes.items };

    ghost invariant = { λ b. 512 * (length b.bytes.items / 512) ≡ length b.bytes.items };
}

impl Blocks {
    /// The blocks of these bytes. Takes no memory.
    pub fn new(bytes: Vec<u8>) -> Blocks
        requires { 512 * (length bytes.items / 512) ≡ length bytes.items }
        ensures { result ≡ blocks_of bytes.items }
    {
        Blocks { bytes }
    }

    /// The bytes of the blocks, one block after another.
    pub fn as_slice(&self) -> &[u8]
        ensures blocks { blocks_of result.now ≡ self.now }
        ensures whole { length result.now ≡ 512 * length self.now }
    {
        &self.bytes
    }

    /// The bytes of the blocks, whose memory is handed on.
    pub fn into_bytes(self) -> Vec<u8>
        ensures { blocks_of result.items ≡ self }
    {
        self.bytes
    }
}
