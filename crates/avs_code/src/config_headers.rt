// The header of a configuration volume.
ghost use Rattle.std.specs.Prelude.{◌≡◌};
ghost use Rattle.avs_code.specs.ConfigHeader.{ConfigHeaderKeeps, IsConfigHeader, config_header_at, config_header_rules};
ghost use Rattle.avs_code.specs.Rules.{Reads};

use crate::bytes::{is_zero_from, put_u32, put_u64, start, u32_at, u64_at};
use crate::records::{BadRecord, check};
use avs_seg::BLOCK;

const MAGIC: [u8; 4] = *b"AVSC";

// The bytes of an area: 1,023 blocks.
const MAX_BYTES: u32 = 1023 * 512;

/// Block 1 of a configuration volume: which area has the text, and how long it is.
#[derive(Clone, Copy, Debug, PartialEq, Eq)]
pub struct ConfigHeader {
    pub version: u32,
    /// One more with each commit, and 0 after the greatest number.
    pub sequence: u64,
    /// 0 or 1.
    pub area: u32,
    /// The bytes of the text, at most 523,776.
    pub bytes: u32,
}

/// Writes the block that stands for the header of a configuration volume.
pub fn put_config_header(x: &ConfigHeader, out: &mut [u8; BLOCK])
    requires { ConfigHeaderKeeps x.now }
    ensures { IsConfigHeader out.new x.now }
{
    start(out, &MAGIC);
    put_u32(out, 4, x.version);
    put_u64(out, 8, x.sequence);
    put_u32(out, 16, x.area);
    put_u32(out, 20, x.bytes);
}

/// The header of a configuration volume that a block stands for. The fields are numbered magic 0,
/// version 1, sequence 2, area 3, bytes 4, and 5 the rest of the block.
pub fn get_config_header(block: &[u8; BLOCK]) -> Result<ConfigHeader, BadRecord>
    ensures { Reads IsConfigHeader config_header_rules block.now result }
{
    check(&config_header_rules(block))?;
    Ok(config_header_at(block))
}

// The fields as they lie in a block.
fn config_header_at(block: &[u8; BLOCK]) -> ConfigHeader
    ensures { result ≡ config_header_at block.now }
{
    ConfigHeader {
        version: u32_at(block, 4),
        sequence: u64_at(block, 8),
        area: u32_at(block, 16),
        bytes: u32_at(block, 20),
    }
}

// Whether each field of a block keeps its rule; `true` stands for one without a rule.
fn config_header_rules(block: &[u8; BLOCK]) -> [bool; 6]
    ensures { result ≡ config_header_rules block.now }
{
    let x = config_header_at(block);
    [
        block.starts_with(&MAGIC),
        x.version == 1,
        true,
        x.area <= 1,
        x.bytes <= MAX_BYTES,
        is_zero_from(block, 24),
    ]
}
