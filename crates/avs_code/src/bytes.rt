// Numbers and zeros in the bytes of a record.
ghost use Rattle.std.specs.Prelude.{◌≡◌, ◌+◌, ◌-◌, ◌<◌, ◌≤◌, ◌^◌, ◌++◌, length, take, drop};
ghost use Rattle.avs_code.specs.Bytes.{u16_bytes, u32_bytes, u64_bytes, u16_at, u32_at, u64_at, all_zero, zeros};

use byteorder::{BigEndian, ByteOrder};

/// The number of 16 bits that lies at a place, its highest byte first.
pub fn u16_at(block: &[u8], at: usize) -> u16
    requires { at + 2 ≤ length block.now }
    ensures { result ≡ u16_at at block.now }
{
    u16::from_be_bytes([block[at], block[at + 1]])
}

// The number of 32 bits that lies at a place.
pub(crate) fn u32_at(block: &[u8], at: usize) -> u32
    requires { at + 4 ≤ length block.now }
    ensures { result ≡ u32_at at block.now }
{
    u32::from_be_bytes([block[at], block[at + 1], block[at + 2], block[at + 3]])
}

/// The number of 64 bits that lies at a place, its highest byte first.
pub fn u64_at(block: &[u8], at: usize) -> u64
    requires { at + 8 ≤ length block.now }
    ensures { result ≡ u64_at at block.now }
{
    u64::from_be_bytes([
        block[at],
        block[at + 1],
        block[at + 2],
        block[at + 3],
        block[at + 4],
        block[at + 5],
        block[at + 6],
        block[at + 7],
    ])
}

/// Whether every byte from a place on is zero.
pub fn is_zero_from(block: &[u8], at: usize) -> bool
    requires { at ≤ length block.now }
    ensures { result ≡ all_zero (drop at block.now) }
{
    is_zero(&block[at..])
}

/// Whether every byte is zero.
pub fn is_zero(bytes: &[u8]) -> bool
    ensures { result ≡ all_zero bytes.now }
{
    bytes.iter().all(|&byte| byte == 0)
}

/// Fills a record with zeros behind its magic bytes.
pub fn start(out: &mut [u8], magic: &[u8])
    requires { length magic.now ≤ length out.old }
    ensures { out.new ≡ magic.now ++ zeros (length out.old - length magic.now) }
{
    out.fill(0);
    out[..magic.len()].copy_from_slice(magic);
}

/// Writes bytes at a place.
pub fn put_part(out: &mut [u8], at: usize, part: &[u8])
    requires { at + length part.now ≤ length out.old }
    ensures { out.new ≡ (take at out.old ++ part.now) ++ drop (at + length part.now) out.old }
{
    out[at..at + part.len()].copy_from_slice(part);
}

/// Writes a number of 16 bits at a place, its highest byte first.
pub fn put_u16(out: &mut [u8], at: usize, value: u16)
    requires { at + 2 ≤ length out.old }
    ensures after { out.new ≡ (take at out.old ++ u16_bytes value) ++ drop (at + 2) out.old }
    ensures fits { value < 2 ^ 16 }
{
    BigEndian::write_u16(&mut out[at..], value);
}

// Writes a number of 32 bits at a place.
pub(crate) fn put_u32(out: &mut [u8], at: usize, value: u32)
    requires { at + 4 ≤ length out.old }
    ensures after { out.new ≡ (take at out.old ++ u32_bytes value) ++ drop (at + 4) out.old }
    ensures fits { value < 2 ^ 32 }
{
    BigEndian::write_u32(&mut out[at..], value);
}

/// Writes a number of 64 bits at a place, its highest byte first.
pub fn put_u64(out: &mut [u8], at: usize, value: u64)
    requires { at + 8 ≤ length out.old }
    ensures after { out.new ≡ (take at out.old ++ u64_bytes value) ++ drop (at + 8) out.old }
    ensures fits { value < 2 ^ 64 }
{
    BigEndian::write_u64(&mut out[at..], value);
}
