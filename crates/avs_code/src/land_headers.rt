// The header of a landed entry, and of an entry in a queue.
ghost use Rattle.std.specs.Prelude.{◌≡◌};
ghost use Rattle.avs_code.specs.Header.{HeaderKeeps, LandHeaderKeeps, EntryHeaderKeeps, IsHeader, IsLandHeader, IsEntryHeader, header_at, header_rules, land_header_rules, entry_header_rules, most_len, is_len};
ghost use Rattle.avs_code.specs.Rules.{Reads};

use crate::bytes::{is_zero_from, put_u32, put_u64, start, u32_at, u64_at};
use crate::records::{BadRecord, MAX_NUMBER, check};
use avs_seg::BLOCK;

const LAND: [u8; 4] = *b"AVSL";

const ENTRY: [u8; 4] = *b"AVSE";

/// Block 1 of a landing volume: what entry has landed there.
#[derive(Clone, Copy, Debug, PartialEq, Eq)]
pub struct LandHeader {
    pub version: u32,
    pub session: u64,
    pub place: u64,
    /// What the entry is: the constants of `LandHeader` name the kinds.
    pub kind: u32,
    /// The rank of the set's name among those of the group's mirror sets.
    pub set: u32,
    /// The first block that the entry replaces.
    pub at: u32,
    /// How many blocks it replaces: 1 to 256 of a write, 1 to 64 of a copy, else 0.
    pub len: u32,
}

/// The first block of an entry in a queue volume, with the fields of a `LandHeader`.
#[derive(Clone, Copy, Debug, PartialEq, Eq)]
pub struct EntryHeader {
    pub version: u32,
    pub session: u64,
    pub place: u64,
    pub kind: u32,
    pub set: u32,
    pub at: u32,
    pub len: u32,
}

impl LandHeader {
    pub const NOTHING: u32 = 0;

    pub const WRITE: u32 = 1;

    pub const COPY: u32 = 2;

    pub const MARK: u32 = 3;
}

/// Writes the block that stands for the header of a landed entry.
pub fn put_land_header(x: &LandHeader, out: &mut [u8; BLOCK])
    requires { LandHeaderKeeps x.now }
    ensures { IsLandHeader out.new x.now }
{
    put_header(&LAND, x, out);
}

/// The header of a landed entry that a block stands for. The fields are numbered magic 0, version 1,
/// session 2, place 3, kind 4, set 5, at 6, len 7, and 8 the rest of the block.
pub fn get_land_header(block: &[u8; BLOCK]) -> Result<LandHeader, BadRecord>
    ensures { Reads IsLandHeader land_header_rules block.now result }
{
    get_header(&LAND, block)
}

/// Writes the block that stands for the header of an entry in a queue.
pub fn put_entry_header(x: &EntryHeader, out: &mut [u8; BLOCK])
    requires { EntryHeaderKeeps x.now }
    ensures { IsEntryHeader out.new x.now }
{
    let header = LandHeader {
        version: x.version,
        session: x.session,
        place: x.place,
        kind: x.kind,
        set: x.set,
        at: x.at,
        len: x.len,
    };
    put_header(&ENTRY, &header, out);
}

/// The header of an entry in a queue that a block stands for. The fields are numbered as those of
/// `get_land_header`.
pub fn get_entry_header(block: &[u8; BLOCK]) -> Result<EntryHeader, BadRecord>
    ensures { Reads IsEntryHeader entry_header_rules block.now result }
{
    let header = get_header(&ENTRY, block)?;
    Ok(EntryHeader {
        version: header.version,
        session: header.session,
        place: header.place,
        kind: header.kind,
        set: header.set,
        at: header.at,
        len: header.len,
    })
}

fn put_header(magic: &[u8; 4], x: &LandHeader, out: &mut [u8; BLOCK])
    requires { HeaderKeeps x.now }
    ensures { IsHeader magic.now out.new x.now }
{
    start(out, magic);
    put_u32(out, 4, x.version);
    put_u64(out, 8, x.session);
    put_u64(out, 16, x.place);
    put_u32(out, 24, x.kind);
    put_u32(out, 28, x.set);
    put_u32(out, 32, x.at);
    put_u32(out, 36, x.len);
}

fn get_header(magic: &[u8; 4], block: &[u8; BLOCK]) -> Result<LandHeader, BadRecord>
    ensures { Reads (IsHeader magic.now) (header_rules magic.now) block.now result }
{
    check(&header_rules(magic, block))?;
    Ok(header_at(block))
}

// The fields as they lie in a block.
fn header_at(block: &[u8; BLOCK]) -> LandHeader
    ensures { result ≡ header_at block.now }
{
    LandHeader {
        version: u32_at(block, 4),
        session: u64_at(block, 8),
        place: u64_at(block, 16),
        kind: u32_at(block, 24),
        set: u32_at(block, 28),
        at: u32_at(block, 32),
        len: u32_at(block, 36),
    }
}

// Whether each field of a block keeps its rule; `true` stands for one without a rule.
fn header_rules(magic: &[u8; 4], block: &[u8; BLOCK]) -> [bool; 9]
    ensures { result ≡ header_rules magic.now block.now }
{
    let x = header_at(block);
    [
        block.starts_with(magic),
        x.version == 1,
        x.session <= MAX_NUMBER,
        x.place <= MAX_NUMBER,
        x.kind <= LandHeader::MARK,
        true,
        true,
        is_len(x.kind, x.len),
        is_zero_from(block, 40),
    ]
}

// How many blocks an entry of that kind may have at most.
fn most_len(kind: u32) -> u32
    ensures { result ≡ most_len kind }
{
    match kind {
        LandHeader::WRITE => 256,
        LandHeader::COPY => 64,
        _ => 0,
    }
}

// Whether an entry of that kind may have so many blocks.
fn is_len(kind: u32, len: u32) -> bool
    ensures { result ≡ is_len kind len }
{
    let most = most_len(kind);
    most.min(1) <= len && len <= most
}
