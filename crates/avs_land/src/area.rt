// The areas of a landing volume: each holds the blocks of one entry.
ghost use Rattle.std.specs.Prelude.{◌≡◌, ◌⊎◌, ◌+◌, ◌*◌, ◌/◌, ◌<◌, ◌≤◌, ◌^◌, length, take};
ghost use Rattle.avs_seg.specs.Image.{blocks_of, range};
ghost use Rattle.avs_dev.specs.Seen.{IsTold, Reads};
ghost use Rattle.avs_land.specs.Landed.{landing_blocks, area_of, kind_code, entry_kind};
ghost use Rattle.avs_land.specs.Steps.{PutsArea};

use avs_code::LandHeader;
use avs_dev::Disk;
use avs_model::{Entry, EntryKind};
use avs_seg::{BLOCK, Failed};

// The first area, and how many blocks each has.
const AREAS: u32 = 2;

pub(crate) const AREA: u32 = 256;

// The first block of the area that the entry of a place uses.
pub(crate) fn area_of(place: u64) -> u32
    ensures { result ≡ area_of place }
{
    AREAS + AREA * (place % 2) as u32
}

// The code of a kind in a header.
pub(crate) fn kind_code(kind: EntryKind) -> u32
    ensures { result ≡ kind_code kind }
{
    match kind {
        EntryKind::Write => LandHeader::WRITE,
        EntryKind::Copied => LandHeader::COPY,
        EntryKind::Mark => LandHeader::MARK,
    }
}

pub(crate) fn entry_kind(code: u32) -> EntryKind
    ensures { result ≡ entry_kind code }
{
    match code {
        LandHeader::WRITE => EntryKind::Write,
        LandHeader::COPY => EntryKind::Copied,
        _ => EntryKind::Mark,
    }
}

// Writes the blocks of the entry of a place to its area. A mark has none, and nothing is written then.
pub(crate) fn write_area<D: Disk>(disk: &mut D, place: u64, bytes: &[u8]) -> Result<(), Failed>
    requires room { landing_blocks ≤ (D.seen disk.old).size }
    requires whole { 512 * (length bytes.now / 512) ≡ length bytes.now }
    requires few { length bytes.now / 512 ≤ 256 }
    ensures { PutsArea (D.seen disk.old) (area_of place) bytes.now result (D.seen disk.new) }
{
    if bytes.is_empty() {
        return Ok(());
    }
    disk.write(area_of(place), bytes)
}
