// The label and the header of a landing volume.
ghost use Rattle.std.specs.Prelude.{◌≡◌, ◌<◌, ◌≤◌, IfOk};
ghost use Rattle.avs_seg.specs.Image.{block_at};
ghost use Rattle.avs_code.specs.Header.{HeaderKeeps, IsLandHeader};
ghost use Rattle.avs_code.specs.Label.{IsLabel, LabelKeeps};
ghost use Rattle.avs_code.specs.declared.land_headers.LandHeader.{LandHeader};
ghost use Rattle.avs_dev.specs.Seen.{IsTold};
ghost use Rattle.avs_land.specs.Landed.{landing_blocks, landing_use, landing_label, no_header, IsLanding};
ghost use Rattle.avs_land.specs.Steps.{WritesBlock, Formats, ReadsAs, IsOtherLabel, IsOtherHeader, IsOtherVolume};

use avs_code::{
    BadRecord, Label, LabelUse, LandHeader, get_label_of, get_land_header, put_label,
    put_land_header,
};
use avs_dev::{Disk, Why};
use avs_seg::{BLOCK, Failed};

// The blocks of the label and of the header.
const LABEL: u32 = 0;

const HEADER: u32 = 1;

// The blocks of a landing volume.
pub(crate) const BLOCKS: u32 = 514;

// The header of a volume on which nothing has landed.
pub(crate) const NO_HEADER: LandHeader = LandHeader {
    version: 1,
    session: 0,
    place: 0,
    kind: LandHeader::NOTHING,
    set: 0,
    at: 0,
    len: 0,
};

fn landing_label() -> Label
    ensures is { result ≡ landing_label }
    ensures keeps { LabelKeeps result }
{
    Label {
        version: 1,
        kind: Label::LANDING,
        blocks: 0,
        segments: 0,
        stamp: 0,
    }
}

fn landing_use() -> LabelUse
    ensures { result ≡ landing_use }
{
    LabelUse {
        kind: Label::LANDING,
        blocks: 0,
        segments: 0,
    }
}

fn write_label<D: Disk>(disk: &mut D) -> Result<(), Failed>
    requires { 0 < (D.seen disk.old).size }
    ensures { WritesBlock (λ block. IsLabel block landing_label) 0 (D.seen disk.old) result (D.seen disk.new) }
{
    let mut block = [0; BLOCK];
    put_label(&landing_label(), &mut block);
    disk.write(LABEL, &block)
}

pub(crate) fn write_header<D: Disk>(disk: &mut D, header: &LandHeader) -> Result<(), Failed>
    requires room { 1 < (D.seen disk.old).size }
    requires keeps { HeaderKeeps header.now }
    ensures { WritesBlock (λ block. IsLandHeader block header.now) 1 (D.seen disk.old) result (D.seen disk.new) }
{
    let mut block = [0; BLOCK];
    put_land_header(header, &mut block);
    disk.write(HEADER, &block)
}

// Writes the label, and the header of a volume on which nothing has landed.
pub(crate) fn format<D: Disk>(disk: &mut D) -> Result<(), Failed>
    requires { landing_blocks ≤ (D.seen disk.old).size }
    ensures { Formats (D.seen disk.old) result (D.seen disk.new) }
{
    write_label(disk)?;
    write_header(disk, &NO_HEADER)
}

// Reads the label, which has to be that of a landing volume.
fn read_label<D: Disk>(disk: &mut D) -> Result<(), Why>
    requires { 0 < (D.seen disk.old).size }
    ensures { ReadsAs (λ _. IsLabel (block_at (D.seen disk.old).image 0) landing_label) (IsOtherLabel (D.seen disk.old).image)
        (D.seen disk.old) result (D.seen disk.new) }
{
    let mut block = [0; BLOCK];
    disk.read(LABEL, &mut block)?;
    match get_label_of(&block, landing_use()) {
        Ok(_) => Ok(()),
        Err(BadRecord(field)) => Err(Why::BadRecord(field)),
    }
}

fn read_header<D: Disk>(disk: &mut D) -> Result<LandHeader, Why>
    requires { 1 < (D.seen disk.old).size }
    ensures reads { ReadsAs (IsLandHeader (block_at (D.seen disk.old).image 1)) (IsOtherHeader (D.seen disk.old).image)
        (D.seen disk.old) result (D.seen disk.new) }
    ensures keeps { IfOk result HeaderKeeps }
    ensures only { IsTold (D.seen disk.old) → (h : LandHeader) → IsLandHeader (block_at (D.seen disk.old).image 1) h
        → IfOk result (λ x. x ≡ h) }
{
    let mut block = [0; BLOCK];
    disk.read(HEADER, &mut block)?;
    match get_land_header(&block) {
        Ok(header) => Ok(header),
        Err(BadRecord(field)) => Err(Why::BadRecord(field)),
    }
}

// The header of a landing volume; its label is looked at first.
pub(crate) fn find<D: Disk>(disk: &mut D) -> Result<LandHeader, Why>
    requires { landing_blocks ≤ (D.seen disk.old).size }
    ensures reads { ReadsAs (IsLanding (D.seen disk.old).image) (IsOtherVolume (D.seen disk.old).image)
        (D.seen disk.old) result (D.seen disk.new) }
    ensures keeps { IfOk result HeaderKeeps }
    ensures only { IsTold (D.seen disk.old) → (h : LandHeader) → IsLanding (D.seen disk.old).image h
        → IfOk result (λ x. x ≡ h) }
{
    read_label(disk)?;
    read_header(disk)
}
