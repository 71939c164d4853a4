// The label of a volume.
ghost use Rattle.std.specs.Prelude.{◌≡◌, IfErr, OnOk, Some};
ghost use Rattle.avs_code.specs.Label.{LabelKeeps, IsLabel, ReadsUse, label_rules, is_label_kind, is_label_stamp, label_at, label_for, other_field};
ghost use Rattle.avs_code.specs.Rules.{Reads};

use crate::bytes::{is_zero_from, put_u32, put_u64, start, u32_at, u64_at};
use crate::records::{BadRecord, MAX_NUMBER, check};
use avs_seg::BLOCK;

const MAGIC: [u8; 8] = *b"AVSVOL01";

/// Block 0 of every volume that is formatted: what the volume serves as, and for what size.
#[derive(Clone, Copy, Debug, PartialEq, Eq)]
pub struct Label {
    pub version: u32,
    /// What the volume serves as: the constants of `Label` name the nine kinds.
    pub kind: u32,
    /// The blocks of the volume that this one serves.
    pub blocks: u32,
    /// The segments of the volume that this one serves.
    pub segments: u32,
    /// The stamp of the export that an import bitmap serves, else 0.
    pub stamp: u64,
}

impl Label {
    pub const CONFIGURATION: u32 = 1;

    pub const STATE: u32 = 2;

    pub const LANDING: u32 = 3;

    pub const MIRROR_BITMAP: u32 = 4;

    pub const SHADOW_BITMAP: u32 = 5;

    pub const COMPACT_BITMAP: u32 = 6;

    pub const OVERFLOW: u32 = 7;

    pub const QUEUE: u32 = 8;

    pub const IMPORT_BITMAP: u32 = 9;
}

/// What a volume serves as, and for what size: the fields of its label that its reader knows before.
#[derive(Clone, Copy, Debug, PartialEq, Eq)]
pub struct LabelUse {
    /// One of the constants of `Label`.
    pub kind: u32,
    pub blocks: u32,
    pub segments: u32,
}

/// Writes the block that stands for a label.
pub fn put_label(x: &Label, out: &mut [u8; BLOCK])
    requires { LabelKeeps x.now }
    ensures { IsLabel out.new x.now }
{
    start(out, &MAGIC);
    put_u32(out, 8, x.version);
    put_u32(out, 12, x.kind);
    put_u32(out, 16, x.blocks);
    put_u32(out, 20, x.segments);
    put_u64(out, 24, x.stamp);
}

/// The label that a block stands for. The fields are numbered magic 0, version 1, kind 2, blocks 3,
/// segments 4, stamp 5, and 6 the rest of the block.
pub fn get_label(block: &[u8; BLOCK]) -> Result<Label, BadRecord>
    ensures { Reads IsLabel label_rules block.now result }
{
    check(&label_rules(block))?;
    Ok(label_at(block))
}

/// The label that a block stands for, where it is that of this use, with any stamp. Else the number of the first field
/// that breaks its rule, or by which the label is that of another use.
pub fn get_label_of(block: &[u8; BLOCK], wanted: LabelUse) -> Result<Label, BadRecord>
    ensures { ReadsUse wanted block.now result }
{
    let label = get_label(block)?;
    check_use(&label, wanted)?;
    Ok(label)
}

// Refuses a label that is that of another use.
fn check_use(label: &Label, wanted: LabelUse) -> Result<(), BadRecord>
    ensures ok { OnOk result (label.now ≡ record (label_for wanted label.now.stamp) { version = label.now.version }) }
    ensures other { IfErr result (λ e. other_field wanted label.now ≡ Some e.0) }
{
    if label.kind != wanted.kind {
        return Err(BadRecord(2));
    }
    if label.blocks != wanted.blocks {
        return Err(BadRecord(3));
    }
    if label.segments != wanted.segments {
        return Err(BadRecord(4));
    }
    Ok(())
}

// The fields as they lie in a block.
fn label_at(block: &[u8; BLOCK]) -> Label
    ensures { result ≡ label_at block.now }
{
    Label {
        version: u32_at(block, 8),
        kind: u32_at(block, 12),
        blocks: u32_at(block, 16),
        segments: u32_at(block, 20),
        stamp: u64_at(block, 24),
    }
}

// Whether each field of a block keeps its rule; `true` stands for one without a rule.
fn label_rules(block: &[u8; BLOCK]) -> [bool; 7]
    ensures { result ≡ label_rules block.now }
{
    let x = label_at(block);
    [
        block.starts_with(&MAGIC),
        x.version == 1,
        is_kind(x.kind),
        true,
        true,
        is_stamp(x.kind, x.stamp),
        is_zero_from(block, 32),
    ]
}

// Whether there is such a kind.
fn is_kind(kind: u32) -> bool
    ensures { result ≡ is_label_kind kind }
{
    Label::CONFIGURATION <= kind && kind <= Label::IMPORT_BITMAP
}

// Whether a label of that kind may have the stamp.
fn is_stamp(kind: u32, stamp: u64) -> bool
    ensures { result ≡ is_label_stamp kind stamp }
{
    stamp <= MAX_NUMBER && (kind == Label::IMPORT_BITMAP || stamp == 0)
}
