// The label of an overflow volume.
ghost use Rattle.std.specs.Prelude.{◌≡◌, ◌<◌, ◌≤◌, IsTrue, not, IfErr, OnOk, length};
ghost use Rattle.avs_seg.specs.Image.{block_at};
ghost use Rattle.avs_seg.specs.Causes.{Rose};
ghost use Rattle.avs_dev.specs.Seen.{IsTold, Writes};
ghost use Rattle.avs_code.specs.Label.{IsLabel, IsBadLabel, LabelKeeps, label_block};
ghost use Rattle.avs_over.specs.Slots.{Taken};
ghost use Rattle.avs_over.specs.Over.{over_use, over_label, HasLabel, LoadRefused};

use avs_code::{BadRecord, Label, LabelUse, get_label_of, put_label};
use avs_dev::{Disk, Why};
use avs_seg::{BLOCK, Failed};

// What an overflow volume serves as.
fn over_use() -> LabelUse
    ensures { result ≡ over_use }
{
    LabelUse {
        kind: Label::OVERFLOW,
        blocks: 0,
        segments: 0,
    }
}

// The label of an overflow volume.
fn over_label() -> Label
    ensures is { result ≡ over_label }
    ensures keeps { LabelKeeps result }
{
    Label {
        version: 1,
        kind: Label::OVERFLOW,
        blocks: 0,
        segments: 0,
        stamp: 0,
    }
}

/// Writes the label.
pub(crate) fn format<D: Disk>(disk: &mut D) -> Result<(), Failed>
    requires { 0 < (D.seen disk.old).size }
    ensures writes { Writes (D.seen disk.old) 0 (label_block over_label) result (D.seen disk.new) }
    ensures labelled { IsTold (D.seen disk.old) → OnOk result (HasLabel (D.seen disk.new)) }
{
    let mut block = [0; BLOCK];
    put_label(&over_label(), &mut block);
    disk.write(0, &block)
}

// Refuses a block that is not the label of an overflow volume.
fn check_label(block: &[u8; BLOCK]) -> Result<(), BadRecord>
    ensures ok { OnOk result (IsLabel block.now over_label) }
    ensures bad { IfErr result (λ e. IsBadLabel block.now over_use e.0) }
{
    get_label_of(block, over_use())?;
    Ok(())
}

/// Reads the label.
pub(crate) fn read_label<D: Disk>(disk: &mut D) -> Result<(), Why>
    requires { 0 < (D.seen disk.old).size }
    ensures kept { OnOk result (D.seen disk.new ≡ D.seen disk.old) }
    ensures labelled { IsTold (D.seen disk.old) → OnOk result (HasLabel (D.seen disk.old)) }
    ensures refused { IfErr result (λ why. (taken : Taken) → LoadRefused (D.seen disk.old) taken why (D.seen disk.new)) }
{
    let mut block = [0; BLOCK];
    disk.read(0, &mut block)?;
    match check_label(&block) {
        Ok(()) => Ok(()),
        Err(BadRecord(field)) => Err(Why::BadRecord(field)),
    }
}
