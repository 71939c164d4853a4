// Which refusal of giving a volume away, of writing it elsewhere, and of taking it back is the first.
ghost use Rattle.std.specs.Prelude.{◌≡◌, OnErr, is_none};
ghost use Rattle.std.specs.Bool.{then_some};
ghost use Rattle.avs_seg.specs.Causes.{Rose};
ghost use Rattle.avs_model.specs.declared.answer.Word.TheVariants.{Plain};
ghost use Rattle.avs_model.specs.declared.answer.Refusal.TheVariants.{WrongState};
ghost use Rattle.avs_model.specs.Limits.{import_blocks};
ghost use Rattle.avs_model.specs.Rows.{first_row};
ghost use Rattle.avs_model.specs.SetRows.{export_rows, import_early, import_late, is_other_bitmap, join_early, join_late, stamp_row};
ghost use Rattle.avs_refusals.specs.Looks.{TriesBetween};

use crate::limits::{IMPORT_SEGMENTS, LARGEST_NUMBER, MOST_IMPORTS};
use crate::roles::{has_no_role, is_ind, tells_away};
use crate::rows::{first_row, kind_word};
use avs_model::{ExportFacts, ImportFacts, JoinFacts, Refusal, Word};
use avs_seg::{Failed, seg_count};

/// A volume whose label can be looked at.
pub trait Marked {
    /// Which stamp it tells, and what is left of it.
    ghost told: { Self → Option ℕ → Self → Type 0 };

    ghost faults: { Self → ℕ };

    ghost use Rattle.std.specs.Prelude.{ℕ, Option, IfOk, OnErr};
    ghost use Rattle.avs_seg.specs.Causes.{Rose};

    /// The stamp of the bitmap, where the volume last served as that of an import and was not formatted for another use since.
    fn import_stamp(&mut self) -> Result<Option<u64>, Failed>
        ensures told { IfOk result (λ stamp. told self.old stamp self.new) }
        ensures failed { OnErr result (Rose (faults self.old) (faults self.new)) };
}

/// The refusal of exporting a set.
pub fn export_refusal(f: &ExportFacts) -> Option<Refusal>
    ensures { result ≡ first_row (export_rows f.now) }
{
    let set = f.set;
    first_row(&mut [
        (!f.host.up).then_some(Refusal::Down(f.host.name)),
        (!set.there).then_some(Refusal::NoSet),
        (f.stamp > LARGEST_NUMBER).then_some(Refusal::Limit(LARGEST_NUMBER)),
        set.exported.then_some(Refusal::WrongState(Word::Exported)),
        (!is_ind(set.kind)).then_some(Refusal::WrongState(kind_word(set.kind))),
        (set.back > 0).then_some(Refusal::Copying(set.back)),
        (set.left > 0).then_some(Refusal::Copying(set.left)),
    ])
}

fn early_import(f: &ImportFacts) -> Option<Refusal>
    ensures { result ≡ first_row (import_early f.now) }
{
    let (volume, bitmap) = (f.volume, f.bitmap);
    first_row(&mut [
        (!f.host.up).then_some(Refusal::Down(f.host.name)),
        (!(volume.there && bitmap.there)).then_some(Refusal::NoVolume),
        volume.imported.then_some(Refusal::BusyVolume(volume.role)),
        (!has_no_role(bitmap.role) || f.bitmap_twice).then_some(Refusal::BusyVolume(bitmap.role)),
    ])
}

fn import_blocks(blocks: u32) -> u32
    ensures { result ≡ import_blocks blocks }
{
    1 + seg_count(blocks).div_ceil(IMPORT_SEGMENTS)
}

fn is_other_bitmap(again: Option<u64>, stamp: Option<u64>) -> bool
    ensures { result ≡ is_other_bitmap again stamp }
{
    match (again, stamp) {
        (None, _) => false,
        (Some(_), None) => true,
        (Some(own), Some(stamp)) => own != stamp,
    }
}

fn late_import(f: &ImportFacts, stamp: Option<u64>) -> Option<Refusal>
    ensures { result ≡ first_row (import_late f.now stamp) }
{
    let bitmap = f.bitmap;
    let need = import_blocks(f.volume.blocks);
    first_row(&mut [
        is_other_bitmap(f.again, stamp).then_some(Refusal::BusyVolume(bitmap.role)),
        (bitmap.blocks < need).then_some(Refusal::Size {
            need,
            have: bitmap.blocks,
        }),
        (f.imports >= MOST_IMPORTS).then_some(Refusal::Limit(u64::from(MOST_IMPORTS))),
        (!tells_away(f.volume.role)).then_some(Refusal::WrongState(Word::Present)),
    ])
}

/// The refusal of importing a volume. The label of the bitmap is looked at where nothing stands before that.
pub fn import_refusal<L: Marked>(f: &ImportFacts, bitmap: &mut L) -> Result<Option<Refusal>, Failed>
    ensures answers { TriesBetween (import_early f.now) (import_late f.now) L.told bitmap.old result bitmap.new }
    ensures failed { OnErr result (Rose (L.faults bitmap.old) (L.faults bitmap.new)) }
{
    if let Some(why) = early_import(f) {
        return Ok(Some(why));
    }
    let stamp = bitmap.import_stamp()?;
    Ok(late_import(f, stamp))
}

fn early_join(f: &JoinFacts) -> Option<Refusal>
    ensures { result ≡ first_row (join_early f.now) }
{
    first_row(&mut [
        (!f.host.up).then_some(Refusal::Down(f.host.name)),
        (!f.bitmap.there).then_some(Refusal::NoVolume),
        (!f.set.there).then_some(Refusal::NoSet),
        (!f.set.exported).then_some(Refusal::WrongState(Word::Online)),
        (!f.is_back).then_some(Refusal::WrongState(Word::Away)),
        (!has_no_role(f.bitmap.role)).then_some(Refusal::WrongState(Word::Plain)),
    ])
}

fn stamp_row(own: u64, stamp: Option<u64>) -> Option<Refusal>
    ensures { result ≡ stamp_row own stamp }
{
    match stamp {
        None => None,
        Some(stamp) => (own != stamp).then_some(Refusal::WrongStamp {
            ours: own,
            theirs: stamp,
        }),
    }
}

fn unmarked_row(stamp: Option<u64>) -> Option<Refusal>
    ensures { result ≡ then_some (is_none stamp) (WrongState Plain) }
{
    match stamp {
        None => Some(Refusal::WrongState(Word::Plain)),
        Some(_) => None,
    }
}

fn late_join(f: &JoinFacts, stamp: Option<u64>) -> Option<Refusal>
    ensures { result ≡ first_row (join_late f.now stamp) }
{
    first_row(&mut [
        unmarked_row(stamp),
        (f.set.back > 0).then_some(Refusal::Copying(f.set.back)),
        stamp_row(f.stamp, stamp),
    ])
}

/// The refusal of joining a set that was exported. The label of the bitmap is looked at where nothing stands before that.
pub fn join_refusal<L: Marked>(f: &JoinFacts, bitmap: &mut L) -> Result<Option<Refusal>, Failed>
    ensures answers { TriesBetween (join_early f.now) (join_late f.now) L.told bitmap.old result bitmap.new }
    ensures failed { OnErr result (Rose (L.faults bitmap.old) (L.faults bitmap.new)) }
{
    if let Some(why) = early_join(f) {
        return Ok(Some(why));
    }
    let stamp = bitmap.import_stamp()?;
    Ok(late_join(f, stamp))
}
