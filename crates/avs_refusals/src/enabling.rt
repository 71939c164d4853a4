// Which refusal of enabling a set is the first.
ghost use Rattle.std.specs.Prelude.{◌≡◌, OnErr};
ghost use Rattle.avs_seg.specs.Causes.{Rose};
ghost use Rattle.avs_model.specs.Rows.{first_row};
ghost use Rattle.avs_model.specs.EnableRows.{enable_early, enable_late, bitmap_need};
ghost use Rattle.avs_model.specs.ShadowSets.{kind_of};
ghost use Rattle.avs_refusals.specs.Looks.{TriesBetween};

use crate::exchange::Marked;
use crate::limits::{BITMAP_CHUNKS, COMPACT_CHUNKS, MOST_GROUP_SETS, MOST_GROUPS};
use crate::roles::{has_no_role, may_lead};
use crate::rows::first_row;
use avs_model::{EnableFacts, Kind, Refusal, Role};
use avs_seg::{Failed, seg_count};

fn kind_of(f: &EnableFacts) -> Kind
    ensures { result ≡ kind_of f.now.dependent f.now.shadow.blocks f.now.master.blocks }
{
    if !f.dependent {
        Kind::Ind
    } else if f.shadow.blocks < f.master.blocks {
        Kind::Compact
    } else {
        Kind::Dep
    }
}

fn bitmap_need(f: &EnableFacts) -> u32
    ensures { result ≡ bitmap_need f.now }
{
    let chunks = seg_count(f.master.blocks);
    match kind_of(f) {
        Kind::Compact => 1 + 2 * chunks.div_ceil(COMPACT_CHUNKS),
        Kind::Ind | Kind::Dep => 1 + 2 * chunks.div_ceil(BITMAP_CHUNKS),
    }
}

fn early(f: &EnableFacts) -> Option<Refusal>
    ensures { result ≡ first_row (enable_early f.now) }
{
    let (master, shadow) = (f.master, f.shadow);
    first_row(&mut [
        (!f.host.up).then_some(Refusal::Down(f.host.name)),
        (!(master.there && shadow.there && f.bitmap.there)).then_some(Refusal::NoVolume),
        (!may_lead(master.role)).then_some(Refusal::BusyVolume(master.role)),
        (!has_no_role(shadow.role) || f.shadow_twice).then_some(Refusal::BusyVolume(shadow.role)),
    ])
}

fn late(f: &EnableFacts, stamp: Option<u64>) -> Option<Refusal>
    ensures { result ≡ first_row (enable_late f.now stamp) }
{
    let (blocks, bitmap, group) = (f.master.blocks, f.bitmap, f.group);
    let have = f.shadow.blocks;
    let need = bitmap_need(f);
    first_row(&mut [
        stamp.is_some().then_some(Refusal::BusyVolume(Role::Import)),
        (!has_no_role(bitmap.role) || f.bitmap_twice).then_some(Refusal::BusyVolume(bitmap.role)),
        (!f.dependent && have < blocks).then_some(Refusal::Size { need: blocks, have }),
        (bitmap.blocks < need).then_some(Refusal::Size {
            need,
            have: bitmap.blocks,
        }),
        (group.sets >= MOST_GROUP_SETS).then_some(Refusal::Limit(u64::from(MOST_GROUP_SETS))),
        (group.is_new && group.groups >= MOST_GROUPS).then_some(Refusal::Limit(u64::from(
            MOST_GROUPS,
        ))),
        group.is_other.then_some(Refusal::Unlike(0)),
        (f.back > 0).then_some(Refusal::Copying(f.back)),
        f.master.empty.then_some(Refusal::NoContents),
    ])
}

/// The refusal of enabling a set. The label of the shadow is looked at where nothing stands before that.
pub fn enable_refusal<L: Marked>(f: &EnableFacts, shadow: &mut L) -> Result<Option<Refusal>, Failed>
    ensures answers { TriesBetween (enable_early f.now) (enable_late f.now) L.told shadow.old result shadow.new }
    ensures failed { OnErr result (Rose (L.faults shadow.old) (L.faults shadow.new)) }
{
    if let Some(why) = early(f) {
        return Ok(Some(why));
    }
    let stamp = shadow.import_stamp()?;
    Ok(late(f, stamp))
}
