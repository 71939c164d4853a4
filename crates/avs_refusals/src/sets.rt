// Which refusal of the other commands on one set, and of those on overflow volumes, is the first.
ghost use Rattle.std.specs.Prelude.{◌≡◌};
ghost use Rattle.avs_model.specs.Rows.{first_row};
ghost use Rattle.avs_model.specs.SetRows.{disable_rows, abort_rows, copy_rows, status_rows, bits_rows, overflow_rows, slots_rows, attach_rows, detach_rows};

use crate::limits::MOST_OVERFLOWS;
use crate::roles::{has_no_role, is_overflow, is_small};
use crate::rows::{first_row, kind_row, kind_word, offline_row};
use avs_model::{
    AttachFacts, BitsFacts, DisableFacts, OneSetFacts, OverflowFacts, Refusal, SlotsFacts, Word,
};

/// The refusal of disabling a set, and of ending an import.
pub fn disable_refusal(f: &DisableFacts) -> Option<Refusal>
    ensures { result ≡ first_row (disable_rows f.now) }
{
    let set = f.set;
    first_row(&mut [
        (!f.host.up).then_some(Refusal::Down(f.host.name)),
        (!f.is_import && !set.there).then_some(Refusal::NoSet),
        (!f.is_import && set.exported).then_some(Refusal::WrongState(Word::Exported)),
        (!f.is_import && set.back > 0).then_some(Refusal::Copying(set.back)),
        (!f.is_import && set.left > 0).then_some(Refusal::Copying(set.left)),
    ])
}

/// The refusal of stopping the copying of a set.
pub fn abort_refusal(f: &OneSetFacts) -> Option<Refusal>
    ensures { result ≡ first_row (abort_rows f.now) }
{
    first_row(&mut [
        (!f.host.up).then_some(Refusal::Down(f.host.name)),
        (!f.set.there).then_some(Refusal::NoSet),
        offline_row(f.set.offline),
    ])
}

/// The refusal of a step of copying, and of copying all.
pub fn copy_refusal(f: &OneSetFacts) -> Option<Refusal>
    ensures { result ≡ first_row (copy_rows f.now) }
{
    first_row(&mut [
        (!f.host.up).then_some(Refusal::Down(f.host.name)),
        (!f.set.there).then_some(Refusal::NoSet),
        f.set
            .exported
            .then_some(Refusal::WrongState(Word::Exported)),
        f.set.stopped.then_some(Refusal::WrongState(Word::Stopped)),
    ])
}

/// The refusal of telling of a set.
pub fn status_refusal(f: &OneSetFacts) -> Option<Refusal>
    ensures { result ≡ first_row (status_rows f.now) }
{
    first_row(&mut [
        (!f.host.up).then_some(Refusal::Down(f.host.name)),
        (!f.set.there).then_some(Refusal::NoSet),
    ])
}

/// The refusal of telling the segments with bits of a set.
pub fn bits_refusal(f: &BitsFacts) -> Option<Refusal>
    ensures { result ≡ first_row (bits_rows f.now) }
{
    first_row(&mut [
        (!f.host.up).then_some(Refusal::Down(f.host.name)),
        (!f.there).then_some(Refusal::NoSet),
        kind_row(f.kind),
    ])
}

/// The refusal of making an overflow volume.
pub fn overflow_refusal(f: &OverflowFacts) -> Option<Refusal>
    ensures { result ≡ first_row (overflow_rows f.now) }
{
    first_row(&mut [
        (!f.host.up).then_some(Refusal::Down(f.host.name)),
        (!f.volume.there).then_some(Refusal::NoVolume),
        (!has_no_role(f.volume.role)).then_some(Refusal::BusyVolume(f.volume.role)),
        (f.overflows >= MOST_OVERFLOWS).then_some(Refusal::Limit(u64::from(MOST_OVERFLOWS))),
    ])
}

/// The refusal of telling the slots of an overflow volume.
pub fn slots_refusal(f: &SlotsFacts) -> Option<Refusal>
    ensures { result ≡ first_row (slots_rows f.now) }
{
    first_row(&mut [
        (!f.host.up).then_some(Refusal::Down(f.host.name)),
        (!f.volume.there).then_some(Refusal::NoVolume),
        (!is_overflow(f.volume.role)).then_some(Refusal::BusyVolume(f.volume.role)),
    ])
}

/// The refusal of attaching an overflow volume to a set.
pub fn attach_refusal(f: &AttachFacts) -> Option<Refusal>
    ensures { result ≡ first_row (attach_rows f.now) }
{
    let (volume, set) = (f.volume, f.set);
    first_row(&mut [
        (!f.host.up).then_some(Refusal::Down(f.host.name)),
        (!volume.there).then_some(Refusal::NoVolume),
        (!set.there).then_some(Refusal::NoSet),
        (!is_overflow(volume.role) || f.elsewhere).then_some(Refusal::BusyVolume(volume.role)),
        (!is_small(set.kind)).then_some(Refusal::WrongState(kind_word(set.kind))),
        set.attached.then_some(Refusal::WrongState(Word::Attached)),
        offline_row(set.offline),
    ])
}

/// The refusal of detaching it.
pub fn detach_refusal(f: &OneSetFacts) -> Option<Refusal>
    ensures { result ≡ first_row (detach_rows f.now) }
{
    first_row(&mut [
        (!f.host.up).then_some(Refusal::Down(f.host.name)),
        (!f.set.there).then_some(Refusal::NoSet),
        (!f.set.attached).then_some(Refusal::WrongState(Word::Detached)),
        (f.set.used > 0).then_some(Refusal::WrongState(Word::Used)),
        offline_row(f.set.offline),
    ])
}
