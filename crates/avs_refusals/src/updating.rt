// Which refusal of an update of several sets is the first.
ghost use Rattle.std.specs.Prelude.{◌≡◌, find, is_some};
ghost use Rattle.std.specs.Option.{option_map};
ghost use Rattle.avs_model.specs.Rows.{first_row, row_where};
ghost use Rattle.avs_model.specs.UpdateRows.{update_rows, missing, is_excluded, excluded, exported, held, copying, emptied, lacking};

use crate::rows::{first_row, half_row, offline_row};
use avs_model::{Lack, NamedSetFacts, Refusal, UpdateFacts, Word};

fn missing(sets: &[NamedSetFacts]) -> Option<Refusal>
    ensures { result ≡ missing sets.now }
{
    sets.iter().find(|s| !s.set.there).map(|_| Refusal::NoSet)
}

fn is_excluded(to_master: bool, s: &NamedSetFacts) -> bool
    ensures { result ≡ is_excluded to_master s.now }
{
    s.again || s.is_other || (to_master && s.master_again)
}

fn excluded(to_master: bool, sets: &[NamedSetFacts]) -> Option<Refusal>
    ensures { result ≡ excluded to_master sets.now }
{
    sets.iter()
        .find(|s| is_excluded(to_master, s))
        .map(|s| Refusal::Unlike(s.word))
}

fn exported(sets: &[NamedSetFacts]) -> Option<Refusal>
    ensures { result ≡ exported sets.now }
{
    sets.iter()
        .find(|s| s.set.exported)
        .map(|_| Refusal::WrongState(Word::Exported))
}

fn first_half(sets: &[NamedSetFacts]) -> Option<Option<Word>>
    ensures { result ≡ option_map (λ s. s.set.half) (find (λ s. is_some s.set.half) sets.now) }
{
    sets.iter()
        .find(|s| s.set.half.is_some())
        .map(|s| s.set.half)
}

fn held(sets: &[NamedSetFacts]) -> Option<Refusal>
    ensures { result ≡ held sets.now }
{
    half_row(first_half(sets).flatten())
}

fn copying(sets: &[NamedSetFacts]) -> Option<Refusal>
    ensures { result ≡ copying sets.now }
{
    sets.iter()
        .find(|s| 0 < s.set.back)
        .map(|s| Refusal::Copying(s.set.back))
}

fn emptied(sets: &[NamedSetFacts]) -> Option<Refusal>
    ensures { result ≡ emptied sets.now }
{
    sets.iter()
        .find(|s| s.set.master_empty)
        .map(|_| Refusal::NoContents)
}

fn first_lack(sets: &[NamedSetFacts]) -> Option<Option<Lack>>
    ensures { result ≡ option_map (λ s. s.set.offline) (find (λ s. is_some s.set.offline) sets.now) }
{
    sets.iter()
        .find(|s| s.set.offline.is_some())
        .map(|s| s.set.offline)
}

fn lacking(sets: &[NamedSetFacts]) -> Option<Refusal>
    ensures { result ≡ lacking sets.now }
{
    offline_row(first_lack(sets).flatten())
}

fn row_where(asked: bool, row: Option<Refusal>) -> Option<Refusal>
    ensures { result ≡ row_where asked row }
{
    if asked { row } else { None }
}

/// The refusal of an update or a full copy of these sets, all at once.
pub fn update_refusal(f: &UpdateFacts, sets: &[NamedSetFacts]) -> Option<Refusal>
    ensures { result ≡ first_row (update_rows f.now sets.now) }
{
    let to_master = f.to_master;
    first_row(&mut [
        (!f.host.up).then_some(Refusal::Down(f.host.name)),
        missing(sets),
        (!f.group_there).then_some(Refusal::NoGroup),
        excluded(to_master, sets),
        exported(sets),
        row_where(to_master, held(sets)),
        copying(sets),
        row_where(!to_master, emptied(sets)),
        row_where(to_master, lacking(sets)),
    ])
}
