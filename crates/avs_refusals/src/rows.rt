// The first row that refuses, and rows that are told by a value.
ghost use Rattle.std.specs.Prelude.{◌≡◌};
ghost use Rattle.avs_model.specs.Rows.{first_row, half_row, offline_row, kind_row, kind_word};

use avs_model::{Kind, Lack, Refusal, Word};

/// The first row that refuses.
pub fn first_row(rows: &mut [Option<Refusal>]) -> Option<Refusal>
    ensures { result ≡ first_row rows.old }
{
    for i in 0..rows.len() {
        if rows[i].is_some() {
            return rows[i].take();
        }
    }
    None
}

pub(crate) fn half_row(half: Option<Word>) -> Option<Refusal>
    ensures { result ≡ half_row half }
{
    half.map(|state| Refusal::WrongState(state))
}

pub(crate) fn offline_row(offline: Option<Lack>) -> Option<Refusal>
    ensures { result ≡ offline_row offline }
{
    offline.map(|lack| Refusal::Offline {
        need: lack.need,
        slots: lack.slots,
    })
}

pub(crate) fn kind_word(kind: Kind) -> Word
    ensures { result ≡ kind_word kind }
{
    match kind {
        Kind::Ind => Word::Ind,
        Kind::Dep => Word::Dep,
        Kind::Compact => Word::Compact,
    }
}

pub(crate) fn kind_row(kind: Option<Kind>) -> Option<Refusal>
    ensures { result ≡ kind_row kind }
{
    kind.map(|kind| Refusal::WrongState(kind_word(kind)))
}
