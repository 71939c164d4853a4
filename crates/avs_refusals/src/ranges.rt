// Which refusal of a read and of a write is the first.
ghost use Rattle.std.specs.Prelude.{◌≡◌, ◌∷◌};
ghost use Rattle.avs_model.specs.Rows.{first_row};
ghost use Rattle.avs_model.specs.RangeRows.{place_rows, tap_row, access_rows, room_rows, full_row};
ghost use Rattle.avs_refusals.specs.Looks.{AsksBetween};

use crate::limits::LARGEST_NUMBER;
use crate::roles::takes_io;
use crate::rows::{first_row, half_row, offline_row};
use avs_model::{AccessFacts, Full, RangeFacts, Refusal, RoomFacts, Word};

/// What looks at a read or a write of a volume, and may refuse it.
pub trait Looks {
    /// What it tells of a look, and what is left of it.
    ghost looked: { Self → Option (ℕ × ℕ) → Self → Type 0 };

    ghost use Rattle.std.specs.Prelude.{ℕ, Option};

    /// The tap that refuses, by its number, and its code.
    fn look(&mut self) -> Option<(u32, u32)>
        ensures { looked self.old result self.new };
}

/// The refusal of a range before the taps look at it.
pub fn place_refusal(f: &RangeFacts) -> Option<Refusal>
    ensures { result ≡ first_row (place_rows f.now) }
{
    let (volume, len) = (f.volume, f.len);
    first_row(&mut [
        (!f.host.up).then_some(Refusal::Down(f.host.name)),
        (!volume.there).then_some(Refusal::NoVolume),
        (!takes_io(volume.role) || volume.keeps_import).then_some(Refusal::BusyVolume(volume.role)),
        (len < 1 || f.longest < len).then_some(Refusal::Length(len)),
        (u64::from(f.at) + u64::from(len) > u64::from(volume.reach)).then_some(Refusal::Range(
            volume.reach,
        )),
        (f.place > LARGEST_NUMBER).then_some(Refusal::Limit(LARGEST_NUMBER)),
    ])
}

/// And behind the taps.
pub fn access_refusal(f: &AccessFacts) -> Option<Refusal>
    ensures { result ≡ first_row (access_rows f.now) }
{
    first_row(&mut [
        f.is_away.then_some(Refusal::WrongState(Word::Away)),
        half_row(f.half),
        f.empty.then_some(Refusal::NoContents),
        offline_row(f.offline),
    ])
}

/// The refusal of a read, and that of a write before its work. The taps look, and count, where nothing stands before them.
pub fn range_refusal<T: Looks>(
    f: &RangeFacts,
    taps: &mut T,
    access: &AccessFacts,
) -> Option<Refusal>
    ensures { AsksBetween (place_rows f.now) (λ veto. tap_row veto ∷ access_rows access.now) T.looked taps.old result taps.new }
{
    if let Some(why) = place_refusal(f) {
        return Some(why);
    }
    if let Some((tap, code)) = taps.look() {
        return Some(Refusal::Tap { tap, code });
    }
    access_refusal(access)
}

fn full_row(full: Option<Full>) -> Option<Refusal>
    ensures { result ≡ full_row full }
{
    full.map(|full| Refusal::QueueFull {
        writes: full.writes,
        blocks: full.blocks,
    })
}

/// The refusal that only the work of a write finds.
pub fn room_refusal(f: &RoomFacts) -> Option<Refusal>
    ensures { result ≡ first_row (room_rows f.now) }
{
    first_row(&mut [offline_row(f.offline), full_row(f.full)])
}
