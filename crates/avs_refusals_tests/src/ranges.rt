// Reads and writes.
use crate::facts::{DOWN, UP, busy, no_volume, same, volume, wrong};
use avs_model::{AccessFacts, Full, Lack, RangeFacts, Refusal, Role, RoomFacts, Word};
use avs_refusals::{Looks, access_refusal, place_refusal, range_refusal, room_refusal};

fn range(role: Role, at: u32, len: u32) -> RangeFacts {
    RangeFacts {
        host: UP,
        volume: volume(role, 64),
        at,
        len,
        longest: 256,
        place: 0,
    }
}

fn free() -> AccessFacts {
    AccessFacts {
        is_away: false,
        half: None,
        empty: false,
        offline: None,
    }
}

#[test]
fn a_range_ends_with_its_volume(rt: HostRuntime) {
    let last = 4_294_967_295;
    same(&rt, place_refusal(&range(Role::Plain, 63, 1)), None);
    same(
        &rt,
        place_refusal(&range(Role::Master, 63, 2)),
        Some(Refusal::Range(64)),
    );
    same(
        &rt,
        place_refusal(&range(Role::Shadow, last, 256)),
        Some(Refusal::Range(64)),
    );
    same(
        &rt,
        place_refusal(&range(Role::Mirror, last, last)),
        Some(Refusal::Length(last)),
    );
    same(
        &rt,
        place_refusal(&range(Role::Plain, 0, 257)),
        Some(Refusal::Length(257)),
    );
    same(
        &rt,
        place_refusal(&range(Role::Plain, 0, 0)),
        Some(Refusal::Length(0)),
    );
}

#[test]
fn what_the_product_keeps_is_not_read(rt: HostRuntime) {
    for role in [Role::Bitmap, Role::Overflow, Role::Queue] {
        same(&rt, place_refusal(&range(role, 0, 0)), busy(role));
    }
    let mut bitmap = range(Role::Import, 0, 1);
    bitmap.volume.keeps_import = true;
    same(&rt, place_refusal(&bitmap), busy(Role::Import));
    same(&rt, place_refusal(&range(Role::Away, 0, 1)), None);
}

#[test]
fn a_host_that_is_down_comes_before_all(rt: HostRuntime) {
    let mut gone = range(Role::Bitmap, 64, 0);
    gone.volume = no_volume();
    same(&rt, place_refusal(&gone), Some(Refusal::NoVolume));
    gone.host = DOWN;
    same(
        &rt,
        place_refusal(&gone),
        Some(Refusal::Down(avs_model::Host::P)),
    );
}

#[test]
fn places_end_at_their_limit(rt: HostRuntime) {
    let limit = 4_611_686_018_427_387_904;
    let mut placed = range(Role::Mirror, 0, 1);
    placed.place = limit;
    same(&rt, place_refusal(&placed), None);
    placed.place = limit + 1;
    same(&rt, place_refusal(&placed), Some(Refusal::Limit(limit)));
    placed.at = 64;
    same(&rt, place_refusal(&placed), Some(Refusal::Range(64)));
}

#[test]
fn behind_the_taps_the_state_comes_before_the_contents(rt: HostRuntime) {
    let lack = Lack { need: 4, slots: 3 };
    let mut all = AccessFacts {
        is_away: true,
        half: Some(Word::Replicating),
        empty: true,
        offline: Some(lack),
    };
    same(&rt, access_refusal(&all), wrong(Word::Away));
    all.is_away = false;
    same(&rt, access_refusal(&all), wrong(Word::Replicating));
    all.half = None;
    same(&rt, access_refusal(&all), Some(Refusal::NoContents));
    all.empty = false;
    same(
        &rt,
        access_refusal(&all),
        Some(Refusal::Offline { need: 4, slots: 3 }),
    );
    same(&rt, access_refusal(&free()), None);
}

#[test]
fn a_queue_that_is_full_comes_last(rt: HostRuntime) {
    let mut room = RoomFacts {
        offline: Some(Lack { need: 2, slots: 1 }),
        full: Some(Full {
            writes: 1,
            blocks: 61,
        }),
    };
    same(
        &rt,
        room_refusal(&room),
        Some(Refusal::Offline { need: 2, slots: 1 }),
    );
    room.offline = None;
    let full = Refusal::QueueFull {
        writes: 1,
        blocks: 61,
    };
    same(&rt, room_refusal(&room), Some(full));
}

// A tap that answers the same each time, and counts.
#[derive(Drop)]
struct Guard {
    veto: Option<(u32, u32)>,
    looks: u32,
}

impl Looks for Guard {
    ghost use Rattle.std.specs.Prelude.{◌≡◌};

    ghost looked = { λ old told new. told ≡ old.veto };

    fn look(&mut self) -> Option<(u32, u32)> {
        self.looks = self.looks.saturating_add(1);
        self.veto
    }
}

#[test]
fn taps_look_where_nothing_stands_before_them(rt: HostRuntime) {
    let mut taps = Guard {
        veto: Some((2, 1)),
        looks: 0,
    };
    let mut empty = free();
    empty.empty = true;
    let over = range_refusal(&range(Role::Plain, 63, 2), &mut taps, &empty);
    same(&rt, over, Some(Refusal::Range(64)));
    same(&rt, taps.looks, 0);
    let vetoed = range_refusal(&range(Role::Plain, 63, 1), &mut taps, &empty);
    same(&rt, vetoed, Some(Refusal::Tap { tap: 2, code: 1 }));
    taps.veto = None;
    let spent = range_refusal(&range(Role::Plain, 63, 1), &mut taps, &empty);
    same(&rt, spent, Some(Refusal::NoContents));
    same(&rt, taps.looks, 2);
}
