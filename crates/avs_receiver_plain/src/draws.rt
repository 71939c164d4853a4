// Random steps.

use crate::plain::{Plain, SIZES};
use crate::steps::{Put, Range, Spot, Step};
use avs_model::State;

// The next number of a row, below an end.
fn draw(seed: &mut u64, end: u32) -> u32 {
    *seed = seed
        .wrapping_mul(6364136223846793005)
        .wrapping_add(1442695040888963407);
    let number = (*seed >> 33) as u32;
    if end == 0 { 0 } else { number % end }
}

fn any_range(seed: &mut u64, most: u32) -> Range {
    let set = draw(seed, 2);
    let size = if set == 0 { SIZES[0] } else { SIZES[1] };
    let at = draw(seed, size);
    let room = size.saturating_sub(at).min(most);
    Range {
        set,
        at,
        count: draw(seed, room).saturating_add(1).min(room),
        byte: (draw(seed, 255) % 255) as u8 + 1,
    }
}

fn any_put(seed: &mut u64, is_marked: bool) -> Put {
    match draw(seed, 6) {
        0 if !is_marked => Put::Mark,
        1 | 2 => Put::Copy(any_range(seed, 64)),
        _ => Put::Write(any_range(seed, 72)),
    }
}

// Mostly the next place of its session.
fn any_apply(seed: &mut u64, plain: &Plain) -> Step {
    let put = any_put(seed, plain.mark > 0);
    let next = plain.applied.saturating_add(1);
    let (session, place) = match draw(seed, 12) {
        0 => (plain.number.saturating_sub(1), next),
        1 => (plain.number.saturating_add(1), next),
        2 => (plain.number, next.saturating_add(1)),
        3 => (plain.number, plain.applied),
        4 => (plain.number, u64::from(draw(seed, 4))),
        _ => (plain.number, next),
    };
    Step::Apply(session, place, put)
}

fn any_spot(seed: &mut u64) -> Spot {
    match draw(seed, 8) {
        0 | 1 => Spot::State,
        2 | 3 => Spot::Volume(draw(seed, 2)),
        4 | 5 => Spot::Bitmap(draw(seed, 2)),
        _ => Spot::Landing,
    }
}

fn any_tear(seed: &mut u64) -> Step {
    let spot = any_spot(seed);
    Step::Tear(spot, draw(seed, 6), draw(seed, 3), draw(seed, 5))
}

// What is done in no session.
fn any_local(seed: &mut u64) -> Step {
    match draw(seed, 8) {
        0 | 1 => Step::Restore(any_range(seed, 64)),
        2 => Step::Leave(any_range(seed, 64)),
        _ => Step::Write(any_range(seed, 72)),
    }
}

// In a session it mostly goes on, and in none it is mostly written or restored.
fn any_usual(seed: &mut u64, plain: &Plain) -> Step {
    let is_away = plain.state == State::Logging;
    if is_away == (draw(seed, 8) > 0) {
        return any_local(seed);
    }
    any_apply(seed, plain)
}

/// The next step of a row, of a half that stands so.
pub fn any_step(seed: &mut u64, plain: &Plain) -> Step {
    match draw(seed, 20) {
        0 | 1 => Step::Ask(plain.number.saturating_add(u64::from(draw(seed, 3)))),
        2 => Step::Log,
        3 => Step::Load,
        4 => any_tear(seed),
        _ => any_usual(seed, plain),
    }
}
