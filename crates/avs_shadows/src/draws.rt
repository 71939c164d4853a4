// Random steps.

use crate::plain::BLOCKS;
use crate::steps::{Call, Commit, Spot, Step, Who};

// The next number of a row, below an end.
fn draw(seed: &mut u64, end: u32) -> u32 {
    *seed = seed
        .wrapping_mul(6364136223846793005)
        .wrapping_add(1442695040888963407);
    let number = (*seed >> 33) as u32;
    if end == 0 { 0 } else { number % end }
}

fn any_who(seed: &mut u64) -> Who {
    if draw(seed, 2) == 0 {
        Who::First
    } else {
        Who::Second
    }
}

fn any_commit(seed: &mut u64) -> Commit {
    match draw(seed, 4) {
        0 => Commit::Lost,
        1 => Commit::Kept,
        _ => Commit::Turned,
    }
}

fn any_call(seed: &mut u64) -> Call {
    match draw(seed, 4) {
        0 => Call::Ahead,
        1 => Call::Copied,
        2 => Call::Staged,
        _ => Call::Both,
    }
}

fn any_spot(seed: &mut u64) -> Spot {
    match draw(seed, 7) {
        0 => Spot::Master,
        1 | 2 => Spot::Shadow(any_who(seed)),
        3 | 4 => Spot::Bitmap(any_who(seed)),
        _ => Spot::Over,
    }
}

// A range of blocks, and a byte.
fn any_range(seed: &mut u64) -> (u32, u32, u8) {
    let at = draw(seed, BLOCKS);
    let most = 80.min(BLOCKS.saturating_sub(at));
    let count = draw(seed, most).saturating_add(1).min(most);
    (at, count, (draw(seed, 256) % 256) as u8)
}

fn any_write(seed: &mut u64, kind: u32) -> Step {
    let who = any_who(seed);
    let (at, count, byte) = any_range(seed);
    match kind {
        0..=3 => Step::Master(at, count, byte),
        4 | 5 => Step::Shadow(who, at, count, byte),
        _ => Step::Puts(who, at, count, byte),
    }
}

fn any_aside(seed: &mut u64) -> Step {
    let (who, call, bits) = (any_who(seed), any_call(seed), draw(seed, 16));
    let list = [bits & 1 != 0, bits & 2 != 0, bits & 4 != 0, bits & 8 != 0];
    Step::Aside(who, call, list)
}

fn any_save(seed: &mut u64) -> Step {
    let (who, first) = (any_who(seed), draw(seed, 4));
    let count = draw(seed, 3);
    Step::Saves(who, first, first.saturating_add(count).min(4))
}

/// The next step of a row.
pub fn any_step(seed: &mut u64) -> Step {
    let kind = draw(seed, 18);
    match kind {
        0..=6 => any_write(seed, kind),
        7..=9 => Step::Copy(any_who(seed)),
        10 => any_save(seed),
        11 => Step::Bring(any_who(seed), draw(seed, 4)),
        12 => any_aside(seed),
        13 | 14 => Step::Renew(any_who(seed), draw(seed, 2) == 0, any_commit(seed)),
        15 => Step::Restore(any_who(seed), any_commit(seed)),
        _ => Step::Tear(any_spot(seed), draw(seed, 3), draw(seed, 3), draw(seed, 4)),
    }
}
