// Random calls.

use crate::calls::{Begin, Call, Put, Spot};
use crate::plain::Plain;
use crate::set::Segments;

// The next number of a row, below an end.
fn draw(seed: &mut u64, end: u32) -> u32 {
    *seed = seed
        .wrapping_mul(6364136223846793005)
        .wrapping_add(1442695040888963407);
    let number = (*seed >> 33) as u32;
    if end == 0 { 0 } else { number % end }
}

// Some segments of a set that has so many.
fn any_segments(seed: &mut u64, segs: u32) -> Segments {
    let mut segments = [false; 3];
    for seg in 0..3 {
        segments[seg] = (seg as u32) < segs && draw(seed, 3) == 0;
    }
    segments
}

fn any_begin(seed: &mut u64, plain: &Plain) -> Call {
    let above = u64::from(draw(seed, 3)).saturating_add(1);
    Call::Begin(Begin {
        number: plain.session.number.saturating_add(above),
        full: draw(seed, 5) == 0,
        theirs: (
            any_segments(seed, plain.first.segs()),
            any_segments(seed, plain.second.segs()),
        ),
    })
}

fn any_write(seed: &mut u64, plain: &Plain) -> Call {
    let set = draw(seed, 2);
    let blocks = plain.of(set).blocks;
    let at = draw(seed, blocks);
    let most = blocks.saturating_sub(at).min(70);
    let few = draw(seed, 4).saturating_add(1).min(most);
    let many = draw(seed, most).saturating_add(1).min(most);
    Call::Write(Put {
        set,
        at,
        count: if draw(seed, 6) == 0 { many } else { few },
        byte: (draw(seed, 256) % 256) as u8,
    })
}

// The last place for the most part, else any that was given, or the one above.
fn any_tick(seed: &mut u64, plain: &Plain) -> Call {
    let last = plain.session.last;
    if draw(seed, 2) == 0 {
        return Call::Tick(last);
    }
    let end = (last % 1000) as u32;
    Call::Tick(u64::from(draw(seed, end.saturating_add(2))))
}

// A call that is made in no session for the most part.
fn any_away(seed: &mut u64, plain: &Plain) -> Call {
    match draw(seed, 12) {
        0..=5 => any_begin(seed, plain),
        6..=8 => any_write(seed, plain),
        9 => Call::Crash,
        10 => Call::Tick(u64::from(draw(seed, 3))),
        _ if draw(seed, 2) == 0 => Call::Sync,
        _ => Call::Log,
    }
}

/// The next call of a row, on a sender that stands so.
pub fn any_call(seed: &mut u64, plain: &Plain) -> Call {
    if !plain.in_session() {
        return any_away(seed, plain);
    }
    match draw(seed, 40) {
        0..=13 => any_write(seed, plain),
        14..=24 => Call::Sync,
        25..=35 => any_tick(seed, plain),
        36 => Call::Lend,
        37 if draw(seed, 2) == 0 => Call::Crash,
        37 => any_begin(seed, plain),
        38 => Call::Broken,
        _ => Call::Log,
    }
}

/// A disk that is to fail, how many further writes of it come before, and which of its blocks that one stores.
#[derive(Clone, Copy)]
pub struct Stop {
    pub spot: Spot,
    pub skip: u32,
    pub from: u32,
    pub count: u32,
}

/// Whether the next call is to be stopped, and how.
pub fn any_stop(seed: &mut u64) -> Option<Stop> {
    if draw(seed, 6) != 0 {
        return None;
    }
    let spot = match draw(seed, 6) {
        0 | 1 => Spot::State,
        2 => Spot::Volume(0),
        3 => Spot::Volume(1),
        4 => Spot::Bits(0),
        _ => Spot::Bits(1),
    };
    Some(Stop {
        spot,
        skip: draw(seed, 2),
        from: draw(seed, 2),
        count: draw(seed, 4),
    })
}
