// What a step that stopped has left.

use crate::checks::master_image;
use crate::sets::{Member, byte_in, same};
use avs_shadows::calls::{Below, Came, read, state};
use avs_shadows::plain::{BLOCKS, CHUNKS, Image, List, Stands, chunks_of, list_of, put};
use avs_shadows::steps::Step;
use std::process::Abort;

// The chunks of a list that were saved: those from the first on, and none where `all` does not hold. Says whether all of
// them are split.
fn saved(rt: &impl Abort, one: &mut Member, list: &List, mut all: bool) -> bool {
    for chunk in 0..CHUNKS {
        if list[chunk as usize] && one.plain.state(chunk) != Stands::Split {
            if state(&one.set, chunk) == Some(Stands::Split) {
                assert!(rt; all);
                one.plain.mark(chunk);
            } else {
                all = false;
            }
        }
    }
    all
}

// The chunks of a list that were copied, in the same way.
fn brought(rt: &impl Abort, one: &mut Member, list: &List, mut all: bool) -> bool {
    for chunk in 0..CHUNKS {
        if list[chunk as usize] && one.plain.is_due(chunk) {
            if state(&one.set, chunk) == Some(Stands::OnBoth) {
                assert!(rt; all);
                one.plain.copied(chunk);
            } else {
                all = false;
            }
        }
    }
    all
}

// What a stopped write to the master has done to a set before.
fn kept(rt: &impl Abort, one: &mut Member, list: &List, all: bool) -> bool {
    if one.plain.is_offline {
        return brought(rt, one, list, all);
    }
    saved(rt, one, list, all)
}

// Each block of a range is old or new.
fn mixed(rt: &impl Abort, image: &mut Image, found: &[u8], (at, count, byte): (u32, u32, u8)) {
    for place in 0..BLOCKS {
        if at <= place && place - at < count {
            let now = byte_in(rt, found, place);
            assert!(rt; now == image[place as usize] || now == byte);
            put(image, place, 1, now);
        }
    }
}

fn torn_master(
    rt: &impl Abort,
    (one, two): (&mut Member, &mut Member),
    below: &mut Below,
    (at, count, byte): (u32, u32, u8),
    out: &mut [u8],
) {
    let list = list_of(chunks_of(at, count));
    let all = kept(rt, one, &list, true);
    if kept(rt, two, &list, all) {
        master_image(rt, (one, two), below, out);
        mixed(rt, &mut below.image, out, (at, count, byte));
    }
}

fn torn_shadow(
    rt: &impl Abort,
    one: &mut Member,
    below: &mut Below,
    (at, count, byte): (u32, u32, u8),
    out: &mut [u8],
) {
    if saved(rt, one, &list_of(chunks_of(at, count)), true) {
        same(rt, read(&mut one.set, below, 0, out), Came::Done);
        mixed(rt, &mut one.plain.shadow, out, (at, count, byte));
    }
}

// A step on one chunk.
fn torn_copy(rt: &impl Abort, one: &mut Member, chunk: u32) {
    brought(rt, one, &list_of((chunk, chunk.saturating_add(1))), true);
}

/// What the sets stand for once a step has stopped: where it stages, nothing that is seen has changed.
pub fn adopt(
    rt: &impl Abort,
    (one, two): (&mut Member, &mut Member),
    below: &mut Below,
    step: Step,
    out: &mut [u8],
) {
    match step {
        Step::Master(at, count, byte) => {
            torn_master(rt, (one, two), below, (at, count, byte), out)
        }
        Step::Shadow(_, at, count, byte) | Step::Puts(_, at, count, byte) => {
            torn_shadow(rt, one, below, (at, count, byte), out)
        }
        Step::Saves(_, first, end) => {
            saved(rt, one, &list_of((first, end)), true);
        }
        Step::Copy(_) => {
            let due = one.plain.due().unwrap_or(CHUNKS);
            torn_copy(rt, one, due)
        }
        Step::Bring(_, chunk) => torn_copy(rt, one, chunk),
        _ => {}
    }
}
