// Steps on contents, by the calls and by the definitions.

use crate::sets::{Member, arm, put_blocks, same, stopped, written};
use avs_dev::{Arm, MemDisk, Tear};
use avs_over::Over;
use avs_shadows::calls::{Below, Came, bring, copy, put as put_there, save, save_each, write};
use avs_shadows::plain::{CHUNKS, List, chunks_of, list_of, put};
use avs_shadows::steps::{End, Spot};
use std::process::Abort;

// What came of a call that saves chunks of a list: Offline exactly where they have no room, and then nothing was written.
fn ends(
    rt: &impl Abort,
    one: &mut Member,
    below: &Below,
    (came, before): (Came, [Option<u64>; 4]),
    list: &List,
    other: u32,
) -> End {
    let (need, room) = (one.plain.need_with(list), one.plain.room(other));
    if need > room {
        same(rt, came, Came::Offline(need, room));
        same(rt, written(&one.set, below), before);
        return End::Refused;
    }
    if stopped(rt, came) {
        return End::Stopped;
    }
    one.plain.mark_list(list);
    End::Done
}

/// The chunks from one up to another are saved. The other set needs so many slots of the overflow volume.
pub fn saves(
    rt: &impl Abort,
    one: &mut Member,
    below: &mut Below,
    range: (u32, u32),
    other: u32,
) -> End {
    let before = written(&one.set, below);
    let came = save(&mut one.set, below, range);
    ends(rt, one, below, (came, before), &list_of(range), other)
}

// The same by a call each.
fn saves_each(
    rt: &impl Abort,
    one: &mut Member,
    below: &mut Below,
    range: (u32, u32),
    other: u32,
) -> End {
    let before = written(&one.set, below);
    let came = save_each(&mut one.set, below, range);
    ends(rt, one, below, (came, before), &list_of(range), other)
}

// Chunks of a list are brought back, from the first on.
fn bring_all(rt: &impl Abort, one: &mut Member, below: &mut Below, list: &List) -> End {
    for chunk in 0..CHUNKS {
        if list[chunk as usize] {
            if bring_step(rt, one, below, chunk) == End::Stopped {
                return End::Stopped;
            }
        }
    }
    End::Done
}

// The chunks of a range are saved before the master changes there. A set that is offline, or goes offline by it, gives the
// chunks back that stand on its shadow alone.
fn keep(
    rt: &impl Abort,
    one: &mut Member,
    below: &mut Below,
    range: (u32, u32),
    other: u32,
) -> End {
    if !one.plain.is_offline {
        let end = saves_each(rt, one, below, range, other);
        if end != End::Refused {
            return end;
        }
        one.plain.is_offline = true;
    }
    bring_all(rt, one, below, &list_of(range))
}

/// Blocks of the master are written: the first set saves the chunks before the second one.
pub fn write_master(
    rt: &impl Abort,
    (one, two): (&mut Member, &mut Member),
    below: &mut Below,
    (at, count, byte): (u32, u32, u8),
    bytes: &[u8],
) -> End {
    let range = chunks_of(at, count);
    let other = two.plain.beyond();
    if keep(rt, one, below, range, other) == End::Stopped {
        return End::Stopped;
    }
    let other = one.plain.beyond();
    if keep(rt, two, below, range, other) == End::Stopped
        || !put_blocks(rt, &mut below.master, at, bytes)
    {
        return End::Stopped;
    }
    put(&mut below.image, at, count, byte);
    End::Done
}

// The chunks are saved, and then the blocks are put.
fn save_and_put(
    rt: &impl Abort,
    one: &mut Member,
    below: &mut Below,
    (at, count): (u32, u32),
    bytes: &[u8],
) -> Came {
    let came = save(&mut one.set, below, chunks_of(at, count));
    if came != Came::Done {
        return came;
    }
    put_there(&mut one.set, below, at, bytes)
}

/// Blocks of the shadow are written, by one call or by two. Where there is no room nothing changes.
pub fn write_shadow(
    rt: &impl Abort,
    one: &mut Member,
    below: &mut Below,
    (at, count, byte): (u32, u32, u8),
    (bytes, by_two): (&[u8], bool),
    other: u32,
) -> End {
    let before = written(&one.set, below);
    let came = if by_two {
        save_and_put(rt, one, below, (at, count), bytes)
    } else {
        write(&mut one.set, below, at, bytes)
    };
    let list = list_of(chunks_of(at, count));
    let end = ends(rt, one, below, (came, before), &list, other);
    if end == End::Done {
        put(&mut one.plain.shadow, at, count, byte);
    }
    end
}

/// A copy step takes the least chunk that is to be copied.
pub fn copy_step(rt: &impl Abort, one: &mut Member, below: &mut Below) -> End {
    let due = one.plain.due();
    let came = copy(&mut one.set, below);
    if came == Came::Failed {
        return End::Stopped;
    }
    same(rt, came, Came::Copied(due));
    one.plain.copied(due.unwrap_or(CHUNKS));
    End::Done
}

/// A chunk is copied, where it is to be.
pub fn bring_step(rt: &impl Abort, one: &mut Member, below: &mut Below, chunk: u32) -> End {
    if stopped(rt, bring(&mut one.set, below, chunk)) {
        return End::Stopped;
    }
    one.plain.copied(chunk);
    End::Done
}

fn arm_over(over: &mut Option<Over<MemDisk>>, tear: Tear) -> bool {
    match over {
        Some(over) => over.arm(0, tear),
        None => false,
    }
}

/// Arms a tear.
pub fn arm_at(rt: &impl Abort, one: &mut Member, below: &mut Below, spot: Spot, tear: Tear) -> End {
    let armed = match spot {
        Spot::Master => below.master.arm(tear),
        Spot::Shadow(_) => arm(&mut one.set, false, tear),
        Spot::Bitmap(_) => arm(&mut one.set, true, tear),
        Spot::Over => arm_over(&mut below.over, tear),
    };
    same(rt, armed, true);
    End::Done
}
