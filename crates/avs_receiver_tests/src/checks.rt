// A receiver compared with the definitions.

use crate::disks::same;
use avs_model::HalfRole;
use avs_receiver_plain::calls::Half;
use avs_receiver_plain::errands::Look;
use avs_receiver_plain::plain::{Image, List, Plain, SIZES, segs};
use avs_seg::BLOCK;
use avs_sync::get_note;
use std::alloc::Global;
use std::process::Abort;

/// Errands that look at the volumes of both sets.
#[derive(Drop)]
pub struct Looks {
    first: Look,
    second: Look,
    // At no volume.
    around: Look,
}

fn new_look(rt: &impl Abort, alloc: Global, vol: u32, blocks: u32) -> Look {
    Look {
        vol,
        note: [0; 64],
        written: [None; 4],
        bytes: vec![in alloc; 0; BLOCK * blocks as usize].expect(rt, "memory"),
    }
}

pub fn new_looks(rt: &impl Abort, alloc: Global) -> Looks {
    Looks {
        first: new_look(rt, alloc, 2, SIZES[0]),
        second: new_look(rt, alloc, 0, SIZES[1]),
        around: new_look(rt, alloc, 99, 0),
    }
}

// The segments of a set that are due.
fn due(rt: &impl Abort, alloc: Global, half: &Half, set: u32) -> List {
    let Some(found) = half.bits(alloc, set) else {
        panic!(rt; "a set");
    };
    let mut list = [false; 2];
    let found = found.expect(rt, "memory");
    for seg in found.as_slice() {
        assert!(rt; *seg < segs(set));
        list[*seg as usize % 2] = true;
    }
    list
}

fn image(rt: &impl Abort, half: &mut Half, look: &mut Look) -> Image {
    assert!(rt; half.look(look).is_ok());
    match look.image() {
        Some(image) => image,
        None => panic!(rt; "a block of one byte"),
    }
}

/// The images of both sets.
pub fn images(rt: &impl Abort, half: &mut Half, looks: &mut Looks) -> [Image; 2] {
    let first = image(rt, half, &mut looks.first);
    [first, image(rt, half, &mut looks.second)]
}

/// The segments of both sets that are due.
pub fn bits(rt: &impl Abort, alloc: Global, half: &Half) -> [List; 2] {
    [due(rt, alloc, half, 0), due(rt, alloc, half, 1)]
}

/// The blocks written on each disk: the state disk and the volumes by their numbers, the bitmaps, the queue, and the landing
/// volume.
pub fn written(rt: &impl Abort, half: &mut Half, looks: &mut Looks) -> [Option<u64>; 8] {
    assert!(rt; half.look(&mut looks.around).is_ok());
    let [state, second, spare, first] = looks.around.written;
    [
        state,
        second,
        spare,
        first,
        half.written(0),
        half.written(1),
        half.written(2),
        half.written(3),
    ]
}

fn same_note(rt: &impl Abort, look: &Look, plain: &Plain) {
    match get_note(&look.note) {
        Ok(note) => same(rt, note, plain.note()),
        Err(_) => panic!(rt; "a note"),
    }
}

/// The receiver is what it is to be.
pub fn check(rt: &impl Abort, alloc: Global, half: &mut Half, looks: &mut Looks, plain: &Plain) {
    same(rt, half.session(), plain.session());
    same(rt, half.stand(), (plain.applied, plain.state));
    same(rt, bits(rt, alloc, half), plain.due);
    let found = images(rt, half, looks);
    assert!(rt; found[0] == plain.images[0]);
    assert!(rt; found[1] == plain.images[1]);
    same_note(rt, &looks.first, plain);
}
