// Two sets compared with the definitions.

use crate::sets::{Member, byte_in, get_blocks, give_shadow, same, take_shadow};
use avs_model::Kind;
use avs_seg::BLOCK;
use avs_shadows::calls::{Below, Came, Set, lacks, moved_part, read, sizes, slots, state};
use avs_shadows::plain::{BLOCKS, CHUNKS, Image, Plain, Stands, bits_of, size};
use std::process::Abort;

// Reads the master's chunks that stand on the shadow of a set alone.
fn read_back(rt: &impl Abort, one: &mut Member, below: &mut Below, out: &mut [u8]) {
    for chunk in 0..CHUNKS {
        if state(&one.set, chunk) == Some(Stands::OnShadow) {
            let start = BLOCK * 64 * chunk as usize;
            let end = (start + BLOCK * 64).min(BLOCK * BLOCKS as usize);
            assert!(rt; out.len() == BLOCK * BLOCKS as usize);
            let came = read(&mut one.set, below, 64 * chunk, &mut out[start..end]);
            same(rt, came, Came::Done);
        }
    }
}

/// Reads the master's image.
pub fn master_image(
    rt: &impl Abort,
    (one, two): (&mut Member, &mut Member),
    below: &mut Below,
    out: &mut [u8],
) {
    get_blocks(rt, &mut below.master, 0, out);
    read_back(rt, one, below, out);
    read_back(rt, two, below, out);
}

fn shows(rt: &impl Abort, found: &[u8], want: &Image) {
    for at in 0..BLOCKS {
        assert!(rt; byte_in(rt, found, at) == want[at as usize]);
    }
}

// The image of a set that is not offline.
fn check_image(rt: &impl Abort, one: &mut Member, below: &mut Below, out: &mut [u8]) {
    if !one.plain.is_offline {
        same(rt, read(&mut one.set, below, 0, out), Came::Done);
        shows(rt, out, &one.plain.shadow);
    }
}

/// All images are what they are to be.
pub fn check_images(
    rt: &impl Abort,
    (one, two): (&mut Member, &mut Member),
    below: &mut Below,
    out: &mut [u8],
) {
    check_image(rt, one, below, out);
    check_image(rt, two, below, out);
    master_image(rt, (one, two), below, out);
    shows(rt, out, &below.image);
}

fn can_save(set: &Set) -> bool {
    match set {
        Set::Whole(set) => set.can_save(),
        Set::Small(_) => false,
    }
}

// Chunks are saved without the shadow's disk where no copy is left to do.
fn check_without(rt: &impl Abort, one: &mut Member) {
    let shadow = take_shadow(&mut one.set);
    same(rt, can_save(&one.set), one.plain.is_settled());
    give_shadow(rt, &mut one.set, shadow);
}

// The chunks that are split, and those of the other set that have no slot.
fn check_part(rt: &impl Abort, one: &Member, other: &Plain) {
    let mut bits = [0x55; 256];
    same(rt, moved_part(&one.set, &mut bits), Came::Done);
    assert!(rt; bits == bits_of(&one.plain.moved));
    let lacking = one
        .plain
        .need_with(&other.moved)
        .saturating_sub(one.plain.need());
    let want = if one.plain.kind == Kind::Compact {
        Some(lacking)
    } else {
        None
    };
    same(rt, lacks(&one.set, &bits_of(&other.moved)), want);
}

// The states, lists and slots of a set.
fn check_lists(rt: &impl Abort, one: &Member, below: &Below, other: &Plain) {
    for chunk in 0..CHUNKS {
        same(rt, state(&one.set, chunk), Some(one.plain.state(chunk)));
    }
    check_part(rt, one, other);
    let plain = &one.plain;
    let want = (size(&plain.left), size(&plain.back), size(&plain.moved));
    same(rt, sizes(&one.set), want);
    if plain.kind == Kind::Compact {
        let want = (plain.need(), plain.room(other.beyond()));
        same(rt, slots(&one.set, below), Some(want));
    }
}

// Of the overflow volume the sets use what they need beyond their own slots.
fn check_over(rt: &impl Abort, below: &Below, want: u32) {
    let used = match &below.over {
        Some(over) => over.used(),
        None => 0,
    };
    same(rt, used, want);
}

/// The lists of both are what they are to be.
pub fn check(rt: &impl Abort, (one, two): (&mut Member, &mut Member), below: &Below) {
    check_lists(rt, one, below, &two.plain);
    check_lists(rt, two, below, &one.plain);
    check_without(rt, one);
    check_without(rt, two);
    let (first, second) = (one.plain.beyond(), two.plain.beyond());
    check_over(rt, below, first.saturating_add(second));
}
