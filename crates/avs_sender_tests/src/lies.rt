// What lies on the disks of a sender.

use avs_dev::MemDisk;
use avs_seg::BLOCK;
use avs_sender_plain::disks::{Disks, bitmap, bytes_of};
use avs_sender_plain::plain::Plain;
use avs_sender_plain::set::{Image, PlainSet, SIZES, Segments};
use avs_sync::{NOTE, Note, get_note};
use std::alloc::Global;
use std::fmt::Debug;
use std::process::Abort;

pub fn same<T: PartialEq + Debug + Drop>(rt: &impl Abort, found: T, want: T) {
    assert_eq!(rt; found, want);
}

/// What a set has on its disks.
#[derive(Clone, Copy, Debug, PartialEq, Eq)]
pub struct SetLies {
    pub bits: Segments,
    pub image: Image,
}

/// What a sender has on its disks.
#[derive(Clone, Copy, Debug, PartialEq, Eq)]
pub struct Lies {
    pub note: Note,
    pub first: SetLies,
    pub second: SetLies,
}

fn blocks_of(rt: &impl Abort, alloc: Global, disk: &mut MemDisk) -> Vec<u8> {
    bytes_of(alloc, disk).expect(rt, "the blocks of a disk")
}

// All of these bytes are zeros.
fn zeros(rt: &impl Abort, bytes: &[u8]) {
    assert!(rt; bytes.iter().all(|byte| *byte == 0));
}

// Some of these bytes.
fn part<'a>(rt: &impl Abort, bytes: &'a [u8], from: usize, to: usize) -> &'a [u8] {
    assert!(rt; from <= to && to <= bytes.len());
    &bytes[from..to]
}

// The note in block 1 of the state disk, which has zeros besides.
fn note_on(rt: &impl Abort, alloc: Global, disk: &mut MemDisk) -> Note {
    let bytes = blocks_of(rt, alloc, disk);
    let start = BLOCK + 400;
    zeros(rt, part(rt, &bytes, 0, start));
    zeros(rt, part(rt, &bytes, start + NOTE, 2 * BLOCK));
    let found = part(rt, &bytes, start, start + NOTE);
    assert!(rt; found.len() == NOTE);
    let mut note = [0; NOTE];
    note.copy_from_slice(found);
    match get_note(&note) {
        Ok(note) => note,
        Err(_) => panic!(rt; "a note"),
    }
}

// The bits in block 1 of a bitmap's disk, which has zeros besides, and behind the label that was made.
fn bits_on(rt: &impl Abort, alloc: Global, disk: &mut MemDisk, blocks: u32) -> Segments {
    let bytes = blocks_of(rt, alloc, disk);
    let mut fresh = bitmap(alloc, blocks).expect(rt, "a bitmap");
    let label = blocks_of(rt, alloc, &mut fresh);
    assert!(rt; part(rt, &bytes, 0, BLOCK) == part(rt, &label, 0, BLOCK));
    zeros(rt, part(rt, &bytes, BLOCK + 1, 2 * BLOCK));
    let bits = part(rt, &bytes, BLOCK, BLOCK + 1);
    assert!(rt; bits.len() == 1);
    let byte = bits[0];
    assert!(rt; byte < 8);
    [byte & 1 != 0, byte & 2 != 0, byte & 4 != 0]
}

/// Blocks that have one byte throughout: that byte of the block at a place.
pub fn byte_in(rt: &impl Abort, bytes: &[u8], place: usize) -> u8 {
    assert!(rt; place < 4096);
    let start = BLOCK * place;
    assert!(rt; start + BLOCK <= bytes.len());
    let block = &bytes[start..start + BLOCK];
    let first = block[0];
    assert!(rt; block == [first; BLOCK].as_slice());
    first
}

/// The image that bytes are of.
pub fn image_in(rt: &impl Abort, bytes: &[u8], blocks: u32) -> Image {
    assert!(rt; blocks <= 150 && bytes.len() == BLOCK * blocks as usize);
    let mut image = [0; 150];
    for place in 0..blocks as usize {
        image[place] = byte_in(rt, bytes, place);
    }
    image
}

// What a set has on the disks of its bits and of its volume.
fn set_on(
    rt: &impl Abort,
    alloc: Global,
    (bits, volume): (&mut MemDisk, &mut MemDisk),
    blocks: u32,
) -> SetLies {
    let bytes = blocks_of(rt, alloc, volume);
    SetLies {
        bits: bits_on(rt, alloc, bits, blocks),
        image: image_in(rt, &bytes, blocks),
    }
}

/// What lies on disks. Nothing was written to the landing volume.
pub fn lies_on(rt: &impl Abort, alloc: Global, disks: &mut Disks) -> Lies {
    zeros(rt, &blocks_of(rt, alloc, &mut disks.land));
    let first = (&mut disks.bits.0, &mut disks.volumes.0);
    let second = (&mut disks.bits.1, &mut disks.volumes.1);
    Lies {
        note: note_on(rt, alloc, &mut disks.state),
        first: set_on(rt, alloc, first, SIZES[0]),
        second: set_on(rt, alloc, second, SIZES[1]),
    }
}

fn set_lies(set: &PlainSet) -> SetLies {
    SetLies {
        bits: set.bits(),
        image: set.image,
    }
}

/// What is to lie on them.
pub fn lies_of(plain: &Plain) -> Lies {
    Lies {
        note: plain.note,
        first: set_lies(&plain.first),
        second: set_lies(&plain.second),
    }
}
