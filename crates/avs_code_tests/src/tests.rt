// Each record at the edges of its fields, and blocks in which one byte is altered.
use avs_code::*;
use avs_seg::BLOCK;
use std::fmt::Debug;
use std::process::Abort;

const MAX: u64 = 1 << 62;

type Block = [u8; BLOCK];

fn same<T: PartialEq + Debug + Drop>(rt: &impl Abort, found: T, want: T) {
    assert_eq!(rt; found, want);
}

// The block with another byte at a place.
fn altered(block: &Block, at: usize, byte: u8) -> Block {
    let mut other = *block;
    if let Some(place) = other.get_mut(at) {
        *place = byte;
    }
    other
}

fn begins(rt: &impl Abort, block: &Block, bytes: &[u8]) {
    assert!(rt; block.starts_with(bytes));
}

fn label_breaks(rt: &impl Abort, block: &Block, at: usize, byte: u8, field: u32) {
    same(
        rt,
        get_label(&altered(block, at, byte)),
        Err(BadRecord(field)),
    );
}

fn group_breaks(rt: &impl Abort, block: &Block, at: usize, byte: u8, field: u32) {
    let found = get_group_block(&altered(block, at, byte));
    same(rt, found.err(), Some(BadRecord(field)));
}

fn land_breaks(rt: &impl Abort, block: &Block, at: usize, byte: u8, field: u32) {
    let found = get_land_header(&altered(block, at, byte));
    same(rt, found, Err(BadRecord(field)));
}

fn entry_breaks(rt: &impl Abort, block: &Block, at: usize, byte: u8, field: u32) {
    let found = get_entry_header(&altered(block, at, byte));
    same(rt, found, Err(BadRecord(field)));
}

fn queue_breaks(rt: &impl Abort, block: &Block, at: usize, byte: u8, field: u32) {
    let found = get_queue_header(&altered(block, at, byte));
    same(rt, found, Err(BadRecord(field)));
}

fn config_breaks(rt: &impl Abort, block: &Block, at: usize, byte: u8, field: u32) {
    let found = get_config_header(&altered(block, at, byte));
    same(rt, found, Err(BadRecord(field)));
}

#[test]
fn labels(rt: HostRuntime) {
    let label = Label {
        version: 1,
        kind: Label::IMPORT_BITMAP,
        blocks: u32::MAX,
        segments: u32::MAX,
        stamp: MAX,
    };
    let mut block = [0xee; BLOCK];
    put_label(&label, &mut block);
    let bytes = b"AVSVOL01\0\0\0\x01\0\0\0\x09\xff\xff\xff\xff\xff\xff\xff\xff\x40\0\0\0\0\0\0\0\0";
    begins(&rt, &block, bytes);
    same(&rt, get_label(&block), Ok(label));
    for (at, byte, field) in [
        (7, b'2', 0),
        (8, 1, 1),
        (11, 2, 1),
        (15, 0, 2),
        (15, 10, 2),
        (15, 8, 5),
        (31, 1, 5),
        (32, 1, 6),
        (511, 1, 6),
    ] {
        label_breaks(&rt, &block, at, byte, field);
    }
    let fewer = Label {
        blocks: 0xff_ffff,
        ..label
    };
    same(&rt, get_label(&altered(&block, 16, 0)), Ok(fewer));
}

#[test]
fn a_mirror_bitmap_has_no_stamp(rt: HostRuntime) {
    let label = Label {
        version: 1,
        kind: Label::MIRROR_BITMAP,
        blocks: 4096,
        segments: 64,
        stamp: 0,
    };
    let mut block = [0; BLOCK];
    put_label(&label, &mut block);
    same(&rt, get_label(&block), Ok(label));
    label_breaks(&rt, &block, 31, 1, 5);
}

#[test]
fn a_label_of_another_use_names_the_first_field_that_tells_it(rt: HostRuntime) {
    let label = Label {
        version: 1,
        kind: Label::IMPORT_BITMAP,
        blocks: 128,
        segments: 2,
        stamp: 7,
    };
    let mut block = [0; BLOCK];
    put_label(&label, &mut block);
    for (kind, blocks, segments, want) in [
        (Label::IMPORT_BITMAP, 128, 2, Ok(label)),
        (Label::MIRROR_BITMAP, 64, 1, Err(BadRecord(2))),
        (Label::IMPORT_BITMAP, 127, 1, Err(BadRecord(3))),
        (Label::IMPORT_BITMAP, 128, 1, Err(BadRecord(4))),
    ] {
        let wanted = LabelUse {
            kind,
            blocks,
            segments,
        };
        same(&rt, get_label_of(&block, wanted), want);
    }
    let wanted = LabelUse {
        kind: Label::IMPORT_BITMAP,
        blocks: 128,
        segments: 2,
    };
    let found = get_label_of(&altered(&block, 8, 1), wanted);
    same(&rt, found, Err(BadRecord(1)));
}

#[test]
fn group_blocks(rt: HostRuntime) {
    let slot = Slot {
        flags: 31,
        kind: Slot::COMPACT,
        need: u32::MAX,
        slots: u32::MAX,
        stamp: MAX,
    };
    let mut slots = Slots::empty();
    slots.set(0, slot);
    slots.set(15, slot);
    same(&rt, slots.get(15), slot);
    same(&rt, slots.get(1), Slot::EMPTY);
    let group = GroupBlock {
        version: 1,
        sequence: u64::MAX,
        slots,
        note: [0xdd; 64],
    };
    let mut block = [0xee; BLOCK];
    put_group_block(&group, &mut block);
    let bytes =
        b"AVSG\0\0\0\x01\xff\xff\xff\xff\xff\xff\xff\xff\x1f\x03\0\0\xff\xff\xff\xff\xff\xff\xff\xff\x40\0\0\0\0\0\0\0\0\0\0\0\0";
    begins(&rt, &block, bytes);
    same(&rt, get_group_block(&block), Ok(group));
    for (at, byte, field) in [
        (3, b'L', 0),
        (7, 0, 1),
        (16, 32, 3),
        (376, 32, 3),
        (377, 4, 3),
        (379, 1, 3),
        (395, 1, 3),
        (399, 1, 3),
        (464, 1, 5),
        (511, 1, 5),
    ] {
        group_breaks(&rt, &block, at, byte, field);
    }
    assert!(rt; get_group_block(&altered(&block, 400, 0)).is_ok());
    assert!(rt; get_group_block(&altered(&block, 463, 0)).is_ok());
}

#[test]
fn land_headers(rt: HostRuntime) {
    let header = LandHeader {
        version: 1,
        session: MAX,
        place: MAX,
        kind: LandHeader::WRITE,
        set: u32::MAX,
        at: u32::MAX,
        len: 256,
    };
    let mut block = [0xee; BLOCK];
    put_land_header(&header, &mut block);
    let bytes =
        b"AVSL\0\0\0\x01\x40\0\0\0\0\0\0\0\x40\0\0\0\0\0\0\0\0\0\0\x01\xff\xff\xff\xff\xff\xff\xff\xff\0\0\x01\0\0";
    begins(&rt, &block, bytes);
    same(&rt, get_land_header(&block), Ok(header));
    for (at, byte, field) in [
        (3, b'E', 0),
        (7, 2, 1),
        (15, 1, 2),
        (23, 1, 3),
        (27, 4, 4),
        (27, 0, 7),
        (27, 2, 7),
        (38, 0, 7),
        (39, 1, 7),
        (40, 1, 8),
        (511, 1, 8),
    ] {
        land_breaks(&rt, &block, at, byte, field);
    }
    same(&rt, get_entry_header(&block), Err(BadRecord(0)));
}

// Each field as great as it may be.
#[test]
fn the_greatest_entry_header(rt: HostRuntime) {
    let header = EntryHeader {
        version: 1,
        session: MAX,
        place: MAX,
        kind: LandHeader::WRITE,
        set: u32::MAX,
        at: u32::MAX,
        len: 256,
    };
    let mut block = [0xee; BLOCK];
    put_entry_header(&header, &mut block);
    let bytes =
        b"AVSE\0\0\0\x01\x40\0\0\0\0\0\0\0\x40\0\0\0\0\0\0\0\0\0\0\x01\xff\xff\xff\xff\xff\xff\xff\xff\0\0\x01\0\0";
    begins(&rt, &block, bytes);
    same(&rt, get_entry_header(&block), Ok(header));
    for (at, byte, field) in [
        (0, b'a', 0),
        (3, b'L', 0),
        (4, 1, 1),
        (7, 0, 1),
        (7, 2, 1),
        (8, 0x41, 2),
        (15, 1, 2),
        (16, 0x80, 3),
        (23, 1, 3),
        (24, 1, 4),
        (27, 4, 4),
        (27, 2, 7),
        (38, 2, 7),
        (39, 1, 7),
        (40, 1, 8),
        (511, 1, 8),
    ] {
        entry_breaks(&rt, &block, at, byte, field);
    }
    same(&rt, get_land_header(&block), Err(BadRecord(0)));
}

// A copy, whose fields are then read as they lie there.
#[test]
fn an_altered_entry_header(rt: HostRuntime) {
    let header = EntryHeader {
        version: 1,
        session: 1,
        place: 2,
        kind: LandHeader::COPY,
        set: 15,
        at: 4032,
        len: 64,
    };
    let mut block = [0xee; BLOCK];
    put_entry_header(&header, &mut block);
    let bytes =
        b"AVSE\0\0\0\x01\0\0\0\0\0\0\0\x01\0\0\0\0\0\0\0\x02\0\0\0\x02\0\0\0\x0f\0\0\x0f\xc0\0\0\0\x40\0";
    begins(&rt, &block, bytes);
    for (at, byte, want) in [
        (15, 1, header),
        (
            15,
            0,
            EntryHeader {
                session: 0,
                ..header
            },
        ),
        (
            8,
            0x20,
            EntryHeader {
                session: MAX / 2 + 1,
                ..header
            },
        ),
        (23, 0, EntryHeader { place: 0, ..header }),
        (
            16,
            0x20,
            EntryHeader {
                place: MAX / 2 + 2,
                ..header
            },
        ),
        (31, 16, EntryHeader { set: 16, ..header }),
        (35, 0, EntryHeader { at: 3840, ..header }),
        (39, 1, EntryHeader { len: 1, ..header }),
    ] {
        same(&rt, get_entry_header(&altered(&block, at, byte)), Ok(want));
    }
    for (at, byte, field) in [
        (8, 0x40, 2),
        (16, 0x40, 3),
        (27, 3, 7),
        (39, 0, 7),
        (39, 65, 7),
    ] {
        entry_breaks(&rt, &block, at, byte, field);
    }
}

// Each field as small as it may be, of an entry that has no blocks.
#[test]
fn the_least_entry_header(rt: HostRuntime) {
    for kind in [LandHeader::NOTHING, LandHeader::MARK] {
        assert!(rt; kind == LandHeader::NOTHING || kind == LandHeader::MARK);
        let header = EntryHeader {
            version: 1,
            session: 0,
            place: 0,
            kind,
            set: 0,
            at: 0,
            len: 0,
        };
        let mut block = [0xee; BLOCK];
        put_entry_header(&header, &mut block);
        same(&rt, get_entry_header(&block), Ok(header));
        entry_breaks(&rt, &block, 39, 1, 7);
    }
}

#[test]
fn queue_headers(rt: HostRuntime) {
    let header = QueueHeader {
        version: 1,
        session: MAX,
        first: MAX + 1,
        next: MAX + 1,
        head: u32::MAX,
        used: u32::MAX,
    };
    let mut block = [0xee; BLOCK];
    put_queue_header(&header, &mut block);
    let bytes =
        b"AVSQ\0\0\0\x01\x40\0\0\0\0\0\0\0\x40\0\0\0\0\0\0\x01\x40\0\0\0\0\0\0\x01\xff\xff\xff\xff\xff\xff\xff\xff\0";
    begins(&rt, &block, bytes);
    same(&rt, get_queue_header(&block), Ok(header));
    for (at, byte, field) in [
        (0, b'a', 0),
        (7, 0, 1),
        (15, 1, 2),
        (23, 2, 3),
        (31, 2, 4),
        (40, 1, 7),
        (511, 1, 7),
    ] {
        queue_breaks(&rt, &block, at, byte, field);
    }
}

#[test]
fn config_headers(rt: HostRuntime) {
    let header = ConfigHeader {
        version: 1,
        sequence: u64::MAX,
        area: 1,
        bytes: 523_776,
    };
    let mut block = [0xee; BLOCK];
    put_config_header(&header, &mut block);
    let bytes = b"AVSC\0\0\0\x01\xff\xff\xff\xff\xff\xff\xff\xff\0\0\0\x01\0\x07\xfe\0\0";
    begins(&rt, &block, bytes);
    same(&rt, get_config_header(&block), Ok(header));
    for (at, byte, field) in [
        (2, 0, 0),
        (7, 3, 1),
        (19, 2, 3),
        (23, 1, 4),
        (24, 1, 5),
        (511, 1, 5),
    ] {
        config_breaks(&rt, &block, at, byte, field);
    }
}

// Where several fields break their rules, the first of them is named.
#[test]
fn the_first_bad_field_is_named(rt: HostRuntime) {
    let mut block = [1; BLOCK];
    same(&rt, get_land_header(&block), Err(BadRecord(0)));
    block[..4].copy_from_slice(b"AVSL");
    same(&rt, get_land_header(&block), Err(BadRecord(1)));
    block[4..8].copy_from_slice(&[0, 0, 0, 1]);
    same(&rt, get_land_header(&block), Err(BadRecord(4)));
}
