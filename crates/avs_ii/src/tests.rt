// Groups on disks in memory: what stands after each call, after each failing one, and where the group is found again.
use crate::{IiClosed, IiGroup, IiParts, Returned2, SetList, SetParts};
use avs_code::{Label, put_label};
use avs_dev::{Below, Disk, MemDisk, Tear, Why};
use avs_model::{Kind, Refusal};
use avs_seg::{BLOCK, Failed};
use std::alloc::Global;
use std::process::Abort;
use std::test::Fail;

// Three chunks, the last of two blocks.
const BLOCKS: u32 = 130;

// The numbers of the disks of the group of `enabled`.
const STATE: u32 = 0;

const MASTER: u32 = 1;

const OTHER: u32 = 2;

const SHADOW: u32 = 3;

const BITMAP: u32 = 4;

type Group = IiGroup<MemDisk>;

fn disk(alloc: Global, blocks: u32) -> Result<MemDisk, Fail> {
    Ok(MemDisk::new(alloc, blocks, Vec::new(alloc))?)
}

// A disk whose block i has byte i throughout.
fn filled(rt: &impl Abort, alloc: Global, blocks: u8) -> Result<MemDisk, Fail> {
    let mut disk = disk(alloc, blocks as u32)?;
    for at in 0..blocks {
        assert!(rt; (at as u32) < disk.blocks());
        disk.write(at as u32, &[at; BLOCK])?;
    }
    Ok(disk)
}

fn add(group: &mut Group, disk: MemDisk) -> Result<u32, Fail> {
    match group.add_volume(disk) {
        Ok(volume) => Ok(volume),
        Err(back) => Err(back.why)?,
    }
}

// A group of two volumes without a set.
fn fresh(rt: &impl Abort, alloc: Global) -> Result<Group, Fail> {
    let state = disk(alloc, 64)?;
    assert!(rt; state.blocks() >= 64);
    let mut group = match IiGroup::new(alloc, state) {
        Ok(group) => group,
        Err(back) => Err(back.why)?,
    };
    assert_eq!(rt; add(&mut group, filled(rt, alloc, 130)?)?, 0);
    assert_eq!(rt; add(&mut group, filled(rt, alloc, 70)?)?, 1);
    Ok(group)
}

fn enable(
    rt: &impl Abort,
    alloc: Global,
    group: &mut Group,
    kind: Kind,
    shadow: u32,
    bitmap: u32,
) -> Result<Result<u32, Refusal>, Fail> {
    assert!(rt; 0 < group.count());
    assert!(rt; 0 < group.size(0));
    let shadow = disk(alloc, shadow)?;
    let bitmap = disk(alloc, bitmap)?;
    Ok(slot_or_why(group.enable(alloc, kind, 0, shadow, bitmap)))
}

fn slot_or_why(enabled: Result<u32, Returned2<MemDisk>>) -> Result<u32, Refusal> {
    match enabled {
        Ok(slot) => Ok(slot),
        Err(back) => Err(back.why),
    }
}

// A group with a pending set of the first volume.
fn waiting(rt: &impl Abort, alloc: Global, kind: Kind) -> Result<Group, Fail> {
    let mut group = fresh(rt, alloc)?;
    assert_eq!(rt; enable(rt, alloc, &mut group, kind, BLOCKS, 3)?, Ok(0));
    Ok(group)
}

// A group with an enabled set of the first volume.
fn enabled(rt: &impl Abort, alloc: Global, kind: Kind) -> Result<Group, Fail> {
    let mut group = waiting(rt, alloc, kind)?;
    assert_eq!(rt; group.confirm(0), Ok(()));
    Ok(group)
}

fn write<B: Below>(
    rt: &impl Abort,
    below: &mut B,
    vol: u32,
    at: u32,
    bytes: &[u8],
) -> Result<(), Failed> {
    let count = bytes.len() / BLOCK;
    assert!(rt; vol < below.count());
    assert!(rt; count > 0 && BLOCK * count == bytes.len());
    assert!(rt; at as usize + count <= below.size(vol) as usize);
    below.write(vol, at, bytes)
}

fn write_shadow(
    rt: &impl Abort,
    group: &mut Group,
    set: u32,
    at: u32,
    bytes: &[u8],
) -> Result<(), Refusal> {
    let count = bytes.len() / BLOCK;
    assert!(rt; count > 0 && BLOCK * count == bytes.len());
    if let Some(blocks) = group.shadow_size(set) {
        assert!(rt; at as usize + count <= blocks as usize);
        return group.write_shadow(set, at, bytes);
    }
    group.write_shadow(set, at, bytes)
}

// The same by the volume's number in the group.
fn put(
    rt: &impl Abort,
    group: &mut Group,
    volume: u32,
    at: u32,
    bytes: &[u8],
) -> Result<(), Failed> {
    let count = bytes.len() / BLOCK;
    assert!(rt; count > 0 && BLOCK * count == bytes.len());
    let Some(blocks) = group.volume_size(volume) else {
        return Err(Failed);
    };
    assert!(rt; at as usize + count <= blocks as usize);
    group.write_volume(volume, at, bytes)
}

fn byte_at(rt: &impl Abort, group: &mut Group, volume: u32, at: u32) -> Result<u8, Failed> {
    let mut out = [0xee; BLOCK];
    let Some(blocks) = group.volume_size(volume) else {
        return Err(Failed);
    };
    assert!(rt; at < blocks);
    group.read_volume(volume, at, &mut out)?;
    assert!(rt; out.iter().all(|&byte| byte == out[0]));
    Ok(out[0])
}

// The byte of a block of a volume.
fn volume_byte<B: Below>(rt: &impl Abort, below: &mut B, vol: u32, at: u32) -> Result<u8, Failed> {
    let mut out = [0xee; BLOCK];
    assert!(rt; vol < below.count());
    assert!(rt; at < below.size(vol));
    below.read(vol, at, &mut out)?;
    assert!(rt; out.iter().all(|&byte| byte == out[0]));
    Ok(out[0])
}

// The byte of a block of a shadow.
fn shadow_byte(rt: &impl Abort, group: &mut Group, set: u32, at: u32) -> Result<u8, Refusal> {
    let mut out = [0xee; BLOCK];
    match group.shadow_size(set) {
        Some(blocks) => assert!(rt; at < blocks),
        None => {}
    }
    group.read_shadow(set, at, &mut out)?;
    assert!(rt; out.iter().all(|&byte| byte == out[0]));
    Ok(out[0])
}

// Whether each block of the first volume, but the two from 63 on, and of the shadow has the byte of its number.
fn shows_old(rt: &impl Abort, group: &mut Group) -> Result<bool, Fail> {
    for at in 0..BLOCKS {
        if at / 2 * 2 + 1 != 63 && at != 64 && volume_byte(rt, group, 0, at)? != at as u8 {
            return Ok(false);
        }
        if shadow_byte(rt, group, 0, at)? != at as u8 {
            return Ok(false);
        }
    }
    Ok(true)
}

fn reload(alloc: Global, group: Group) -> Result<Group, Fail> {
    match IiGroup::load(alloc, group.into_parts()) {
        Ok(group) => Ok(group),
        Err(back) => Err(back.why)?,
    }
}

fn why_loaded(loaded: Result<Group, IiClosed<MemDisk>>) -> Option<Why> {
    match loaded {
        Ok(_) => None,
        Err(back) => Some(back.why),
    }
}

#[test]
fn a_new_group_is_found_again(rt: HostRuntime) -> Result<(), Fail> {
    let alloc = rt.alloc();
    let mut group = fresh(&rt, alloc)?;
    assert_eq!(rt; group.count(), 2);
    assert_eq!(rt; group.note(), [0; 64]);
    assert_eq!(rt; group.set_note(&[7; 64]), Ok(()));
    assert_eq!(rt; write(&rt, &mut group, 1, 69, &[200; BLOCK]), Ok(()));
    let mut group = reload(alloc, group)?;
    assert_eq!(rt; group.count(), 2);
    assert_eq!(rt; group.note(), [7; 64]);
    assert_eq!(rt; volume_byte(&rt, &mut group, 0, 69)?, 69);
    assert_eq!(rt; volume_byte(&rt, &mut group, 1, 69)?, 200);
    assert_eq!(rt; shadow_byte(&rt, &mut group, 0, 0), Err(Refusal::NoSet));
    assert_eq!(rt; group.confirm(0), Err(Refusal::NoSet));
    assert!(rt; group.give_up().is_none());
    Ok(())
}

#[test]
fn a_shadow_keeps_what_its_master_was(rt: HostRuntime) -> Result<(), Fail> {
    let alloc = rt.alloc();
    for kind in [Kind::Ind, Kind::Dep] {
        let mut group = enabled(&rt, alloc, kind)?;
        assert!(rt; shows_old(&rt, &mut group)?);
        assert_eq!(rt; write(&rt, &mut group, 0, 63, &[200; 2 * BLOCK]), Ok(()));
        assert!(rt; shows_old(&rt, &mut group)?);
        assert_eq!(rt; write(&rt, &mut group, 1, 63, &[201; 2 * BLOCK]), Ok(()));
        assert_eq!(rt; group.written(SHADOW), Some(128));
        let mut group = reload(alloc, group)?;
        assert!(rt; shows_old(&rt, &mut group)?);
        for at in 63..65 {
            assert_eq!(rt; volume_byte(&rt, &mut group, 0, at)?, 200);
            assert_eq!(rt; volume_byte(&rt, &mut group, 1, at)?, 201);
        }
    }
    Ok(())
}

#[test]
fn a_write_to_a_shadow(rt: HostRuntime) -> Result<(), Fail> {
    let alloc = rt.alloc();
    let mut group = enabled(&rt, alloc, Kind::Dep)?;
    assert_eq!(rt;
        write_shadow(&rt, &mut group, 0, 129, &[210; BLOCK]),
        Ok(())
    );
    assert_eq!(rt;
        write_shadow(&rt, &mut group, 1, 0, &[211; BLOCK]),
        Err(Refusal::NoSet)
    );
    let mut group = reload(alloc, group)?;
    assert_eq!(rt; write(&rt, &mut group, 0, 128, &[212; 2 * BLOCK]), Ok(()));
    assert_eq!(rt; shadow_byte(&rt, &mut group, 0, 128), Ok(128));
    assert_eq!(rt; shadow_byte(&rt, &mut group, 0, 129), Ok(210));
    assert_eq!(rt; volume_byte(&rt, &mut group, 0, 129)?, 212);
    Ok(())
}

// A group in which a tear is armed on a disk: of the write behind so many others, so many of the first blocks are stored.
fn armed(rt: &impl Abort, alloc: Global, disk: u32, skip: u32, count: u32) -> Result<Group, Fail> {
    let mut group = enabled(rt, alloc, Kind::Dep)?;
    assert!(rt;
        group.arm(
            disk,
            Tear {
                skip,
                from: 0,
                count
            }
        )
    );
    Ok(group)
}

#[test]
fn each_torn_write_under_a_write_to_a_master(rt: HostRuntime) -> Result<(), Fail> {
    let alloc = rt.alloc();
    for (disk, skip, count, first) in [
        (SHADOW, 0, 0, 63),
        (SHADOW, 0, 63, 63),
        (SHADOW, 0, 64, 63),
        (BITMAP, 0, 0, 63),
        (BITMAP, 0, 1, 63),
        (SHADOW, 1, 0, 63),
        (SHADOW, 1, 64, 63),
        (BITMAP, 1, 0, 63),
        (BITMAP, 1, 1, 63),
        (MASTER, 0, 0, 63),
        (MASTER, 0, 1, 200),
        (MASTER, 0, 2, 200),
    ] {
        let mut group = armed(&rt, alloc, disk, skip, count)?;
        assert_eq!(rt;
            write(&rt, &mut group, 0, 63, &[200; 2 * BLOCK]),
            Err(Failed)
        );
        let mut group = reload(alloc, group)?;
        assert!(rt; shows_old(&rt, &mut group)?, "{disk} {skip} {count}");
        assert_eq!(rt; volume_byte(&rt, &mut group, 0, 63)?, first);
        let second = if disk == MASTER && count == 2 {
            200
        } else {
            64
        };
        assert_eq!(rt; volume_byte(&rt, &mut group, 0, 64)?, second);
        assert_eq!(rt; write(&rt, &mut group, 0, 63, &[200; 2 * BLOCK]), Ok(()));
        assert!(rt; shows_old(&rt, &mut group)?);
    }
    Ok(())
}

#[test]
fn a_failed_write_to_a_volume(rt: HostRuntime) -> Result<(), Fail> {
    let alloc = rt.alloc();
    for (disk, skip, count, first) in [
        (SHADOW, 0, 1, 63),
        (BITMAP, 1, 1, 63),
        (MASTER, 0, 1, 200),
        (OTHER, 0, 1, 200),
    ] {
        let volume = if disk == OTHER { 1 } else { 0 };
        let mut group = armed(&rt, alloc, disk, skip, count)?;
        assert_eq!(rt;
            put(&rt, &mut group, volume, 63, &[200; 2 * BLOCK]),
            Err(Failed)
        );
        let mut group = reload(alloc, group)?;
        assert!(rt; shows_old(&rt, &mut group)?, "{disk}");
        assert_eq!(rt; byte_at(&rt, &mut group, volume, 63)?, first);
        assert_eq!(rt; byte_at(&rt, &mut group, volume, 64)?, 64);
        assert_eq!(rt; put(&rt, &mut group, volume, 63, &[200; 2 * BLOCK]), Ok(()));
        assert_eq!(rt; byte_at(&rt, &mut group, volume, 64)?, 200);
        assert!(rt; shows_old(&rt, &mut group)?);
    }
    Ok(())
}

#[test]
fn sizes_of_volumes(rt: HostRuntime) -> Result<(), Fail> {
    let group = fresh(&rt, rt.alloc())?;
    for (volume, size) in [(0, Some(130)), (1, Some(70)), (2, None)] {
        assert_eq!(rt; group.volume_size(volume), size);
    }
    Ok(())
}

#[test]
fn chunks_to_copy(rt: HostRuntime) -> Result<(), Fail> {
    let alloc = rt.alloc();
    for (kind, before, after) in [(Kind::Ind, 3, 1), (Kind::Dep, 0, 0)] {
        let mut group = waiting(&rt, alloc, kind)?;
        assert_eq!(rt; group.to_copy(0), None);
        assert_eq!(rt; group.confirm(0), Ok(()));
        assert_eq!(rt; group.to_copy(0), Some(before));
        assert_eq!(rt; put(&rt, &mut group, 0, 63, &[200; 2 * BLOCK]), Ok(()));
        assert_eq!(rt; group.to_copy(0), Some(after));
        let group = reload(alloc, group)?;
        assert_eq!(rt; group.to_copy(0), Some(after));
        assert_eq!(rt; group.to_copy(1), None);
    }
    Ok(())
}

#[test]
fn each_torn_write_under_a_write_to_a_shadow(rt: HostRuntime) -> Result<(), Fail> {
    let alloc = rt.alloc();
    for (disk, skip, count, want) in [
        (SHADOW, 0, 0, (63, 64)),
        (SHADOW, 0, 64, (63, 64)),
        (BITMAP, 0, 0, (63, 64)),
        (BITMAP, 0, 1, (63, 64)),
        (SHADOW, 1, 0, (63, 64)),
        (SHADOW, 1, 64, (63, 64)),
        (BITMAP, 1, 0, (63, 64)),
        (BITMAP, 1, 1, (63, 64)),
        (SHADOW, 2, 0, (63, 64)),
        (SHADOW, 2, 1, (220, 64)),
        (SHADOW, 2, 2, (220, 220)),
    ] {
        let mut group = armed(&rt, alloc, disk, skip, count)?;
        let written = write_shadow(&rt, &mut group, 0, 63, &[220; 2 * BLOCK]);
        assert_eq!(rt; written, Err(Refusal::Fault));
        assert_eq!(rt; group.written(MASTER), Some(130));
        let mut group = reload(alloc, group)?;
        let first = shadow_byte(&rt, &mut group, 0, 63)?;
        let second = shadow_byte(&rt, &mut group, 0, 64)?;
        assert_eq!(rt; (first, second), want, "{disk} {skip} {count}");
        for at in 0..BLOCKS {
            assert_eq!(rt; volume_byte(&rt, &mut group, 0, at)?, at as u8);
            if at < 63 || 64 < at {
                assert_eq!(rt; shadow_byte(&rt, &mut group, 0, at)?, at as u8);
            }
        }
    }
    Ok(())
}

#[test]
fn a_pending_set(rt: HostRuntime) -> Result<(), Fail> {
    let alloc = rt.alloc();
    let mut group = waiting(&rt, alloc, Kind::Dep)?;
    for _ in 0..2 {
        assert_eq!(rt; shadow_byte(&rt, &mut group, 0, 0), Err(Refusal::NoSet));
        assert_eq!(rt; write(&rt, &mut group, 0, 5, &[230; BLOCK]), Ok(()));
        assert_eq!(rt; group.written(SHADOW), Some(0));
        group = reload(alloc, group)?;
    }
    assert_eq!(rt; group.confirm(1), Err(Refusal::NoSet));
    assert_eq!(rt; group.confirm(0), Ok(()));
    assert_eq!(rt; group.confirm(0), Err(Refusal::NoSet));
    assert_eq!(rt; shadow_byte(&rt, &mut group, 0, 5), Ok(230));
    assert!(rt; group.give_up().is_none());
    Ok(())
}

#[test]
fn a_set_that_is_given_up(rt: HostRuntime) -> Result<(), Fail> {
    let alloc = rt.alloc();
    let group = waiting(&rt, alloc, Kind::Ind)?;
    let mut group = reload(alloc, group)?;
    match group.give_up() {
        Some((slot, shadow, bitmap)) => {
            assert_eq!(rt; (slot, shadow.blocks(), bitmap.blocks()), (0, BLOCKS, 3));
        }
        None => Err(Failed)?,
    }
    assert!(rt; group.give_up().is_none());
    assert_eq!(rt; group.written(SHADOW), None);
    assert_eq!(rt;
        enable(&rt, alloc, &mut group, Kind::Dep, BLOCKS, 3)?,
        Ok(0)
    );
    Ok(())
}

#[test]
fn a_commit_that_fails(rt: HostRuntime) -> Result<(), Fail> {
    let alloc = rt.alloc();
    for (count, is_enabled) in [(0, false), (1, true)] {
        let mut group = waiting(&rt, alloc, Kind::Dep)?;
        assert_eq!(rt; group.set_note(&[8; 64]), Ok(()));
        assert!(rt;
            group.arm(
                STATE,
                Tear {
                    skip: 0,
                    from: 0,
                    count
                }
            )
        );
        assert_eq!(rt; group.confirm(0), Err(Refusal::Fault));
        let mut group = reload(alloc, group)?;
        assert_eq!(rt; group.shadow_size(0).is_some(), is_enabled);
        assert_eq!(rt; group.note(), [8; 64]);
        assert_eq!(rt; group.confirm(0).is_ok(), !is_enabled);
    }
    Ok(())
}

#[test]
fn a_note_beside_a_set(rt: HostRuntime) -> Result<(), Fail> {
    let alloc = rt.alloc();
    for (count, want) in [(0, 1), (1, 2)] {
        let mut group = waiting(&rt, alloc, Kind::Dep)?;
        assert_eq!(rt; group.set_note(&[1; 64]), Ok(()));
        assert_eq!(rt; group.confirm(0), Ok(()));
        assert_eq!(rt; group.note(), [1; 64]);
        assert!(rt;
            group.arm(
                STATE,
                Tear {
                    skip: 0,
                    from: 0,
                    count
                }
            )
        );
        assert_eq!(rt; group.set_note(&[2; 64]), Err(Failed));
        let mut group = reload(alloc, group)?;
        assert_eq!(rt; group.note(), [want; 64]);
        assert!(rt; shows_old(&rt, &mut group)?);
    }
    Ok(())
}

#[test]
fn the_disks_are_counted(rt: HostRuntime) -> Result<(), Fail> {
    let alloc = rt.alloc();
    let group = enabled(&rt, alloc, Kind::Dep)?;
    for (disk, want) in [
        (STATE, Some(3)),
        (MASTER, Some(130)),
        (OTHER, Some(70)),
        (SHADOW, Some(0)),
        (BITMAP, Some(3)),
        (5, None),
    ] {
        assert_eq!(rt; group.written(disk), want);
    }
    Ok(())
}

#[test]
fn sets_that_are_refused(rt: HostRuntime) -> Result<(), Fail> {
    let alloc = rt.alloc();
    let mut group = fresh(&rt, alloc)?;
    for (kind, shadow, bitmap, why) in [
        (
            Kind::Dep,
            129,
            3,
            Refusal::Size {
                need: 130,
                have: 129,
            },
        ),
        (Kind::Ind, 130, 2, Refusal::Size { need: 3, have: 2 }),
        (Kind::Compact, 130, 3, Refusal::Limit(0)),
    ] {
        assert_eq!(rt;
            enable(&rt, alloc, &mut group, kind, shadow, bitmap)?,
            Err(why)
        );
        assert_eq!(rt; group.written(SHADOW), None);
    }
    assert_eq!(rt; enable(&rt, alloc, &mut group, Kind::Dep, 131, 4)?, Ok(0));
    let more = enable(&rt, alloc, &mut group, Kind::Dep, 130, 3)?;
    assert_eq!(rt; more, Err(Refusal::Limit(1)));
    Ok(())
}

// The parts of a group with an enabled set, of which these are said.
fn parts_as(
    rt: &impl Abort,
    alloc: Global,
    slot: u32,
    kind: Kind,
    master: u32,
) -> Result<IiParts<MemDisk>, Fail> {
    let IiParts {
        state,
        volumes,
        sets,
        overs,
    } = enabled(rt, alloc, Kind::Dep)?.into_parts();
    let mut sets = sets.into_vec();
    match sets.pop() {
        Some(
            SetParts {
                shadow,
                bitmap,
                over,
                ..
            },
        ) => {
            let set = SetParts {
                slot,
                kind,
                master,
                shadow,
                bitmap,
                over,
            };
            assert!(rt; sets.push(set).is_ok());
        }
        None => Err(Failed)?,
    }
    Ok(IiParts {
        state,
        volumes,
        sets: SetList::new(sets),
        overs,
    })
}

// The parts without the shadow's disk.
fn without_shadow(rt: &impl Abort, parts: IiParts<MemDisk>) -> Result<IiParts<MemDisk>, Fail> {
    let IiParts {
        state,
        volumes,
        sets,
        overs,
    } = parts;
    let mut sets = sets.into_vec();
    match sets.pop() {
        Some(set) => {
            let set = SetParts {
                shadow: None,
                ..set
            };
            assert!(rt; sets.push(set).is_ok());
        }
        None => Err(Failed)?,
    }
    Ok(IiParts {
        state,
        volumes,
        sets: SetList::new(sets),
        overs,
    })
}

#[test]
fn parts_at_odds(rt: HostRuntime) -> Result<(), Fail> {
    let alloc = rt.alloc();
    for (slot, kind, master, field) in [
        (16, Kind::Dep, 0, 64),
        (0, Kind::Ind, 0, 64),
        (0, Kind::Dep, 2, 64),
        (0, Kind::Compact, 0, 64),
        (0, Kind::Dep, 1, 3),
        (0, Kind::Ind, 1, 64),
    ] {
        let parts = parts_as(&rt, alloc, slot, kind, master)?;
        let why = Some(Why::BadRecord(field));
        assert_eq!(rt; why_loaded(IiGroup::load(alloc, parts)), why);
    }
    let parts = without_shadow(&rt, parts_as(&rt, alloc, 0, Kind::Dep, 0)?)?;
    let why = Some(Why::BadRecord(64));
    assert_eq!(rt; why_loaded(IiGroup::load(alloc, parts)), why);
    let parts = parts_as(&rt, alloc, 0, Kind::Dep, 0)?;
    assert_eq!(rt; why_loaded(IiGroup::load(alloc, parts)), None);
    Ok(())
}

#[test]
fn state_disks_that_are_none(rt: HostRuntime) -> Result<(), Fail> {
    let alloc = rt.alloc();
    for (blocks, field) in [(64, 0), (63, 64)] {
        let IiParts {
            volumes,
            sets,
            overs,
            ..
        } = fresh(&rt, alloc)?.into_parts();
        let parts = IiParts {
            state: disk(alloc, blocks)?,
            volumes,
            sets,
            overs,
        };
        let why = Some(Why::BadRecord(field));
        assert_eq!(rt; why_loaded(IiGroup::load(alloc, parts)), why);
    }
    Ok(())
}

// Of several rules that are broken the earlier one is answered: the label of the state disk is that of another use, its block
// has none of its bytes, and no set has the slot.
#[test]
fn the_earlier_rule_is_answered(rt: HostRuntime) -> Result<(), Fail> {
    let alloc = rt.alloc();
    for (blocks, kind, field) in [
        (63, Label::LANDING, 64),
        (64, Label::LANDING, 2),
        (64, Label::STATE, 0),
    ] {
        assert!(rt; 0 < kind && kind <= Label::IMPORT_BITMAP);
        let mut block = [0; BLOCK];
        let label = Label {
            version: 1,
            kind,
            blocks: 0,
            segments: 0,
            stamp: 0,
        };
        put_label(&label, &mut block);
        let mut state = disk(alloc, blocks)?;
        assert!(rt; state.blocks() > 0);
        state.write(0, &block)?;
        let IiParts {
            volumes,
            sets,
            overs,
            ..
        } = parts_as(&rt, alloc, 16, Kind::Dep, 0)?;
        let parts = IiParts {
            state,
            volumes,
            sets,
            overs,
        };
        let why = Some(Why::BadRecord(field));
        assert_eq!(rt; why_loaded(IiGroup::load(alloc, parts)), why);
    }
    Ok(())
}
