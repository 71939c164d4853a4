// Each call once, of a set of either kind: both answer the same, where a compact set has room.
use crate::sets::{
    BLOCKS, bring_back, byte_on, changes_shadow, copy, disk, in_chunks, in_slots, join, made_over,
    put_block, read, same, save, state, write,
};
use avs_chunks::ChunkState;
use avs_compact::CompactFault;
use avs_dev::{MemDisk, Tear};
use avs_held::AnySet;
use avs_model::Kind;
use avs_over::Over;
use std::alloc::Global;
use std::process::Abort;

// The chunks that are left, that stand on the shadow alone, and that are split.
fn counts(rt: &impl Abort, set: &AnySet<MemDisk>, want: (u32, u32, u32)) {
    same(rt, (set.left(), set.back(), set.moved()), want);
}

// Which of the first eight chunks are split.
fn moved(rt: &impl Abort, set: &AnySet<MemDisk>) -> u8 {
    let mut bits = [0; 256];
    assert!(rt; 0 < set.chunks());
    assert!(rt; set.moved_part(0, &mut bits).is_ok());
    bits[0]
}

// A new set: nothing stands on its shadow.
fn is_new(rt: &impl Abort, set: &AnySet<MemDisk>) {
    same(rt, (set.blocks(), set.chunks()), (BLOCKS, 3));
    same(rt, (set.seat().slot, set.has_shadow()), (7, true));
    same(rt, state(rt, set, 2), ChunkState::OnMaster);
    same(rt, moved(rt, set), 0);
    same(rt, set.written(2), None);
    counts(rt, set, (0, 0, 0));
}

// Chunks are saved, and blocks of the shadow written and read, on a master of ones.
fn saves(
    rt: &impl Abort,
    set: &mut AnySet<MemDisk>,
    master: &mut MemDisk,
    over: &mut Option<Over<MemDisk>>,
) {
    same(rt, save(rt, set, master, over, (0, 2)), Ok(()));
    write(rt, set, over, 5, 9);
    put_block(rt, master, 64, 2);
    same(rt, read(rt, set, master, over, 5), 9);
    same(rt, read(rt, set, master, over, 64), 1);
    same(rt, read(rt, set, master, over, 135), 1);
    same(rt, (moved(rt, set), set.written(0)), (3, Some(129)));
    counts(rt, set, (0, 0, 2));
}

// A chunk is copied ahead and joins those that are split.
fn joins(
    rt: &impl Abort,
    set: &mut AnySet<MemDisk>,
    master: &mut MemDisk,
    over: &mut Option<Over<MemDisk>>,
) {
    join(rt, set, master, over, 2);
    put_block(rt, master, 135, 3);
    same(rt, read(rt, set, master, over, 135), 1);
    same(rt, moved(rt, set), 7);
}

// The master becomes the shadow, and chunks are copied back.
fn restores(
    rt: &impl Abort,
    set: &mut AnySet<MemDisk>,
    master: &mut MemDisk,
    over: &mut Option<Over<MemDisk>>,
) {
    assert!(rt; set.stage_master().is_ok());
    set.turn();
    counts(rt, set, (0, 3, 0));
    bring_back(rt, set, master, over, 2);
    same(rt, copy(rt, set, master, over), Ok(Some(0)));
    same(rt, copy(rt, set, master, over), Ok(Some(1)));
    same(rt, copy(rt, set, master, over), Ok(None));
    same(
        rt,
        (byte_on(rt, master, 5), byte_on(rt, master, 64)),
        (9, 1),
    );
    same(rt, state(rt, set, 1), ChunkState::OnBoth);
    counts(rt, set, (0, 0, 0));
}

// The shadow becomes the master again; a save that a tear stops fails.
fn renews(
    rt: &impl Abort,
    set: &mut AnySet<MemDisk>,
    master: &mut MemDisk,
    over: &mut Option<Over<MemDisk>>,
) {
    assert!(rt; set.stage_shadow(true).is_ok());
    set.turn();
    let tear = Tear {
        skip: 0,
        from: 0,
        count: 0,
    };
    assert!(rt; set.arm(1, tear) && !set.arm(2, tear));
    same(
        rt,
        save(rt, set, master, over, (0, 1)),
        Err(CompactFault::Failed),
    );
}

fn plays(
    rt: &impl Abort,
    alloc: Global,
    mut set: AnySet<MemDisk>,
    mut over: Option<Over<MemDisk>>,
) {
    let mut master = disk(rt, alloc, BLOCKS);
    for at in 0..BLOCKS {
        put_block(rt, &mut master, at, 1);
    }
    is_new(rt, &set);
    saves(rt, &mut set, &mut master, &mut over);
    joins(rt, &mut set, &mut master, &mut over);
    restores(rt, &mut set, &mut master, &mut over);
    renews(rt, &mut set, &mut master, &mut over);
    let mut old = changes_shadow(rt, &mut set, disk(rt, alloc, BLOCKS));
    same(rt, byte_on(rt, &mut old, 5), 9);
    assert!(rt; set.into_disks().0.is_some());
}

#[test]
fn a_set_in_chunks_answers(rt: HostRuntime) {
    let alloc = rt.alloc();
    let set = in_chunks(&rt, alloc);
    same(&rt, set.kind(), Kind::Dep);
    plays(&rt, alloc, set, None);
}

#[test]
fn a_compact_set_answers(rt: HostRuntime) {
    let alloc = rt.alloc();
    let set = in_slots(&rt, alloc);
    same(&rt, set.kind(), Kind::Compact);
    plays(&rt, alloc, set, made_over(&rt, alloc, 1));
}

// Of two slots there is none for a third chunk.
#[test]
fn a_compact_set_goes_offline(rt: HostRuntime) {
    let alloc = rt.alloc();
    let mut set = in_slots(&rt, alloc);
    let mut master = disk(&rt, alloc, BLOCKS);
    let came = save(&rt, &mut set, &mut master, &mut None, (0, 3));
    same(&rt, came, Err(CompactFault::Offline { need: 3, slots: 2 }));
    counts(&rt, &set, (0, 0, 0));
    assert!(rt; 0 < set.chunks());
    same(&rt, set.has_slots(&None, 0, &[7; 256]), Ok(false));
}
