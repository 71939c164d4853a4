// Updates of a set of any kind, and copies ahead of those of another.

use crate::calls::{Below, Came, Set, done};
use avs_chunks::{ChunkState, Chunks};
use avs_compact::{ChunkState as SmallState, Compact};
use avs_dev::{Disk, MemDisk};

fn stage_whole(set: &mut Chunks<MemDisk>, below: &mut Below, split: &[u8; 256]) -> Came {
    if !set.can_save() || below.master.blocks() != set.blocks() || set.chunks() == 0 {
        return Came::Barred;
    }
    done(set.stage_part(&mut below.master, 0, split))
}

fn stage_small(set: &mut Compact<MemDisk>, below: &mut Below, split: &[u8; 256]) -> Came {
    if set.chunks() == 0 || !set.has_shadow() || below.master.blocks() != set.blocks() {
        return Came::Barred;
    }
    let Ok(lacks) = set.lacks(0, split) else {
        return Came::Barred;
    };
    if lacks > 2048 || set.need() + lacks > set.room(&below.over) {
        return Came::Barred;
    }
    done(set.stage_part(&mut below.master, &mut below.over, 0, split))
}

/// Copies chunks ahead, and stages them as split.
pub fn stage_part(set: &mut Set, below: &mut Below, split: &[u8; 256]) -> Came {
    match set {
        Set::Whole(set) => stage_whole(set, below, split),
        Set::Small(set) => stage_small(set, below, split),
    }
}

fn part_whole(set: &mut Chunks<MemDisk>, below: &mut Below, split: &[u8; 256]) -> Came {
    if !set.can_save() || below.master.blocks() != set.blocks() || set.chunks() == 0 {
        return Came::Barred;
    }
    done(set.copy_part(&mut below.master, 0, split))
}

fn part_small(set: &mut Compact<MemDisk>, below: &mut Below, split: &[u8; 256]) -> Came {
    if set.chunks() == 0 || !set.has_shadow() || below.master.blocks() != set.blocks() {
        return Came::Barred;
    }
    let Ok(lacks) = set.lacks(0, split) else {
        return Came::Barred;
    };
    if lacks > 2048 || set.need() + lacks > set.room(&below.over) {
        return Came::Barred;
    }
    done(set.copy_part(&mut below.master, &mut below.over, 0, split))
}

/// Copies chunks ahead.
pub fn copy_part(set: &mut Set, below: &mut Below, split: &[u8; 256]) -> Came {
    match set {
        Set::Whole(set) => part_whole(set, below, split),
        Set::Small(set) => part_small(set, below, split),
    }
}

fn ahead_whole(set: &mut Chunks<MemDisk>, below: &mut Below, chunk: u32) -> Came {
    if !set.has_shadow() || below.master.blocks() != set.blocks() || chunk >= set.chunks() {
        return Came::Barred;
    }
    if set.state(chunk) == ChunkState::OnMaster {
        return done(set.copy_ahead(&mut below.master, chunk));
    }
    Came::Done
}

fn ahead_small(set: &mut Compact<MemDisk>, below: &mut Below, chunk: u32) -> Came {
    if !set.has_shadow() || below.master.blocks() != set.blocks() || chunk >= set.chunks() {
        return Came::Barred;
    }
    if set.state(chunk) != SmallState::OnMaster {
        return Came::Done;
    }
    if set.need() >= set.room(&below.over) {
        return Came::Barred;
    }
    set.keeps_form();
    done(set.copy_ahead(&mut below.master, &mut below.over, chunk))
}

/// Copies a chunk ahead, where it stands on the master alone.
pub fn copy_ahead(set: &mut Set, below: &mut Below, chunk: u32) -> Came {
    match set {
        Set::Whole(set) => ahead_whole(set, below, chunk),
        Set::Small(set) => ahead_small(set, below, chunk),
    }
}

/// Stages chunks as split.
pub fn stage_split(set: &mut Set, split: &[u8; 256]) -> Came {
    match set {
        Set::Whole(set) if 0 < set.chunks() => done(set.stage_split(0, split)),
        Set::Small(set) if 0 < set.chunks() => done(set.stage_split(0, split)),
        _ => Came::Barred,
    }
}

/// Stages what the set is once the shadow is its master again.
pub fn turn_to_shadow(set: &mut Set, whole: bool) -> Came {
    match set {
        Set::Whole(set) => done(set.turn_to_shadow(whole)),
        Set::Small(set) => done(set.turn_to_shadow(whole)),
    }
}

/// Stages what the set is once the master is its shadow.
pub fn turn_to_master(set: &mut Set) -> Came {
    match set {
        Set::Whole(set) => done(set.turn_to_master()),
        Set::Small(set) => done(set.turn_to_master()),
    }
}

/// Makes what was staged live.
pub fn turn(set: &mut Set) {
    match set {
        Set::Whole(set) => set.turn(),
        Set::Small(set) => set.turn(),
    }
}
