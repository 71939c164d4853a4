ghost use Rattle.std.specs.Prelude.{◌≤◌};

use crate::MemQueue;
use avs_model::{Blocks, Entry, EntryKind, Full, Limits};
use avs_seg::BLOCK;
use std::alloc::{AllocError, Global};
use std::process::Abort;
use std::test::Fail;

fn limits(writes: u32, blocks: u32) -> Limits {
    Limits {
        writes,
        blocks,
        block_mode: true,
    }
}

// A write of so many blocks that are filled with one byte.
fn write_of(alloc: Global, at: u32, count: u32, byte: u8) -> Result<Entry, AllocError>
    requires { count ≤ 256 }
{
    let bytes = vec![in alloc; byte; BLOCK * count as usize]?;
    Ok(Entry {
        kind: EntryKind::Write,
        set: 3,
        at,
        bytes: Blocks::new(bytes),
    })
}

fn assert_write(rt: &impl Abort, entry: &Entry, at: u32, count: usize, byte: u8)
    requires { count ≤ 256 }
{
    assert_eq!(rt; entry.kind, EntryKind::Write);
    assert_eq!(rt; entry.set, 3);
    assert_eq!(rt; entry.at, at);
    let bytes = entry.bytes.as_slice();
    assert_eq!(rt; bytes.len(), BLOCK * count);
    assert!(rt; bytes.iter().all(|b| *b == byte));
}

#[test]
fn two_writes_fill_a_queue_of_two(rt: HostRuntime) -> Result<(), Fail> {
    let alloc = rt.alloc();
    let mut queue = MemQueue::new(alloc, limits(2, 256))?;
    assert!(rt; queue.get(2).is_none());
    queue.push(2, write_of(alloc, 0, 1, 11)?)?;
    queue.push(3, write_of(alloc, 1, 1, 22)?)?;
    let Err((entry, full)) = queue.push(4, write_of(alloc, 2, 1, 33)?) else {
        return Err("a third write was taken".into());
    };
    assert_eq!(rt;
        full,
        Full {
            writes: 2,
            blocks: 2
        }
    );
    assert_write(&rt, &entry, 2, 1, 33);
    assert!(rt; queue.get(4).is_none());
    queue.advance(2);
    assert!(rt; queue.get(2).is_none());
    assert_write(&rt, queue.get(3).ok_or("no entry 3")?, 1, 1, 22);
    queue.push(4, entry)?;
    assert_write(&rt, queue.get(3).ok_or("no entry 3")?, 1, 1, 22);
    assert_write(&rt, queue.get(4).ok_or("no entry 4")?, 2, 1, 33);
    assert!(rt; queue.get(5).is_none());
    Ok(())
}

#[test]
fn blocks_fill_a_queue_exactly(rt: HostRuntime) -> Result<(), Fail> {
    let alloc = rt.alloc();
    let mut queue = MemQueue::new(alloc, limits(8, 256))?;
    queue.push(1, write_of(alloc, 0, 250, 11)?)?;
    let Err((entry, full)) = queue.push(2, write_of(alloc, 0, 7, 22)?) else {
        return Err("a block too many was taken".into());
    };
    assert_eq!(rt;
        full,
        Full {
            writes: 1,
            blocks: 250
        }
    );
    assert_write(&rt, &entry, 0, 7, 22);
    queue.push(2, write_of(alloc, 64, 6, 33)?)?;
    queue.advance(0);
    assert_write(&rt, queue.get(1).ok_or("no entry 1")?, 0, 250, 11);
    queue.advance(1);
    assert!(rt; queue.get(1).is_none());
    queue.push(3, entry)?;
    let Err((_, full)) = queue.push(4, write_of(alloc, 0, 256, 44)?) else {
        return Err("a second write of 256 blocks was taken".into());
    };
    assert_eq!(rt;
        full,
        Full {
            writes: 2,
            blocks: 13
        }
    );
    Ok(())
}

#[test]
fn an_emptied_queue_takes_any_place(rt: HostRuntime) -> Result<(), Fail> {
    let alloc = rt.alloc();
    let mut queue = MemQueue::new(alloc, limits(1, 256))?;
    queue.push(4611686018427387904, write_of(alloc, 0, 256, 11)?)?;
    queue.advance(u64::MAX);
    assert!(rt; queue.get(4611686018427387904).is_none());
    queue.push(1, write_of(alloc, 0, 1, 22)?)?;
    assert_write(&rt, queue.get(1).ok_or("no entry 1")?, 0, 1, 22);
    assert!(rt; queue.get(0).is_none());
    Ok(())
}
