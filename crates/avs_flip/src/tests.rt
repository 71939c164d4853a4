// Areas of three blocks, from block 1 of a disk of eight blocks on.
ghost use Rattle.std.specs.Prelude.{◌≡◌, ◌<◌, IfOk};

use crate::Flip;
use avs_dev::{Arm, Disk, MemDisk, Tear};
use avs_seg::{BLOCK, Failed};
use std::alloc::Global;
use std::process::Abort;
use std::test::Fail;

// Area B is live where `live_b` says so.
fn load<D: Disk>(rt: &impl Abort, disk: D, live_b: bool) -> Flip<D>
    ensures { result.len ≡ 3 }
{
    assert!(rt; disk.blocks() == 8);
    Flip::load(disk, 1, 3, live_b)
}

// A fresh disk of which calls with these numbers fail. Area A is live.
fn fresh(rt: &impl Abort, alloc: Global, fails: &[u64]) -> Result<Flip<MemDisk>, Fail>
    ensures { IfOk result (λ flip. flip.len ≡ 3) }
{
    let disk = MemDisk::new(alloc, 8, fails.to_vec(alloc)?)?;
    Ok(load(rt, disk, false))
}

// Stages a block of one byte throughout.
fn stage<D: Disk>(flip: &mut Flip<D>, at: u32, byte: u8) -> Result<(), Failed>
    requires { at < flip.old.len }
    ensures { flip.new.len ≡ flip.old.len }
{
    flip.stage(at, &[byte; BLOCK])
}

fn put_live<D: Disk>(flip: &mut Flip<D>, at: u32, byte: u8) -> Result<(), Failed>
    requires { at < flip.old.len }
    ensures { flip.new.len ≡ flip.old.len }
{
    flip.put_live(at, &[byte; BLOCK])
}

// A block of one byte throughout, as that byte.
fn byte_of(rt: &impl Abort, block: &[u8]) -> u8 {
    assert!(rt; block.len() == BLOCK);
    assert!(rt; block.iter().all(|&byte| byte == block[0]));
    block[0]
}

// The byte of a live block.
fn live<D: Disk>(rt: &impl Abort, flip: &mut Flip<D>, at: u32) -> Result<u8, Failed>
    requires { at < flip.old.len }
    ensures { flip.new.len ≡ flip.old.len }
{
    let mut out = [9; BLOCK];
    flip.live(at, &mut out)?;
    Ok(byte_of(rt, &out))
}

// Arms a tear that stores so many blocks of the next write.
fn arm<D: Arm>(flip: &mut Flip<D>, disk: u32, count: u32) -> bool
    ensures { flip.new.len ≡ flip.old.len }
{
    flip.arm(
        disk,
        Tear {
            skip: 0,
            from: 0,
            count,
        },
    )
}

// The blocks of the whole disk.
fn contents(rt: &impl Abort, alloc: Global, mut disk: MemDisk) -> Result<Vec<u8>, Fail> {
    assert!(rt; disk.blocks() == 8);
    let mut bytes = vec![in alloc; 1; 8 * BLOCK]?;
    disk.read(0, &mut bytes)?;
    let mut blocks = Vec::new(alloc);
    for block in bytes.chunks(BLOCK) {
        blocks.push(byte_of(rt, block))?;
    }
    Ok(blocks)
}

#[test]
fn staged_blocks_are_live_after_a_turn(rt: HostRuntime) -> Result<(), Fail> {
    let alloc = rt.alloc();
    let mut flip = fresh(&rt, alloc, &[])?;
    put_live(&mut flip, 1, 7)?;
    stage(&mut flip, 0, 4)?;
    stage(&mut flip, 1, 5)?;
    assert_eq!(rt; live(&rt, &mut flip, 1)?, 7);
    flip.turn();
    assert_eq!(rt; live(&rt, &mut flip, 1)?, 5);
    stage(&mut flip, 2, 6)?;
    put_live(&mut flip, 2, 8)?;
    assert_eq!(rt; flip.written(0), Some(5));
    assert_eq!(rt; flip.written(1), None);
    let blocks = contents(&rt, alloc, flip.into_disk())?;
    assert_eq!(rt; blocks.as_slice(), [0, 0, 7, 6, 4, 5, 8, 0].as_slice());
    Ok(())
}

#[test]
fn a_loaded_disk_has_the_same_areas(rt: HostRuntime) -> Result<(), Fail> {
    let alloc = rt.alloc();
    let mut flip = fresh(&rt, alloc, &[])?;
    put_live(&mut flip, 2, 3)?;
    stage(&mut flip, 2, 4)?;
    flip.turn();
    let mut again = load(&rt, flip.into_disk(), true);
    assert_eq!(rt; live(&rt, &mut again, 2)?, 4);
    again.turn();
    assert_eq!(rt; live(&rt, &mut again, 2)?, 3);
    Ok(())
}

#[test]
fn a_listed_call_that_stages_changes_nothing(rt: HostRuntime) -> Result<(), Fail> {
    let alloc = rt.alloc();
    let mut flip = fresh(&rt, alloc, &[3])?;
    put_live(&mut flip, 0, 1)?;
    stage(&mut flip, 0, 2)?;
    assert_eq!(rt; stage(&mut flip, 0, 3), Err(Failed));
    let blocks = contents(&rt, alloc, flip.into_disk())?;
    assert_eq!(rt; blocks.as_slice(), [0, 1, 0, 0, 2, 0, 0, 0].as_slice());
    Ok(())
}

#[test]
fn a_torn_write_leaves_the_old_or_the_new_block(rt: HostRuntime) -> Result<(), Fail> {
    let alloc = rt.alloc();
    let mut flip = fresh(&rt, alloc, &[])?;
    put_live(&mut flip, 0, 1)?;
    assert!(rt; !arm(&mut flip, 1, 1));
    assert!(rt; arm(&mut flip, 0, 0));
    assert_eq!(rt; stage(&mut flip, 0, 2), Err(Failed));
    assert!(rt; arm(&mut flip, 0, 1));
    assert_eq!(rt; stage(&mut flip, 1, 3), Err(Failed));
    assert!(rt; arm(&mut flip, 0, 0));
    assert_eq!(rt; put_live(&mut flip, 0, 4), Err(Failed));
    assert!(rt; arm(&mut flip, 0, 1));
    assert_eq!(rt; put_live(&mut flip, 1, 5), Err(Failed));
    assert_eq!(rt; flip.written(0), Some(1));
    let blocks = contents(&rt, alloc, flip.into_disk())?;
    assert_eq!(rt; blocks.as_slice(), [0, 1, 5, 0, 0, 3, 0, 0].as_slice());
    Ok(())
}
