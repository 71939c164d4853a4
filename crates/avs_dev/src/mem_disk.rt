// Disks in memory, which fail at the calls of a list and by an armed tear.
ghost use Rattle.std.specs.Prelude.{◌≡◌, ◌+◌, ◌*◌, ◌/◌, ◌<◌, ◌≤◌, ◌^◌, length, replicate, vec_len, IfOk};
ghost use Rattle.avs_seg.specs.Image.{blocks_of, put, range};

use crate::disk::{Arm, Disk, Tear};
use avs_seg::{BLOCK, Failed, NoMemory};
use std::alloc::Global;
use std::fmt;

/// A disk in memory. It tells its blocks, and is steady where its list of failing calls is empty.
#[derive(Drop)]
pub struct MemDisk {
    bytes: Vec<u8>,
    size: u32,
    fails: Vec<u64>,
    calls: u64,
    faults: u64,
    written: u64,
    tear: Option<Tear>,
    ghost whole: { vec_len bytes ≡ 512 * size },
    ghost in_range: { size < 2 ^ 32 },
}

// So many bytes of zeros.
fn zeros(alloc: Global, count: usize) -> Result<Vec<u8>, NoMemory>
    ensures items { IfOk result (λ v. v.items ≡ replicate count 0) }
    ensures len { IfOk result (λ v. vec_len v ≡ count) }
{
    Ok(vec![in alloc; 0; count]?)
}

// Copies the blocks from one on into a slice of whole blocks.
fn load(bytes: &[u8], at: usize, out: &mut [u8])
    requires whole { 512 * (length out.old / 512) ≡ length out.old }
    requires inside { 512 * at + length out.old ≤ length bytes.now }
    ensures { blocks_of out.new ≡ range (blocks_of bytes.now) at (length out.new / 512) }
{
    let start = BLOCK * at;
    out.copy_from_slice(&bytes[start..start + out.len()]);
}

// Copies a slice of whole blocks over the blocks from one on.
fn store(bytes: &mut [u8], at: usize, new: &[u8])
    requires whole { 512 * (length new.now / 512) ≡ length new.now }
    requires inside { 512 * at + length new.now ≤ length bytes.old }
    ensures { blocks_of bytes.new ≡ put (blocks_of bytes.old) at (blocks_of new.now) }
{
    let start = BLOCK * at;
    bytes[start..start + new.len()].copy_from_slice(new);
}

impl MemDisk {
    ghost use Rattle.std.specs.Prelude.{IsTrue, not};
    ghost use Rattle.avs_dev.specs.Seen.{IsRange};
    ghost use Rattle.avs_dev.specs.Memory.{state_of, new_state, seen_of, is_listed, due, called, failed, nearer, stored};

    /// A disk of zeros. Its calls with these numbers fail, counted from 1 over reads and writes.
    pub fn new(alloc: Global, blocks: u32, fails: Vec<u64>) -> Result<MemDisk, NoMemory>
        ensures { IfOk result (λ d. state_of d ≡ new_state blocks fails.items) }
    {
        Ok(MemDisk {
            bytes: zeros(alloc, BLOCK * blocks as usize)?,
            size: blocks,
            fails,
            calls: 0,
            faults: 0,
            written: 0,
            tear: None,
        })
    }

    // Counts a call, and a fault where the call is on the list. Says whether it is.
    fn fails_by_list(&mut self) -> bool
        ensures answer { result ≡ is_listed (state_of self.old) }
        ensures failed { IsTrue result → state_of self.new ≡ failed (state_of self.old) }
        ensures called { IsTrue (not result) → state_of self.new ≡ called (state_of self.old) }
        ensures later { self.old.faults ≤ self.new.faults }
    {
        self.calls = self.calls.saturating_add(1);
        let fails = self.fails.contains(&self.calls);
        if fails {
            self.faults = self.faults.saturating_add(1);
        }
        fails
    }

    // The tear that this write uses, if one is due, which is then armed no more. Another comes one write nearer.
    fn take_due(&mut self) -> Option<Tear>
        ensures answer { result ≡ due self.old.tear }
        ensures after { state_of self.new ≡ nearer (state_of self.old) }
    {
        let tear = self.tear?;
        if tear.skip == 0 {
            self.tear = None;
            return Some(tear);
        }
        self.tear = Some(Tear {
            skip: tear.skip - 1,
            ..tear
        });
        None
    }

    // Stores the blocks of a write, and counts them.
    fn store_all(&mut self, at: u32, bytes: &[u8])
        requires { IsRange (seen_of (state_of self.old)) at (length bytes.now) }
        ensures later { self.old.written ≤ self.new.written }
        ensures after { state_of self.new ≡ stored None (state_of self.old) at (blocks_of bytes.now) }
    {
        store(&mut self.bytes, at as usize, bytes);
        self.written = self.written.saturating_add((bytes.len() / BLOCK) as u64);
    }

    // Stores what a tear leaves of a write, and counts a fault.
    fn store_torn(&mut self, at: u32, bytes: &[u8], tear: Tear)
        requires { IsRange (seen_of (state_of self.old)) at (length bytes.now) }
        ensures later { self.old.faults ≤ self.new.faults }
        ensures after { state_of self.new ≡ stored (Some tear) (state_of self.old) at (blocks_of bytes.now) }
    {
        let blocks = bytes.len() / BLOCK;
        let from = blocks.min(tear.from as usize);
        let count = (blocks - from).min(tear.count as usize);
        let part = &bytes[BLOCK * from..BLOCK * (from + count)];
        store(&mut self.bytes, at as usize + from, part);
        self.faults = self.faults.saturating_add(1);
    }
}

impl Disk for MemDisk {
    ghost use Rattle.std.specs.Prelude.{not, is_ok, refl};
    ghost use Rattle.avs_dev.specs.Seen.{IsRange, Reads, Writes};
    ghost use Rattle.avs_dev.specs.Memory.{state_of, seen_of, is_listed, is_failing, after_read, after_write};

    ghost seen = { λ m. seen_of (state_of m) };

    ghost fits = { λ m. m.in_range };

    ghost armed_is = { λ _. refl };

    fn blocks(&self) -> u32 {
        self.size
    }

    /// It fails exactly where the list says so.
    fn read(&mut self, at: u32, out: &mut [u8]) -> Result<(), Failed>
        requires { IsRange (seen_of (state_of self.old)) at (length out.old) }
        ensures reads { Reads (seen_of (state_of self.old)) at out.new result (seen_of (state_of self.new)) }
        ensures answer { is_ok result ≡ not (is_listed (state_of self.old)) }
        ensures after { state_of self.new ≡ after_read (state_of self.old) }
    {
        if self.fails_by_list() {
            return Err(Failed);
        }
        load(&self.bytes, at as usize, out);
        Ok(())
    }

    /// It fails exactly where the list or a tear says so. Where the list does, nothing is stored, and an armed tear stays as it is.
    fn write(&mut self, at: u32, bytes: &[u8]) -> Result<(), Failed>
        requires { IsRange (seen_of (state_of self.old)) at (length bytes.now) }
        ensures writes { Writes (seen_of (state_of self.old)) at bytes.now result (seen_of (state_of self.new)) }
        ensures answer { is_ok result ≡ not (is_failing (state_of self.old)) }
        ensures after { state_of self.new ≡ after_write (state_of self.old) at (blocks_of bytes.now) }
    {
        if self.fails_by_list() {
            return Err(Failed);
        }
        if let Some(tear) = self.take_due() {
            self.store_torn(at, bytes, tear);
            return Err(Failed);
        }
        self.store_all(at, bytes);
        Ok(())
    }

    fn written(&self) -> u64 {
        self.written
    }
}

impl fmt::Debug for MemDisk {
    fn fmt<W: fmt::Write>(&self, f: &mut fmt::Formatter<W>) -> fmt::Result {
        write!(f, "MemDisk of {} blocks", self.size)
    }
}

impl Arm for MemDisk {
    ghost use Rattle.std.specs.Prelude.{refl};
    ghost use Rattle.avs_dev.specs.Seen.{Arms};
    ghost use Rattle.avs_dev.specs.Memory.{state_of, seen_of};

    ghost steady_arms = { λ _ _. refl };

    /// It can always be armed.
    fn arm(&mut self, tear: Tear) -> bool
        ensures arms { Arms (seen_of (state_of self.old)) tear result (seen_of (state_of self.new)) }
        ensures after { state_of self.new ≡ record (state_of self.old) { tear = Some tear } }
    {
        self.tear = Some(tear);
        true
    }
}
