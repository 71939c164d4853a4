// A set of segments in memory and on a disk.
ghost use Rattle.std.specs.Prelude.{◌≡◌, ◌+◌, ◌*◌, ◌/◌, ◌<◌, ◌≤◌, ◌^◌, ℕ, Bool, true, false, nat_lt, IfOk, IfErr, length, replicate};
ghost use Rattle.avs_seg.specs.Image.{block_at, blocks_of, put, ChangesWithin};
ghost use Rattle.avs_seg.specs.Segment.{seg_count};
ghost use Rattle.avs_dev.specs.Seen.{IsTold};
ghost use Rattle.avs_dev.specs.Memory.{counted};
ghost use Rattle.avs_code.specs.Label.{IsLabel};
ghost use Rattle.avs_bits.specs.Bit.{bit_of, IsHeld, FindsBit};
ghost use Rattle.avs_bits.specs.BitSet.{BitSet, IsInStep, IsZeroBehind, Changes, MakeRefused, LoadRefused, ArmsDisk, blocks_for, bitmap_label, place, written_of, set_of, AreNew, IsKept};

use crate::bit_bytes::{has_bit, next_bit, put_bits};
use crate::changes::{BLOCK_BITS, change};
use crate::label_bytes::{bitmap_label, put_first, read_first, room, stamp_of};
use avs_code::BadRecord;
use avs_dev::{Arm, Back, Closed, Disk, Tear, Why};
use avs_seg::{Failed, seg_count};
use std::alloc::Global;
use std::marker::Model;

// Where the bits of segments begin: behind the block of the label.
const FIRST: u32 = BLOCK_BITS;

/// A set of segments of a volume: bits in memory, and behind the label of a disk.
#[derive(Drop)]
pub struct Bits<D: Disk> {
    disk: D,
    // The label and the bits, as they lie on the disk.
    bytes: Vec<u8>,
    segs: u32,
    stamp: u64,
}

impl<D: Disk> Model for Bits<D> {
    ghost use Rattle.avs_bits.specs.BitSet.{BitSet, IsKept};

    ghost Value = { BitSet };

    ghost view = { λ b. record { disk = D.seen b.disk; bytes = b.bytes.items; segs = b.segs; stamp = b.stamp } };

    ghost invariant = { λ b. IsKept b.bytes.items b.segs (D.seen b.disk).size };
}

impl<D: Disk> Bits<D> {
    /// Writes the label and the bits of a volume of so many blocks: every segment or none. With stamp 0 the label
    /// is that of a mirror bitmap, else that of an import bitmap with the stamp.
    pub fn make(
        alloc: Global,
        mut disk: D,
        blocks: u32,
        full: bool,
        stamp: u64,
    ) -> Result<Bits<D>, Closed<D>>
        requires { stamp ≤ 2 ^ 62 }
        ensures fits { IfOk result (λ b. blocks_for b.segs ≤ b.disk.size) }
        ensures segs { IfOk result (λ b. b.segs ≡ seg_count blocks) }
        ensures stamp { IfOk result (λ b. b.stamp ≡ stamp) }
        ensures are_new { IfOk result (λ b. AreNew b.bytes blocks full stamp) }
        ensures set { IfOk result (λ b. (s : ℕ) → s < b.segs → set_of b s ≡ full) }
        ensures size { IfOk result (λ b. b.disk.size ≡ (D.seen disk).size) }
        ensures steady { IfOk result (λ b. b.disk.steady ≡ (D.seen disk).steady) }
        ensures still_armed { IfOk result (λ b. b.disk.armed ≡ (D.seen disk).armed) }
        ensures same { IfOk result (λ b. b.disk.faults ≡ (D.seen disk).faults) }
        ensures later { IfOk result (λ b. (D.seen disk).faults ≤ b.disk.faults) }
        ensures written { IfOk result (λ b. b.disk.written ≡ counted (D.seen disk).written (blocks_for b.segs)) }
        ensures told { IfOk result (λ b. IsTold (D.seen disk) → IsTold b.disk) }
        ensures image { IfOk result (λ b. IsTold (D.seen disk) → b.disk.image ≡ put (D.seen disk).image 0 (blocks_of b.bytes)) }
        ensures label { IfOk result (λ b. IsTold (D.seen disk)
            → IsLabel (block_at b.disk.image 0) (bitmap_label (nat_lt 0 stamp) blocks stamp)) }
        ensures step { IfOk result (λ b. IsTold (D.seen disk) → IsInStep b) }
        ensures zeros { IfOk result (λ b. IsTold (D.seen disk) → IsZeroBehind b.disk.image b.segs) }
        ensures within { IfOk result (λ b. IsTold (D.seen disk)
            → ChangesWithin 0 (blocks_for b.segs) (D.seen disk).image b.disk.image) }
        ensures refused { IfErr result (λ e. MakeRefused (D.seen disk) blocks full stamp e.why (D.seen e.parts)) }
        ensures stands { IfErr result (λ e. IsTold (D.seen disk)
            → ChangesWithin 0 (blocks_for (seg_count blocks)) (D.seen disk).image (D.seen e.parts).image) }
    {
        let segs = seg_count(blocks);
        let mut bytes = match room(alloc, &disk, segs) {
            Ok(bytes) => bytes,
            Err(why) => return Err(Back { parts: disk, why }),
        };
        fill_bytes(&mut bytes, blocks, full, stamp);
        match disk.write(0, &bytes) {
            Ok(()) => Ok(Bits {
                disk,
                bytes,
                segs,
                stamp,
            }),
            Err(Failed) => Err(Back {
                parts: disk,
                why: Why::Fault,
            }),
        }
    }

    /// Reads the set of a volume of so many blocks from the disk of a mirror bitmap, or of an import bitmap.
    /// `BadRecord` names the field of the label that breaks its rule, or by which it is another one.
    pub fn load(alloc: Global, mut disk: D, blocks: u32, import: bool) -> Result<Bits<D>, Closed<D>>
        ensures fits { IfOk result (λ b. blocks_for b.segs ≤ b.disk.size) }
        ensures segs { IfOk result (λ b. b.segs ≡ seg_count blocks) }
        ensures same { IfOk result (λ b. b.disk ≡ D.seen disk) }
        ensures kept { IfOk result (λ b. b.disk ≡ record (D.seen disk) { faults = b.disk.faults }) }
        ensures later { IfOk result (λ b. (D.seen disk).faults ≤ b.disk.faults) }
        ensures label { IfOk result (λ b. IsTold (D.seen disk)
            → IsLabel (block_at (D.seen disk).image 0) (bitmap_label import blocks b.stamp)) }
        ensures step { IfOk result (λ b. IsTold (D.seen disk) → IsInStep b) }
        ensures refused { IfErr result (λ e. LoadRefused (D.seen disk) import blocks e.why (D.seen e.parts)) }
        ensures stands { IfErr result (λ e. D.seen e.parts ≡ record (D.seen disk) { faults = (D.seen e.parts).faults }) }
    {
        match read_bytes(alloc, &mut disk, blocks, import) {
            Ok((bytes, stamp)) => Ok(Bits {
                disk,
                bytes,
                segs: seg_count(blocks),
                stamp,
            }),
            Err(why) => Err(Back { parts: disk, why }),
        }
    }

    /// How many segments the volume has.
    pub fn segs(&self) -> u32
        ensures { result ≡ self.now.segs }
    {
        self.segs
    }

    /// The stamp of the label.
    pub fn stamp(&self) -> u64
        ensures { result ≡ self.now.stamp }
    {
        self.stamp
    }

    /// Whether a segment is in the set.
    pub fn has(&self, seg: u32) -> bool
        requires { seg < self.now.segs }
        ensures { result ≡ set_of self.now seg }
    {
        has_bit(&self.bytes, FIRST + seg)
    }

    /// The least segment of the set at or above one.
    pub fn next_from(&self, seg: u32) -> Option<u32>
        ensures { FindsBit (set_of self.now) seg self.now.segs result }
    {
        if seg >= self.segs {
            return None;
        }
        let found = next_bit(&self.bytes, FIRST + seg, FIRST + self.segs)?;
        Some(found - FIRST)
    }

    // Makes segments as `on` says.
    fn change(&mut self, first: u32, count: u32, on: bool) -> Result<(), Failed>
        requires { first + count ≤ self.old.segs }
        ensures { Changes self.old first (first + count) on result self.new }
    {
        change(
            &mut self.disk,
            &mut self.bytes,
            FIRST + first,
            FIRST + (first + count),
            on,
        )
    }

    /// Adds segments.
    pub fn set(&mut self, first: u32, count: u32) -> Result<(), Failed>
        requires { first + count ≤ self.old.segs }
        ensures { Changes self.old first (first + count) true result self.new }
    {
        self.change(first, count, true)
    }

    /// Takes a segment out.
    pub fn clear(&mut self, seg: u32) -> Result<(), Failed>
        requires { seg < self.old.segs }
        ensures { Changes self.old seg (seg + 1) false result self.new }
    {
        self.change(seg, 1, false)
    }

    /// Adds every segment.
    pub fn fill(&mut self) -> Result<(), Failed>
        ensures { Changes self.old 0 self.old.segs true result self.new }
    {
        self.change(0, self.segs, true)
    }

    /// Takes every segment out.
    pub fn wipe(&mut self) -> Result<(), Failed>
        ensures { Changes self.old 0 self.old.segs false result self.new }
    {
        self.change(0, self.segs, false)
    }

    /// Hands the disk back.
    pub fn into_disk(self) -> D
        ensures disk { D.seen result ≡ self.disk }
        ensures fits { blocks_for self.segs ≤ self.disk.size }
    {
        let Bits { disk, .. } = self;
        disk
    }

    /// How many blocks have been written on a disk. Its number is 0, and there is no other.
    pub fn written(&self, disk: u32) -> Option<u64>
        ensures { result ≡ written_of self.now disk }
    {
        if disk == 0 {
            Some(self.disk.written())
        } else {
            None
        }
    }

    /// Arms a tear on a disk. Its number is 0, and there is no other.
    pub fn arm(&mut self, disk: u32, tear: Tear) -> bool
    where
        D: Arm,
        ensures { ArmsDisk self.old disk tear result self.new }
    {
        disk == 0 && self.disk.arm(tear)
    }
}

// The label of a bitmap, and behind it the bits of every segment or none.
fn fill_bytes(bytes: &mut Vec<u8>, blocks: u32, full: bool, stamp: u64)
    requires stamp { stamp ≤ 2 ^ 62 }
    requires zeros { bytes.old.items ≡ replicate (512 * blocks_for (seg_count blocks)) 0 }
    ensures { AreNew bytes.new.items blocks full stamp }
{
    let segs = seg_count(blocks);
    put_bits(bytes, FIRST, FIRST + segs, full);
    put_first(bytes, &bitmap_label(blocks, stamp));
}

// Reads the label and the bits of a bitmap, and the stamp of the label.
fn read_bytes<D: Disk>(
    alloc: Global,
    disk: &mut D,
    blocks: u32,
    import: bool,
) -> Result<(Vec<u8>, u64), Why>
    ensures rest { D.seen disk.new ≡ record (D.seen disk.old) { faults = (D.seen disk.new).faults } }
    ensures later { (D.seen disk.old).faults ≤ (D.seen disk.new).faults }
    ensures same { IfOk result (λ _. D.seen disk.new ≡ D.seen disk.old) }
    ensures kept { IfOk result (λ p. IsKept p.0.items (seg_count blocks) (D.seen disk.old).size) }
    ensures held { IfOk result (λ p. IsTold (D.seen disk.old)
        → IsHeld (D.seen disk.old).image (place (seg_count blocks)) (bit_of p.0.items)) }
    ensures label { IfOk result (λ p. IsTold (D.seen disk.old)
        → IsLabel (block_at (D.seen disk.old).image 0) (bitmap_label import blocks p.1)) }
    ensures refused { IfErr result (λ why. LoadRefused (D.seen disk.old) import blocks why (D.seen disk.new)) }
{
    let segs = seg_count(blocks);
    let mut bytes = room(alloc, disk, segs)?;
    read_first(disk, &mut bytes)?;
    let stamp = match stamp_of(&bytes, import, blocks) {
        Ok(stamp) => stamp,
        Err(BadRecord(field)) => return Err(Why::BadRecord(field)),
    };
    let end = BLOCK_BITS * (1 + segs.div_ceil(BLOCK_BITS));
    put_bits(&mut bytes, FIRST + segs, end, false);
    Ok((bytes, stamp))
}
