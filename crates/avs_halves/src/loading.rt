// How the sets of a half are found on their disks, and taken apart.
ghost use Rattle.std.specs.Prelude.{◌≡◌, ◌+◌, ◌≤◌, [], ◌++◌, All, IfOk, IfErr, map, reverse, vec_len, vec_capacity};
ghost use Rattle.avs_sync.specs.Parts.{mirror_set};
ghost use Rattle.avs_halves.specs.SetBits.{part_of};
ghost use Rattle.avs_halves.specs.MirrorView.{set_bits};
ghost use Rattle.avs_halves.specs.Loading.{HasVolume, OpensSet, OpenRefused, OpensAll, StopsAt, half_why};

use crate::mirrors::Mirror;
use avs_bits::Bits;
use avs_dev::{Back, Below, Disk, Why};
use avs_seg::NoMemory;
use avs_sync::HalfSet;
use std::alloc::Global;

// A rule between disks, told in place of a field.
const BETWEEN: u32 = 64;

/// What a half says of a refused disk: one that is too small breaks a rule between disks, which is told as field 64.
pub fn half_why(why: Why) -> Why
    ensures { result ≡ half_why why }
{
    match why {
        Why::Size { .. } => Why::BadRecord(BETWEEN),
        other => other,
    }
}

// Room for so many sets.
pub(crate) fn make_room<D: Disk>(alloc: Global, count: usize) -> Result<Vec<Mirror<D>>, NoMemory>
    ensures none { IfOk result (λ v. v.items ≡ []) }
    ensures len { IfOk result (λ v. vec_len v ≡ 0) }
    ensures place { IfOk result (λ v. vec_capacity v ≡ count) }
{
    Ok(Vec::with_capacity(alloc, count)?)
}

// A set as it is found on its disk.
fn open<D: Disk, B: Below>(
    alloc: Global,
    part: HalfSet<D>,
    below: &B,
) -> Result<Mirror<D>, Back<HalfSet<D>, Why>>
    requires { HasVolume (B.seen below.now).sizes (mirror_set D.seen part) }
    ensures opens { IfOk result (λ m. OpensSet (B.seen below.now).sizes (mirror_set D.seen part) (set_bits m)) }
    ensures refused { IfErr result (λ e. OpenRefused (B.seen below.now).sizes (mirror_set D.seen part) e.why (mirror_set D.seen e.parts)) }
{
    let HalfSet { vol, slot, bits } = part;
    match Bits::load(alloc, bits, below.size(vol), false) {
        Ok(bits) => Ok(Mirror { vol, slot, bits }),
        Err(Back { parts: bits, why }) => Err(Back {
            parts: HalfSet { vol, slot, bits },
            why: half_why(why),
        }),
    }
}

// Opens the parts, of which the last is the first set. Where one is refused, it stands last among those that are left.
pub(crate) fn open_all<D: Disk, B: Below>(
    alloc: Global,
    parts: &mut Vec<HalfSet<D>>,
    sets: &mut Vec<Mirror<D>>,
    below: &B,
) -> Result<(), Why>
    requires volumes { All (HasVolume (B.seen below.now).sizes) (map (mirror_set D.seen) parts.old.items) }
    requires none { sets.old.items ≡ [] }
    requires len { vec_len sets.old ≡ 0 }
    requires place { vec_len parts.old ≤ vec_capacity sets.old }
    requires parts { vec_len parts.old ≤ vec_capacity parts.old }
    ensures left { vec_len parts.new + vec_len sets.new ≤ vec_capacity parts.new }
    ensures opens { IfOk result (λ _. OpensAll (B.seen below.now).sizes (map (mirror_set D.seen) parts.old.items) (map set_bits sets.new.items)) }
    ensures empty { IfOk result (λ _. vec_len parts.new ≡ 0) }
    ensures refused { IfErr result (λ why. StopsAt (B.seen below.now).sizes (map (mirror_set D.seen) parts.old.items) why
        (map (mirror_set D.seen) parts.new.items) (map set_bits sets.new.items)) }
{
    while let Some(part) = parts.pop() {
        match open(alloc, part, below) {
            Ok(set) => sets.push_reserved(set),
            Err(Back { parts: part, why }) => {
                parts.push_reserved(part);
                return Err(why);
            }
        }
    }
    Ok(())
}

// What a set is loaded from.
fn close<D: Disk>(set: Mirror<D>) -> HalfSet<D>
    ensures { mirror_set D.seen result ≡ part_of (set_bits set) }
{
    let Mirror { vol, slot, bits } = set;
    HalfSet {
        vol,
        slot,
        bits: bits.into_disk(),
    }
}

// What the sets are loaded from, and behind it the parts that are left, of which the last is the first.
pub(crate) fn close_all<D: Disk>(
    mut sets: Vec<Mirror<D>>,
    mut parts: Vec<HalfSet<D>>,
) -> Vec<HalfSet<D>>
    requires { vec_len parts + vec_len sets ≤ vec_capacity parts }
    ensures { map (mirror_set D.seen) result.items ≡ map part_of (map set_bits sets.items) ++ reverse (map (mirror_set D.seen) parts.items) }
{
    while let Some(set) = sets.pop() {
        parts.push_reserved(close(set));
    }
    parts.reverse();
    parts
}
