// What is told of sets in lists.
ghost use Rattle.std.specs.Prelude.{◌≡◌, ◌&&◌, IfOk, filter, map, nat_lt};
ghost use Rattle.std.specs.List.{range_with_len};
ghost use Rattle.avs_bits.specs.BitSet.{set_of};

use crate::mirrors::Mirror;
use avs_bits::Bits;
use avs_dev::Disk;
use avs_seg::{NoMemory, SegList};
use std::alloc::Global;

// The segments that are in a set, rising.
pub(crate) fn list<D: Disk>(alloc: Global, bits: &Bits<D>) -> Result<SegList, NoMemory>
    ensures { IfOk result (λ l. l ≡ filter (λ s. nat_lt s bits.now.segs && set_of bits.now s) (range_with_len 0 bits.now.segs)) }
{
    let mut found = SegList::new(alloc);
    let end = bits.segs();
    let mut from = 0;
    while let Some(seg) = bits.next_from(from) {
        found.push(seg)?;
        from = seg + 1;
    }
    Ok(found)
}

// The volumes of sets.
pub(crate) fn volumes<D: Disk>(alloc: Global, sets: &[Mirror<D>]) -> Result<Vec<u32>, NoMemory>
    ensures { IfOk result (λ v. v.items ≡ map (λ m. m.vol) sets.now) }
{
    Ok(sets.iter().map(|set| set.vol).collect(alloc)?)
}
