// A volume that was given away and is written here.
ghost use Rattle.std.specs.Prelude.{◌≡◌, ◌≤◌, ◌^◌, IfOk, IfErr, filter, length};
ghost use Rattle.std.specs.List.{range_with_len};
ghost use Rattle.avs_dev.specs.Seen.{IsRange};
ghost use Rattle.avs_join.specs.Imported.{IsKnown, import_of, listed};
ghost use Rattle.avs_join.specs.Importing.{MakesImport, LoadsImport, IsRefusedBy, ImportMakeRefused, ImportLoadRefused};
ghost use Rattle.avs_join.specs.Writing.{ReadsImport, WritesImport};

use crate::format::format;
use crate::refusals::refusal_of;
use avs_bits::Bits;
use avs_dev::{Back, Disk};
use avs_model::Refusal;
use avs_seg::{BLOCK, Failed, NoMemory, SEGMENT, SegList, seg_count};
use std::alloc::Global;
use std::marker::Model;

/// Two disks that were refused.
pub type Returned2<D> = Back<(D, D), Refusal>;

/// An import: a volume that was given away, which is read and written here, also behind the blocks of the set that it serves; and
/// the bitmap that keeps in which segments it was written since. No call but `make`, `load` and `bits` takes memory.
#[derive(Drop)]
pub struct Import<D: Disk> {
    pub(crate) volume: D,
    pub(crate) bits: Bits<D>,
}

impl<D: Disk> Model for Import<D> {
    ghost use Rattle.std.specs.Prelude.{◌≡◌};
    ghost use Rattle.avs_seg.specs.Segment.{seg_count};
    ghost use Rattle.avs_join.specs.Imported.{ImportDisks};

    ghost Value = { ImportDisks };

    ghost view = { λ i. record { volume = D.seen i.volume; bits = i.bits } };

    ghost invariant = { λ i. i.bits.segs ≡ seg_count (D.seen i.volume).size };
}

impl<D: Disk> Import<D> {
    /// Begins the import of a volume that was given away with this stamp, of which no segment is written yet. The bitmap is
    /// formatted, whatever it served as.
    pub fn make(
        alloc: Global,
        shadow: D,
        mut bitmap: D,
        stamp: u64,
    ) -> Result<Import<D>, Returned2<D>>
        requires { stamp ≤ 2 ^ 62 }
        ensures made { IfOk result (λ i. MakesImport (D.seen shadow) (D.seen bitmap) stamp i) }
        ensures volume { IfErr result (λ e. D.seen e.parts.0 ≡ D.seen shadow) }
        ensures refused { IfErr result (λ e. IsRefusedBy
            (λ why. ImportMakeRefused (D.seen shadow) (D.seen bitmap) stamp why (D.seen e.parts.1)) e.why) }
    {
        match format(alloc, &mut bitmap, shadow.blocks(), stamp) {
            Ok(()) => Import::load(alloc, shadow, bitmap),
            Err(why) => Err(Back {
                parts: (shadow, bitmap),
                why: refusal_of(why),
            }),
        }
    }

    /// Goes on with the import of a volume, also with one that ended, by the segments that its bitmap keeps. `BadRecord` names the
    /// field of the label by which it is not the bitmap of an import of this volume's size.
    pub fn load(alloc: Global, shadow: D, bitmap: D) -> Result<Import<D>, Returned2<D>>
        ensures found { IfOk result (λ i. LoadsImport (D.seen shadow) (D.seen bitmap) i) }
        ensures volume { IfErr result (λ e. D.seen e.parts.0 ≡ D.seen shadow) }
        ensures refused { IfErr result (λ e. IsRefusedBy
            (λ why. ImportLoadRefused (D.seen shadow) (D.seen bitmap) why (D.seen e.parts.1)) e.why) }
    {
        match Bits::load(alloc, bitmap, shadow.blocks(), true) {
            Ok(bits) => Ok(Import {
                volume: shadow,
                bits,
            }),
            Err(Back { parts, why }) => Err(Back {
                parts: (shadow, parts),
                why: refusal_of(why),
            }),
        }
    }

    /// Reads blocks of the volume into the slice. A failed read may have changed the slice.
    pub fn read(&mut self, at: u32, out: &mut [u8]) -> Result<(), Failed>
        requires { IsRange self.old.volume at (length out.old) }
        ensures { ReadsImport self.old at out.new result self.new }
    {
        self.volume.read(at, out)
    }

    /// Writes the blocks of the slice, and before them the bits of their segments.
    pub fn write(&mut self, at: u32, bytes: &[u8]) -> Result<(), Failed>
        requires { IsRange self.old.volume at (length bytes.now) }
        ensures { WritesImport self.old at bytes.now result self.new }
    {
        let Import { volume, bits } = self;
        let first = at / SEGMENT;
        let end = seg_count(at + (bytes.len() / BLOCK) as u32);
        bits.set(first, end - first)?;
        volume.write(at, bytes)
    }

    /// The stamp of the export by which the volume was given away.
    pub fn stamp(&self) -> u64
        ensures memory { result ≡ self.now.bits.stamp }
        ensures known { IsKnown self.now → result ≡ (import_of self.now).stamp }
    {
        self.bits.stamp()
    }

    /// The segments that were written, in rising order.
    pub fn bits(&self, alloc: Global) -> Result<SegList, NoMemory>
        ensures memory { IfOk result (λ l. l ≡ listed self.now) }
        ensures known { IsKnown self.now → IfOk result (λ l.
            l ≡ filter (import_of self.now).segments (range_with_len 0 self.now.bits.segs)) }
    {
        let mut list = SegList::new(alloc);
        let mut from = 0;
        while let Some(seg) = self.bits.next_from(from) {
            list.push(seg)?;
            from = seg + 1;
        }
        Ok(list)
    }

    /// Ends the import, and hands back the volume's disk and the bitmap's, on which `load` finds it again.
    pub fn into_disks(self) -> (D, D)
        ensures volume { D.seen result.0 ≡ self.volume }
        ensures bitmap { D.seen result.1 ≡ self.bits.disk }
    {
        let Import { volume, bits } = self;
        (volume, bits.into_disk())
    }
}
