// Blocks of a slot: of the shadow's disk, or behind its own slots of an overflow volume.
ghost use Rattle.std.specs.Prelude.{◌≡◌, ◌+◌, ◌-◌, ◌*◌, ◌<◌, ◌≤◌, IsTrue, is_some, length};
ghost use Rattle.std.specs.Option.{option_map};
ghost use Rattle.avs_over.specs.Over.{slot_from};
ghost use Rattle.avs_compact.specs.CompactSet.{disk_of, over_of};
ghost use Rattle.avs_compact.specs.Calls.{IsInSlot, ReadsOne};
ghost use Rattle.avs_compact.specs.Steps.{WritesOne};

use avs_dev::Disk;
use avs_over::Over;
use avs_seg::{Failed, SEGMENT};

/// Reads blocks of a slot, counted from its first one.
pub(crate) fn read_slot<D: Disk>(
    shadow: &mut Option<D>,
    over: &mut Option<Over<D>>,
    own: u32,
    slot: u32,
    at: u32,
    out: &mut [u8],
) -> Result<(), Failed>
    requires there { slot < own → IsTrue (is_some shadow.old) }
    requires inside { IsInSlot (disk_of (option_map D.seen shadow.old)) (over_of over.old) own slot at (length out.old) }
    ensures reads { ReadsOne (disk_of (option_map D.seen shadow.old)) (over_of over.old) own slot at out.new result
        (disk_of (option_map D.seen shadow.new)) (over_of over.new) }
    ensures still { is_some shadow.new ≡ is_some shadow.old }
    ensures still_over { is_some over.new ≡ is_some over.old }
    ensures len { length out.new ≡ length out.old }
{
    if slot < own {
        return match shadow {
            Some(disk) => disk.read(SEGMENT * slot + at, out),
            None => Ok(()),
        };
    }
    match over {
        Some(over) => over.read(slot - own, at, out),
        None => Ok(()),
    }
}

/// Writes blocks of a slot, counted from its first one.
pub(crate) fn write_slot<D: Disk>(
    shadow: &mut Option<D>,
    over: &mut Option<Over<D>>,
    own: u32,
    slot: u32,
    at: u32,
    bytes: &[u8],
) -> Result<(), Failed>
    requires there { slot < own → IsTrue (is_some shadow.old) }
    requires inside { IsInSlot (disk_of (option_map D.seen shadow.old)) (over_of over.old) own slot at (length bytes.now) }
    ensures writes { WritesOne (disk_of (option_map D.seen shadow.old)) (over_of over.old) own slot at bytes.now result
        (disk_of (option_map D.seen shadow.new)) (over_of over.new) }
    ensures on_disk { own ≤ slot → slot_from (slot - own) + 64 ≤ (over_of over.old).disk.size }
    ensures still { is_some shadow.new ≡ is_some shadow.old }
    ensures still_over { is_some over.new ≡ is_some over.old }
{
    if slot < own {
        return match shadow {
            Some(disk) => disk.write(SEGMENT * slot + at, bytes),
            None => Ok(()),
        };
    }
    match over {
        Some(over) => {
            over.lies_on_disk();
            over.write(slot - own, at, bytes)
        }
        None => Ok(()),
    }
}
