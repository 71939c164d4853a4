// Chunks that are copied into a slot, and out of one.
ghost use Rattle.std.specs.Prelude.{◌≡◌, ◌+◌, ◌*◌, ◌<◌, ◌≤◌, IsTrue, is_some, length};
ghost use Rattle.std.specs.Option.{option_map};
ghost use Rattle.avs_entries.specs.Entries.{slot_by};
ghost use Rattle.avs_compact.specs.CompactSet.{disk_of, over_of};
ghost use Rattle.avs_compact.specs.Calls.{IsInSlot};
ghost use Rattle.avs_compact.specs.Steps.{CopiesIn, CopiesOut, CopiesBack};

use crate::slots::{read_slot, write_slot};
use avs_dev::Disk;
use avs_entries::{ChunkState, slot_by, state_by};
use avs_over::Over;
use avs_seg::{BLOCK, Failed, Span};

/// Copies blocks of the master into a slot, from its first block on.
pub(crate) fn copy_in<D: Disk>(
    master: &mut D,
    shadow: &mut Option<D>,
    over: &mut Option<Over<D>>,
    own: u32,
    slot: u32,
    span: Span,
    buffer: &mut [u8],
) -> Result<(), Failed>
    requires some { 0 < span.len }
    requires chunk { span.len ≤ 64 }
    requires room { 512 * span.len ≤ length buffer.old }
    requires master { span.at + span.len ≤ (D.seen master.old).size }
    requires there { slot < own → IsTrue (is_some shadow.old) }
    requires inside { IsInSlot (disk_of (option_map D.seen shadow.old)) (over_of over.old) own slot 0 (512 * span.len) }
    ensures copies { CopiesIn (D.seen master.old) (disk_of (option_map D.seen shadow.old)) (over_of over.old)
        own slot span.at span.len result
        (D.seen master.new) (disk_of (option_map D.seen shadow.new)) (over_of over.new) }
    ensures still { is_some shadow.new ≡ is_some shadow.old }
    ensures still_over { is_some over.new ≡ is_some over.old }
    ensures len { length buffer.new ≡ length buffer.old }
{
    let part = &mut buffer[..BLOCK * span.len as usize];
    master.read(span.at, part)?;
    write_slot(shadow, over, own, slot, 0, part)
}

// Copies blocks of a slot to the master, from the slot's first block on.
fn copy_out<D: Disk>(
    master: &mut D,
    shadow: &mut Option<D>,
    over: &mut Option<Over<D>>,
    own: u32,
    slot: u32,
    span: Span,
    buffer: &mut [u8],
) -> Result<(), Failed>
    requires some { 0 < span.len }
    requires chunk { span.len ≤ 64 }
    requires room { 512 * span.len ≤ length buffer.old }
    requires master { span.at + span.len ≤ (D.seen master.old).size }
    requires there { slot < own → IsTrue (is_some shadow.old) }
    requires inside { IsInSlot (disk_of (option_map D.seen shadow.old)) (over_of over.old) own slot 0 (512 * span.len) }
    ensures copies { CopiesOut (D.seen master.old) (disk_of (option_map D.seen shadow.old)) (over_of over.old)
        own slot span.at span.len result
        (D.seen master.new) (disk_of (option_map D.seen shadow.new)) (over_of over.new) }
    ensures still { is_some shadow.new ≡ is_some shadow.old }
    ensures still_over { is_some over.new ≡ is_some over.old }
    ensures len { length buffer.new ≡ length buffer.old }
{
    let part = &mut buffer[..BLOCK * span.len as usize];
    read_slot(shadow, over, own, slot, 0, part)?;
    master.write(span.at, part)
}

/// Copies a chunk to the master whose contents stand in its slot alone. Any other is left alone.
pub(crate) fn copy_back<D: Disk>(
    entry: u32,
    master: &mut D,
    shadow: &mut Option<D>,
    over: &mut Option<Over<D>>,
    own: u32,
    span: Span,
    buffer: &mut [u8],
) -> Result<(), Failed>
    requires some { 0 < span.len }
    requires chunk { span.len ≤ 64 }
    requires room { 512 * span.len ≤ length buffer.old }
    requires master { span.at + span.len ≤ (D.seen master.old).size }
    requires there { slot_by entry < own → IsTrue (is_some shadow.old) }
    requires inside { IsInSlot (disk_of (option_map D.seen shadow.old)) (over_of over.old) own (slot_by entry) 0 (512 * span.len) }
    ensures copies { CopiesBack entry (D.seen master.old) (disk_of (option_map D.seen shadow.old)) (over_of over.old)
        own span.at span.len result
        (D.seen master.new) (disk_of (option_map D.seen shadow.new)) (over_of over.new) }
    ensures still { is_some shadow.new ≡ is_some shadow.old }
    ensures still_over { is_some over.new ≡ is_some over.old }
    ensures len { length buffer.new ≡ length buffer.old }
{
    if state_by(entry) != ChunkState::OnShadow {
        return Ok(());
    }
    copy_out(master, shadow, over, own, slot_by(entry), span, buffer)
}
