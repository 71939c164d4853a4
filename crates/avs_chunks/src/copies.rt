// Chunks that are copied from one disk to another, and the disk of a shadow that may not be there.
ghost use Rattle.std.specs.Prelude.{◌≡◌, ◌≢◌, ◌⊎◌, ◌+◌, ◌*◌, ◌/◌, ◌<◌, ◌≤◌, IsTrue, is_some, length, if◌then◌else◌};
ghost use Rattle.std.specs.Option.{option_map};
ghost use Rattle.avs_dev.specs.Seen.{IsRange, Reads, Writes};
ghost use Rattle.avs_chunks.specs.States.{on_both, code_of};
ghost use Rattle.avs_chunks.specs.ChunkSet.{disk_of};
ghost use Rattle.avs_chunks.specs.Steps.{CopiesSpan, CopiesChunk, ReadsOne};

use crate::states::ChunkState;
use avs_dev::Disk;
use avs_seg::{BLOCK, Failed, Span};

// Copies blocks from a disk to another, by one read and one write.
fn copy_span<D: Disk>(from: &mut D, to: &mut D, span: Span, buffer: &mut [u8]) -> Result<(), Failed>
    requires some { 0 < span.len }
    requires room { 512 * span.len ≤ length buffer.old }
    requires from { span.at + span.len ≤ (D.seen from.old).size }
    requires to { span.at + span.len ≤ (D.seen to.old).size }
    ensures copies { CopiesSpan (D.seen from.old) (D.seen to.old) span.at span.len result (D.seen from.new) (D.seen to.new) }
    ensures len { length buffer.new ≡ length buffer.old }
{
    let part = &mut buffer[..BLOCK * span.len as usize];
    from.read(span.at, part)?;
    to.write(span.at, part)
}

/// Copies a chunk whose contents stand on one disk alone to the other.
pub(crate) fn copy_chunk<D: Disk>(
    state: ChunkState,
    master: &mut D,
    shadow: &mut Option<D>,
    span: Span,
    buffer: &mut [u8],
) -> Result<(), Failed>
    requires some { 0 < span.len }
    requires room { 512 * span.len ≤ length buffer.old }
    requires master { span.at + span.len ≤ (D.seen master.old).size }
    requires shadow { IsTrue (is_some shadow.old) → span.at + span.len ≤ (disk_of (option_map D.seen shadow.old)).size }
    requires there { IsTrue (is_some shadow.old) ⊎ (code_of state ≡ on_both) }
    ensures copies { CopiesChunk (code_of state) (D.seen master.old) (disk_of (option_map D.seen shadow.old)) span.at span.len result
        (D.seen master.new) (disk_of (option_map D.seen shadow.new)) }
    ensures still { is_some shadow.new ≡ is_some shadow.old }
    ensures len { length buffer.new ≡ length buffer.old }
{
    let Some(disk) = shadow else {
        return Ok(());
    };
    match state {
        ChunkState::OnMaster => copy_span(master, disk, span, buffer),
        ChunkState::OnShadow => copy_span(disk, master, span, buffer),
        ChunkState::OnBoth | ChunkState::Split => Ok(()),
    }
}

/// Reads blocks from the master's disk, or from the shadow's.
pub(crate) fn read_one<D: Disk>(
    alone: bool,
    master: &mut D,
    shadow: &mut Option<D>,
    at: u32,
    out: &mut [u8],
) -> Result<(), Failed>
    requires there { IsTrue (is_some shadow.old) }
    requires master { IsRange (D.seen master.old) at (length out.old) }
    requires shadow { IsRange (disk_of (option_map D.seen shadow.old)) at (length out.old) }
    ensures still { is_some shadow.new ≡ is_some shadow.old }
    ensures len { length out.new ≡ length out.old }
    ensures reads { ReadsOne alone (D.seen master.old) (disk_of (option_map D.seen shadow.old)) at out.new result
        (D.seen master.new) (disk_of (option_map D.seen shadow.new)) }
{
    match shadow {
        Some(disk) if !alone => disk.read(at, out),
        _ => master.read(at, out),
    }
}

/// Writes blocks on the shadow's disk.
pub(crate) fn write_there<D: Disk>(
    shadow: &mut Option<D>,
    at: u32,
    bytes: &[u8],
) -> Result<(), Failed>
    requires there { IsTrue (is_some shadow.old) }
    requires range { IsRange (disk_of (option_map D.seen shadow.old)) at (length bytes.now) }
    ensures still { is_some shadow.new ≡ is_some shadow.old }
    ensures writes { Writes (disk_of (option_map D.seen shadow.old)) at bytes.now result (disk_of (option_map D.seen shadow.new)) }
{
    match shadow {
        Some(disk) => disk.write(at, bytes),
        None => Ok(()),
    }
}
