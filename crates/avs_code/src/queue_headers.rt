// The header of a queue volume.
ghost use Rattle.std.specs.Prelude.{◌≡◌};
ghost use Rattle.avs_code.specs.QueueHeader.{QueueHeaderKeeps, IsQueueHeader, queue_header_at, queue_header_rules};
ghost use Rattle.avs_code.specs.Rules.{Reads};

use crate::bytes::{is_zero_from, put_u32, put_u64, start, u32_at, u64_at};
use crate::records::{BadRecord, MAX_NUMBER, check};
use avs_seg::BLOCK;

const MAGIC: [u8; 4] = *b"AVSQ";

/// Block 1 of a queue volume: which places of which session wait in its ring.
#[derive(Clone, Copy, Debug, PartialEq, Eq)]
pub struct QueueHeader {
    pub version: u32,
    pub session: u64,
    /// The place of the first entry in the ring.
    pub first: u64,
    /// The place that the next entry gets.
    pub next: u64,
    /// The block of the ring at which the first entry begins.
    pub head: u32,
    /// The blocks of the ring that are in use.
    pub used: u32,
}

/// Writes the block that stands for the header of a queue volume.
pub fn put_queue_header(x: &QueueHeader, out: &mut [u8; BLOCK])
    requires { QueueHeaderKeeps x.now }
    ensures { IsQueueHeader out.new x.now }
{
    start(out, &MAGIC);
    put_u32(out, 4, x.version);
    put_u64(out, 8, x.session);
    put_u64(out, 16, x.first);
    put_u64(out, 24, x.next);
    put_u32(out, 32, x.head);
    put_u32(out, 36, x.used);
}

/// The header of a queue volume that a block stands for. The fields are numbered magic 0, version 1,
/// session 2, first 3, next 4, head 5, used 6, and 7 the rest of the block.
pub fn get_queue_header(block: &[u8; BLOCK]) -> Result<QueueHeader, BadRecord>
    ensures { Reads IsQueueHeader queue_header_rules block.now result }
{
    check(&queue_header_rules(block))?;
    Ok(queue_header_at(block))
}

// The fields as they lie in a block.
fn queue_header_at(block: &[u8; BLOCK]) -> QueueHeader
    ensures { result ≡ queue_header_at block.now }
{
    QueueHeader {
        version: u32_at(block, 4),
        session: u64_at(block, 8),
        first: u64_at(block, 16),
        next: u64_at(block, 24),
        head: u32_at(block, 32),
        used: u32_at(block, 36),
    }
}

// Whether each field of a block keeps its rule; `true` stands for one without a rule.
fn queue_header_rules(block: &[u8; BLOCK]) -> [bool; 8]
    ensures { result ≡ queue_header_rules block.now }
{
    let x = queue_header_at(block);
    [
        block.starts_with(&MAGIC),
        x.version == 1,
        x.session <= MAX_NUMBER,
        x.first <= MAX_NUMBER + 1,
        x.next <= MAX_NUMBER + 1,
        true,
        true,
        is_zero_from(block, 40),
    ]
}
