// Ranges of blocks, and the segments that they touch.
ghost use Rattle.std.specs.Prelude.{◌≡◌, ◌+◌, ◌-◌, ◌*◌, ◌<◌, ◌≤◌, ◌^◌, [], ◌∷◌, ◌++◌, List, ℕ, OnOk, OnErr};
ghost use Rattle.avs_seg.specs.Segment.{seg_count, seg_len, first_segment, touch_count};

use crate::fault::NoMemory;
use std::alloc::Global;
use std::marker::Model;

/// The bytes of a block.
pub const BLOCK: usize = 512;

/// The blocks of a segment.
pub const SEGMENT: u32 = 64;

/// A range of `len` blocks, from block `at` on.
#[derive(Clone, Copy, Debug, PartialEq, Eq)]
pub struct Span {
    pub at: u32,
    pub len: u32,
}

/// The first segment that a range touches, and how many it touches.
pub fn segments(span: Span) -> (u32, u32)
    requires some { 0 < span.len }
    requires inside { span.at + span.len ≤ 2 ^ 31 }
    ensures first { result.0 ≡ first_segment span.at }
    ensures count { result.1 ≡ touch_count span.at span.len }
{
    let first = span.at / SEGMENT;
    (first, (span.at + span.len).div_ceil(SEGMENT) - first)
}

/// How many segments a volume of so many blocks has.
pub fn seg_count(blocks: u32) -> u32
    ensures { result ≡ seg_count blocks }
{
    blocks.div_ceil(SEGMENT)
}

/// The blocks of a segment of a volume of so many blocks, of which the last segment may be short.
pub fn seg_span(seg: u32, blocks: u32) -> Span
    requires { seg < seg_count blocks }
    ensures at { result.at ≡ 64 * seg }
    ensures len { result.len ≡ seg_len seg blocks }
    ensures some { 0 < result.len }
    ensures within { result.at + result.len ≤ blocks }
{
    let at = SEGMENT * seg;
    Span {
        at,
        len: SEGMENT.min(blocks - at),
    }
}

/// A list of segments, in the order in which they were added.
#[derive(Debug, Drop)]
pub struct SegList {
    segs: Vec<u32>,
}

impl Model for SegList {
    ghost Value = { List ℕ };

    ghost view = { λ l. l.segs.items };
}

impl SegList {
    /// A list without segments, which takes no memory.
    pub fn new(alloc: Global) -> SegList
        ensures { result ≡ [] }
    {
        SegList {
            segs: Vec::new(alloc),
        }
    }

    /// Adds a segment at the end. Without memory the list stays as it was.
    pub fn push(&mut self, seg: u32) -> Result<(), NoMemory>
        ensures ok { OnOk result (self.new ≡ self.old ++ seg ∷ []) }
        ensures err { OnErr result (self.new ≡ self.old) }
    {
        self.segs.push(seg)?;
        Ok(())
    }

    /// The segments, first the one that was added first.
    pub fn as_slice(&self) -> &[u32]
        ensures { result.now ≡ self.now }
    {
        &self.segs
    }
}
