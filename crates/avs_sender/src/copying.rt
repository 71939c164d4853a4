// How a sender copies the segments that wait, and places the mark behind the last copy.
ghost use Rattle.std.specs.Prelude.{◌≡◌, ◌+◌, ◌*◌, ◌/◌, ◌<◌, ◌≤◌, ◌^◌, true, false, IfNone, IfOk, IfSome, OnErr, OnOk, length, map};
ghost use Rattle.avs_seg.specs.Image.{blocks_of};
ghost use Rattle.avs_seg.specs.Segment.{seg_len};
ghost use Rattle.avs_dev.specs.Below.{size_of};
ghost use Rattle.avs_mqueue.specs.Queue.{is_full_for};
ghost use Rattle.avs_halves.specs.SetBits.{set_at};
ghost use Rattle.avs_mirrors.specs.Entries.{a_mark};
ghost use Rattle.avs_mirrors.specs.Half.{is_session};
ghost use Rattle.avs_sender.specs.Held.{seen_of};
ghost use Rattle.avs_sender.specs.SenderView.{set_places};
ghost use Rattle.avs_sender.specs.Kept.{IsKept};
ghost use Rattle.avs_sender.specs.Placing.{HasCopied, HasMarked, HasRoom, IsCopyOf, IsEntryOver, IsFirstWaiting, NoneIsWaiting};
ghost use Rattle.avs_sender.specs.Copying.{CopiesSegment, IsCopying, IsSpanOf, Syncs, copied};

use crate::admitting::refuse_full;
use crate::half::Half;
use crate::sender::Sender;
use crate::tracked::Tracked;
use avs_dev::{Below, Disk};
use avs_model::{Blocks, Entry, EntryKind, Refusal, Word};
use avs_seg::{BLOCK, Failed, NoMemory, Span, seg_span};
use std::alloc::Global;

/// A step of a synchronization.
#[derive(Clone, Copy, Debug, PartialEq, Eq)]
pub enum SyncStep {
    /// The copy of a segment has a place.
    Copied { place: u64, set: u32, seg: u32 },
    /// The mark has this place.
    Mark(u64),
    /// The mark was placed before.
    Idle,
    /// A full queue on disk was met, and the session was left.
    Logged,
}

// A segment of a set.
#[derive(Clone, Copy, Debug)]
pub(crate) struct Waits {
    set: u32,
    seg: u32,
}

// The least segment that waits, of the sets in order.
fn first_waiting(tracked: &mut Vec<Tracked>) -> Option<Waits>
    requires few { length tracked.old.items ≤ 16 }
    ensures kept { map set_places tracked.new.items ≡ map set_places tracked.old.items }
    ensures some { IfSome result (λ w. IsFirstWaiting (map set_places tracked.old.items) w.set w.seg) }
    ensures none { IfNone result (NoneIsWaiting (map set_places tracked.old.items)) }
{
    for set in 0..tracked.len() {
        if let Some(seg) = tracked[set].waiting.least() {
            return Some(Waits {
                set: set as u32,
                seg,
            });
        }
    }
    None
}

// Room for the blocks of a segment.
fn make_room(alloc: Global, blocks: u32) -> Result<Vec<u8>, NoMemory>
    requires { blocks ≤ 64 }
    ensures { IfOk result (λ v. length v.items ≡ 512 * blocks) }
{
    Ok(vec![in alloc; 0; BLOCK * blocks as usize]?)
}

// The copy of a segment, with its blocks.
fn make_copy(waits: Waits, span: Span, bytes: Vec<u8>) -> Entry
    requires whole { 512 * (length bytes.items / 512) ≡ length bytes.items }
    requires at { span.at ≡ 64 * waits.seg }
    ensures { result ≡ copied waits.set waits.seg (blocks_of bytes.items) }
{
    Entry {
        kind: EntryKind::Copied,
        set: waits.set,
        at: span.at,
        bytes: Blocks::new(bytes),
    }
}

// A mark, which has no blocks and takes no memory.
fn make_mark(alloc: Global) -> Entry
    ensures { result ≡ a_mark }
{
    Entry {
        kind: EntryKind::Mark,
        set: 0,
        at: 0,
        bytes: Blocks::new(Vec::new(alloc)),
    }
}

impl<D: Disk> Half<D> {
    // The volume of a set.
    fn vol(&self, set: u32) -> u32
        requires { set < length self.now.sets }
        ensures { result ≡ (set_at self.now.sets set).vol }
    {
        self.sets.vol(set)
    }

    // The segment that is to be copied next, if there is one.
    fn next_waiting(&mut self) -> Option<Waits>
        ensures kept { self.new ≡ self.old }
        ensures some { IfSome result (λ w. IsFirstWaiting self.old.places w.set w.seg) }
        ensures none { IfNone result (NoneIsWaiting self.old.places) }
        ensures invariant { IsKept self.old }
    {
        first_waiting(&mut self.tracked)
    }

    // Gives the copy of a segment the next place: it waits no more.
    fn place_copy(&mut self, seg: u32, span: Span, entry: Entry) -> u64
        requires room { HasRoom self.old entry }
        requires over { IsEntryOver self.old entry span.at span.len }
        requires copy { IsCopyOf self.old entry seg }
        ensures copied { HasCopied self.old entry seg self.new }
        ensures place { result ≡ self.old.session.last + 1 }
    {
        let place = self.session.last + 1;
        let tracked = &mut self.tracked[entry.set as usize];
        tracked.waiting.remove(seg);
        tracked.touched.add(place, span);
        self.queue.add(place, entry);
        self.session = self.session.placed();
        place
    }

    // Gives the mark the next place.
    fn place_mark(&mut self, mark: Entry) -> u64
        requires room { HasRoom self.old mark }
        requires unmarked { self.old.session.mark ≡ 0 }
        requires none { NoneIsWaiting self.old.places }
        requires mark { mark ≡ a_mark }
        ensures marked { HasMarked self.old self.new }
        ensures place { result ≡ self.old.session.last + 1 }
    {
        let place = self.session.last + 1;
        self.queue.add(place, mark);
        self.session = self.session.marked();
        place
    }
}

impl<D: Disk, B: Below> Sender<D, B> {
    // Reads the blocks of a segment that waits, and gives their copy the next place. Where they can't be read, the session is left.
    fn copy_into(&mut self, waits: Waits, span: Span, bytes: Vec<u8>) -> Result<u64, Failed>
        requires may { IsCopying (seen_of B.seen self.old) }
        requires kept { IsKept self.old.half }
        requires first { IsFirstWaiting self.old.half.places waits.set waits.seg }
        requires place { self.old.half.session.last < 2 ^ 62 }
        requires span { IsSpanOf (seen_of B.seen self.old) waits.set waits.seg span.at span.len }
        requires fits { is_full_for self.old.half.queue span.len ≡ false }
        requires bytes { length bytes.items ≡ 512 * span.len }
        ensures copies { CopiesSegment (B.IsSound self.old.below) (B.IsSound self.new.below)
            (seen_of B.seen self.old) waits.set waits.seg result (seen_of B.seen self.new) }
        ensures rest { B.rest self.new.below ≡ B.rest self.old.below }
    {
        let vol = self.half.vol(waits.set);
        let mut bytes = bytes;
        if let Err(Failed) = self.below.read(vol, span.at, &mut bytes) {
            self.half.stop();
            return Err(Failed);
        }
        let entry = make_copy(waits, span, bytes);
        Ok(self.half.place_copy(waits.seg, span, entry))
    }

    // The range of a segment.
    fn span_of(&self, waits: Waits) -> Span
        requires kept { IsKept self.now.half }
        requires first { IsFirstWaiting self.now.half.places waits.set waits.seg }
        ensures span { IsSpanOf (seen_of B.seen self.now) waits.set waits.seg result.at result.len }
        ensures short { result.len ≤ 64 }
    {
        seg_span(waits.seg, self.below.size(self.half.vol(waits.set)))
    }

    // Places the copy of a segment.
    fn copy(&mut self, alloc: Global, waits: Waits) -> Result<SyncStep, Refusal>
        requires may { IsCopying (seen_of B.seen self.old) }
        requires kept { IsKept self.old.half }
        requires first { IsFirstWaiting self.old.half.places waits.set waits.seg }
        requires place { self.old.half.session.last < 2 ^ 62 }
        ensures syncs { Syncs (B.IsSound self.old.below) (B.IsSound self.new.below)
            (seen_of B.seen self.old) result (seen_of B.seen self.new) }
        ensures rest { B.rest self.new.below ≡ B.rest self.old.below }
    {
        let Waits { set, seg } = waits;
        let span = self.span_of(waits);
        if let Some(full) = self.half.full_for(span.len as usize) {
            return Err(refuse_full(full));
        }
        let bytes = match make_room(alloc, span.len) {
            Ok(bytes) => bytes,
            Err(NoMemory) => return Err(Refusal::NoMemory),
        };
        match self.copy_into(waits, span, bytes) {
            Ok(place) => Ok(SyncStep::Copied { place, set, seg }),
            Err(Failed) => Err(Refusal::Fault),
        }
    }

    // Places the mark.
    fn mark(&mut self, alloc: Global) -> Result<SyncStep, Refusal>
        requires may { IsCopying (seen_of B.seen self.old) }
        requires kept { IsKept self.old.half }
        requires none { NoneIsWaiting self.old.half.places }
        requires place { self.old.half.session.last < 2 ^ 62 }
        ensures syncs { Syncs (B.IsSound self.old.below) (B.IsSound self.new.below)
            (seen_of B.seen self.old) result (seen_of B.seen self.new) }
        ensures below { self.new.below ≡ self.old.below }
    {
        if let Some(full) = self.half.full_for(0) {
            return Err(refuse_full(full));
        }
        let place = self.half.place_mark(make_mark(alloc));
        Ok(SyncStep::Mark(place))
    }

    /// Gives the copy of the least segment that waits the next place, of the sets in order; and where none is left the mark,
    /// behind which it is idle. `WrongState` exactly in no session, else where the mark is not placed `QueueFull` exactly where
    /// the queue has no room for the entry. Nothing is written. Where the blocks can't be read, the session is left.
    pub fn sync_step(&mut self, alloc: Global) -> Result<SyncStep, Refusal>
        requires place { is_session self.old.half.session.state ≡ true → self.old.half.session.mark ≡ 0
            → self.old.half.session.last < 2 ^ 62 }
        ensures syncs { Syncs (B.IsSound self.old.below) (B.IsSound self.new.below)
            (seen_of B.seen self.old) result (seen_of B.seen self.new) }
        ensures rest { B.rest self.new.below ≡ B.rest self.old.below }
    {
        if !self.half.in_session() {
            return Err(Refusal::WrongState(Word::Logging));
        }
        if self.half.session.mark > 0 {
            return Ok(SyncStep::Idle);
        }
        match self.half.next_waiting() {
            Some(waits) => self.copy(alloc, waits),
            None => self.mark(alloc),
        }
    }
}
