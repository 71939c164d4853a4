// How a sender takes writes.
ghost use Rattle.std.specs.Prelude.{◌≡◌, ◌<◌, ◌*◌, ◌/◌, ◌^◌, true, false, IfOk, IfSome, OnOk, OnErr, length, is_ok, is_some};
ghost use Rattle.avs_model.specs.declared.answer.Refusal.TheVariants as refusal;
ghost use Rattle.avs_dev.specs.Below.{IsRangeOf, WritesBelow};
ghost use Rattle.avs_mqueue.specs.Queue.{full_of, is_full_for};
ghost use Rattle.avs_halves.specs.SetBits.{set_at};
ghost use Rattle.avs_halves.specs.Found.{is_filled};
ghost use Rattle.avs_halves.specs.Writing.{IsRangeOfSet, WritesNoted, WroteOnce};
ghost use Rattle.avs_mirrors.specs.Half.{is_session};
ghost use Rattle.avs_sender.specs.Held.{seen_of};
ghost use Rattle.avs_sender.specs.Learning.{IsStopped};
ghost use Rattle.avs_sender.specs.Placing.{HasRoom, IsEntryOver, Places};
ghost use Rattle.avs_sender.specs.Admitting.{Admits, AdmitsLocal, AdmitsPlaced, MayPlace, MayWrite, RestAdmitted, half_with_bits, write_of};

use crate::half::Half;
use crate::sender::Sender;
use avs_dev::{Below, Disk};
use avs_model::{Blocks, Entry, EntryKind, Full, Refusal, State};
use avs_seg::{BLOCK, Failed, NoMemory, Span, segments};
use std::alloc::Global;

/// What a sender made of a write.
#[derive(Clone, Copy, Debug, PartialEq, Eq)]
pub enum Admitted {
    /// It was written in no session.
    Local,
    /// It has this place in the order of the session.
    Place(u64),
    /// A full queue on disk was met: the session was left, and it was written then.
    Logged,
}

// The refusal of a full queue.
pub(crate) fn refuse_full(full: Full) -> Refusal
    ensures { result ≡ refusal.QueueFull full.writes full.blocks }
{
    Refusal::QueueFull {
        writes: full.writes,
        blocks: full.blocks,
    }
}

// A write, in memory of its own.
fn make_write(alloc: Global, set: u32, at: u32, bytes: &[u8]) -> Result<Entry, NoMemory>
    requires { 512 * (length bytes.now / 512) ≡ length bytes.now }
    ensures { IfOk result (λ e. e ≡ write_of set at bytes.now) }
{
    let bytes = Vec::from_slice(alloc, bytes)?;
    Ok(Entry {
        kind: EntryKind::Write,
        set,
        at,
        bytes: Blocks::new(bytes),
    })
}

impl<D: Disk> Half<D> {
    // Whether a set has contents.
    fn is_filled(&self, set: u32) -> bool
        requires { set < length self.now.sets }
        ensures filled { result ≡ is_filled self.now.note.empty (set_at self.now.sets set).slot }
        ensures number { self.now.session.number ≡ self.now.note.session }
    {
        self.sets.is_filled(self.note.empty, set)
    }

    // What the queue holds, where it is full for an entry of so many blocks.
    pub(crate) fn full_for(&self, blocks: usize) -> Option<Full>
        requires { 512 * blocks < 2 ^ 64 }
        ensures full { is_some result ≡ is_full_for self.now.queue blocks }
        ensures numbers { IfSome result (λ full. full ≡ full_of self.now.queue) }
    {
        self.queue.full_for(blocks)
    }

    // Writes blocks of a set in no session: the bits of their segments first, and then the blocks.
    fn write_noted<B: Below>(
        &mut self,
        below: &mut B,
        set: u32,
        at: u32,
        bytes: &[u8],
    ) -> Result<(), Failed>
        requires away { is_session self.old.session.state ≡ false }
        requires set { set < length self.old.sets }
        requires range { IsRangeOfSet (B.seen below.old) (set_at self.old.sets set) at (length bytes.now) }
        ensures writes { WritesNoted (B.IsSound below.old) set at bytes.now
            self.old.sets (B.seen below.old) result self.new.sets (B.seen below.new) }
        ensures rest { self.new ≡ half_with_bits self.old self.new.sets }
        ensures sound { B.IsSound below.old → OnOk result (B.IsSound below.new) }
        ensures wrote { WroteOnce B.wrote (B.rest below.old)
            (set_at self.old.sets set).vol at bytes.now (is_ok result) (B.rest below.new) }
    {
        self.sets.write_noted(below, set, at, bytes)
    }

    // Sets the bits of a write's segments, and gives it the next place.
    fn place_write(&mut self, span: Span, entry: Entry) -> Result<(), Failed>
        requires room { HasRoom self.old entry }
        requires over { IsEntryOver self.old entry span.at span.len }
        ensures { Places self.old entry result self.new }
    {
        let set = entry.set;
        let (first, count) = segments(span);
        if let Err(Failed) = self.sets.note(set, first, count) {
            self.queue.advance(self.session.last);
            self.session = self.session.left(State::Logging);
            return Err(Failed);
        }
        let place = self.session.last + 1;
        self.tracked[set as usize].touched.add(place, span);
        self.queue.add(place, entry);
        self.session = self.session.placed();
        Ok(())
    }
}

impl<D: Disk, B: Below> Sender<D, B> {
    // Writes blocks of a set in no session.
    fn write(&mut self, set: u32, at: u32, bytes: &[u8]) -> Result<(), Failed>
        requires may { MayWrite (seen_of B.seen self.old) (write_of set at bytes.now) }
        requires set { set < length self.old.half.sets }
        requires range { IsRangeOf (B.seen self.old.below) (set_at self.old.half.sets set).vol at (length bytes.now) }
        requires number { self.old.half.session.number ≡ self.old.half.note.session }
        ensures writes { AdmitsLocal (B.IsSound self.old.below) (B.IsSound self.new.below)
            (seen_of B.seen self.old) (write_of set at bytes.now) result (seen_of B.seen self.new) }
        ensures wrote { WroteOnce B.wrote (B.rest self.old.below)
            (set_at self.old.half.sets set).vol at bytes.now (is_ok result) (B.rest self.new.below) }
    {
        self.half.write_noted(&mut self.below, set, at, bytes)
    }

    // Writes the blocks of a write that has a place. Where that fails, the session is left.
    fn write_placed(&mut self, set: u32, at: u32, bytes: &[u8]) -> Result<(), Failed>
        requires set { set < length self.old.half.sets }
        requires range { IsRangeOf (B.seen self.old.below) (set_at self.old.half.sets set).vol at (length bytes.now) }
        ensures writes { WritesBelow (B.IsSound self.old.below) (B.seen self.old.below)
            (set_at self.old.half.sets set).vol at bytes.now result (B.seen self.new.below) }
        ensures ok { OnOk result (self.new.half ≡ self.old.half) }
        ensures err { OnErr result (IsStopped self.old.half self.new.half) }
        ensures sound { B.IsSound self.old.below → OnOk result (B.IsSound self.new.below) }
        ensures wrote { B.wrote (B.rest self.old.below)
            (set_at self.old.half.sets set).vol at bytes.now (is_ok result) (B.rest self.new.below) }
    {
        let vol = self.half.sets.vol(set);
        if let Err(Failed) = self.below.write(vol, at, bytes) {
            self.half.stop();
            return Err(Failed);
        }
        Ok(())
    }

    // Gives a write the next place, and writes its blocks.
    fn place(&mut self, span: Span, entry: Entry, bytes: &[u8]) -> Result<(), Failed>
        requires may { MayPlace (seen_of B.seen self.old) entry }
        requires room { HasRoom self.old.half entry }
        requires entry { entry ≡ write_of entry.set span.at bytes.now }
        requires over { IsEntryOver self.old.half entry span.at span.len }
        requires range { IsRangeOf (B.seen self.old.below) (set_at self.old.half.sets entry.set).vol span.at (length bytes.now) }
        ensures places { AdmitsPlaced (B.IsSound self.old.below) (B.IsSound self.new.below)
            (seen_of B.seen self.old) entry result (seen_of B.seen self.new) }
        ensures wrote { WroteOnce B.wrote (B.rest self.old.below)
            (set_at self.old.half.sets entry.set).vol span.at bytes.now (is_ok result) (B.rest self.new.below) }
    {
        let set = entry.set;
        self.half.place_write(span, entry)?;
        self.write_placed(set, span.at, bytes)
    }

    /// Takes a write to a set's volume. In no session the bits of its segments are set first, and then it is written. In a session
    /// its entry takes the next place between the two. `NoContents` exactly where the set has none, and else in a session
    /// `QueueFull` exactly where the queue has no room for it. The memory of its entry is taken before anything is written, and
    /// without it nothing has changed. The work grows with the blocks and the segments of the range alone.
    pub fn admit(
        &mut self,
        alloc: Global,
        set: u32,
        at: u32,
        bytes: &[u8],
    ) -> Result<Admitted, Refusal>
        requires set { set < length self.old.half.sets }
        requires range { IsRangeOf (B.seen self.old.below) (set_at self.old.half.sets set).vol at (length bytes.now) }
        requires place { is_session self.old.half.session.state ≡ true → self.old.half.session.last < 2 ^ 62 }
        ensures admits { Admits (B.IsSound self.old.below) (B.IsSound self.new.below)
            (seen_of B.seen self.old) (write_of set at bytes.now) result (seen_of B.seen self.new) }
        ensures rest { RestAdmitted (B.wrote (B.rest self.old.below)
            (set_at self.old.half.sets set).vol at bytes.now) (B.rest self.old.below) result (B.rest self.new.below) }
    {
        if !self.half.is_filled(set) {
            return Err(Refusal::NoContents);
        }
        if !self.half.in_session() {
            return match self.write(set, at, bytes) {
                Ok(()) => Ok(Admitted::Local),
                Err(Failed) => Err(Refusal::Fault),
            };
        }
        let span = Span {
            at,
            len: (bytes.len() / BLOCK) as u32,
        };
        if let Some(full) = self.half.full_for(span.len as usize) {
            return Err(refuse_full(full));
        }
        let entry = match make_write(alloc, set, at, bytes) {
            Ok(entry) => entry,
            Err(NoMemory) => return Err(Refusal::NoMemory),
        };
        match self.place(span, entry, bytes) {
            Ok(()) => Ok(Admitted::Place(self.half.session.last)),
            Err(Failed) => Err(Refusal::Fault),
        }
    }
}
