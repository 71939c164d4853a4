// What a sender of two sets stands for, read from the definitions, and what each of its calls answers.

use crate::calls::{Begin, Call, Came, Put};
use crate::set::{Image, PlainSet, SIZES, Segments, put, touched};
use avs_model::{HalfRole, Host, Limits, Refusal, State, Word};
use avs_sync::{Note, Session};
use std::alloc::{AllocError, Global};

/// An entry of the session's order.
#[derive(Clone, Copy)]
pub enum Placed {
    Write(Put),
    /// The copy of a segment: its set, the segment, how many blocks it has, and the image that they are of.
    Copied(u32, u32, u32, Image),
    Mark,
}

impl Placed {
    /// How many blocks it holds.
    pub fn blocks(&self) -> u32 {
        match self {
            Placed::Write(put) => put.count,
            Placed::Copied(_, _, count, _) => *count,
            Placed::Mark => 0,
        }
    }
}

/// What its calls have written: how often the note, and each volume, and how many blocks of each volume.
#[derive(Clone, Copy, Debug, PartialEq, Eq)]
pub struct Writes {
    pub notes: u32,
    pub volumes: [u32; 2],
    pub blocks: [u32; 2],
}

/// Nothing was written.
pub const NO_WRITES: Writes = Writes {
    notes: 0,
    volumes: [0; 2],
    blocks: [0; 2],
};

/// A sender.
#[derive(Drop)]
pub struct Plain {
    pub host: Host,
    pub limits: Limits,
    pub first: PlainSet,
    pub second: PlainSet,
    pub session: Session,
    /// The note on its disk.
    pub note: Note,
    /// The entries of the session by their places, from 1 on.
    pub order: Vec<Placed>,
    pub writes: Writes,
}

fn word_of(state: State) -> Word {
    match state {
        State::Logging => Word::Logging,
        State::Syncing => Word::Syncing,
        State::Receiving => Word::Receiving,
        State::Replicating => Word::Replicating,
        State::Queuing => Word::Queuing,
    }
}

const NO_NOTE: Note = Note {
    session: 0,
    role: HalfRole::Lone,
    state: State::Logging,
    empty: 0,
    reverse: false,
    mark: 0,
};

// The session that is found with a note: it was left, and its places are forgotten.
fn found_session(note: &Note) -> Session {
    Session {
        sender: note.role != HalfRole::Receiver,
        number: note.session,
        reverse: note.reverse,
        last: 0,
        known: 0,
        mark: note.mark,
        state: State::Logging,
    }
}

impl Plain {
    /// A sender that was in no session, of sets of zeros of which nothing is due.
    pub fn new(alloc: Global, host: Host, limits: Limits) -> Plain {
        Plain {
            host,
            limits,
            first: PlainSet::new(SIZES[0]),
            second: PlainSet::new(SIZES[1]),
            session: found_session(&NO_NOTE),
            note: NO_NOTE,
            order: Vec::new(alloc),
            writes: NO_WRITES,
        }
    }

    /// A set by its place.
    pub fn of(&self, set: u32) -> &PlainSet {
        match set {
            0 => &self.first,
            _ => &self.second,
        }
    }

    /// A set by its place, to be changed.
    pub fn of_mut(&mut self, set: u32) -> &mut PlainSet {
        match set {
            0 => &mut self.first,
            _ => &mut self.second,
        }
    }

    /// Whether it is in a session.
    pub fn in_session(&self) -> bool {
        self.session.state != State::Logging
    }

    /// Whether there are segments to be copied.
    pub fn is_copying(&self) -> bool {
        self.session.mark == 0
    }

    /// The entry of a place.
    pub fn entry(&self, place: u64) -> Option<&Placed> {
        if place == 0 || place > 1 << 20 {
            return None;
        }
        self.order.get(place as usize - 1)
    }

    /// How many entries are above the known place, and how many blocks they have.
    pub fn queued(&self) -> (u32, u32) {
        let (mut writes, mut blocks) = (0u32, 0u32);
        let mut place = 0u64;
        for entry in self.order.as_slice() {
            place = place.saturating_add(1);
            if place > self.session.known {
                writes = writes.saturating_add(1);
                blocks = blocks.saturating_add(entry.blocks());
            }
        }
        (writes, blocks)
    }

    // The refusal of an entry of so many blocks, where the queue is full.
    fn full(&self, count: u32) -> Option<Refusal> {
        let (writes, blocks) = self.queued();
        if writes >= self.limits.writes || blocks.saturating_add(count) > self.limits.blocks {
            return Some(Refusal::QueueFull { writes, blocks });
        }
        None
    }

    // An entry has the next place.
    fn give(&mut self, entry: Placed) -> Result<u64, AllocError> {
        self.order.push(entry)?;
        self.session.last = self.session.last.saturating_add(1);
        Ok(self.session.last)
    }

    /// Begins a session.
    pub fn begin(&mut self, begin: &Begin) -> Came {
        if self.in_session() {
            return Came::Refused(Refusal::WrongState(word_of(self.session.state)));
        }
        if self.first.is_empty || self.second.is_empty {
            return Came::Refused(Refusal::NoContents);
        }
        let (first, second) = self.begun(begin);
        self.first.note(&first);
        self.second.note(&second);
        self.first.forget_places();
        self.second.forget_places();
        self.enter(begin);
        Came::Done
    }

    /// The segments that a beginning sets: all, or those of the other half.
    pub fn begun(&self, begin: &Begin) -> (Segments, Segments) {
        if begin.full {
            return (self.first.all(), self.second.all());
        }
        begin.theirs
    }

    /// It is in a new session.
    pub fn enter(&mut self, begin: &Begin) {
        self.note = self.begun_note(begin);
        self.session = Session {
            sender: true,
            number: begin.number,
            reverse: self.host == Host::S,
            last: 0,
            known: 0,
            mark: 0,
            state: State::Syncing,
        };
        self.order.clear();
        self.writes.notes = self.writes.notes.saturating_add(1);
    }

    /// The note of a beginning.
    pub fn begun_note(&self, begin: &Begin) -> Note {
        Note {
            session: begin.number,
            role: HalfRole::Sender,
            state: State::Syncing,
            empty: self.note.empty,
            reverse: self.host == Host::S,
            mark: 0,
        }
    }

    /// The note of one that replicates.
    pub fn marked_note(&self) -> Note {
        Note {
            state: State::Replicating,
            mark: self.session.mark,
            ..self.note
        }
    }

    /// The note of one that has left: a mark is said once it is known.
    pub fn left_note(&self) -> Note {
        let mark = self.session.mark;
        Note {
            state: State::Logging,
            mark: if mark <= self.session.known { mark } else { 0 },
            ..self.note
        }
    }

    /// A write to a set: its bits, its place, its blocks.
    pub fn write(&mut self, one: Put) -> Result<Came, AllocError> {
        if self.of(one.set).is_empty {
            return Ok(Came::Refused(Refusal::NoContents));
        }
        let segments = touched(one.at, one.count);
        if !self.in_session() {
            self.of_mut(one.set).note(&segments);
            self.put(one);
            return Ok(Came::Local);
        }
        if let Some(refusal) = self.full(one.count) {
            return Ok(Came::Refused(refusal));
        }
        let place = self.give(Placed::Write(one))?;
        let copying = self.is_copying();
        self.of_mut(one.set).place(&segments, place, copying);
        self.put(one);
        Ok(Came::Place(place))
    }

    // The blocks of a write.
    fn put(&mut self, one: Put) {
        put(&mut self.of_mut(one.set).image, one.at, one.count, one.byte);
        for set in 0..2 {
            if set as u32 == one.set {
                self.writes.volumes[set] = self.writes.volumes[set].saturating_add(1);
                self.writes.blocks[set] = self.writes.blocks[set].saturating_add(one.count);
            }
        }
    }

    /// The least segment that waits to be copied, sets taken in order.
    pub fn least(&self) -> Option<(u32, u32)> {
        if let Some(seg) = self.first.least() {
            return Some((0, seg));
        }
        match self.second.least() {
            Some(seg) => Some((1, seg)),
            None => None,
        }
    }

    /// Places the copy of a segment, or the mark.
    pub fn sync(&mut self) -> Result<Came, AllocError> {
        if !self.in_session() {
            return Ok(Came::Refused(Refusal::WrongState(Word::Logging)));
        }
        if !self.is_copying() {
            return Ok(Came::Idle);
        }
        match self.least() {
            Some((set, seg)) => self.copy(set, seg),
            None => self.mark(),
        }
    }

    fn copy(&mut self, set: u32, seg: u32) -> Result<Came, AllocError> {
        let of = *self.of(set);
        let count = of.seg_len(seg);
        if let Some(refusal) = self.full(count) {
            return Ok(Came::Refused(refusal));
        }
        let place = self.give(Placed::Copied(set, seg, count, of.image))?;
        let segments = touched(seg.saturating_mul(64), count);
        self.of_mut(set).place(&segments, place, false);
        Ok(Came::Copied(place, set, seg))
    }

    fn mark(&mut self) -> Result<Came, AllocError> {
        if let Some(refusal) = self.full(0) {
            return Ok(Came::Refused(refusal));
        }
        let place = self.give(Placed::Mark)?;
        self.session.mark = place;
        Ok(Came::Marked(place))
    }

    /// Learns that the places up to one were applied.
    pub fn tick(&mut self, applied: u64) -> Came {
        if !self.in_session() {
            return Came::Refused(Refusal::WrongState(Word::Logging));
        }
        if applied > self.session.last {
            return Came::Refused(Refusal::NoPlace(self.session.last));
        }
        let known = self.session.known.max(applied);
        let (first, second) = (self.first.freed(known), self.second.freed(known));
        self.first.clear(&first);
        self.second.clear(&second);
        self.session.known = known;
        if self.turns(known) {
            self.session.state = State::Replicating;
            self.note = self.marked_note();
            self.writes.notes = self.writes.notes.saturating_add(1);
        }
        Came::Known(known)
    }

    /// Whether a known place makes the mark known.
    pub fn turns(&self, known: u64) -> bool {
        let mark = self.session.mark;
        self.session.state == State::Syncing && mark != 0 && mark <= known
    }

    /// Makes a call.
    pub fn act(&mut self, call: &Call) -> Result<Came, AllocError> {
        match call {
            Call::Begin(begin) => Ok(self.begin(begin)),
            Call::Write(put) => self.write(*put),
            Call::Sync => self.sync(),
            Call::Tick(applied) => Ok(self.tick(*applied)),
            Call::Log => Ok(self.log()),
            Call::Broken => Ok(self.broken()),
            Call::Lend => Ok(Came::Done),
            Call::Crash => Ok(self.crash()),
        }
    }

    fn log(&mut self) -> Came {
        self.leave();
        Came::Done
    }

    fn broken(&mut self) -> Came {
        self.leave();
        Came::Left(State::Logging)
    }

    fn crash(&mut self) -> Came {
        self.find();
        Came::Done
    }

    /// Leaves its session.
    pub fn leave(&mut self) {
        if self.in_session() {
            self.note = self.left_note();
            self.writes.notes = self.writes.notes.saturating_add(1);
        }
        self.session.state = State::Logging;
        self.first.forget_places();
        self.second.forget_places();
    }

    /// It is found again on its disks: it has left, and forgot its places.
    pub fn find(&mut self) {
        self.session = found_session(&self.note);
        self.first.forget_places();
        self.second.forget_places();
        self.order.clear();
    }
}
