// What a receiving half of two sets stands for, read from the definitions: whole images, by a byte a block, lists of
// segments, and a place.

use crate::steps::{Came, Put, Range, Step};
use avs_model::{HalfRole, Host, Refusal, State, Word};
use avs_sync::{Note, Session};

/// The blocks of the sets' volumes: two segments, of which the last has eight blocks, and one of six.
pub const SIZES: [u32; 2] = [72, 6];

/// The volumes below that they are.
pub const VOLS: [u32; 2] = [2, 0];

/// The slots of the sets in the note, and what it says of the slots of others.
pub const SLOTS: [u32; 2] = [3, 0];

pub const OTHERS: u16 = 0x8000;

/// An image: each block has one byte throughout. There is nothing behind the end of a volume.
pub type Image = [u8; 72];

/// A list of segments.
pub type List = [bool; 2];

/// How many segments a set has.
pub fn segs(set: u32) -> u32 {
    if set == 0 { 2 } else { 1 }
}

/// The image after blocks were put into it.
pub fn put(image: &mut Image, at: u32, count: u32, byte: u8) {
    for place in 0..72 {
        if at <= place && place - at < count {
            image[place as usize] = byte;
        }
    }
}

/// The segments that a range of blocks touches.
pub fn touched(at: u32, count: u32) -> List {
    let mut list = [false; 2];
    for seg in 0..2 {
        list[seg as usize] = at < 64 * (seg + 1) && 64 * seg < at.saturating_add(count);
    }
    list
}

fn word(state: State) -> Word {
    match state {
        State::Logging => Word::Logging,
        State::Syncing => Word::Syncing,
        State::Receiving => Word::Receiving,
        State::Replicating => Word::Replicating,
        State::Queuing => Word::Queuing,
    }
}

/// A receiving half.
#[derive(Clone, Copy, Debug)]
pub struct Plain {
    pub host: Host,
    pub number: u64,
    pub role: HalfRole,
    pub state: State,
    pub is_reverse: bool,
    pub mark: u64,
    pub applied: u64,
    pub contents: [bool; 2],
    pub images: [Image; 2],
    pub due: [List; 2],
}

impl Plain {
    /// One on a host that was in no session, over volumes of zeros.
    pub fn new(host: Host) -> Plain {
        Plain {
            host,
            number: 0,
            role: HalfRole::Lone,
            state: State::Logging,
            is_reverse: false,
            mark: 0,
            applied: 0,
            contents: [true; 2],
            images: [[0; 72]; 2],
            due: [[false; 2]; 2],
        }
    }

    /// Its note.
    pub fn note(&self) -> Note {
        let mut empty = OTHERS;
        for set in 0..2 {
            if !self.contents[set] {
                empty |= 1 << SLOTS[set];
            }
        }
        Note {
            session: self.number,
            role: self.role,
            state: self.state,
            empty,
            reverse: self.is_reverse,
            mark: self.mark,
        }
    }

    /// What it tells of its session.
    pub fn session(&self) -> Session {
        Session {
            sender: self.role != HalfRole::Receiver,
            number: self.number,
            reverse: self.is_reverse,
            last: self.applied,
            known: 0,
            mark: self.mark,
            state: self.state,
        }
    }

    /// In a session that it was asked into no set has contents, and nothing was applied. Its blocks and its bits stay.
    pub fn asked(&self, session: u64) -> Plain {
        Plain {
            number: session,
            role: HalfRole::Receiver,
            state: State::Receiving,
            is_reverse: self.host == Host::P,
            mark: 0,
            applied: 0,
            contents: [false; 2],
            ..*self
        }
    }

    /// It has left.
    pub fn left(&self) -> Plain {
        Plain {
            state: State::Logging,
            ..*self
        }
    }

    fn with_blocks(&self, range: Range) -> Plain {
        let mut new = *self;
        if range.set < 2 {
            let image = &mut new.images[range.set as usize];
            put(image, range.at, range.count, range.byte);
        }
        new
    }

    fn with_mark(&self) -> Plain {
        Plain {
            state: State::Replicating,
            mark: self.applied,
            contents: [true; 2],
            due: [[false; 2]; 2],
            ..*self
        }
    }

    /// The next place was applied.
    pub fn with_next(&self, put: Put) -> Plain {
        let next = Plain {
            applied: self.applied.saturating_add(1),
            ..*self
        };
        match put {
            Put::Write(range) | Put::Copy(range) => next.with_blocks(range),
            Put::Mark => next.with_mark(),
        }
    }

    /// The segments of a range have bits.
    pub fn with_bits(&self, range: Range) -> Plain {
        let mut new = *self;
        let list = touched(range.at, range.count);
        if range.set < 2 {
            for seg in 0..2 {
                new.due[range.set as usize][seg] |= list[seg];
            }
        }
        new
    }

    fn ask(&self, session: u64) -> (Came, Plain) {
        if session > self.number {
            return (Came::Done, self.asked(session));
        }
        let why = Refusal::Stale {
            ours: self.number,
            theirs: session,
        };
        (Came::Refused(why), *self)
    }

    // Why a place of a session is not applied.
    fn refusal(&self, session: u64, place: u64) -> Option<Refusal> {
        let next = self.applied.saturating_add(1);
        match (session == self.number, self.state, place > next) {
            (false, _, _) => Some(Refusal::Stale {
                ours: self.number,
                theirs: session,
            }),
            (true, State::Logging, _) => Some(Refusal::WrongState(Word::Logging)),
            (true, _, true) => Some(Refusal::Early { next }),
            (true, _, false) => None,
        }
    }

    fn apply(&self, session: u64, place: u64, put: Put) -> (Came, Plain) {
        if let Some(why) = self.refusal(session, place) {
            return (Came::Refused(why), *self);
        }
        if place <= self.applied {
            return (Came::Applied(self.applied), *self);
        }
        (Came::Applied(place), self.with_next(put))
    }

    fn write(&self, range: Range) -> (Came, Plain) {
        if self.state != State::Logging {
            let why = Refusal::WrongState(word(self.state));
            return (Came::Refused(why), *self);
        }
        if range.set >= 2 || !self.contents[range.set as usize] {
            return (Came::Refused(Refusal::NoContents), *self);
        }
        (Came::Done, self.with_bits(range).with_blocks(range))
    }

    /// A set has contents.
    pub fn filled(&self, set: u32) -> Plain {
        let mut new = *self;
        if set < 2 {
            new.contents[set as usize] = true;
        }
        new
    }

    fn restore(&self, range: Range, is_put: bool) -> (Came, Plain) {
        if self.state != State::Logging {
            let why = Refusal::WrongState(word(self.state));
            return (Came::Refused(why), *self);
        }
        let noted = self.with_bits(range);
        if !is_put {
            return (Came::Done, noted);
        }
        (Came::Done, noted.filled(range.set).with_blocks(range))
    }

    /// What comes of a step, and what it stands for then.
    pub fn after(&self, step: Step) -> (Came, Plain) {
        match step {
            Step::Ask(session) => self.ask(session),
            Step::Apply(session, place, put) => self.apply(session, place, put),
            Step::Write(range) => self.write(range),
            Step::Restore(range) => self.restore(range, true),
            Step::Leave(range) => self.restore(range, false),
            Step::Log | Step::Load | Step::Tear(..) => (Came::Done, self.left()),
        }
    }
}
