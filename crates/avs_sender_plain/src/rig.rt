// A sender of two sets on disks in memory.
ghost use Rattle.std.specs.Prelude.{◌≡◌, ◌<◌, ◌≤◌, ◌^◌, IfOk, IfSome, IsNone, IsTrue, length};
ghost use Rattle.avs_dev.specs.Bare.{below_of};
ghost use Rattle.avs_dev.specs.Below.{size_of};
ghost use Rattle.avs_halves.specs.SetBits.{set_at};
ghost use Rattle.avs_sender.specs.Held.{seen_of};
ghost use Rattle.avs_sender_plain.specs.Rigs.{AreBelow, AreStacked, AreTwo, AreTwoParts};

use crate::calls::{Begin, Call, Came, Put};
use crate::disks::Disks;
use crate::set::{SIZES, Segments};
use avs_dev::{Back, Bare, Below, Disk, Errand, MemDisk, Tear, Why};
use avs_halves::is_session;
use avs_model::{Entry, Host, Limits, Refusal, State};
use avs_seg::{BLOCK, Failed, NoMemory, SegList};
use avs_sender::{Admitted, Sender, Settled, SyncStep};
use avs_sync::{HalfParts, HalfSet, HalfSets, NOTE, Session};
use std::alloc::Global;

/// The slots of the two sets in the note.
pub const SLOTS: [u32; 2] = [3, 0];

/// A sender.
#[derive(Drop)]
pub struct Rig {
    sender: Sender<MemDisk, Bare<MemDisk>>,
    ghost two: { AreTwo (seen_of below_of sender) },
}

type Parts = HalfParts<MemDisk, Bare<MemDisk>>;

// The volumes of disks.
fn stacked(alloc: Global, state: MemDisk, volumes: (MemDisk, MemDisk)) -> Option<Bare<MemDisk>> {
    if state.blocks() < 2 {
        return None;
    }
    let mut below = match Bare::new(alloc, state) {
        Ok(below) => below,
        Err(_) => return None,
    };
    if below.add(volumes.0).is_err() || below.add(volumes.1).is_err() {
        return None;
    }
    Some(below)
}

// The sets on these disks of their bits. The second set is over the first volume.
fn sets_of(alloc: Global, bits: (MemDisk, MemDisk)) -> Option<HalfSets<MemDisk>>
    ensures { IfSome result AreTwoParts }
{
    let first = HalfSet {
        vol: 1,
        slot: SLOTS[0],
        bits: bits.0,
    };
    let second = HalfSet {
        vol: 0,
        slot: SLOTS[1],
        bits: bits.1,
    };
    match Vec::from_array(alloc, [first, second]) {
        Ok(sets) => Some(HalfSets::new(sets)),
        Err(_) => None,
    }
}

// The disks of parts.
fn disks_of(parts: Parts) -> Option<Disks> {
    let HalfParts {
        below,
        sets,
        land,
        ..
    } = parts;
    let (state, mut volumes) = below.into_parts();
    let mut sets = sets.into_vec();
    match (volumes.pop(), volumes.pop(), sets.pop(), sets.pop()) {
        (Some(first), Some(second), Some(two), Some(one)) => Some(Disks {
            state,
            volumes: (first, second),
            bits: (one.bits, two.bits),
            land,
        }),
        _ => None,
    }
}

/// What disks make of a sender.
#[derive(Drop)]
pub enum Found {
    Rig(Rig),
    /// It is refused, and the disks are handed back.
    Refused(Why, Disks),
    /// The disks are no parts of a sender of two sets, or there was no memory.
    None,
}

// Whether what is below has both volumes of their sizes.
fn is_sized(below: &Bare<MemDisk>) -> bool
    ensures { IsTrue result → AreStacked (below_of below.now) }
{
    below.count() == 2 && below.size(1) == SIZES[0] && below.size(0) == SIZES[1]
}

// The sender that is found on parts.
fn load_parts(alloc: Global, parts: Parts, limits: Limits) -> Found
    requires stacked { AreStacked (below_of parts.below) }
    requires two { AreTwoParts parts.sets }
    requires none { IsNone parts.queue }
{
    match Sender::load(alloc, parts, limits) {
        Ok(sender) => Found::Rig(Rig { sender }),
        Err(Back { parts, why }) => match disks_of(parts) {
            Some(disks) => Found::Refused(why, disks),
            None => Found::None,
        },
    }
}

/// The sender that is found on disks.
pub fn load(alloc: Global, host: Host, disks: Disks, limits: Limits) -> Found {
    let Disks {
        state,
        volumes,
        bits,
        land,
    } = disks;
    let Some(below) = stacked(alloc, state, (volumes.1, volumes.0)) else {
        return Found::None;
    };
    let Some(sets) = sets_of(alloc, bits) else {
        return Found::None;
    };
    if !is_sized(&below) {
        return Found::None;
    }
    let parts = HalfParts {
        host,
        below,
        sets,
        queue: None,
        land,
    };
    load_parts(alloc, parts, limits)
}

// A list of some segments of so many.
fn list_of(alloc: Global, segments: &Segments, segs: u32) -> Result<SegList, NoMemory>
    ensures { IfOk result (AreBelow segs) }
{
    let mut list = SegList::new(alloc);
    for seg in 0..3 {
        if segments[seg] && (seg as u32) < segs {
            list.push(seg as u32)?;
        }
    }
    Ok(list)
}

fn done(answer: Result<(), Refusal>) -> Came {
    match answer {
        Ok(()) => Came::Done,
        Err(why) => Came::Refused(why),
    }
}

/// Reads a volume of so many blocks.
#[derive(Drop)]
pub struct Look {
    pub vol: u32,
    pub bytes: Vec<u8>,
    pub note: [u8; NOTE],
    pub is_read: bool,
}

impl<B: Below> Errand<B> for Look {
    ghost use Rattle.std.specs.Prelude.{◌≡◌};
    ghost use Rattle.avs_sender_plain.specs.Reading.{LooksAround};

    ghost ran = { λ _ below _ _ _ below_new. LooksAround (B.seen below) (B.seen below_new) × (B.IsSound below → B.IsSound below_new) };

    fn run(&mut self, below: &mut B, note: &[u8; 64]) -> Result<(), Failed> {
        self.note = *note;
        if self.vol >= below.count() {
            return Ok(());
        }
        let blocks = below.size(self.vol);
        if blocks == 0 || blocks > 4096 || self.bytes.len() != BLOCK * blocks as usize {
            return Ok(());
        }
        below.read(self.vol, 0, &mut self.bytes)?;
        self.is_read = true;
        Ok(())
    }
}

/// The volume of a set.
pub fn volume_of(set: u32) -> u32 {
    if set == 0 { 1 } else { 0 }
}

impl Rig {
    /// The disks, once the sender is taken apart.
    pub fn into_disks(self) -> Option<Disks> {
        let Rig { sender } = self;
        disks_of(sender.into_parts())
    }

    fn begin(&mut self, alloc: Global, begin: &Begin) -> Came {
        if begin.number <= self.sender.session().number || begin.number > 1 << 62 {
            return Came::Barred;
        }
        let (first, second) = (
            list_of(alloc, &begin.theirs.0, 3),
            list_of(alloc, &begin.theirs.1, 2),
        );
        match (first, second) {
            (Ok(first), Ok(second)) => self.begin_with(alloc, begin, first, second),
            _ => Came::Barred,
        }
    }

    // With these segments of the other half.
    fn begin_with(&mut self, alloc: Global, begin: &Begin, first: SegList, second: SegList) -> Came
        requires later { self.old.sender.half.session.number < begin.now.number }
        requires number { begin.now.number ≤ 2 ^ 62 }
        requires first { AreBelow 3 first }
        requires second { AreBelow 2 second }
    {
        let theirs = [first, second];
        done(self.sender.begin(alloc, begin.number, begin.full, &theirs))
    }

    // A write of a set whose volume has so many blocks.
    fn write(&mut self, alloc: Global, put: &Put, blocks: u32) -> Came
        requires set { put.now.set < 2 }
        requires there { (set_at self.old.sender.half.sets put.now.set).vol < length (below_of self.old.sender.below).sizes }
        requires size { size_of (below_of self.old.sender.below) (set_at self.old.sender.half.sets put.now.set).vol ≡ blocks }
        requires few { blocks ≤ 150 }
    {
        if put.count == 0 || put.at >= blocks || put.count > blocks - put.at {
            return Came::Barred;
        }
        if self.sender.session().last >= 1 << 62 {
            return Came::Barred;
        }
        let Ok(bytes) = vec![in alloc; put.byte; BLOCK * put.count as usize] else {
            return Came::Barred;
        };
        match self.sender.admit(alloc, put.set, put.at, &bytes) {
            Ok(Admitted::Local) => Came::Local,
            Ok(Admitted::Place(place)) => Came::Place(place),
            Ok(Admitted::Logged) => Came::Logged,
            Err(why) => Came::Refused(why),
        }
    }

    // A write of the set that it names.
    fn write_to(&mut self, alloc: Global, put: &Put) -> Came {
        match put.set {
            0 => self.write(alloc, put, SIZES[0]),
            1 => self.write(alloc, put, SIZES[1]),
            _ => Came::Barred,
        }
    }

    fn sync(&mut self, alloc: Global) -> Came {
        if self.sender.session().last >= 1 << 62 {
            return Came::Barred;
        }
        match self.sender.sync_step(alloc) {
            Ok(SyncStep::Copied { place, set, seg }) => Came::Copied(place, set, seg),
            Ok(SyncStep::Mark(place)) => Came::Marked(place),
            Ok(SyncStep::Idle) => Came::Idle,
            Ok(SyncStep::Logged) => Came::Logged,
            Err(why) => Came::Refused(why),
        }
    }

    fn tick(&mut self, applied: u64) -> Came {
        match self.sender.tick(applied) {
            Ok(known) => Came::Known(known),
            Err(why) => Came::Refused(why),
        }
    }

    fn log(&mut self) -> Came {
        done(self.sender.log())
    }

    fn broken(&mut self) -> Came {
        match self.sender.broken() {
            Ok(state) => Came::Left(state),
            Err(why) => Came::Refused(why),
        }
    }

    /// Makes a call.
    pub fn act(&mut self, alloc: Global, call: Call) -> Came {
        match call {
            Call::Begin(begin) => self.begin(alloc, &begin),
            Call::Tick(applied) => self.tick(applied),
            Call::Log => self.log(),
            Call::Broken => self.broken(),
            Call::Write(put) => self.write_to(alloc, &put),
            Call::Sync => self.sync(alloc),
            Call::Lend | Call::Crash => Came::Barred,
        }
    }

    /// Lends what is below to an errand that reads the volume of a set.
    pub fn look(&mut self, alloc: Global, set: u32) -> Option<Look> {
        let mut look = Look {
            vol: volume_of(set),
            bytes: vec![in alloc; 0; BLOCK * SIZES[(set == 1) as usize] as usize].ok()?,
            note: [0; NOTE],
            is_read: false,
        };
        match self.sender.lend(&mut look) {
            Ok(()) => Some(look),
            Err(Failed) => None,
        }
    }

    /// The session.
    pub fn session(&self) -> Session {
        self.sender.session()
    }

    /// The state, the last place and the known one.
    pub fn stands(&self) -> (State, u64, u64) {
        (self.sender.state(), self.sender.last(), self.sender.known())
    }

    /// The segments of a set that are due.
    pub fn bits(&self, alloc: Global, set: u32) -> Option<SegList> {
        if set >= 2 {
            return None;
        }
        self.sender.bits(alloc, set).ok()
    }

    /// The entry of a place, where it may be asked for.
    pub fn entry(&self, alloc: Global, place: u64) -> Option<Result<Entry, Refusal>> {
        let (state, known) = (self.sender.state(), self.sender.known());
        if is_session(state) && (place == 0 || known < place) {
            return Some(self.sender.entry(alloc, place));
        }
        None
    }

    /// The blocks written on the disk of a set's bits, and on that of the landing volume.
    pub fn written(&self, disk: u32) -> Option<u64> {
        self.sender.written(disk)
    }

    /// Arms a tear on one of these disks.
    pub fn arm(&mut self, disk: u32, tear: Tear) -> bool {
        self.sender.arm(disk, tear)
    }

    /// Whether a place is acknowledged.
    pub fn settle(&self, place: u64) -> Settled {
        self.sender.settle(place)
    }
}
