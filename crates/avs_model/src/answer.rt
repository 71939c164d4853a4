// Answers to events, and what is printed of hosts and refusals.
ghost use Rattle.std.specs.Prelude.{Some};

use crate::equal_runs::EqualRuns;
use crate::event::Host;
use crate::recovered::Recovered;
use std::fmt;

/// A state that excludes an event, of what it says. The variants are the words that are printed.
#[derive(Clone, Copy, Debug, PartialEq, Eq)]
pub enum Word {
    /// The host is up.
    Up,
    /// The disk lets no tear be armed.
    Unarmed,
    /// The set is independent.
    Ind,
    /// The set is dependent.
    Dep,
    /// The set is compact.
    Compact,
    /// The volume was exported, and is not imported here; or it did not come back.
    Away,
    /// The set is exported.
    Exported,
    /// The copying of the set was stopped.
    Stopped,
    /// The volume is not away.
    Present,
    /// The set is not exported.
    Online,
    /// The volume holds no segments of an import, or serves as something.
    Plain,
    /// The set has an overflow volume.
    Attached,
    /// The set has no overflow volume.
    Detached,
    /// The set uses slots of its overflow volume.
    Used,
    Logging,
    Syncing,
    Receiving,
    Replicating,
    Queuing,
}

/// What a volume serves as. Of several the first is told.
#[derive(Clone, Copy, Debug, PartialEq, Eq)]
pub enum Role {
    /// It was exported.
    Away,
    Mirror,
    Master,
    Shadow,
    Bitmap,
    Overflow,
    Queue,
    /// It was imported, or is the bitmap of an import.
    Import,
    /// It serves as none of these.
    Plain,
}

/// Why an event is refused. The variants stand in the order in which they are answered.
#[derive(Clone, Copy, Debug, PartialEq, Eq)]
pub enum Refusal {
    /// The host is down.
    Down(Host),
    /// The words before this one, counted from 0, begin a command, and with it none.
    BadWord(u32),
    /// There is no such text.
    NoFile,
    NoVolume,
    NoSet,
    NoGroup,
    /// That tap is not in the list; or, with 0, none is attached.
    NoTap(u32),
    Exists,
    /// Host `p` alone does this.
    NotPrimary,
    LinkDown,
    /// What the volume serves as excludes this use.
    BusyVolume(Role),
    /// A read or a write has this length, which is outside its limit.
    Length(u32),
    /// The range ends behind the volume's end; the volume has so many blocks.
    Range(u32),
    /// A volume has fewer blocks than its use needs.
    Size { need: u32, have: u32 },
    /// A number or a count is outside this limit.
    Limit(u64),
    /// The word of that number excludes, or differs from, what the others say.
    Unlike(u32),
    /// A tap that is attached refused, with its code.
    Tap { tap: u32, code: u32 },
    /// The session of the message is not that of the half.
    Stale { ours: u64, theirs: u64 },
    /// A state excludes the event.
    WrongState(Word),
    /// The place was not given; the last one that was.
    NoPlace(u64),
    /// So many chunks are still to be copied.
    Copying(u32),
    /// The volume has no contents.
    NoContents,
    /// A compact set needs so many slots, and had that many.
    Offline { need: u32, slots: u32 },
    /// The stamp of the set is not that of the bitmap.
    WrongStamp { ours: u64, theirs: u64 },
    /// The volumes differ in this segment first.
    Differ(u32),
    /// The queue holds so many entries, and so many blocks of them.
    QueueFull { writes: u32, blocks: u32 },
    /// A field on a disk breaks its rule.
    BadRecord(u32),
    /// Memory was refused. No answer of a run holds it.
    NoMemory,
    /// A disk failed. A layer does not know its host; an answer says `Faulted` with the host.
    Fault,
    /// The place is above the next one to be applied, which is this. No answer of a run holds it.
    Early { next: u64 },
}

/// What an event answers.
#[derive(Debug, Drop)]
pub enum Answer {
    Done,
    /// The blocks that were read.
    Shown(EqualRuns),
    /// The host was brought down.
    Down(Host),
    /// The host was brought up again.
    Up(Recovered),
    Refused(Refusal),
    /// A disk of the host failed, and the host is down.
    Faulted(Host),
}

impl fmt::Display for Host {
    ghost use Rattle.avs_model.specs.Printed.{host_text};

    ghost output = { λ host. Some (host_text host) };

    fn fmt<W: fmt::Write>(&self, f: &mut fmt::Formatter<W>) -> fmt::Result {
        match self {
            Host::P => f.write_str("p"),
            Host::S => f.write_str("s"),
        }
    }
}

impl fmt::Display for Word {
    ghost use Rattle.avs_model.specs.Printed.{word_text};

    ghost output = { λ word. Some (word_text word) };

    fn fmt<W: fmt::Write>(&self, f: &mut fmt::Formatter<W>) -> fmt::Result {
        match self {
            Word::Up => f.write_str("up"),
            Word::Unarmed => f.write_str("unarmed"),
            Word::Ind => f.write_str("ind"),
            Word::Dep => f.write_str("dep"),
            Word::Compact => f.write_str("compact"),
            Word::Away => f.write_str("away"),
            Word::Exported => f.write_str("exported"),
            Word::Stopped => f.write_str("stopped"),
            Word::Present => f.write_str("present"),
            Word::Online => f.write_str("online"),
            Word::Plain => f.write_str("plain"),
            Word::Attached => f.write_str("attached"),
            Word::Detached => f.write_str("detached"),
            Word::Used => f.write_str("used"),
            Word::Logging => f.write_str("logging"),
            Word::Syncing => f.write_str("syncing"),
            Word::Receiving => f.write_str("receiving"),
            Word::Replicating => f.write_str("replicating"),
            Word::Queuing => f.write_str("queuing"),
        }
    }
}

impl fmt::Display for Role {
    ghost use Rattle.avs_model.specs.Printed.{role_text};

    ghost output = { λ role. Some (role_text role) };

    fn fmt<W: fmt::Write>(&self, f: &mut fmt::Formatter<W>) -> fmt::Result {
        match self {
            Role::Away => f.write_str("away"),
            Role::Mirror => f.write_str("mirror"),
            Role::Master => f.write_str("master"),
            Role::Shadow => f.write_str("shadow"),
            Role::Bitmap => f.write_str("bitmap"),
            Role::Overflow => f.write_str("overflow"),
            Role::Queue => f.write_str("queue"),
            Role::Import => f.write_str("import"),
            Role::Plain => f.write_str("plain"),
        }
    }
}

impl fmt::Display for Refusal {
    ghost use Rattle.avs_model.specs.Printed.{refusal_text};

    ghost output = { λ why. Some (refusal_text why) };

    fn fmt<W: fmt::Write>(&self, f: &mut fmt::Formatter<W>) -> fmt::Result {
        match self {
            Refusal::Down(host) => write!(f, "Down {host}"),
            Refusal::BadWord(word) => write!(f, "BadWord {word}"),
            Refusal::NoFile => f.write_str("NoFile"),
            Refusal::NoVolume => f.write_str("NoVolume"),
            Refusal::NoSet => f.write_str("NoSet"),
            Refusal::NoGroup => f.write_str("NoGroup"),
            Refusal::NoTap(tap) => write!(f, "NoTap {tap}"),
            Refusal::Exists => f.write_str("Exists"),
            Refusal::NotPrimary => f.write_str("NotPrimary"),
            Refusal::LinkDown => f.write_str("LinkDown"),
            Refusal::BusyVolume(role) => write!(f, "BusyVolume {role}"),
            Refusal::Length(len) => write!(f, "Length {len}"),
            Refusal::Range(blocks) => write!(f, "Range {blocks}"),
            Refusal::Size { need, have } => write!(f, "Size {need} {have}"),
            Refusal::Limit(limit) => write!(f, "Limit {limit}"),
            Refusal::Unlike(word) => write!(f, "Unlike {word}"),
            Refusal::Tap { tap, code } => write!(f, "Tap {tap} {code}"),
            Refusal::Stale { ours, theirs } => write!(f, "Stale {ours} {theirs}"),
            Refusal::WrongState(word) => write!(f, "WrongState {word}"),
            Refusal::NoPlace(last) => write!(f, "NoPlace {last}"),
            Refusal::Copying(chunks) => write!(f, "Copying {chunks}"),
            Refusal::NoContents => f.write_str("NoContents"),
            Refusal::Offline { need, slots } => write!(f, "Offline {need} {slots}"),
            Refusal::WrongStamp { ours, theirs } => write!(f, "WrongStamp {ours} {theirs}"),
            Refusal::Differ(seg) => write!(f, "Differ {seg}"),
            Refusal::QueueFull { writes, blocks } => write!(f, "QueueFull {writes} {blocks}"),
            Refusal::BadRecord(field) => write!(f, "BadRecord {field}"),
            Refusal::NoMemory => f.write_str("NoMemory"),
            Refusal::Fault => f.write_str("Fault"),
            Refusal::Early { next } => write!(f, "Early {next}"),
        }
    }
}
