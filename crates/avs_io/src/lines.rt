// Lines of a source, one at a time.
ghost use Rattle.std.specs.Prelude.{◌≡◌, ◌≢◌, ◌+◌, ◌≤◌, ◌<◌, [], List, ℕ, Option, Ok, Err, true, false, length, OnErr, OnOk, IfOk, IfErr, IsErrOf, IsTrue};
ghost use Rattle.std.specs.Option.{ForSome};
ghost use Rattle.avs_seg.specs.Causes.{HasCause, Rose};
ghost use Rattle.avs_seg.specs.Lines.{IsBeforeFeed, line_limit, lines_limit};
ghost use Rattle.avs_io.specs.declared.lines.TheConstants.{BUFFER};
ghost use Rattle.avs_io.specs.declared.lines.LineFault.TheVariants.{Read, NoMemory};

use crate::stream::Source;
use avs_seg::Failed;
use memchr::memchr;
use std::alloc::{AllocError, Global};
use std::marker::Model;

/// The bytes that a line may have, without its line feed.
pub const MAX_LINE: usize = 4096;

/// The lines that a source may have.
pub const MAX_LINES: u32 = 1_048_576;

const BUFFER: usize = 16384;

/// What comes next.
#[derive(Debug, Drop)]
pub enum Next {
    /// A line, which is counted.
    Line(LineText),
    /// The line has more than `MAX_LINE` bytes.
    Long,
    /// The source was read to its end, and each line was given.
    End,
    /// `MAX_LINES` lines were given, and bytes follow.
    Budget,
}

/// Why no line could be given.
#[derive(Clone, Copy, Debug, PartialEq, Eq)]
pub enum LineFault {
    /// The source failed before its end.
    Read,
    /// There was no memory for the line.
    NoMemory,
}

impl From<Failed> for LineFault {
    ghost from_gives = { λ _ e. e ≡ Read };

    fn from(_: Failed) -> Self {
        LineFault::Read
    }
}

impl From<AllocError> for LineFault {
    ghost from_gives = { λ _ e. e ≡ NoMemory };

    fn from(_: AllocError) -> Self {
        LineFault::NoMemory
    }
}

/// The bytes of a line, without its line feed.
#[derive(Debug, Drop)]
pub struct LineText {
    bytes: Vec<u8>,
}

impl Model for LineText {
    ghost Value = { List ℕ };

    ghost view = { λ t. t.bytes.items };
}

impl LineText {
    /// All its bytes.
    pub fn as_slice(&self) -> &[u8]
        ensures { result.now ≡ self.now }
    {
        &self.bytes
    }
}

// What a piece was to its line.
#[derive(Clone, Copy, Debug, PartialEq, Eq)]
enum Piece {
    More,
    Last,
    Long,
}

// The bytes before the first line feed, or all.
fn before_feed(bytes: &[u8]) -> &[u8]
    ensures { IsBeforeFeed result.now bytes.now }
{
    match memchr(b'\n', bytes) {
        Some(place) => &bytes[..place],
        None => bytes,
    }
}

/// Gives the lines of a source, which it asks for many bytes at once.
#[derive(Drop)]
pub struct Lines<'a, S: Source> {
    source: &'a mut S,
    buffer: [u8; BUFFER],
    start: usize,
    end: usize,
    ended: bool,
    given: u32,
    ghost ordered: { start ≤ end },
    ghost inside: { end ≤ BUFFER },
    ghost sized: { length buffer ≡ BUFFER },
    ghost counted: { given ≤ lines_limit },
    ghost at_end: { IsTrue ended → ForSome (S.left source.now) (λ bytes. bytes ≡ []) },
}

impl<'a, S: Source> Lines<'a, S> {
    ghost use Rattle.avs_io.specs.Reader.{Borrows, KeepsSource, reader_of, source_of, faults_of, held, fresh};
    ghost use Rattle.avs_io.specs.Next.{Gives, Breaks};
    ghost use Rattle.avs_io.specs.Given.{HasGiven, GoesOn};
    ghost use Rattle.avs_io.specs.Pieces.{IsSame, HoldsSome, HoldsNone, IsDone, TakesPiece, LosesPiece};

    /// A reader that has read nothing yet, and takes no memory.
    pub fn new(source: &'a mut S) -> Lines<'a, S>
        ensures reference { Borrows result source.entry }
        ensures source { source_of result ≡ source.old }
        ensures fresh { reader_of result ≡ fresh (S.left source.old) }
        ensures goes_on { HasGiven (S.left source.old) [] (reader_of result) }
    {
        Lines {
            source,
            buffer: [0; BUFFER],
            start: 0,
            end: 0,
            ended: false,
            given: 0,
        }
    }

    /// How many lines were given.
    pub fn given(&self) -> u32
        ensures { result ≡ (reader_of self.now).given }
    {
        self.given
    }

    // Asks the source for more where no byte is held. False is the end.
    fn fill(&mut self) -> Result<bool, Failed>
        ensures reference { KeepsSource self.old self.new }
        ensures cause { HasCause (faults_of self.old) (faults_of self.new) result }
        ensures quiet { OnOk result (faults_of self.new ≡ faults_of self.old) }
        ensures same { IsSame (reader_of self.old) (reader_of self.new) }
        ensures some { result ≡ Ok true → HoldsSome (reader_of self.old) (reader_of self.new) (held self.new) }
        ensures none { result ≡ Ok false → IsDone (reader_of self.new) }
        ensures failed { OnErr result (HoldsNone (reader_of self.old) (reader_of self.new)) }
    {
        if self.start < self.end {
            return Ok(true);
        }
        if self.ended {
            return Ok(false);
        }
        let count = self.source.read(&mut self.buffer)?;
        self.start = 0;
        self.end = count;
        self.ended = count == 0;
        Ok(count > 0)
    }

    // Takes the held bytes up to the next line feed, or all, and puts them behind the line's
    // where they fit. A line feed is taken with them.
    fn take_piece(&mut self, line: &mut Vec<u8>) -> Result<Piece, AllocError>
        requires some { 0 < length (held self.old) }
        requires short { length line.old.items ≤ line_limit }
        ensures reference { KeepsSource self.old self.new }
        ensures source { source_of self.new ≡ source_of self.old }
        ensures ended { (reader_of self.new).ended ≡ (reader_of self.old).ended }
        ensures piece { IfOk result (TakesPiece (reader_of self.old) (reader_of self.new) line.old.items line.new.items) }
        ensures lost { OnErr result (LosesPiece (reader_of self.old) (reader_of self.new)) }
    {
        let held = &self.buffer[self.start..self.end];
        let piece = before_feed(held);
        let len = piece.len();
        let is_fed = len < held.len();
        if line.len() + len > MAX_LINE {
            self.start += len;
            return Ok(Piece::Long);
        }
        let added = line.extend_from_slice(piece);
        self.start += len;
        added?;
        if is_fed {
            self.start += 1;
            return Ok(Piece::Last);
        }
        Ok(Piece::More)
    }

    // The next line, where not too many were given.
    fn next_line(&mut self, alloc: Global) -> Result<Next, LineFault>
        requires { (reader_of self.old).given < lines_limit }
        ensures reference { KeepsSource self.old self.new }
        ensures later { faults_of self.old ≤ faults_of self.new }
        ensures read { IsErrOf result LineFault.Read → Rose (faults_of self.old) (faults_of self.new) }
        ensures quiet { result ≢ Err LineFault.Read → faults_of self.new ≡ faults_of self.old }
        ensures gives { IfOk result (Gives (reader_of self.old) (reader_of self.new)) }
        ensures breaks { IfErr result (Breaks (reader_of self.old) (reader_of self.new)) }
    {
        let mut line = Vec::new(alloc);
        while self.fill()? {
            match self.take_piece(&mut line)? {
                Piece::More => {}
                Piece::Long => return Ok(Next::Long),
                Piece::Last => {
                    self.given += 1;
                    return Ok(Next::Line(LineText { bytes: line }));
                }
            }
        }
        if line.is_empty() {
            return Ok(Next::End);
        }
        self.given += 1;
        Ok(Next::Line(LineText { bytes: line }))
    }

    /// The next line, if there is one. Each of its bytes but the line feed that ends it stays, a
    /// carriage return too. A source that has said that it is at its end is not asked again.
    ///
    /// After `Long` and after a fault what was taken of the line is lost, and the reader stands
    /// behind it: it is only dropped.
    pub fn next(&mut self, alloc: Global) -> Result<Next, LineFault>
        ensures reference { KeepsSource self.old self.new }
        ensures later { faults_of self.old ≤ faults_of self.new }
        ensures read { IsErrOf result LineFault.Read → Rose (faults_of self.old) (faults_of self.new) }
        ensures quiet { result ≢ Err LineFault.Read → faults_of self.new ≡ faults_of self.old }

        ensures gives { IfOk result (Gives (reader_of self.old) (reader_of self.new)) }
        ensures breaks { IfErr result (Breaks (reader_of self.old) (reader_of self.new)) }

        // What a caller knows of the lines given so far, and keeps from call to call.
        ensures goes_on { (input : Option (List ℕ)) (lines : List (List ℕ)) → HasGiven input lines (reader_of self.old)
            → GoesOn input lines (reader_of self.new) result }
    {
        if self.given < MAX_LINES {
            return self.next_line(alloc);
        }
        if self.fill()? {
            return Ok(Next::Budget);
        }
        Ok(Next::End)
    }
}
