// A source that keeps the line that it is giving.
ghost use Rattle.std.specs.Prelude.{◌≡◌, ◌≤◌, ◌<◌, ◌-◌, ◌++◌, [], Ok, true, false, length, take, OnErr, OnOk, IfOk};
ghost use Rattle.std.specs.Io.KnownBytes.{prepend_known, IsAtEnd};
ghost use Rattle.avs_seg.specs.Causes.{HasCause};
ghost use Rattle.avs_told.specs.Kept.{none_kept, grown, IsOfOneLine, Follows};
ghost use Rattle.avs_told.specs.declared.told.TheConstants.{BUFFER};

use crate::kept::KeptLine;
use avs_io::Source;
use avs_seg::Failed;
use memchr::memchr;

const BUFFER: usize = 16384;

/// A source over another, which it asks for many bytes at once and gives line by line.
#[derive(Drop)]
pub struct Told<S> {
    source: S,
    buffer: [u8; BUFFER],
    start: usize,
    end: usize,
    kept: KeptLine,
    ghost ordered: { start ≤ end },
    ghost inside: { end ≤ BUFFER },
    ghost sized: { length buffer ≡ BUFFER },
}

// The bytes up to the first line feed and with it, or all.
fn first_line(bytes: &[u8]) -> &[u8]
    requires { 0 < length bytes.now }
    ensures some { 0 < length result.now }
    ensures inside { length result.now ≤ length bytes.now }
    ensures front { result.now ≡ take (length result.now) bytes.now }
    ensures one { IsOfOneLine result.now }
{
    match memchr(b'\n', bytes) {
        Some(place) => &bytes[..place + 1],
        None => bytes,
    }
}

impl<S: Source> Told<S> {
    ghost use Rattle.avs_told.specs.Held.{held, below, line_in};

    /// A source that gives what another has left.
    pub fn new(source: S) -> Told<S>
        ensures source { below result ≡ source }
        ensures held { held result ≡ [] }
        ensures line { line_in result ≡ none_kept }
    {
        Told {
            source,
            buffer: [0; BUFFER],
            start: 0,
            end: 0,
            kept: KeptLine::new(),
        }
    }

    /// The line that it is giving.
    pub fn line(&self) -> &KeptLine
        ensures { result.now ≡ line_in self.now }
    {
        &self.kept
    }

    // Asks the source below for more where nothing is held. False is the end.
    fn fill(&mut self) -> Result<bool, Failed>
        ensures left { prepend_known (held self.new) (S.left (below self.new)) ≡ prepend_known (held self.old) (S.left (below self.old)) }
        ensures line { line_in self.new ≡ line_in self.old }
        ensures cause { HasCause (S.faults (below self.old)) (S.faults (below self.new)) result }
        ensures quiet { OnOk result (S.faults (below self.new) ≡ S.faults (below self.old)) }
        ensures some { result ≡ Ok true → 0 < length (held self.new) }
        ensures none { result ≡ Ok false → IsAtEnd (prepend_known (held self.new) (S.left (below self.new))) }
    {
        if self.start < self.end {
            return Ok(true);
        }
        let count = self.source.read(&mut self.buffer)?;
        self.start = 0;
        self.end = count;
        Ok(count > 0)
    }

    // Gives of the bytes that are held those of the first line, as far as there is room.
    fn give(&mut self, out: &mut [u8]) -> usize
        requires room { 0 < length out.old }
        requires some { 0 < length (held self.old) }
        ensures some { 0 < result }
        ensures bound { result ≤ length out.new }
        ensures source { below self.new ≡ below self.old }
        ensures held { held self.old ≡ take result out.new ++ held self.new }
        ensures line { line_in self.new ≡ grown (line_in self.old) (take result out.new) }
        ensures one { IsOfOneLine (take result out.new) }
    {
        let line = first_line(&self.buffer[self.start..self.end]);
        let count = line.len().min(out.len());
        out[..count].copy_from_slice(&line[..count]);
        self.start += count;
        self.kept.grow(&out[..count]);
        count
    }
}

impl<S: Source> Source for Told<S> {
    ghost use Rattle.avs_told.specs.Held.{held, below, line_in};

    ghost left = { λ t. prepend_known (held t) (S.left (below t)) };

    ghost faults = { λ t. S.faults (below t) };

    /// Gives bytes of one line alone.
    fn read(&mut self, out: &mut [u8]) -> Result<usize, Failed>
        ensures bound { IfOk result (λ n. n ≤ length out.new) }
        ensures bytes { IfOk result (λ n. prepend_known (held self.old) (S.left (below self.old)) ≡ prepend_known (take n out.new) (prepend_known (held self.new) (S.left (below self.new)))) }
        ensures end { IfOk result (λ n. n ≡ 0 → 0 < length out.new → IsAtEnd (prepend_known (held self.new) (S.left (below self.new)))) }
        ensures kept { OnErr result (prepend_known (held self.new) (S.left (below self.new)) ≡ prepend_known (held self.old) (S.left (below self.old))) }
        ensures cause { HasCause (S.faults (below self.old)) (S.faults (below self.new)) result }
        ensures quiet { OnOk result (S.faults (below self.new) ≡ S.faults (below self.old)) }
        ensures line { IfOk result (λ n. Follows (line_in self.old) (line_in self.new) (take n out.new)) }
        ensures same { OnErr result (line_in self.new ≡ line_in self.old) }
    {
        if out.is_empty() || !self.fill()? {
            return Ok(0);
        }
        Ok(self.give(out))
    }
}
