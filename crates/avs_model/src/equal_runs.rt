// Runs of equal blocks.
ghost use Rattle.std.specs.Prelude.{◌≡◌, ◌+◌, ◌*◌, ◌/◌, ◌^◌, ◌<◌, ◌≤◌, ◌++◌, ◌∷◌, [], length, take, drop, replicate, IfOk, OnErr, OnOk};
ghost use Rattle.avs_seg.specs.Image.{Image, blocks_of};
ghost use Rattle.avs_model.specs.Filling.{shortest_pattern};
ghost use Rattle.avs_model.specs.EqualBlocks.{runs_of, run_at};
ghost use Rattle.avs_model.specs.HeldRuns.{blocks_held, closed_run, HoldsRuns};

use avs_seg::{BLOCK, NoMemory};
use std::alloc::Global;
use std::marker::Model;

// How many blocks it has, and where among the patterns the one is that fills each.
#[derive(Clone, Copy, Debug)]
struct Run {
    count: usize,
    start: usize,
    len: usize,
}

/// Blocks, held as runs of equal ones: of each run the number of its blocks and the shortest pattern that fills them.
#[derive(Debug, Drop)]
pub struct EqualRuns {
    // All runs but the last, which may grow.
    runs: Vec<Run>,
    patterns: Vec<u8>,
    // Of the last run: how many blocks it has, and where its pattern begins, which ends the patterns.
    count: usize,
    start: usize,
}

impl Model for EqualRuns {
    ghost Value = { Image };

    ghost view = { λ r. blocks_held r.patterns.items r.runs.items r.count r.start };

    ghost invariant = { λ r. HoldsRuns r.patterns.items r.runs.items r.count r.start };
}

impl EqualRuns {
    /// No blocks. Takes no memory.
    pub fn new(alloc: Global) -> EqualRuns
        ensures { result ≡ [] }
    {
        EqualRuns {
            runs: Vec::new(alloc),
            patterns: Vec::new(alloc),
            count: 0,
            start: 0,
        }
    }

    /// Lets go of all blocks. Their memory stays for others.
    pub fn clear(&mut self)
        ensures { self.new ≡ [] }
    {
        self.runs.clear();
        self.patterns.clear();
        self.count = 0;
        self.start = 0;
    }

    /// Appends whole blocks.
    pub fn push(&mut self, bytes: &[u8]) -> Result<(), NoMemory>
        requires whole { 512 * (length bytes.now / 512) ≡ length bytes.now }
        requires room { length self.old + length bytes.now / 512 < 2 ^ 64 }
        ensures { OnOk result (self.new ≡ self.old ++ blocks_of bytes.now) }
    {
        let mut rest = bytes;
        while !rest.is_empty() {
            let count = first_run(rest);
            self.push_run(count, &rest[..BLOCK])?;
            rest = &rest[BLOCK * count..];
        }
        Ok(())
    }

    // Appends equal blocks.
    fn push_run(&mut self, count: usize, block: &[u8]) -> Result<(), NoMemory>
        requires some { 0 < count }
        requires size { length block.now ≡ 512 }
        requires room { length self.old + count < 2 ^ 64 }
        ensures { OnOk result (self.new ≡ self.old ++ replicate count block.now) }
    {
        let pattern = shortest_pattern(block);
        if self.count == 0 {
            self.start = 0;
            self.patterns.clear();
            self.patterns.extend_from_slice(pattern)?;
            self.count = count;
            return Ok(());
        }
        if &self.patterns[self.start..] == pattern {
            self.count += count;
            return Ok(());
        }
        self.start = close_run(
            &mut self.runs,
            &mut self.patterns,
            self.count,
            self.start,
            pattern,
        )?;
        self.count = count;
        Ok(())
    }

    /// How many runs there are.
    pub fn len(&self) -> usize
        ensures { result ≡ length (runs_of self.now) }
    {
        if self.count == 0 {
            return 0;
        }
        self.runs.len() + 1
    }

    /// How many blocks a run has.
    pub fn count(&self, index: usize) -> usize
        requires { index < length (runs_of self.now) }
        ensures { result ≡ (run_at self.now index).count }
    {
        if index == self.runs.len() {
            return self.count;
        }
        self.runs[index].count
    }

    /// The shortest pattern that fills each block of a run.
    pub fn pattern(&self, index: usize) -> &[u8]
        requires { index < length (runs_of self.now) }
        ensures { result.now ≡ shortest_pattern (run_at self.now index).block }
    {
        if index == self.runs.len() {
            return &self.patterns[self.start..];
        }
        let run = self.runs[index];
        &self.patterns[run.start..run.start + run.len]
    }
}

// Holds a run that does not grow any more, and the pattern of the next one, and gives where that begins. Where memory is wanting nothing
// changes.
fn close_run(
    runs: &mut Vec<Run>,
    patterns: &mut Vec<u8>,
    count: usize,
    start: usize,
    pattern: &[u8],
) -> Result<usize, NoMemory>
    requires { start ≤ length patterns.old.items }
    ensures next { IfOk result (λ next. next ≡ length patterns.old.items) }
    ensures runs { OnOk result (runs.new.items ≡ runs.old.items ++ closed_run patterns.old.items count start ∷ []) }
    ensures patterns { OnOk result (patterns.new.items ≡ patterns.old.items ++ pattern.now) }
    ensures same_runs { OnErr result (runs.new.items ≡ runs.old.items) }
    ensures same_patterns { OnErr result (patterns.new.items ≡ patterns.old.items) }
{
    let end = patterns.len();
    patterns.extend_from_slice(pattern)?;
    let run = Run {
        count,
        start,
        len: end - start,
    };
    if runs.push(run).is_err() {
        patterns.truncate(end);
        return Err(NoMemory);
    }
    Ok(end)
}

// How many blocks from the first on are equal.
fn first_run(bytes: &[u8]) -> usize
    requires whole { 512 * (length bytes.now / 512) ≡ length bytes.now }
    requires some { 0 < length bytes.now }
    ensures some { 0 < result }
    ensures within { 512 * result ≤ length bytes.now }
    ensures fits { 512 * result < 2 ^ 64 }
    ensures equal { blocks_of bytes.now ≡ replicate result (take 512 bytes.now) ++ blocks_of (drop (512 * result) bytes.now) }
{
    let block = &bytes[..BLOCK];
    let mut count = 1;
    while BLOCK * count < bytes.len() && &bytes[BLOCK * count..BLOCK * count + BLOCK] == block {
        count += 1;
    }
    count
}

/// The shortest pattern that fills the block, else the block.
pub fn shortest_pattern(block: &[u8]) -> &[u8]
    requires { length block.now ≡ 512 }
    ensures { result.now ≡ shortest_pattern block.now }
{
    if &block[16..] != &block[..block.len() - 16] {
        return block;
    }
    let mut len = 16;
    while len > 1 && &block[len / 2..len] == &block[..len / 2] {
        len /= 2;
    }
    &block[..len]
}
