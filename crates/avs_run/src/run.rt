// Runs the lines of a source, one after another.
ghost use Rattle.std.specs.Prelude.{◌≡◌, ◌≢◌, ◌<◌, ◌+◌, ℕ, List, [], Some, Err, OnOk};
ghost use Rattle.avs_seg.specs.Causes.{Rose};
ghost use Rattle.avs_seg.specs.Lines.{lines_limit};
ghost use Rattle.avs_io.specs.Given.{HasGiven};
ghost use Rattle.avs_io.specs.Reader.{reader_of, faults_of, KeepsSource};
ghost use Rattle.avs_model.specs.Promise.{Claim, Wrote};
ghost use Rattle.avs_run.specs.Ends.{status_of, Printed};
ghost use Rattle.avs_run.specs.Run.{Supports, Turns};

use crate::end::End;
use crate::line::{run_line, tell_bad_line};
use avs_dev::Rack;
use avs_io::{LineFault, Lines, Next, Sink, Source};
use avs_world::World;
use std::alloc::Global;

// Does the next line. An error ends the run.
fn turn<S: Source, K: Sink, R: Rack>(
    alloc: Global,
    lines: &mut Lines<'_, S>,
    world: &mut World<R::D>,
    sink: &mut K,
    rack: &mut R,
) -> Result<(), End>
    ensures turns { (claim : Claim) → Supports (R.seen rack.old) claim → (input : List ℕ)
        → Turns R.D.seen claim input (reader_of lines.old) (reader_of lines.new) world.old world.new (K.written sink.old) (K.written sink.new) result }
    ensures reference { KeepsSource lines.old lines.new }
    ensures given { OnOk result ((reader_of lines.new).given ≡ (reader_of lines.old).given + 1) }
    ensures below { OnOk result ((reader_of lines.old).given < lines_limit) }
    ensures tells { (R.seen rack.new).tells ≡ (R.seen rack.old).tells }
    ensures steady { (R.seen rack.new).steady ≡ (R.seen rack.old).steady }
    ensures read { result ≡ Err End.SourceFault → Rose (faults_of lines.old) (faults_of lines.new) }
    ensures read_quiet { result ≢ Err End.SourceFault → faults_of lines.new ≡ faults_of lines.old }
    ensures write { result ≡ Err End.SinkFault → Rose (K.faults sink.old) (K.faults sink.new) }
    ensures write_quiet { result ≢ Err End.SinkFault → K.faults sink.new ≡ K.faults sink.old }
    ensures rack { result ≡ Err End.RackFault → Rose (R.seen rack.old).faults (R.seen rack.new).faults }
    ensures rack_quiet { result ≢ Err End.RackFault → (R.seen rack.new).faults ≡ (R.seen rack.old).faults }
{
    let number = lines.given() + 1;
    match lines.next(alloc) {
        Ok(Next::Line(line)) => run_line(alloc, line.as_slice(), number, world, sink, rack),
        Ok(Next::Long) => Err(tell_bad_line(alloc, sink, number)),
        Ok(Next::End) => Err(End::Whole),
        Ok(Next::Budget) => Err(End::OverBudget),
        Err(LineFault::Read) => Err(End::SourceFault),
        Err(LineFault::NoMemory) => Err(End::NoMemory),
    }
}

// Runs the lines that are left.
fn run_lines<S: Source, K: Sink, R: Rack>(
    alloc: Global,
    lines: &mut Lines<'_, S>,
    sink: &mut K,
    rack: &mut R,
) -> End
    ensures ran { (claim : Claim) → Supports (R.seen rack.old) claim → (input : List ℕ) → HasGiven (Some input) [] (reader_of lines.old)
        → Printed (K.written sink.old) (K.written sink.new) (Wrote claim (status_of result) input (reader_of lines.new).left) }
    ensures reference { KeepsSource lines.old lines.new }
    ensures read { result ≡ End.SourceFault → Rose (faults_of lines.old) (faults_of lines.new) }
    ensures read_quiet { result ≢ End.SourceFault → faults_of lines.new ≡ faults_of lines.old }
    ensures write { result ≡ End.SinkFault → Rose (K.faults sink.old) (K.faults sink.new) }
    ensures write_quiet { result ≢ End.SinkFault → K.faults sink.new ≡ K.faults sink.old }
    ensures rack { result ≡ End.RackFault → Rose (R.seen rack.old).faults (R.seen rack.new).faults }
    ensures rack_quiet { result ≢ End.RackFault → (R.seen rack.new).faults ≡ (R.seen rack.old).faults }
{
    let mut world = World::new(alloc);
    loop {
        if let Err(end) = turn(alloc, lines, &mut world, sink, rack) {
            return end;
        }
    }
}

/// Runs the script that a source gives.
pub fn run_source<S: Source, K: Sink, R: Rack>(
    alloc: Global,
    source: &mut S,
    sink: &mut K,
    rack: &mut R,
) -> End
    ensures ran { (claim : Claim) → Supports (R.seen rack.old) claim → (input : List ℕ) → S.left source.old ≡ Some input
        → Printed (K.written sink.old) (K.written sink.new) (Wrote claim (status_of result) input (S.left source.new)) }
    ensures read { result ≡ End.SourceFault → Rose (S.faults source.old) (S.faults source.new) }
    ensures read_quiet { result ≢ End.SourceFault → S.faults source.new ≡ S.faults source.old }
    ensures write { result ≡ End.SinkFault → Rose (K.faults sink.old) (K.faults sink.new) }
    ensures write_quiet { result ≢ End.SinkFault → K.faults sink.new ≡ K.faults sink.old }
    ensures rack { result ≡ End.RackFault → Rose (R.seen rack.old).faults (R.seen rack.new).faults }
    ensures rack_quiet { result ≢ End.RackFault → (R.seen rack.new).faults ≡ (R.seen rack.old).faults }
{
    let mut lines = Lines::new(source);
    run_lines(alloc, &mut lines, sink, rack)
}
