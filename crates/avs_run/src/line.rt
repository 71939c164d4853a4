// Does what a line says, and prints the answer.
ghost use Rattle.std.specs.Prelude.{◌≡◌, ◌≢◌, ℕ, List, true, Some, Err, IfErr};
ghost use Rattle.avs_seg.specs.Causes.{Rose};
ghost use Rattle.avs_model.specs.Script.{statement, built};
ghost use Rattle.avs_model.specs.declared.event.Statement.TheVariants.{Run};
ghost use Rattle.avs_model.specs.Promise.{Claim};
ghost use Rattle.avs_run.specs.Ends.{IsLineEnd};
ghost use Rattle.avs_run.specs.Run.{Supports, RunsLine};
ghost use Rattle.avs_run.specs.Bad.{TellsBad};

use crate::end::End;
use crate::print::{PrintFault, print_answer, print_bad_line};
use avs_dev::Rack;
use avs_io::Sink;
use avs_model::{Event, Statement};
use avs_script::{LineError, read_line};
use avs_world::{World, WorldFault};
use std::alloc::Global;

/// Prints that a line is no statement, by which the run ends.
pub fn tell_bad_line<K: Sink>(alloc: Global, sink: &mut K, number: u32) -> End
    ensures tells { TellsBad (K.written sink.old) (K.written sink.new) number result }
    ensures write { result ≡ End.SinkFault → Rose (K.faults sink.old) (K.faults sink.new) }
    ensures write_quiet { result ≢ End.SinkFault → K.faults sink.new ≡ K.faults sink.old }
{
    match print_bad_line(alloc, sink, number) {
        Ok(()) => End::BadLine,
        Err(PrintFault::Sink) => End::SinkFault,
        Err(PrintFault::NoMemory) => End::NoMemory,
    }
}

// Does an event, and prints its answer.
fn run_event<K: Sink, R: Rack>(
    alloc: Global,
    event: &Event,
    world: &mut World<R::D>,
    sink: &mut K,
    rack: &mut R,
) -> Result<(), End>
    requires { built event.now ≡ true }
    ensures runs { (claim : Claim) → Supports (R.seen rack.old) claim → (line : List ℕ) → statement line ≡ Some (Run event.now) → (number : ℕ)
        → RunsLine R.D.seen claim line number world.old world.new (K.written sink.old) (K.written sink.new) result }
    ensures tells { (R.seen rack.new).tells ≡ (R.seen rack.old).tells }
    ensures steady { (R.seen rack.new).steady ≡ (R.seen rack.old).steady }
    ensures only { IfErr result IsLineEnd }
    ensures write { result ≡ Err End.SinkFault → Rose (K.faults sink.old) (K.faults sink.new) }
    ensures write_quiet { result ≢ Err End.SinkFault → K.faults sink.new ≡ K.faults sink.old }
    ensures rack { result ≡ Err End.RackFault → Rose (R.seen rack.old).faults (R.seen rack.new).faults }
    ensures rack_quiet { result ≢ Err End.RackFault → (R.seen rack.new).faults ≡ (R.seen rack.old).faults }
{
    let answer = match world.step(alloc, event, rack) {
        Ok(answer) => answer,
        Err(WorldFault::Rack) => return Err(End::RackFault),
        Err(WorldFault::NoMemory) => return Err(End::NoMemory),
    };
    match print_answer(alloc, sink, &answer) {
        Ok(()) => {
            world.keep(answer);
            Ok(())
        }
        Err(PrintFault::Sink) => Err(End::SinkFault),
        Err(PrintFault::NoMemory) => Err(End::NoMemory),
    }
}

/// Does what a line says. An error ends the run.
pub fn run_line<K: Sink, R: Rack>(
    alloc: Global,
    line: &[u8],
    number: u32,
    world: &mut World<R::D>,
    sink: &mut K,
    rack: &mut R,
) -> Result<(), End>
    ensures runs { (claim : Claim) → Supports (R.seen rack.old) claim
        → RunsLine R.D.seen claim line.now number world.old world.new (K.written sink.old) (K.written sink.new) result }
    ensures tells { (R.seen rack.new).tells ≡ (R.seen rack.old).tells }
    ensures steady { (R.seen rack.new).steady ≡ (R.seen rack.old).steady }
    ensures only { IfErr result IsLineEnd }
    ensures write { result ≡ Err End.SinkFault → Rose (K.faults sink.old) (K.faults sink.new) }
    ensures write_quiet { result ≢ Err End.SinkFault → K.faults sink.new ≡ K.faults sink.old }
    ensures rack { result ≡ Err End.RackFault → Rose (R.seen rack.old).faults (R.seen rack.new).faults }
    ensures rack_quiet { result ≢ Err End.RackFault → (R.seen rack.new).faults ≡ (R.seen rack.old).faults }
{
    match read_line(alloc, line) {
        Ok(Statement::Nothing) => Ok(()),
        Ok(Statement::Run(event)) => run_event(alloc, &event, world, sink, rack),
        Err(LineError::Bad) => Err(tell_bad_line(alloc, sink, number)),
        Err(LineError::NoMemory) => Err(End::NoMemory),
    }
}
