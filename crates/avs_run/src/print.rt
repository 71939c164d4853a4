// Gives the text of answers to the sink.
ghost use Rattle.std.specs.Prelude.{◌≡◌, ◌≢◌, Err, OnOk, IfErr};
ghost use Rattle.std.specs.Io.KnownBytes.{append_known};
ghost use Rattle.avs_seg.specs.Causes.{Rose};
ghost use Rattle.avs_model.specs.Printed.{answer_line, bad_line};
ghost use Rattle.avs_run.specs.Cuts.{Cuts};
ghost use Rattle.avs_run.specs.declared.print.PrintFault.TheVariants.{Sink, NoMemory};

use avs_io::{Sink, put_all};
use avs_model::Answer;
use avs_seg::Failed;
use avs_text::{answer_line, bad_line};
use std::alloc::Global;

/// Why a text was not printed.
#[derive(Clone, Copy, Debug, PartialEq, Eq)]
pub enum PrintFault {
    /// The sink failed: it has taken the first bytes of the text.
    Sink,
    /// There was no memory for the text, of which nothing is printed.
    NoMemory,
}

impl From<Failed> for PrintFault {
    ghost from_gives = { λ _ e. e ≡ Sink };

    fn from(_: Failed) -> Self {
        PrintFault::Sink
    }
}

impl From<avs_seg::NoMemory> for PrintFault {
    ghost from_gives = { λ _ e. e ≡ NoMemory };

    fn from(_: avs_seg::NoMemory) -> Self {
        PrintFault::NoMemory
    }
}

/// Prints an answer, by one call of `put_all`.
pub fn print_answer<K: Sink>(alloc: Global, sink: &mut K, answer: &Answer) -> Result<(), PrintFault>
    ensures printed { OnOk result (K.written sink.new ≡ append_known (K.written sink.old) (answer_line answer.now)) }
    ensures cut { IfErr result (Cuts (K.written sink.old) (K.written sink.new) (answer_line answer.now)) }
    ensures cause { result ≡ Err PrintFault.Sink → Rose (K.faults sink.old) (K.faults sink.new) }
    ensures quiet { result ≢ Err PrintFault.Sink → K.faults sink.new ≡ K.faults sink.old }
{
    let line = answer_line(alloc, answer)?;
    put_all(sink, line.as_bytes())?;
    Ok(())
}

/// Prints that the line of that number is no statement.
pub fn print_bad_line<K: Sink>(alloc: Global, sink: &mut K, number: u32) -> Result<(), PrintFault>
    ensures printed { OnOk result (K.written sink.new ≡ append_known (K.written sink.old) (bad_line number)) }
    ensures cut { IfErr result (Cuts (K.written sink.old) (K.written sink.new) (bad_line number)) }
    ensures cause { result ≡ Err PrintFault.Sink → Rose (K.faults sink.old) (K.faults sink.new) }
    ensures quiet { result ≢ Err PrintFault.Sink → K.faults sink.new ≡ K.faults sink.old }
{
    let line = bad_line(alloc, number)?;
    put_all(sink, line.as_bytes())?;
    Ok(())
}
