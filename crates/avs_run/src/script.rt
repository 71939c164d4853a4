// The top call.
ghost use Rattle.std.specs.Prelude.{◌≡◌, ◌≢◌, ◌<◌, ◌↔◌, Some, List, ℕ, IsTrue, vec_len};
ghost use Rattle.avs_seg.specs.Causes.{Rose};
ghost use Rattle.avs_model.specs.Promise.{OneEach, AreGood, Wrote};
ghost use Rattle.avs_run.specs.Ends.{Printed};

use crate::run::run_source;
use avs_dev::Rack;
use avs_io::{Sink, Source};
use avs_model::Tap;
use std::alloc::Global;

/// Runs the script that the source gives, gives the answers to the sink, and ends with a status:
///
/// | status | when |
/// |---|---|
/// | 0 | the source was read to its end, and each event is answered |
/// | 2 | there is a word |
/// | 3 | a line is no statement; the last line written tells its number |
/// | 4, 5, 6 | the source, the sink, the rack failed |
/// | 7 | there was no memory |
/// | 8 | more lines follow than may be read |
///
/// The whole text of an answer is given to the sink by one `put_all` before the next line is read. The taps are not used yet.
pub fn run_script<S: Source, K: Sink, R: Rack>(
    alloc: Global,
    words: &Vec<String>,
    source: &mut S,
    sink: &mut K,
    rack: &mut R,
    taps: Vec<Box<dyn Tap>>,
) -> u8
    // What was written of the answers, where the source tells its bytes and the disks their blocks.
    ensures wrote { IsTrue (R.seen rack.old).tells → (input : List ℕ) → S.left source.old ≡ Some input
        → Printed (K.written sink.old) (K.written sink.new) (Wrote (AreGood (R.seen rack.old).steady) result input (S.left source.new)) }

    // Whether they tell them or not, each status has its cause in the script, and each event up to there one answer.
    ensures counted { (input : List ℕ) → S.left source.old ≡ Some input
        → Printed (K.written sink.old) (K.written sink.new) (Wrote OneEach result input (S.left source.new)) }

    ensures words { (result ≡ 2) ↔ (0 < vec_len words.now) }
    ensures untouched { result ≡ 2 → (source.new ≡ source.old) × (sink.new ≡ sink.old) × (rack.new ≡ rack.old) }

    // The first fault of the source, the sink or the rack ends the run, and no other status can hide it.
    ensures read { result ≡ 4 → Rose (S.faults source.old) (S.faults source.new) }
    ensures read_quiet { result ≢ 4 → S.faults source.new ≡ S.faults source.old }
    ensures write { result ≡ 5 → Rose (K.faults sink.old) (K.faults sink.new) }
    ensures write_quiet { result ≢ 5 → K.faults sink.new ≡ K.faults sink.old }
    ensures rack { result ≡ 6 → Rose (R.seen rack.old).faults (R.seen rack.new).faults }
    ensures rack_quiet { result ≢ 6 → (R.seen rack.new).faults ≡ (R.seen rack.old).faults }
{
    let _ = taps;
    if !words.is_empty() {
        return 2;
    }
    run_source(alloc, source, sink, rack).status()
}
