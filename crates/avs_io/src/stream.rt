// Sources and sinks, which count their faults.
ghost use Rattle.std.specs.Prelude.{◌≡◌, ◌≤◌, ◌<◌, List, Option, ℕ, length, take, OnOk, OnErr, IfOk};
ghost use Rattle.std.specs.Io.KnownBytes.{prepend_known, append_known, IsAtEnd};
ghost use Rattle.avs_seg.specs.Causes.{HasCause};
ghost use Rattle.avs_io.specs.Writes.{WritesPart};

use avs_seg::Failed;

/// Gives bytes. Each call that fails is told by `Failed`, so a count that rose is never behind an `Ok`.
pub trait Source {
    /// The bytes that are left, where it tells them.
    ghost left: { Self → Option (List ℕ) };

    /// How often it has failed.
    ghost faults: { Self → ℕ };

    /// Puts the next bytes at the beginning of `out`, and answers how many. None where there is
    /// room is the end. What lies behind them in `out` means nothing.
    fn read(&mut self, out: &mut [u8]) -> Result<usize, Failed>
        ensures bound { IfOk result (λ n. n ≤ length out.new) }
        ensures bytes { IfOk result (λ n. left self.old ≡ prepend_known (take n out.new) (left self.new)) }
        ensures end { IfOk result (λ n. n ≡ 0 → 0 < length out.new → IsAtEnd (left self.new)) }
        ensures kept { OnErr result (left self.new ≡ left self.old) }
        ensures cause { HasCause (faults self.old) (faults self.new) result }
        ensures quiet { OnOk result (faults self.new ≡ faults self.old) };
}

/// Takes bytes.
pub trait Sink {
    /// The bytes that it has taken, where it tells them.
    ghost written: { Self → Option (List ℕ) };

    /// How often it has failed.
    ghost faults: { Self → ℕ };

    /// Takes the first of the bytes, and at least one where there is one, and answers how many.
    fn write(&mut self, bytes: &[u8]) -> Result<usize, Failed>
        ensures bound { IfOk result (λ n. n ≤ length bytes.now) }
        ensures some { IfOk result (λ n. 0 < length bytes.now → 0 < n) }
        ensures bytes { IfOk result (λ n. written self.new ≡ append_known (written self.old) (take n bytes.now)) }
        ensures kept { OnErr result (written self.new ≡ written self.old) }
        ensures cause { HasCause (faults self.old) (faults self.new) result }
        ensures quiet { OnOk result (faults self.new ≡ faults self.old) };
}

/// Gives all the bytes to the sink, in as many calls as it takes. After `Failed` the sink has
/// taken the first of them, which may be none.
pub fn put_all<K: Sink>(sink: &mut K, bytes: &[u8]) -> Result<(), Failed>
    ensures all { OnOk result (K.written sink.new ≡ append_known (K.written sink.old) bytes.now) }
    ensures part { OnErr result (WritesPart (K.written sink.old) (K.written sink.new) bytes.now) }
    ensures cause { HasCause (K.faults sink.old) (K.faults sink.new) result }
    ensures quiet { OnOk result (K.faults sink.new ≡ K.faults sink.old) }
{
    let mut done = 0;
    while done < bytes.len() {
        done += sink.write(&bytes[done..])?;
    }
    Ok(())
}
