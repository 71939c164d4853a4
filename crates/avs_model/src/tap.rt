// Filters that look at reads and writes.
ghost use Rattle.std.specs.Prelude.{◌≡◌};
ghost use Rattle.avs_model.specs.declared.tap.Tally.{Tally};
ghost use Rattle.avs_model.specs.Tallies.{tally_after};

/// A read or a write of blocks.
#[derive(Clone, Copy, Debug, PartialEq, Eq)]
pub struct Io {
    pub write: bool,
    pub at: u32,
    pub len: u32,
}

/// What a tap says of it: to go on, or to refuse it with a code.
#[derive(Clone, Copy, Debug, PartialEq, Eq)]
pub enum Verdict {
    Pass,
    Veto(u32),
}

/// How often a tap has looked, and how often it has refused. Both stop at their type's end.
#[derive(Clone, Copy, Debug, PartialEq, Eq)]
pub struct Tally {
    pub looks: u64,
    pub vetoes: u64,
}

/// A filter that is attached to a volume.
pub trait Tap: Drop {
    ghost tally_of: { Self → Tally };

    fn look(&mut self, io: &Io) -> Verdict
        ensures { tally_of self.new ≡ tally_after (tally_of self.old) result };

    fn tally(&self) -> Tally
        ensures { result ≡ tally_of self.now };
}
