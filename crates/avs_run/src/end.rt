// How a run ends.
ghost use Rattle.std.specs.Prelude.{◌≡◌};

/// How a run ends.
#[derive(Clone, Copy, Debug, PartialEq, Eq)]
pub enum End {
    /// All lines were read and answered.
    Whole,
    /// A line is no statement, and its number was told.
    BadLine,
    SourceFault,
    SinkFault,
    RackFault,
    NoMemory,
    /// As many lines were read as may be, and more follow.
    OverBudget,
}

impl End {
    ghost use Rattle.avs_run.specs.Ends.{status_of};

    /// The exit status that tells it.
    pub fn status(self) -> u8
        ensures { result ≡ status_of self }
    {
        match self {
            End::Whole => 0,
            End::BadLine => 3,
            End::SourceFault => 4,
            End::SinkFault => 5,
            End::RackFault => 6,
            End::NoMemory => 7,
            End::OverBudget => 8,
        }
    }
}
