// Why a line is not read.
ghost use Rattle.std.specs.Prelude.{◌≡◌};
ghost use Rattle.avs_script.specs.declared.error.LineError.TheVariants.{NoMemory};

/// Why a line is not read.
#[derive(Clone, Copy, Debug, PartialEq, Eq)]
pub enum LineError {
    /// The line is no statement.
    Bad,
    /// There was no memory left for a name.
    NoMemory,
}

impl From<avs_seg::NoMemory> for LineError {
    ghost from_gives = { λ _ error. error ≡ NoMemory };

    fn from(_: avs_seg::NoMemory) -> Self {
        LineError::NoMemory
    }
}
