// Shadow sets.

/// What a shadow set is.
#[derive(Clone, Copy, Debug, PartialEq, Eq)]
pub enum Kind {
    /// Independent: the shadow's disk comes to hold all its blocks.
    Ind,
    /// Dependent: the shadow's disk holds the chunks that were written, and the master's the others.
    Dep,
    /// Dependent, with a shadow's disk that is smaller than the master's.
    Compact,
}
