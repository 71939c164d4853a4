// What a volume serves as.
ghost use Rattle.std.specs.Prelude.{◌≡◌};
ghost use Rattle.avs_stack.specs.Names.{no_roles};

/// What a volume serves as, and what is noted of its contents.
#[derive(Clone, Copy, Debug, PartialEq, Eq)]
pub struct Roles {
    /// A volume of a mirror set.
    pub mirror: bool,
    /// The master of a shadow set.
    pub master: bool,
    pub shadow: bool,
    /// The bitmap volume of a shadow set or of a mirror set.
    pub bitmap: bool,
    /// An overflow volume of compact shadow sets.
    pub overflow: bool,
    /// The queue volume of a mirror group.
    pub queue: bool,
    /// A shadow from elsewhere, or the bitmap volume that came with it.
    pub import: bool,
    /// The stamp under which the volume was exported, while it is away.
    pub away: Option<u64>,
    /// Whether it was imported since that export.
    pub imported: bool,
    /// Whether its contents are gone.
    pub spent: bool,
}

impl Roles {
    /// Those of a new volume.
    pub fn none() -> Roles
        ensures { result ≡ no_roles }
    {
        Roles {
            mirror: false,
            master: false,
            shadow: false,
            bitmap: false,
            overflow: false,
            queue: false,
            import: false,
            away: None,
            imported: false,
            spent: false,
        }
    }
}
