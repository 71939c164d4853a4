// Lists of disks, and of the disks of sets.
ghost use Rattle.std.specs.Prelude.{◌≡◌, map};
ghost use Rattle.avs_ii.specs.SetDisks.{set_disks};

use avs_dev::Disk;
use avs_model::Kind;
use std::marker::Model;

/// Disks in order.
#[derive(Drop)]
pub struct DiskList<D: Disk> {
    disks: Vec<D>,
}

impl<D: Disk> Model for DiskList<D> {
    ghost use Rattle.std.specs.Prelude.{List, map};
    ghost use Rattle.avs_dev.specs.Seen.{Seen};

    ghost Value = { List Seen };

    ghost view = { λ l. map D.seen l.disks.items };
}

impl<D: Disk> DiskList<D> {
    /// The disks of a vector, which becomes the list.
    pub fn new(disks: Vec<D>) -> DiskList<D>
        ensures { result ≡ map D.seen disks.items }
    {
        DiskList { disks }
    }

    /// The vector with the disks.
    pub fn into_vec(self) -> Vec<D>
        ensures { map D.seen result.items ≡ self }
    {
        let DiskList { disks } = self;
        disks
    }
}

/// The disks of a set.
#[derive(Drop)]
pub struct SetParts<D: Disk> {
    /// The number of the set in its group.
    pub slot: u32,
    pub kind: Kind,
    /// The place of its master among the volumes.
    pub master: u32,
    /// The shadow's disk, but where the set is exported.
    pub shadow: Option<D>,
    pub bitmap: D,
    /// The place of its overflow volume.
    pub over: Option<u32>,
}

/// Sets in order of enabling.
#[derive(Drop)]
pub struct SetList<D: Disk> {
    sets: Vec<SetParts<D>>,
}

impl<D: Disk> Model for SetList<D> {
    ghost use Rattle.std.specs.Prelude.{List, map};
    ghost use Rattle.avs_ii.specs.SetDisks.{SetDisks, set_disks};

    ghost Value = { List SetDisks };

    ghost view = { λ l. map (set_disks D.seen) l.sets.items };
}

impl<D: Disk> SetList<D> {
    /// The sets of a vector, which becomes the list.
    pub fn new(sets: Vec<SetParts<D>>) -> SetList<D>
        ensures { result ≡ map (set_disks D.seen) sets.items }
    {
        SetList { sets }
    }

    /// The vector with the sets.
    pub fn into_vec(self) -> Vec<SetParts<D>>
        ensures { map (set_disks D.seen) result.items ≡ self }
    {
        let SetList { sets } = self;
        sets
    }
}
