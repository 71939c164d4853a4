// The shadow set of a host, and the group that holds it.
ghost use Rattle.std.specs.Prelude.{◌≡◌};

use avs_dev::Disk;
use avs_ii::{IiGroup, IiParts};
use avs_model::{Name, Role};
use std::mem;

// The number of the set's master in its group.
pub(crate) const MASTER: u32 = 0;

// The disks of the group by their numbers, as its call `arm` has them.
const STATE_DISK: u32 = 0;

const MASTER_DISK: u32 = 1;

const SHADOW_DISK: u32 = 2;

const BITMAP_DISK: u32 = 3;

// What a volume serves as, in a world of one set.
#[derive(Clone, Copy, Debug, PartialEq, Eq)]
pub(crate) enum Part {
    Master,
    Shadow,
    Bitmap,
    Plain,
}

impl Part {
    ghost use Rattle.avs_world.specs.Ranges.{told_as};

    // How it is told.
    pub(crate) fn told(self) -> Role
        ensures { result ≡ told_as self }
    {
        match self {
            Part::Master => Role::Master,
            Part::Shadow => Role::Shadow,
            Part::Bitmap => Role::Bitmap,
            Part::Plain => Role::Plain,
        }
    }
}

// A shadow set: its name, its slot in the group, and the places of its volumes.
#[derive(Debug, Drop)]
pub(crate) struct ShadowSet {
    pub(crate) name: Name,
    pub(crate) slot: u32,
    pub(crate) master: usize,
    pub(crate) shadow: usize,
    pub(crate) bitmap: usize,
    // Whether the shadow's volume had no contents before.
    pub(crate) spent: bool,
}

impl ShadowSet {
    ghost use Rattle.avs_world.specs.Ranges.{role_in};
    ghost use Rattle.avs_world.specs.Causes.{number_of};

    // What the volume at a place serves as.
    pub(crate) fn role(&self, place: usize) -> Part
        ensures { result ≡ role_in self.now place }
    {
        if place == self.master {
            Part::Master
        } else if place == self.shadow {
            Part::Shadow
        } else if place == self.bitmap {
            Part::Bitmap
        } else {
            Part::Plain
        }
    }

    // The number of the disk in the group that serves as that.
    pub(crate) fn disk_number(role: Part) -> u32
        ensures { result ≡ number_of role }
    {
        match role {
            Part::Master => MASTER_DISK,
            Part::Shadow => SHADOW_DISK,
            Part::Bitmap => BITMAP_DISK,
            Part::Plain => STATE_DISK,
        }
    }
}

// The group of a host, which has one shadow set.
#[derive(Drop)]
pub(crate) enum Group<D: Disk> {
    // There never was one.
    None,
    // There is none, and this state disk is free for the next.
    Free(D),
    // The host is up.
    Open(ShadowSet, IiGroup<D>),
    // The host is down: the set is listed, and its disks tell whether it is enabled.
    Closed(ShadowSet, IiParts<D>),
}

impl<D: Disk> Group<D> {
    ghost use Rattle.avs_world.specs.Views.{group_view, closed, SameApart};
    ghost use Rattle.avs_world.specs.Ranges.{role_by, group_size};

    // What the volume at a place serves as.
    pub(crate) fn role(&self, place: usize) -> Part
        ensures { result ≡ role_by (group_view D.seen self.now) place }
    {
        match self {
            Group::Open(set, _) => set.role(place),
            Group::Closed(set, _) => set.role(place),
            Group::None | Group::Free(_) => Part::Plain,
        }
    }

    // How many blocks the master has, and how many the shadow.
    pub(crate) fn size(&self, role: Part) -> u32
        ensures { result ≡ group_size (group_view D.seen self.now) role }
    {
        match self {
            Group::Open(set, group) => {
                let size = match role {
                    Part::Master => group.volume_size(MASTER),
                    Part::Shadow => group.shadow_size(set.slot),
                    Part::Bitmap | Part::Plain => None,
                };
                size.unwrap_or(0)
            }
            _ => 0,
        }
    }

    // Takes the group apart: nothing of it stays in memory but where its disks are.
    pub(crate) fn close(&mut self)
        ensures apart { group_view D.seen self.new ≡ closed (group_view D.seen self.old) }
        ensures same { SameApart (group_view D.seen self.old) }
    {
        *self = match mem::replace(self, Group::None) {
            Group::None => Group::None,
            Group::Free(disk) => Group::Free(disk),
            Group::Open(set, group) => Group::Closed(set, group.into_parts()),
            Group::Closed(set, parts) => Group::Closed(set, parts),
        };
    }
}
