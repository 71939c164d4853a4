// What a half is made of: what lies below it, and its disks.
ghost use Rattle.std.specs.Prelude.{◌≡◌, map};
ghost use Rattle.avs_sync.specs.Parts.{mirror_set};

use avs_dev::{Back, Below, Disk, Why};
use avs_model::Host;
use std::marker::Model;

/// A mirror set of a half.
#[derive(Drop)]
pub struct HalfSet<D: Disk> {
    /// Its volume below the half.
    pub vol: u32,
    /// Its bit in the note, from 0 on.
    pub slot: u32,
    /// The bitmap's disk.
    pub bits: D,
}

/// The mirror sets of a half, in byte order of their names.
#[derive(Drop)]
pub struct HalfSets<D: Disk> {
    sets: Vec<HalfSet<D>>,
}

impl<D: Disk> Model for HalfSets<D> {
    ghost use Rattle.std.specs.Prelude.{List, map};
    ghost use Rattle.avs_sync.specs.Parts.{MirrorSet, mirror_set};

    ghost Value = { List MirrorSet };

    ghost view = { λ l. map (mirror_set D.seen) l.sets.items };
}

impl<D: Disk> HalfSets<D> {
    /// The sets of a vector, which becomes the list.
    pub fn new(sets: Vec<HalfSet<D>>) -> HalfSets<D>
        ensures { result ≡ map (mirror_set D.seen) sets.items }
    {
        HalfSets { sets }
    }

    /// The vector with the sets.
    pub fn into_vec(self) -> Vec<HalfSet<D>>
        ensures { map (mirror_set D.seen) result.items ≡ self }
    {
        let HalfSets { sets } = self;
        sets
    }
}

/// What a half is loaded from.
#[derive(Drop)]
pub struct HalfParts<D: Disk, B: Below> {
    /// The host that the half is on.
    pub host: Host,
    pub below: B,
    pub sets: HalfSets<D>,
    /// The queue's disk, if there is one.
    pub queue: Option<D>,
    /// The disk of the landing volume.
    pub land: D,
}

/// The parts of a half, handed back.
pub type HalfClosed<D, B> = Back<HalfParts<D, B>, Why>;
