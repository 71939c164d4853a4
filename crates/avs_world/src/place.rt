// The volumes of a host by name, and where the disk of each is.
ghost use Rattle.std.specs.Prelude.{◌≡◌, ◌+◌, ◌*◌, ◌^◌, ◌<◌, ◌≤◌, ◌∷◌, ◌++◌, [], Err, IfSome, IfNone, None, OnErr, OnOk, length, position, slice_get, slice_set, vec_len};
ghost use Rattle.std.specs.Str.{bytes_eq};
ghost use Rattle.indexmap.specs.IndexSet.{index_set_len};
ghost use Rattle.avs_world.specs.declared.place.Place.TheVariants.{Here};
ghost use Rattle.avs_world.specs.declared.world.WorldFault.TheVariants.{NoMemory};

use crate::world::WorldFault;
use avs_dev::{Arm, Disk, Tear};
use avs_seg::Failed;
use indexmap::IndexSet;
use std::alloc::Global;
use std::mem;

// Where the disk of a volume is.
#[derive(Drop)]
pub(crate) enum Place<D> {
    // Here, and the volume has contents.
    Here(D),
    // Here, and its contents are gone.
    Spent(D),
    // With the group.
    Lent,
}

// The volumes in order of making.
#[derive(Drop)]
pub(crate) struct Shelf<D> {
    names: IndexSet<Vec<u8>>,
    places: Vec<Place<D>>,
    // The blocks of all volumes.
    blocks: u32,
    ghost a_place_each: { index_set_len names ≤ vec_len places },
}

impl<D: Arm> Shelf<D> {
    ghost use Rattle.avs_world.specs.Views.{names_of, places_of};
    ghost use Rattle.avs_world.specs.Ranges.{disk_here, is_gone, size_here};
    ghost use Rattle.avs_world.specs.Places.{HasRange, ReadsPlace, WritesPlace, ArmsPlace, Lends, LendsNone, place_of};

    pub(crate) fn new(alloc: Global) -> Shelf<D>
        ensures names { names_of result ≡ [] }
        ensures places { places_of D.seen result ≡ [] }
        ensures blocks { result.blocks ≡ 0 }
    {
        Shelf {
            names: IndexSet::new(alloc),
            places: Vec::new(alloc),
            blocks: 0,
        }
    }

    // The place of the volume of that name.
    pub(crate) fn find(&self, name: &[u8]) -> Option<usize>
        ensures place { result ≡ position (bytes_eq name.now) (names_of self.now) }
        ensures within { IfSome result (λ place. place < length (places_of D.seen self.now)) }
    {
        self.names.get_index_of(name)
    }

    // The blocks of all volumes.
    pub(crate) fn blocks(&self) -> u32
        ensures { result ≡ self.now.blocks }
    {
        self.blocks
    }

    // A new volume behind the others.
    pub(crate) fn add(&mut self, alloc: Global, name: &[u8], disk: D) -> Result<(), WorldFault>
        requires new { position (bytes_eq name.now) (names_of self.old) ≡ None }
        requires room { self.old.blocks + (D.seen disk).size < 2 ^ 32 }
        ensures names { OnOk result (names_of self.new ≡ names_of self.old ++ name.now ∷ []) }
        ensures places { OnOk result (places_of D.seen self.new ≡ places_of D.seen self.old ++ Here (D.seen disk) ∷ []) }
        ensures blocks { OnOk result (self.new.blocks ≡ self.old.blocks + (D.seen disk).size) }
        ensures memory { OnErr result (result ≡ Err WorldFault.NoMemory) }
    {
        let blocks = disk.blocks();
        self.places.push(Place::Here(disk))?;
        self.names.insert(name.to_vec(alloc)?)?;
        self.blocks += blocks;
        Ok(())
    }

    // How many blocks the volume at a place has, where its disk is here.
    pub(crate) fn size(&self, place: usize) -> u32
        requires { place < length (places_of D.seen self.now) }
        ensures { result ≡ size_here (places_of D.seen self.now) place }
    {
        match &self.places[place] {
            Place::Here(disk) => disk.blocks(),
            Place::Spent(disk) => disk.blocks(),
            Place::Lent => 0,
        }
    }

    // Whether its disk is here, and its contents are gone.
    pub(crate) fn is_spent(&self, place: usize) -> bool
        requires { place < length (places_of D.seen self.now) }
        ensures { result ≡ is_gone (slice_get (places_of D.seen self.now) place) }
    {
        matches!(&self.places[place], Place::Spent(_))
    }

    // Reads blocks of its disk.
    pub(crate) fn read(&mut self, place: usize, at: u32, out: &mut [u8]) -> Result<(), Failed>
        requires { HasRange (places_of D.seen self.old) place at (length out.old) }
        ensures reads { ReadsPlace (places_of D.seen self.old) place at out.new result (places_of D.seen self.new) }
        ensures names { names_of self.new ≡ names_of self.old }
        ensures blocks { self.new.blocks ≡ self.old.blocks }
    {
        match &mut self.places[place] {
            Place::Here(disk) => disk.read(at, out),
            Place::Spent(disk) => disk.read(at, out),
            Place::Lent => unreachable!(),
        }
    }

    // Writes blocks of its disk.
    pub(crate) fn write(&mut self, place: usize, at: u32, bytes: &[u8]) -> Result<(), Failed>
        requires { HasRange (places_of D.seen self.old) place at (length bytes.now) }
        ensures writes { WritesPlace (places_of D.seen self.old) place at bytes.now result (places_of D.seen self.new) }
        ensures names { names_of self.new ≡ names_of self.old }
        ensures blocks { self.new.blocks ≡ self.old.blocks }
    {
        match &mut self.places[place] {
            Place::Here(disk) => disk.write(at, bytes),
            Place::Spent(disk) => disk.write(at, bytes),
            Place::Lent => unreachable!(),
        }
    }

    // Arms a tear on its disk, where it is here, and tells whether it lets one be armed.
    pub(crate) fn arm(&mut self, place: usize, tear: Tear) -> bool
        requires { place < length (places_of D.seen self.old) }
        ensures arms { ArmsPlace (disk_here (slice_get (places_of D.seen self.old) place)) (places_of D.seen self.old) place tear result (places_of D.seen self.new) }
        ensures names { names_of self.new ≡ names_of self.old }
        ensures blocks { self.new.blocks ≡ self.old.blocks }
    {
        match &mut self.places[place] {
            Place::Here(disk) => disk.arm(tear),
            Place::Spent(disk) => disk.arm(tear),
            Place::Lent => false,
        }
    }

    // Lends its disk, where it is here, and tells whether its contents are gone.
    pub(crate) fn lend(&mut self, place: usize) -> Option<(D, bool)>
        requires { place < length (places_of D.seen self.old) }
        ensures lends { IfSome result (λ r. Lends (places_of D.seen self.old) place (D.seen r.0) r.1 (places_of D.seen self.new)) }
        ensures none { IfNone result (LendsNone (places_of D.seen self.old) place (places_of D.seen self.new)) }
        ensures names { names_of self.new ≡ names_of self.old }
        ensures blocks { self.new.blocks ≡ self.old.blocks }
    {
        match mem::replace(&mut self.places[place], Place::Lent) {
            Place::Here(disk) => Some((disk, false)),
            Place::Spent(disk) => Some((disk, true)),
            Place::Lent => None,
        }
    }

    // Takes its disk back, where there is such a place.
    pub(crate) fn put_back(&mut self, place: usize, disk: D, spent: bool)
        ensures places { places_of D.seen self.new ≡ slice_set (places_of D.seen self.old) place (place_of spent (D.seen disk)) }
        ensures names { names_of self.new ≡ names_of self.old }
        ensures blocks { self.new.blocks ≡ self.old.blocks }
    {
        if place < self.places.len() {
            self.places[place] = if spent {
                Place::Spent(disk)
            } else {
                Place::Here(disk)
            };
        }
    }
}
