// A set in its seat of a group.
ghost use Rattle.std.specs.Prelude.{◌≡◌, ◌<◌, ◌≤◌, ◌^◌, ℕ, true, false, None, Some, is_some};
ghost use Rattle.std.specs.Option.{option_map};
ghost use Rattle.avs_model.specs.ShadowSets.{is_compact};
ghost use Rattle.avs_sets.specs.Sets.{chunks_of};
ghost use Rattle.avs_sets.specs.Owners.{IsServed};
ghost use Rattle.avs_held.specs.Held.{HasRoom, chunk_set, seen_of};

use avs_chunks::Chunks;
use avs_dev::Disk;
use avs_model::Kind;
use std::marker::Model;

/// Where a set stands in its group: its slot, the number of its master, how many slots of 64 blocks the shadow's volume
/// has, and the number of its overflow volume.
#[derive(Clone, Copy, Debug, PartialEq, Eq)]
pub struct Seat {
    pub slot: u32,
    pub master: u32,
    pub own: u32,
    pub over: Option<u32>,
}

/// A set, its disks, and its seat. Each call that needs the master's disk is given it.
#[derive(Drop)]
pub struct HeldSet<D: Disk> {
    pub(crate) seat: Seat,
    pub(crate) chunks: Chunks<D>,
}

impl<D: Disk> Model for HeldSet<D> {
    ghost use Rattle.avs_held.specs.Held.{Held, HasRoom};

    ghost Value = { Held };

    ghost view = { λ s. record { seat = s.seat; chunks = s.chunks } };

    ghost invariant = { λ s. HasRoom s.chunks };
}

impl<D: Disk> HeldSet<D> {
    /// A set in chunks, in its seat.
    pub fn in_chunks(seat: Seat, chunks: Chunks<D>) -> HeldSet<D>
        requires { HasRoom chunks }
        ensures { seen_of result ≡ chunk_set seat chunks }
    {
        HeldSet { seat, chunks }
    }

    /// Its seat.
    pub fn seat(&self) -> Seat
        ensures slot { result.slot ≡ (seen_of self.now).slot }
        ensures master { result.master ≡ (seen_of self.now).master }
        ensures own { result.own ≡ (seen_of self.now).size.own }
        ensures over { result.over ≡ (seen_of self.now).over }
    {
        self.seat
    }

    /// What the set is: not compact.
    pub fn kind(&self) -> Kind
        ensures is { result ≡ (seen_of self.now).kind }
        ensures chunks { is_compact (seen_of self.now).kind ≡ false }
    {
        self.chunks.kind()
    }

    /// How many blocks the set has.
    pub fn blocks(&self) -> u32
        ensures { result ≡ (seen_of self.now).size.blocks }
    {
        self.chunks.blocks()
    }

    /// How many chunks the set has.
    pub fn chunks(&self) -> u32
        ensures { result ≡ chunks_of (seen_of self.now) }
    {
        self.chunks.chunks()
    }

    /// Whether the shadow's disk is there.
    pub fn has_shadow(&self) -> bool
        ensures { result ≡ is_some (seen_of self.now).shadow }
    {
        self.chunks.has_shadow()
    }

    // Whether its slots of an overflow volume are there: it has none.
    pub(crate) fn is_served(&self) -> bool
        ensures yes { result ≡ true }
        ensures served { (slots : ℕ) → IsServed slots (seen_of self.now) }
    {
        let _seat = self.seat;
        true
    }

    /// Takes the shadow's disk out, where it is there.
    pub fn take_shadow(&mut self) -> Option<D>
        ensures taken { option_map D.seen result ≡ (seen_of self.old).shadow }
        ensures rest { seen_of self.new ≡ record (seen_of self.old) { shadow = None } }
    {
        self.chunks.take_shadow()
    }

    /// Puts a shadow's disk in, where none is there.
    pub fn give_shadow(&mut self, shadow: D)
        requires none { (seen_of self.old).shadow ≡ None }
        requires room { (seen_of self.old).size.blocks ≤ (D.seen shadow).size }
        ensures { seen_of self.new ≡ record (seen_of self.old) { shadow = Some (D.seen shadow) } }
    {
        self.chunks.give_shadow(shadow)
    }

    /// Hands the disks back: the shadow's, where it is there, and the bitmap's.
    pub fn into_disks(self) -> (Option<D>, D)
        ensures shadow { option_map D.seen result.0 ≡ (seen_of self).shadow }
        ensures bitmap { D.seen result.1 ≡ (seen_of self).bitmap }
    {
        let HeldSet { chunks, .. } = self;
        chunks.into_disks()
    }
}
