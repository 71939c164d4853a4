// A compact set in its seat of a group.
ghost use Rattle.std.specs.Prelude.{◌≡◌, ◌+◌, ◌<◌, ◌≤◌, None, Some, is_some};
ghost use Rattle.std.specs.Option.{option_map};
ghost use Rattle.avs_sets.specs.Sets.{chunks_of};
ghost use Rattle.avs_held.specs.Held.{IsSeated, CanShadow, compact_set, slots_seen};

use crate::held::Seat;
use avs_compact::Compact;
use avs_dev::Disk;
use avs_model::Kind;
use std::marker::Model;

/// A compact set, its disks, and its seat. Each call that needs the master's disk or the overflow volume is given it.
#[derive(Drop)]
pub struct HeldCompact<D: Disk> {
    pub(crate) seat: Seat,
    pub(crate) compact: Compact<D>,
}

impl<D: Disk> Model for HeldCompact<D> {
    ghost use Rattle.avs_held.specs.Held.{HeldSlots, IsSeated};

    ghost Value = { HeldSlots };

    ghost view = { λ s. record { seat = s.seat; slots = s.compact } };

    ghost invariant = { λ s. IsSeated s.seat s.compact };
}

impl<D: Disk> HeldCompact<D> {
    /// A compact set, in its seat.
    pub fn in_slots(seat: Seat, compact: Compact<D>) -> HeldCompact<D>
        requires { IsSeated seat compact }
        ensures { slots_seen result ≡ compact_set seat compact }
    {
        HeldCompact { seat, compact }
    }

    /// Its seat.
    pub fn seat(&self) -> Seat
        ensures slot { result.slot ≡ (slots_seen self.now).slot }
        ensures master { result.master ≡ (slots_seen self.now).master }
        ensures own { result.own ≡ (slots_seen self.now).size.own }
        ensures over { result.over ≡ (slots_seen self.now).over }
    {
        self.seat
    }

    /// What the set is.
    pub fn kind(&self) -> Kind
        ensures { result ≡ (slots_seen self.now).kind }
    {
        let _seat = self.seat;
        Kind::Compact
    }

    /// How many blocks the set has.
    pub fn blocks(&self) -> u32
        ensures { result ≡ (slots_seen self.now).size.blocks }
    {
        self.compact.blocks()
    }

    /// How many chunks the set has.
    pub fn chunks(&self) -> u32
        ensures { result ≡ chunks_of (slots_seen self.now) }
    {
        self.compact.chunks()
    }

    /// Whether the shadow's disk is there.
    pub fn has_shadow(&self) -> bool
        ensures { result ≡ is_some (slots_seen self.now).shadow }
    {
        self.compact.has_shadow()
    }

    /// Takes the shadow's disk out, where it is there.
    pub fn take_shadow(&mut self) -> Option<D>
        ensures taken { option_map D.seen result ≡ (slots_seen self.old).shadow }
        ensures rest { slots_seen self.new ≡ record (slots_seen self.old) { shadow = None } }
    {
        self.compact.take_shadow()
    }

    /// Puts a shadow's disk in, where none is there.
    pub fn give_shadow(&mut self, shadow: D)
        requires none { (slots_seen self.old).shadow ≡ None }
        requires fits { CanShadow self.old.slots (D.seen shadow) }
        ensures { slots_seen self.new ≡ record (slots_seen self.old) { shadow = Some (D.seen shadow) } }
    {
        self.compact.give_shadow(shadow)
    }

    /// Hands the disks back: the shadow's, where it is there, and the bitmap's.
    pub fn into_disks(self) -> (Option<D>, D)
        ensures shadow { option_map D.seen result.0 ≡ (slots_seen self).shadow }
        ensures bitmap { D.seen result.1 ≡ (slots_seen self).bitmap }
    {
        let HeldCompact { compact, .. } = self;
        compact.into_disks()
    }
}
