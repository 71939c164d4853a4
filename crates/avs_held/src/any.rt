// A set of either kind.
ghost use Rattle.std.specs.Prelude.{◌≡◌, ◌==◌, ℕ, ◌+◌, ◌*◌, ◌≤◌, ◌<◌, ◌^◌, IsTrue, not, IsOk, None, Some, is_some};
ghost use Rattle.std.specs.Option.{option_map};
ghost use Rattle.avs_model.specs.ShadowSets.{chunks_in};
ghost use Rattle.avs_bits.specs.Bit.{bit_of};
ghost use Rattle.avs_chunks.specs.States.{code_of, area_len};
ghost use Rattle.avs_over.specs.Over.{slots};
ghost use Rattle.avs_compact.specs.CompactSet.{over_of};
ghost use Rattle.avs_sets.specs.Sets.{split, chunks_of};
ghost use Rattle.avs_sets.specs.Owners.{IsServed, LacksSlot};
ghost use Rattle.avs_held.specs.Held.{lists_of, seen_of, slots_seen};
ghost use Rattle.avs_held.specs.Arming.{ArmsOne, written_of};
ghost use Rattle.avs_held.specs.Any.{FitsShadow, set_seen};

use crate::held::{HeldSet, Seat};
use crate::slots::HeldCompact;
use avs_chunks::ChunkState;
use avs_dev::{Arm, Disk, Tear};
use avs_model::Kind;
use avs_over::Over;
use avs_seg::Failed;

/// A set of either kind: each chunk has the slot of its number, or one that it takes. Each call that needs the master's
/// disk or the overflow volume is given it.
#[derive(Drop)]
pub enum AnySet<D: Disk> {
    Chunks(HeldSet<D>),
    Compact(HeldCompact<D>),
}

impl<D: Disk> From<HeldSet<D>> for AnySet<D> {
    ghost use Rattle.std.specs.Prelude.{◌≡◌};
    ghost use Rattle.avs_held.specs.declared.any.AnySet.TheVariants.{Chunks};

    ghost from_gives = { λ set any. any ≡ Chunks set };

    fn from(set: HeldSet<D>) -> Self {
        AnySet::Chunks(set)
    }
}

impl<D: Disk> From<HeldCompact<D>> for AnySet<D> {
    ghost use Rattle.std.specs.Prelude.{◌≡◌};
    ghost use Rattle.avs_held.specs.declared.any.AnySet.TheVariants.{Compact};

    ghost from_gives = { λ set any. any ≡ Compact set };

    fn from(set: HeldCompact<D>) -> Self {
        AnySet::Compact(set)
    }
}

impl<D: Disk> AnySet<D> {
    /// Its seat.
    pub fn seat(&self) -> Seat
        ensures slot { result.slot ≡ (set_seen self.now).slot }
        ensures master { result.master ≡ (set_seen self.now).master }
        ensures own { result.own ≡ (set_seen self.now).size.own }
        ensures over { result.over ≡ (set_seen self.now).over }
    {
        match self {
            AnySet::Chunks(set) => set.seat(),
            AnySet::Compact(set) => set.seat(),
        }
    }

    /// What the set is.
    pub fn kind(&self) -> Kind
        ensures { result ≡ (set_seen self.now).kind }
    {
        match self {
            AnySet::Chunks(set) => set.kind(),
            AnySet::Compact(set) => set.kind(),
        }
    }

    /// How many blocks the set has.
    pub fn blocks(&self) -> u32
        ensures { result ≡ (set_seen self.now).size.blocks }
    {
        match self {
            AnySet::Chunks(set) => set.blocks(),
            AnySet::Compact(set) => set.blocks(),
        }
    }

    /// How many chunks the set has.
    pub fn chunks(&self) -> u32
        ensures { result ≡ chunks_of (set_seen self.now) }
    {
        match self {
            AnySet::Chunks(set) => set.chunks(),
            AnySet::Compact(set) => set.chunks(),
        }
    }

    /// Whether the shadow's disk is there.
    pub fn has_shadow(&self) -> bool
        ensures { result ≡ is_some (set_seen self.now).shadow }
    {
        match self {
            AnySet::Chunks(set) => set.has_shadow(),
            AnySet::Compact(set) => set.has_shadow(),
        }
    }

    /// The state of a chunk.
    pub fn state(&self, chunk: u32) -> ChunkState
        requires { chunk < chunks_of (set_seen self.now) }
        ensures { code_of result ≡ (set_seen self.now).memory.state chunk }
    {
        match self {
            AnySet::Chunks(set) => set.state(chunk),
            AnySet::Compact(set) => set.state(chunk),
        }
    }

    /// How many chunks stand on the shadow alone.
    pub fn back(&self) -> u32
        ensures { result ≡ chunks_in (set_seen self.now).size.blocks (lists_of (set_seen self.now)).back }
    {
        match self {
            AnySet::Chunks(set) => set.back(),
            AnySet::Compact(set) => set.back(),
        }
    }

    /// How many chunks are split.
    pub fn moved(&self) -> u32
        ensures { result ≡ chunks_in (set_seen self.now).size.blocks (lists_of (set_seen self.now)).moved }
    {
        match self {
            AnySet::Chunks(set) => set.moved(),
            AnySet::Compact(set) => set.moved(),
        }
    }

    /// How many chunks of an independent set stand on the master alone. Of a set of another kind none counts.
    pub fn left(&self) -> u32
        ensures { result ≡ chunks_in (set_seen self.now).size.blocks (lists_of (set_seen self.now)).left }
    {
        match self {
            AnySet::Chunks(set) => set.left(),
            AnySet::Compact(set) => set.left(),
        }
    }

    /// Tells which chunks of a part are split: bit i stands for the i-th chunk. Bits behind the last chunk are zeros.
    pub fn moved_part(&self, part: u32, out: &mut [u8; 256]) -> Result<(), Failed>
        requires { part < area_len (chunks_of (set_seen self.now)) }
        ensures ok { IsOk result }
        ensures bits { (i : ℕ) → i < 2048 → bit_of out.new i ≡ ((set_seen self.now).memory.state (2048 * part + i) == split) }
    {
        match self {
            AnySet::Chunks(set) => set.moved_part(part, out),
            AnySet::Compact(set) => set.moved_part(part, out),
        }
    }

    /// Whether the slots in which contents of the set stand are there, in this overflow volume: those of a set in chunks
    /// always are.
    pub fn is_served(&self, over: &Option<Over<D>>) -> bool
        ensures served { IsTrue result → IsServed (slots (over_of over.now)) (set_seen self.now) }
        ensures lacks { IsTrue (not result) → LacksSlot (slots (over_of over.now)) (set_seen self.now) }
    {
        match self {
            AnySet::Chunks(set) => set.is_served(),
            AnySet::Compact(set) => set.is_served(over),
        }
    }

    /// How many blocks have been written on a disk. The disks that are there are numbered from 0, first the
    /// shadow's and then the bitmap's.
    pub fn written(&self, disk: u32) -> Option<u64>
        ensures { result ≡ written_of (set_seen self.now) disk }
    {
        match self {
            AnySet::Chunks(set) => set.written(disk),
            AnySet::Compact(set) => set.written(disk),
        }
    }

    /// Arms a tear on a disk, which is numbered as in `written`.
    pub fn arm(&mut self, disk: u32, tear: Tear) -> bool
    where
        D: Arm,
        ensures { ArmsOne (set_seen self.old) disk tear result (set_seen self.new) }
    {
        match self {
            AnySet::Chunks(set) => set.arm(disk, tear),
            AnySet::Compact(set) => set.arm(disk, tear),
        }
    }

    /// Takes the shadow's disk out, where it is there.
    pub fn take_shadow(&mut self) -> Option<D>
        ensures taken { option_map D.seen result ≡ (set_seen self.old).shadow }
        ensures rest { set_seen self.new ≡ record (set_seen self.old) { shadow = None } }
    {
        match self {
            AnySet::Chunks(set) => set.take_shadow(),
            AnySet::Compact(set) => set.take_shadow(),
        }
    }

    /// Puts a shadow's disk in, where none is there.
    pub fn give_shadow(&mut self, shadow: D)
        requires none { (set_seen self.old).shadow ≡ None }
        requires fits { FitsShadow (set_seen self.old) (D.seen shadow) }
        ensures { set_seen self.new ≡ record (set_seen self.old) { shadow = Some (D.seen shadow) } }
    {
        match self {
            AnySet::Chunks(set) => {
                let _kind = set.kind();
                set.give_shadow(shadow)
            }
            AnySet::Compact(set) => set.give_shadow(shadow),
        }
    }

    /// Hands the disks back: the shadow's, where it is there, and the bitmap's.
    pub fn into_disks(self) -> (Option<D>, D)
        ensures shadow { option_map D.seen result.0 ≡ (set_seen self).shadow }
        ensures bitmap { D.seen result.1 ≡ (set_seen self).bitmap }
    {
        match self {
            AnySet::Chunks(set) => set.into_disks(),
            AnySet::Compact(set) => set.into_disks(),
        }
    }
}
