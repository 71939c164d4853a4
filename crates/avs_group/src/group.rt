// A group: made, and its volumes and note.
ghost use Rattle.std.specs.Prelude.{◌≡◌, ◌≤◌, IfOk, IfErr, OnErr, OnOk, None, length, slice_index_or};
ghost use Rattle.std.specs.Option.{option_map};
ghost use Rattle.avs_dev.specs.Seen.{Seen};
ghost use Rattle.avs_model.specs.declared.answer.Refusal.TheVariants.{NoMemory};
ghost use Rattle.avs_state.specs.StateDisk.{IsNotMade, state_blocks};
ghost use Rattle.avs_group.specs.Group.{seen};
ghost use Rattle.avs_group.specs.Calls.{Opens, Adds};

use avs_dev::{Back, Closed, Disk};
use avs_held::HeldSet;
use avs_model::Refusal;
use avs_over::Over;
use avs_state::StateDisk;
use std::alloc::Global;
use std::marker::Model;

/// A disk that was refused.
pub type Returned<D> = Back<D, Refusal>;

/// Volumes by their numbers, the shadow sets of which they are masters, and a state disk, whose block says which sets are enabled and
/// holds the note.
#[derive(Drop)]
pub struct ShadowGroup<D: Disk> {
    pub(crate) state: StateDisk<D>,
    pub(crate) volumes: Vec<Option<D>>,
    pub(crate) overs: Vec<Option<Over<D>>>,
    pub(crate) sets: Vec<HeldSet<D>>,
}

impl<D: Disk> Model for ShadowGroup<D> {
    ghost use Rattle.std.specs.Prelude.{map};
    ghost use Rattle.std.specs.Option.{option_map};
    ghost use Rattle.avs_group.specs.Group as g;

    ghost Value = { g.GroupData };

    ghost view = { λ x. record { state = x.state; volumes = map (λ v. option_map D.seen v) x.volumes.items; overs = x.overs.items; sets = x.sets.items } };

    ghost invariant = { λ x. g.IsKeptGroup (g.seen (record { state = x.state; volumes = map (λ v. option_map D.seen v) x.volumes.items; overs = x.overs.items; sets = x.sets.items })) };
}

impl<D: Disk> ShadowGroup<D> {
    /// No volumes and no sets. The label and the block of the group are written on the state disk.
    pub fn new(alloc: Global, state: D) -> Result<ShadowGroup<D>, Closed<D>>
        requires { state_blocks ≤ (D.seen state).size }
        ensures opens { IfOk result (λ g. Opens (D.seen state) (seen g)) }
        ensures refused { IfErr result (λ e. IsNotMade (D.seen state) e.why (D.seen e.parts)) }
    {
        match StateDisk::make(state) {
            Ok(state) => Ok(ShadowGroup {
                state,
                volumes: Vec::new(alloc),
                overs: Vec::new(alloc),
                sets: Vec::new(alloc),
            }),
            Err(closed) => Err(closed),
        }
    }

    /// How many numbers of volumes there are. A hole counts.
    pub fn count(&self) -> u32
        ensures { result ≡ length (seen self.now).volumes }
    {
        self.volumes.len() as u32
    }

    /// How many blocks a volume has, where it is there.
    pub fn volume_size(&self, volume: u32) -> Option<u32>
        ensures { result ≡ option_map (λ (d : Seen). d.size) (slice_index_or (seen self.now).volumes volume None) }
    {
        let place = volume as usize;
        if place < self.volumes.len() {
            return self.volumes[place].as_ref().map(|disk| disk.blocks());
        }
        None
    }

    /// Adds a volume behind the others, and answers its number. `NoMemory` also where there are as many volumes as numbers for them.
    pub fn add_volume(&mut self, disk: D) -> Result<u32, Returned<D>>
        ensures number { IfOk result (λ volume. volume ≡ length (seen self.old).volumes) }
        ensures adds { OnOk result (Adds (seen self.old) (D.seen disk) (seen self.new)) }
        ensures back { IfErr result (λ e. (e.parts ≡ disk) × (e.why ≡ NoMemory)) }
        ensures kept { OnErr result (self.new ≡ self.old) }
    {
        let number = self.volumes.len() as u32;
        if number == u32::MAX {
            return Err(Back {
                parts: disk,
                why: Refusal::NoMemory,
            });
        }
        let Ok(()) = self.volumes.reserve(1) else {
            return Err(Back {
                parts: disk,
                why: Refusal::NoMemory,
            });
        };
        self.volumes.push_reserved(Some(disk));
        Ok(number)
    }
}
