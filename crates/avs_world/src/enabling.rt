// Enabling a shadow set.
ghost use Rattle.std.specs.Prelude.{◌≡◌, ◌≢◌, ◌<◌, ◌≤◌, ◌∷◌, [], Bool, Err, IfErr, IfOk, IsTrue, None, OnErr, Some, length, position, true};
ghost use Rattle.std.specs.Str.{bytes_eq};
ghost use Rattle.avs_seg.specs.Causes.{Rose};
ghost use Rattle.avs_dev.specs.Seen.{Seen};
ghost use Rattle.avs_model.specs.Refusals.{first_cause};
ghost use Rattle.avs_model.specs.declared.answer.Refusal.TheVariants.{NoVolume, Size};
ghost use Rattle.avs_model.specs.declared.event.IiCommand.TheVariants.{Enable};
ghost use Rattle.avs_world.specs.Enabling.{target_causes};

use crate::group::{Group, MASTER, Part, ShadowSet};
use crate::ranges::Target;
use crate::stopped::Stopped;
use crate::world::{World, WorldFault};
use avs_dev::{Arm, Back, Disk, Rack, RackFault, Why};
use avs_ii::{IiGroup, IiParts};
use avs_model::{Answer, Event, Host, Kind, Name, Refusal};
use avs_seg::seg_count;
use std::alloc::Global;
use std::mem;

// The blocks of a group's state disk.
const STATE_BLOCKS: u32 = 64;

// The chunks whose states a block of a bitmap holds.
const BLOCK_CHUNKS: u32 = 2048;

// The shadow sets of a host, for now.
const MOST_SETS: u64 = 1;

// The places of three volumes.
#[derive(Clone, Copy, Debug)]
pub(crate) struct Chosen {
    pub(crate) master: usize,
    pub(crate) shadow: usize,
    pub(crate) bitmap: usize,
}

impl<D: Arm> World<D> {
    ghost use Rattle.avs_model.specs.State.{State};
    ghost use Rattle.avs_model.specs.Refusals.{enable_causes};
    ghost use Rattle.avs_model.specs.Promise.{AsksForDisk};
    ghost use Rattle.avs_ii.specs.Calls.{blocks_at};
    ghost use Rattle.avs_ii.specs.Making.{state_blocks};
    ghost use Rattle.avs_world.specs.Views.{group_view, view_of, FreeDisk};
    ghost use Rattle.avs_world.specs.Holds.{Holds, IsPhase};
    ghost use Rattle.avs_world.specs.Causes.{FaultHasCause};
    ghost use Rattle.avs_world.specs.Ranges.{reach};
    ghost use Rattle.avs_world.specs.Enabling.{IsNamedTarget, size_causes, IsFree, HasNoFree, GroupRefused, IsChosen, TakesState, StartsGroup, places_back, HasThree, Commits, Fills, LendsTo};
    ghost use Rattle.avs_world.specs.World.{Stands, Steps};

    // The volume of that name.
    fn volume(&self, name: &[u8]) -> Result<Target, Refusal>
        ensures found { IfOk result (IsNamedTarget (view_of D.seen self.now) name.now) }
        ensures none { IfErr result (λ why. (why ≡ NoVolume) × (position (bytes_eq name.now) (view_of D.seen self.now).names ≡ None)) }
    {
        match self.shelf.find(name) {
            Some(place) => Ok(Target {
                place,
                role: self.group.role(place),
            }),
            None => Err(Refusal::NoVolume),
        }
    }

    // Whether the bitmap and the shadow are large enough for a master.
    fn check_sizes(&self, master: Target, shadow: Target, bitmap: Target) -> Result<(), Refusal>
        requires master_there { master.place < length (view_of D.seen self.now).places }
        requires shadow_there { shadow.place < length (view_of D.seen self.now).places }
        requires bitmap_there { bitmap.place < length (view_of D.seen self.now).places }
        ensures refused { IfErr result (λ why. first_cause (size_causes (reach (view_of D.seen self.now) master) (reach (view_of D.seen self.now) shadow) (reach (view_of D.seen self.now) bitmap)) ≡ Some why) }
        ensures passes { IfOk result (λ _. first_cause (size_causes (reach (view_of D.seen self.now) master) (reach (view_of D.seen self.now) shadow) (reach (view_of D.seen self.now) bitmap)) ≡ None) }
    {
        let blocks = self.reach(master);
        check_size(blocks, self.reach(shadow))?;
        let need = 1 + 2 * seg_count(blocks).div_ceil(BLOCK_CHUNKS);
        check_size(need, self.reach(bitmap))
    }

    // Whether there can be a group more.
    fn check_group(&self) -> Result<(), Refusal>
        ensures refused { IfErr result (GroupRefused (group_view D.seen self.now.group)) }
        ensures free { IfOk result (λ _. IsFree (group_view D.seen self.now.group)) }
    {
        match &self.group {
            Group::None => Ok(()),
            Group::Free(disk) => check_size(STATE_BLOCKS, disk.blocks()),
            Group::Open(..) | Group::Closed(..) => Err(Refusal::Limit(MOST_SETS)),
        }
    }

    // The volumes of a set, where nothing refuses to enable it.
    fn choose(&self, master: &[u8], shadow: &[u8], bitmap: &[u8]) -> Result<Chosen, Refusal>
        ensures refused { IfErr result (λ why. (steady : Bool) (state : State) → Holds steady (view_of D.seen self.now) state → IsPhase true (view_of D.seen self.now).group
            → first_cause (enable_causes state.p master.now shadow.now bitmap.now) ≡ Some why) }
        ensures passes { IfOk result (λ _. (steady : Bool) (state : State) → Holds steady (view_of D.seen self.now) state → IsPhase true (view_of D.seen self.now).group
            → first_cause (enable_causes state.p master.now shadow.now bitmap.now) ≡ None) }
        ensures chosen { IfOk result (IsChosen (view_of D.seen self.now) master.now shadow.now bitmap.now) }
    {
        let master = self.volume(master)?;
        let shadow = self.volume(shadow)?;
        let bitmap = self.volume(bitmap)?;
        check_roles(master, shadow, bitmap)?;
        self.check_sizes(master, shadow, bitmap)?;
        self.check_group()?;
        if self.shelf.is_spent(master.place) {
            return Err(Refusal::NoContents);
        }
        check_size(1, self.reach(master))?;
        Ok(Chosen {
            master: master.place,
            shadow: shadow.place,
            bitmap: bitmap.place,
        })
    }

    // A state disk: the free one, or a new one.
    fn state_disk<R: Rack<D = D>>(&mut self, alloc: Global, rack: &mut R) -> Result<D, WorldFault>
        ensures takes { IfOk result (λ disk. TakesState (group_view D.seen self.old.group) (R.seen rack.old) (D.seen disk) (group_view D.seen self.new.group)) }
        ensures shelf { self.new.shelf ≡ self.old.shelf }
        ensures up { self.new.up ≡ self.old.up }
        ensures stopped { self.new.stopped ≡ self.old.stopped }
        ensures tells { (R.seen rack.new).tells ≡ (R.seen rack.old).tells }
        ensures steady { (R.seen rack.new).steady ≡ (R.seen rack.old).steady }
        ensures later { (R.seen rack.old).faults ≤ (R.seen rack.new).faults }
        ensures refused { result ≡ Err WorldFault.Rack → Rose (R.seen rack.old).faults (R.seen rack.new).faults }
        ensures quiet { result ≢ Err WorldFault.Rack → (R.seen rack.new).faults ≡ (R.seen rack.old).faults }
        ensures needed { result ≡ Err WorldFault.Rack → HasNoFree (group_view D.seen self.old.group) }
    {
        match mem::replace(&mut self.group, Group::None) {
            Group::Free(disk) => Ok(disk),
            other => {
                self.group = other;
                match rack.make(alloc, STATE_BLOCKS) {
                    Ok(disk) => Ok(disk),
                    Err(RackFault::Refused) => Err(WorldFault::Rack),
                    Err(RackFault::NoMemory) => Err(WorldFault::NoMemory),
                }
            }
        }
    }

    // A group on that state disk. Where the disk fails there is none, and the disk is free again.
    fn start_group(&mut self, alloc: Global, disk: D) -> Result<Option<IiGroup<D>>, WorldFault>
        requires { state_blocks ≤ (D.seen disk).size }
        ensures starts { IfOk result (λ group. StartsGroup (D.seen disk) (group_view D.seen self.old.group) group (group_view D.seen self.new.group)) }
        ensures shelf { self.new.shelf ≡ self.old.shelf }
        ensures up { self.new.up ≡ self.old.up }
        ensures stopped { self.new.stopped ≡ self.old.stopped }
        ensures memory { OnErr result (result ≡ Err WorldFault.NoMemory) }
    {
        match IiGroup::new(alloc, disk) {
            Ok(group) => Ok(Some(group)),
            Err(
                Back {
                    why: Why::NoMemory,
                    ..
                },
            ) => Err(WorldFault::NoMemory),
            Err(Back { parts, .. }) => {
                self.group = Group::Free(parts);
                Ok(None)
            }
        }
    }

    // The group's volumes and its state disk are as if there had been none, but for the bitmap, which is spent.
    pub(crate) fn give_back(&mut self, set: &ShadowSet, group: IiGroup<D>, shadow: D, bitmap: D)
        ensures places { (master : Seen) → group.volumes ≡ master ∷ [] → (view_of D.seen self.new).places ≡ places_back (view_of D.seen self.old).places set.now master (D.seen shadow) (D.seen bitmap) }
        ensures group { (view_of D.seen self.new).group ≡ FreeDisk group.state }
        ensures names { (view_of D.seen self.new).names ≡ (view_of D.seen self.old).names }
        ensures blocks { (view_of D.seen self.new).blocks ≡ (view_of D.seen self.old).blocks }
        ensures up { self.new.up ≡ self.old.up }
        ensures stopped { self.new.stopped ≡ self.old.stopped }
    {
        let IiParts { state, volumes, .. } = group.into_parts();
        let mut volumes = volumes.into_vec();
        self.shelf.put_back(set.bitmap, bitmap, true);
        if let Some(master) = volumes.pop() {
            self.shelf.put_back(set.master, master, false);
        }
        self.shelf.put_back(set.shadow, shadow, set.spent);
        self.group = Group::Free(state);
    }

    // Makes the set pending, and then enables it by the commit.
    fn fill_group(
        &mut self,
        alloc: Global,
        mut set: ShadowSet,
        mut group: IiGroup<D>,
        shadow: D,
        bitmap: D,
    ) -> Result<bool, WorldFault>
        requires master { 0 < length group.volumes }
        requires some { 0 < blocks_at group 0 }
        ensures fills { IfOk result (λ done. Fills (view_of D.seen self.old).places set group (D.seen shadow) (D.seen bitmap) done (view_of D.seen self.new).places (view_of D.seen self.new).group) }
        ensures names { (view_of D.seen self.new).names ≡ (view_of D.seen self.old).names }
        ensures blocks { (view_of D.seen self.new).blocks ≡ (view_of D.seen self.old).blocks }
        ensures up { self.new.up ≡ self.old.up }
        ensures stopped { self.new.stopped ≡ self.old.stopped }
        ensures memory { OnErr result (result ≡ Err WorldFault.NoMemory) }
    {
        match group.enable(alloc, Kind::Dep, MASTER, shadow, bitmap) {
            Ok(slot) => {
                set.slot = slot;
                Ok(self.commit(set, group))
            }
            Err(
                Back {
                    why: Refusal::NoMemory,
                    ..
                },
            ) => Err(WorldFault::NoMemory),
            Err(Back { parts, .. }) => {
                self.give_back(&set, group, parts.0, parts.1);
                Ok(false)
            }
        }
    }

    // Enables the pending set. Where that fails the group lies on its disks, which tell whether the set is enabled.
    fn commit(&mut self, set: ShadowSet, mut group: IiGroup<D>) -> bool
        ensures commits { Commits set group result (group_view D.seen self.new.group) }
        ensures shelf { self.new.shelf ≡ self.old.shelf }
        ensures up { self.new.up ≡ self.old.up }
        ensures stopped { self.new.stopped ≡ self.old.stopped }
    {
        match group.confirm(set.slot) {
            Ok(()) => {
                self.group = Group::Open(set, group);
                true
            }
            Err(_) => {
                self.group = Group::Closed(set, group.into_parts());
                false
            }
        }
    }

    // Lends the disks of the three volumes to a new group.
    fn lend_to(
        &mut self,
        alloc: Global,
        chosen: Chosen,
        name: Name,
        mut group: IiGroup<D>,
    ) -> Result<bool, WorldFault>
        requires three { HasThree (view_of D.seen self.old).places chosen }
        requires none { group.volumes ≡ [] }
        ensures lends { IfOk result (λ done. LendsTo (view_of D.seen self.old).places chosen name group done (view_of D.seen self.new).places (view_of D.seen self.new).group) }
        ensures names { (view_of D.seen self.new).names ≡ (view_of D.seen self.old).names }
        ensures blocks { (view_of D.seen self.new).blocks ≡ (view_of D.seen self.old).blocks }
        ensures up { self.new.up ≡ self.old.up }
        ensures stopped { self.new.stopped ≡ self.old.stopped }
        ensures memory { OnErr result (result ≡ Err WorldFault.NoMemory) }
    {
        let Some((master, _)) = self.shelf.lend(chosen.master) else {
            unreachable!()
        };
        let Some((shadow, spent)) = self.shelf.lend(chosen.shadow) else {
            unreachable!()
        };
        let Some((bitmap, _)) = self.shelf.lend(chosen.bitmap) else {
            unreachable!()
        };
        if let Err(_) = group.add_volume(master) {
            return Err(WorldFault::NoMemory);
        }
        let set = ShadowSet {
            name,
            slot: 0,
            master: chosen.master,
            shadow: chosen.shadow,
            bitmap: chosen.bitmap,
            spent,
        };
        self.fill_group(alloc, set, group, shadow, bitmap)
    }

    pub(crate) fn enable<R: Rack<D = D>>(
        &mut self,
        alloc: Global,
        master: &Name,
        shadow: &Name,
        bitmap: &Name,
        rack: &mut R,
    ) -> Result<Answer, WorldFault>
        ensures steps { IfOk result (λ answer. IsTrue (R.seen rack.old).tells → Steps D.seen (R.seen rack.old).steady self.old (Event.Ii Host.P (Enable true master.now shadow.now bitmap.now)) answer self.new) }
        ensures cause { IfOk result (FaultHasCause (view_of D.seen self.old) (view_of D.seen self.new)) }
        ensures tells { (R.seen rack.new).tells ≡ (R.seen rack.old).tells }
        ensures steady { (R.seen rack.new).steady ≡ (R.seen rack.old).steady }
        ensures later { (R.seen rack.old).faults ≤ (R.seen rack.new).faults }
        ensures refused { result ≡ Err WorldFault.Rack → Rose (R.seen rack.old).faults (R.seen rack.new).faults }
        ensures quiet { result ≢ Err WorldFault.Rack → (R.seen rack.new).faults ≡ (R.seen rack.old).faults }
        ensures asked { result ≡ Err WorldFault.Rack → (steady : Bool) (state : State) → Stands D.seen steady self.old state → AsksForDisk state (Event.Ii Host.P (Enable true master.now shadow.now bitmap.now)) }
    {
        if !self.up {
            return Ok(Answer::Refused(Refusal::Down(Host::P)));
        }
        let chosen = match self.choose(master.as_slice(), shadow.as_slice(), bitmap.as_slice()) {
            Ok(chosen) => chosen,
            Err(why) => return Ok(Answer::Refused(why)),
        };
        let name = shadow.copy(alloc)?;
        let disk = self.state_disk(alloc, rack)?;
        let Some(group) = self.start_group(alloc, disk)? else {
            return Ok(self.stop(alloc, Some(Stopped::Command)));
        };
        if self.lend_to(alloc, chosen, name, group)? {
            Ok(Answer::Done)
        } else {
            Ok(self.stop(alloc, Some(Stopped::Command)))
        }
    }
}

// Refuses what has fewer blocks than are needed.
fn check_size(need: u32, have: u32) -> Result<(), Refusal>
    ensures refused { IfErr result (λ why. (have < need) × (why ≡ Size need have)) }
    ensures passes { IfOk result (λ _. need ≤ have) }
{
    if have < need {
        return Err(Refusal::Size { need, have });
    }
    Ok(())
}

// Refuses a volume that serves as something that excludes its use in a new set, or that is named twice.
fn check_roles(master: Target, shadow: Target, bitmap: Target) -> Result<(), Refusal>
    ensures refused { IfErr result (λ why. first_cause (target_causes master shadow bitmap) ≡ Some why) }
    ensures passes { IfOk result (λ _. first_cause (target_causes master shadow bitmap) ≡ None) }
{
    if master.role == Part::Shadow || master.role == Part::Bitmap {
        return Err(Refusal::BusyVolume(master.role.told()));
    }
    if shadow.role != Part::Plain || shadow.place == master.place {
        return Err(Refusal::BusyVolume(shadow.role.told()));
    }
    if bitmap.role != Part::Plain || bitmap.place == master.place || bitmap.place == shadow.place {
        return Err(Refusal::BusyVolume(bitmap.role.told()));
    }
    Ok(())
}
