// A group of volumes and its shadow sets.
ghost use Rattle.std.specs.Prelude.{◌≡◌, ℕ, ◌+◌, ◌*◌, ◌/◌, ◌<◌, ◌≤◌, IfOk, IfErr, IfSome, IfNone, IsTrue, OnOk, OnErr, All, None, true, false, not, [], map, length, slice_get, slice_set, vec_len, vec_capacity, is_ok, find, ◌==◌, ⊤};
ghost use Rattle.std.specs.List.{list_all};
ghost use Rattle.std.specs.Option.{option_map};
ghost use Rattle.avs_dev.specs.Below.{IsNoteTold, IsRangeOf, ReadsBelow, WritesBelow};
ghost use Rattle.avs_model.specs.Shadows.{slot_count, to_copy};
ghost use Rattle.avs_model.specs.declared.answer.Refusal.TheVariants.{NoMemory};
ghost use Rattle.avs_chunk.specs.Finding.{left_of, back_of};
ghost use Rattle.avs_ii.specs.Held.{HeldSet, IiDisks, disks_of, has_flag, is_live, live, pending_in, pending_at, set_at};
ghost use Rattle.avs_ii.specs.Meaning.{meaning, kept_on};
ghost use Rattle.avs_ii.specs.Sound.{IsSound};
ghost use Rattle.avs_ii.specs.Parts.{part_disks, parts_of, set_parts, meaning_of_parts};
ghost use Rattle.avs_ii.specs.Making.{Opens, OpenRefused, Loads, LoadRefused, StaysMade, AreWhole, disks_in, state_blocks};
ghost use Rattle.avs_ii.specs.Shape.{shape_of, parts_shape};
ghost use Rattle.avs_ii.specs.AsBelow.{below_of, rest_of, group_of, AreFindable, WroteRest};
ghost use Rattle.avs_ii.specs.Opened.{sets_of};
ghost use Rattle.avs_ii.specs.SetDisks.{set_disks};
ghost use Rattle.avs_ii.specs.Opening.{AreFew, OpensOne, RefusesOne};
ghost use Rattle.avs_ii.specs.Calls.{blocks_at, IsFree, IsLimit, limit_at, next_block, live_slot, Adds, Enables, EnableRefused, Confirms, GivesUp, ReadsSet, WritesSet, IsShadowRange, IsVolumeRange, ReadsVolume, WritesVolume, ArmsGroup, written_of};

use crate::held::{Held, close, has_flag, is_live, is_named, is_set_of, kind_number, open};
use crate::lists::{DiskList, SetList, SetParts};
use crate::parts::{IiClosed, IiParts, Returned, Returned2};
use crate::refusals::{faulted, refusal_of, small};
use crate::saved::write_saved;
use crate::state_disk::{BETWEEN, empty_block, format, put_block, read_state};
use avs_chunk::Chunks;
use avs_code::{GroupBlock, SLOTS, Slot};
use avs_dev::{Arm, Back, Below, Closed, Disk, Tear, Why};
use avs_model::{Kind, Refusal};
use avs_seg::Failed;
use std::alloc::Global;
use std::marker::Model;

/// Volumes by their numbers, the shadow sets of which they are masters, and a state disk, whose block 1 tells which sets are
/// enabled and holds the note. For now a group has at most one set.
#[derive(Drop)]
pub struct IiGroup<D: Disk> {
    state: D,
    block: GroupBlock,
    volumes: Vec<D>,
    set: Option<Held<D>>,
    // Room to take the group apart.
    room: Vec<SetParts<D>>,
    overs: Vec<D>,
}

impl<D: Disk> Model for IiGroup<D> {
    ghost use Rattle.std.specs.Prelude.{map, vec_len, vec_capacity};
    ghost use Rattle.avs_ii.specs.Held.{IiDisks};
    ghost use Rattle.avs_ii.specs.Opened.{sets_of};
    ghost use Rattle.avs_ii.specs.Kept.{IsKept, HasRoom};

    ghost Value = { IiDisks };

    ghost view = { λ g. record { state = D.seen g.state; block = g.block; volumes = map D.seen g.volumes.items; sets = sets_of g.set } };

    ghost invariant = { λ g. IsKept (D.seen g.state) g.block (map D.seen g.volumes.items) (sets_of g.set) × HasRoom (vec_len g.room) (vec_capacity g.room) (vec_len g.overs) (sets_of g.set) };
}

impl<D: Disk> IiGroup<D> {
    /// No volumes and no sets. The label and an empty block are written on the state disk.
    pub fn new(alloc: Global, mut state: D) -> Result<IiGroup<D>, Closed<D>>
        requires { state_blocks ≤ (D.seen state).size }
        ensures opens { IfOk result (λ g. Opens (D.seen state) g) }
        ensures refused { IfErr result (λ e. OpenRefused (D.seen state) e.why (D.seen e.parts)) }
    {
        let block = empty_block();
        match format(&mut state, &block) {
            Ok(()) => Ok(IiGroup {
                state,
                block,
                volumes: Vec::new(alloc),
                set: None,
                room: Vec::new(alloc),
                overs: Vec::new(alloc),
            }),
            Err(Failed) => Err(Back {
                parts: state,
                why: Why::Fault,
            }),
        }
    }

    /// The group that stands on these parts. Its volumes have the numbers of their places. A set whose slot is not live is
    /// pending, and nothing is read of its bitmap, which is taken to be as `enable` left it. `BadRecord` names the field of the
    /// state disk or of a bitmap's label that breaks its rule, and is 64 where a rule between the parts is broken.
    pub fn load(alloc: Global, parts: IiParts<D>) -> Result<IiGroup<D>, IiClosed<D>>
        ensures loads { IfOk result (λ g. Loads (part_disks D.seen parts) g) }
        ensures refused { IfErr result (λ e. LoadRefused (part_disks D.seen parts) e.why (part_disks D.seen e.parts)) }
    {
        let IiParts {
            mut state,
            volumes,
            sets,
            overs,
        } = parts;
        let (volumes, mut room, overs) = (volumes.into_vec(), sets.into_vec(), overs.into_vec());
        let block = match read_state(&mut state) {
            Ok(block) => block,
            Err(why) => return Err(closed(state, volumes, room, overs, why)),
        };
        if !are_few(&volumes, &room, &overs) {
            return Err(closed(state, volumes, room, overs, Why::BadRecord(BETWEEN)));
        }
        match take_set(alloc, &block, &volumes, &mut room) {
            Ok(set) => Ok(IiGroup {
                state,
                block,
                volumes,
                set,
                room,
                overs,
            }),
            Err(why) => Err(closed(state, volumes, room, overs, why)),
        }
    }

    /// Takes the group apart. `load` finds the same group on the parts.
    pub fn into_parts(self) -> IiParts<D>
        ensures parts { part_disks D.seen result ≡ parts_of self }
        ensures meaning { meaning_of_parts (part_disks D.seen result) ≡ meaning self }
        ensures rest { IsNoteTold (below_of self) → meaning self ≡ record (group_of (rest_of self)) { note = (kept_on self.state).note } }
        ensures whole { IsSound self → AreWhole (part_disks D.seen result) }
        ensures found { IsNoteTold (below_of self) → AreFindable (rest_of self) → AreWhole (part_disks D.seen result) }
        ensures disks { disks_in (part_disks D.seen result) ≡ disks_of self }
        ensures shape { parts_shape (part_disks D.seen result) ≡ shape_of self }
        ensures made { All (StaysMade self.volumes) self.sets }
    {
        let IiGroup {
            state,
            volumes,
            set,
            room,
            overs,
            ..
        } = self;
        all_parts(state, volumes, close_all(set, room), overs)
    }

    /// Adds a volume behind the others, and answers its number. `NoMemory` also where there are as many volumes as numbers
    /// for them.
    pub fn add_volume(&mut self, disk: D) -> Result<u32, Returned<D>>
        ensures number { IfOk result (λ volume. volume ≡ length self.old.volumes) }
        ensures adds { OnOk result (Adds self.old (D.seen disk) self.new) }
        ensures back { IfErr result (λ e. (e.parts ≡ disk) × (e.why ≡ NoMemory)) }
        ensures kept { OnErr result (self.new ≡ self.old) }
    {
        let number = self.volumes.len() as u32;
        if number == u32::MAX {
            return Err(Back {
                parts: disk,
                why: Refusal::NoMemory,
            });
        }
        if let Err(refused) = self.volumes.push(disk) {
            return Err(Back {
                parts: refused.value,
                why: Refusal::NoMemory,
            });
        }
        Ok(number)
    }

    // The slot of a set more, where it is inside the limits for now.
    fn next_slot(&self, kind: Kind) -> Result<u32, Refusal>
        ensures free { IfOk result (λ slot. IsFree self.now slot) }
        ensures least { IfOk result (λ slot. (other : ℕ) → other < slot → IsFree self.now other → ⊥) }
        ensures within { IfOk result (λ _. limit_at self.now kind ≡ None) }
        ensures none { IfOk result (λ _. self.now.sets ≡ []) }
        ensures limit { IfErr result (λ why. IsLimit self.now kind why) }
    {
        if kind == Kind::Compact {
            return Err(Refusal::Limit(0));
        }
        if self.set.is_some() {
            return Err(Refusal::Limit(1));
        }
        match free_slot(&self.block) {
            Some(slot) => Ok(slot),
            None => Err(Refusal::Limit(SLOTS as u64)),
        }
    }

    /// Makes a set of a master with these disks, and answers its slot. The set is pending until `confirm`. That the master has
    /// contents is up to the caller.
    pub fn enable(
        &mut self,
        alloc: Global,
        kind: Kind,
        master: u32,
        shadow: D,
        bitmap: D,
    ) -> Result<u32, Returned2<D>>
        requires master { master < length self.old.volumes }
        requires some { 0 < blocks_at self.old master }
        ensures enables { IfOk result (λ slot. Enables self.old kind master (D.seen shadow) (D.seen bitmap) slot self.new) }
        ensures refused { IfErr result (λ e. EnableRefused self.old kind master (D.seen shadow) (D.seen bitmap) e.why (D.seen e.parts.0) (D.seen e.parts.1)) }
        ensures kept { OnErr result (self.new ≡ self.old) }
    {
        let parts = (shadow, bitmap);
        let blocks = self.volumes[master as usize].blocks();
        if let Some(why) = small(&parts.0, &parts.1, blocks) {
            return Err(Back { parts, why });
        }
        let slot = match self.next_slot(kind) {
            Ok(slot) => slot,
            Err(why) => return Err(Back { parts, why }),
        };
        let Ok(room) = Vec::with_capacity(alloc, 1) else {
            return Err(Back {
                parts,
                why: Refusal::NoMemory,
            });
        };
        match Chunks::make(alloc, kind, parts.0, parts.1, blocks) {
            Ok(chunks) => {
                self.room = room;
                self.set = Some(Held {
                    slot,
                    master,
                    chunks,
                });
                Ok(slot)
            }
            Err(Back { parts, why }) => Err(Back {
                parts,
                why: refusal_of(why),
            }),
        }
    }

    // The kind of the pending set with that slot.
    fn pending_kind(&self, slot: u32) -> Option<Kind>
        ensures { result ≡ option_map (λ s. s.chunks.kind) (pending_at self.now slot) }
    {
        match &self.set {
            Some(held) if held.slot == slot && !is_live(&self.block, slot) => {
                Some(held.chunks.kind())
            }
            _ => None,
        }
    }

    /// Enables a pending set: its shadow becomes its master at this point in time.
    pub fn confirm(&mut self, set: u32) -> Result<(), Refusal>
        ensures { Confirms self.old set result self.new }
    {
        let Some(kind) = self.pending_kind(set) else {
            return Err(Refusal::NoSet);
        };
        let block = next_with(&self.block, set, kind);
        match put_block(&mut self.state, &block) {
            Ok(()) => {
                self.block = block;
                Ok(())
            }
            Err(Failed) => Err(Refusal::Fault),
        }
    }

    /// Gives up the pending set of least slot, and hands its shadow's and its bitmap's disk back. `None` where no set is pending.
    pub fn give_up(&mut self) -> Option<(u32, D, D)>
        ensures given { IfSome result (λ r. (s : HeldSet) × ((r.0 ≡ s.slot) × GivesUp self.old s (D.seen r.1) (D.seen r.2) self.new)) }
        ensures none { IfNone result (pending_in self.old.block.slots self.old.sets ≡ []) }
        ensures kept { IfNone result (self.new ≡ self.old) }
    {
        let slot = self.set.as_ref()?.slot;
        if is_live(&self.block, slot) {
            return None;
        }
        let Held { slot, chunks, .. } = self.set.take()?;
        let (shadow, bitmap) = chunks.into_disks();
        Some((slot, shadow?, bitmap))
    }

    /// How many blocks a volume has, where it is there.
    pub fn volume_size(&self, volume: u32) -> Option<u32>
        ensures size { result ≡ option_map (λ v. v.size) (slice_get self.now.volumes volume) }
        ensures there { IfSome result (λ blocks. (volume < length self.now.volumes) × (blocks ≡ blocks_at self.now volume)) }
    {
        let place = volume as usize;
        if place < self.volumes.len() {
            return Some(self.volumes[place].blocks());
        }
        None
    }

    // Reads blocks of a volume.
    fn read_at(&mut self, volume: u32, at: u32, out: &mut [u8]) -> Result<(), Failed>
        requires { IsRangeOf (below_of self.old) volume at (length out.old) }
        ensures reads { ReadsBelow ⊤ (below_of self.old) volume at out.new result (below_of self.new) }
        ensures rest { rest_of self.new ≡ rest_of self.old }
        ensures volume { ReadsVolume self.old volume out.new at result self.new }
    {
        self.volumes[volume as usize].read(at, out)
    }

    // Writes blocks of a volume. Where a set of it is enabled, the set's chunks are saved first.
    fn write_at(&mut self, volume: u32, at: u32, bytes: &[u8]) -> Result<(), Failed>
        requires { IsRangeOf (below_of self.old) volume at (length bytes.now) }
        ensures writes { WritesBelow ⊤ (below_of self.old) volume at bytes.now result (below_of self.new) }
        ensures wrote { WroteRest (rest_of self.old) volume at bytes.now (is_ok result) (rest_of self.new) }
        ensures volume { WritesVolume self.old volume at bytes.now result self.new }
    {
        let disk = &mut self.volumes[volume as usize];
        if let Some(held) = &mut self.set {
            if is_set_of(&self.block, held.slot, held.master, volume) {
                return write_saved(&mut held.chunks, disk, at, bytes);
            }
            return disk.write(at, bytes);
        }
        disk.write(at, bytes)
    }

    /// Reads blocks of a volume. A failed read may have changed `out`.
    pub fn read_volume(&mut self, volume: u32, at: u32, out: &mut [u8]) -> Result<(), Failed>
        requires { IsVolumeRange self.old volume at (length out.old) }
        ensures { ReadsVolume self.old volume out.new at result self.new }
    {
        self.read_at(volume, at, out)
    }

    /// Writes blocks of a volume.
    pub fn write_volume(&mut self, volume: u32, at: u32, bytes: &[u8]) -> Result<(), Failed>
        requires { IsVolumeRange self.old volume at (length bytes.now) }
        ensures { WritesVolume self.old volume at bytes.now result self.new }
    {
        self.write_at(volume, at, bytes)
    }

    /// How many blocks the shadow of a set has, where the set is there.
    pub fn shadow_size(&self, set: u32) -> Option<u32>
        ensures held { result ≡ option_map (λ s. s.chunks.blocks) (set_at self.now set) }
        ensures named { IsSound self.now → result ≡ option_map (λ s. s.blocks) (find (λ s. s.slot == set) (meaning self.now).sets) }
    {
        if let Some(held) = &self.set {
            if is_named(&self.block, held.slot, set) {
                return Some(self.volumes[held.master as usize].blocks());
            }
            return None;
        }
        None
    }

    /// How many chunks of a set are to be copied one way or the other, where the set is there.
    pub fn to_copy(&self, set: u32) -> Option<u32>
        ensures held { result ≡ option_map (λ s. left_of s.chunks + back_of s.chunks) (set_at self.now set) }
        ensures named { IsSound self.now → result ≡ option_map to_copy (find (λ s. s.slot == set) (meaning self.now).sets) }
    {
        if let Some(held) = &self.set {
            if is_named(&self.block, held.slot, set) {
                return Some(held.chunks.left() + held.chunks.back());
            }
            return None;
        }
        None
    }

    /// Reads blocks of the shadow of a set. A failed read may have changed `out`.
    pub fn read_shadow(&mut self, set: u32, at: u32, out: &mut [u8]) -> Result<(), Refusal>
        requires { IsShadowRange self.old set at (length out.old) }
        ensures { ReadsSet self.old set out.new at result self.new }
    {
        if let Some(held) = &mut self.set {
            if is_named(&self.block, held.slot, set) {
                let master = &mut self.volumes[held.master as usize];
                return faulted(held.chunks.read(master, at, out));
            }
            return Err(Refusal::NoSet);
        }
        Err(Refusal::NoSet)
    }

    /// Writes blocks of the shadow of a set.
    pub fn write_shadow(&mut self, set: u32, at: u32, bytes: &[u8]) -> Result<(), Refusal>
        requires { IsShadowRange self.old set at (length bytes.now) }
        ensures { WritesSet self.old set at bytes.now result self.new }
    {
        if let Some(held) = &mut self.set {
            if is_named(&self.block, held.slot, set) {
                let master = &mut self.volumes[held.master as usize];
                return faulted(held.chunks.write(master, at, bytes));
            }
            return Err(Refusal::NoSet);
        }
        Err(Refusal::NoSet)
    }

    /// How many blocks have been written on a disk. The disks are numbered from 0: the state disk, the volumes, and of each
    /// set the shadow's and the bitmap's.
    pub fn written(&self, disk: u32) -> Option<u64>
        ensures { result ≡ written_of self.now disk }
    {
        if disk == 0 {
            return Some(self.state.written());
        }
        let place = disk as usize - 1;
        if place < self.volumes.len() {
            return Some(self.volumes[place].written());
        }
        if let Some(held) = &self.set {
            return held.chunks.written((place - self.volumes.len()) as u32);
        }
        None
    }

    /// Arms a tear on a disk, by the same numbers.
    pub fn arm(&mut self, disk: u32, tear: Tear) -> bool
    where
        D: Arm,
        ensures { ArmsGroup self.old disk tear result self.new }
    {
        if disk == 0 {
            return self.state.arm(tear);
        }
        let place = disk as usize - 1;
        if place < self.volumes.len() {
            return self.volumes[place].arm(tear);
        }
        let other = (place - self.volumes.len()) as u32;
        if let Some(held) = &mut self.set {
            return held.chunks.arm(other, tear);
        }
        false
    }
}

// The least slot that is not live.
fn free_slot(block: &GroupBlock) -> Option<u32>
    ensures free { IfSome result (λ slot. (slot < slot_count) × (is_live block.now.slots slot ≡ false)) }
    ensures least { IfSome result (λ slot. (other : ℕ) → other < slot → is_live block.now.slots other ≡ true) }
    ensures none { IfNone result (list_all (has_flag live) block.now.slots ≡ true) }
{
    let place = block
        .slots
        .as_slice()
        .iter()
        .position(|slot| !has_flag(*slot, Slot::LIVE))?;
    Some(place as u32)
}

// The next block, in which the set of a slot is enabled.
fn next_with(block: &GroupBlock, slot: u32, kind: Kind) -> GroupBlock
    requires { slot < slot_count }
    ensures { result ≡ record (next_block block.now) { slots = slice_set block.now.slots slot (live_slot kind) } }
{
    let mut next = *block;
    next.sequence = block.sequence.wrapping_add(1);
    next.slots.set(
        slot as usize,
        Slot {
            flags: Slot::LIVE,
            kind: kind_number(kind),
            ..Slot::EMPTY
        },
    );
    next
}

// Whether a group may have so many volumes, sets and overflow volumes.
fn are_few<D: Disk>(volumes: &[D], sets: &[SetParts<D>], overs: &[D]) -> bool
    ensures few { IsTrue result → AreFew (length volumes.now) (length sets.now) (length overs.now) }
    ensures many { IsTrue (not result) → AreFew (length volumes.now) (length sets.now) (length overs.now) → ⊥ }
{
    volumes.len() <= u32::MAX as usize && sets.len() <= 1 && overs.is_empty()
}

// Takes the only set of the parts, if there is one, and opens it.
fn take_set<D: Disk>(
    alloc: Global,
    block: &GroupBlock,
    volumes: &[D],
    room: &mut Vec<SetParts<D>>,
) -> Result<Option<Held<D>>, Why>
    requires { vec_len room.old ≤ 1 }
    ensures opens { IfOk result (λ set. OpensOne block.now.slots (map D.seen volumes.now) (map (set_disks D.seen) room.old.items) (sets_of set)) }
    ensures empty { IfOk result (λ _. vec_len room.new ≡ 0) }
    ensures place { IfOk result (λ set. length (sets_of set) ≤ vec_capacity room.new) }
    ensures refused { IfErr result (λ why. RefusesOne block.now.slots (map D.seen volumes.now) (map (set_disks D.seen) room.old.items) why (map (set_disks D.seen) room.new.items)) }
{
    let Some(part) = room.pop() else {
        return Ok(None);
    };
    match open(alloc, block, volumes, part) {
        Ok(held) => Ok(Some(held)),
        Err(Back { parts, why }) => {
            let _ = room.push(parts);
            Err(why)
        }
    }
}

// The disks of the set, if there is one, in a vector with room for them.
fn close_all<D: Disk>(set: Option<Held<D>>, mut room: Vec<SetParts<D>>) -> Vec<SetParts<D>>
    requires empty { vec_len room ≡ 0 }
    requires place { length (sets_of set) ≤ vec_capacity room }
    ensures { map (set_disks D.seen) result.items ≡ map set_parts (sets_of set) }
{
    match set {
        Some(held) => {
            let _ = room.push(close(held));
            room
        }
        None => room,
    }
}

// The parts of a group, without overflow volumes.
fn all_parts<D: Disk>(
    state: D,
    volumes: Vec<D>,
    sets: Vec<SetParts<D>>,
    overs: Vec<D>,
) -> IiParts<D>
    requires { vec_len overs ≡ 0 }
    ensures { part_disks D.seen result ≡ record { state = D.seen state; volumes = map D.seen volumes.items; sets = map (set_disks D.seen) sets.items; overs = [] } }
{
    IiParts {
        state,
        volumes: DiskList::new(volumes),
        sets: SetList::new(sets),
        overs: DiskList::new(overs),
    }
}

// The parts, handed back.
fn closed<D: Disk>(
    state: D,
    volumes: Vec<D>,
    sets: Vec<SetParts<D>>,
    overs: Vec<D>,
    why: Why,
) -> IiClosed<D>
    ensures parts { part_disks D.seen result.parts ≡ record { state = D.seen state; volumes = map D.seen volumes.items; sets = map (set_disks D.seen) sets.items; overs = map D.seen overs.items } }
    ensures why { result.why ≡ why }
{
    let parts = IiParts {
        state,
        volumes: DiskList::new(volumes),
        sets: SetList::new(sets),
        overs: DiskList::new(overs),
    };
    Back { parts, why }
}

impl<D: Disk> Below for IiGroup<D> {
    ghost use Rattle.std.specs.Prelude.{is_ok};
    ghost use Rattle.avs_dev.specs.Below.{Counts, IsRangeOf, ReadsBelow, WritesBelow, SetsNote, size_of};
    ghost use Rattle.avs_ii.specs.AsBelow.{below_of, IiRest, rest_of, IsSoundBelow, WroteRest};

    ghost seen = { below_of };

    /// The slots, and the disks of the volumes and of the sets.
    ghost Rest = { IiRest };

    ghost rest = { rest_of };

    ghost wrote = { WroteRest };

    ghost IsSound = { IsSoundBelow };

    fn count(&self) -> u32 {
        self.volumes.len() as u32
    }

    fn size(&self, vol: u32) -> u32 {
        self.volumes[vol as usize].blocks()
    }

    fn read(&mut self, vol: u32, at: u32, out: &mut [u8]) -> Result<(), Failed> {
        self.read_at(vol, at, out)
    }

    fn write(&mut self, vol: u32, at: u32, bytes: &[u8]) -> Result<(), Failed> {
        self.write_at(vol, at, bytes)
    }

    fn note(&self) -> [u8; 64] {
        self.block.note
    }

    fn set_note(&mut self, note: &[u8; 64]) -> Result<(), Failed> {
        let mut block = self.block;
        block.sequence = block.sequence.wrapping_add(1);
        block.note = *note;
        match put_block(&mut self.state, &block) {
            Ok(()) => {
                self.block = block;
                Ok(())
            }
            Err(Failed) => Err(Failed),
        }
    }
}
