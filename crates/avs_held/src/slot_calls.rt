// Calls on the contents of a compact set.
ghost use Rattle.std.specs.Prelude.{◌≡◌, ◌+◌, ◌*◌, ◌/◌, ◌<◌, ◌≤◌, IsTrue, is_some, length, OnOk};
ghost use Rattle.avs_dev.specs.Seen.{Seen};
ghost use Rattle.avs_chunks.specs.States.{on_both, on_shadow, area_len};
ghost use Rattle.avs_chunks.specs.Staging.{to_shadow, to_master, told_by, part_end};
ghost use Rattle.avs_over.specs.Over.{slots};
ghost use Rattle.avs_compact.specs.CompactSet.{over_of, need_of, room_of};
ghost use Rattle.avs_compact.specs.Keeping.{CountsSlots};
ghost use Rattle.avs_sets.specs.Sets.{chunks_of};
ghost use Rattle.avs_sets.specs.Owners.{IsServed};
ghost use Rattle.avs_held.specs.Held.{slots_seen};
ghost use Rattle.avs_held.specs.Rooms.{on_disks, lacking};
ghost use Rattle.avs_held.specs.Calls.{IsSplit, SettlesSet, SavesSet, CopiesOne, ReadsShadow, WritesShadow};
ghost use Rattle.avs_held.specs.Counting.{told_lacking};
ghost use Rattle.avs_held.specs.Staging.{StagesStates, CopiesTold, TurnsSet, split_state};

use crate::slots::HeldCompact;
use avs_compact::CompactFault;
use avs_dev::Disk;
use avs_over::Over;
use avs_seg::Failed;

impl<D: Disk> HeldCompact<D> {
    /// Copies a chunk that stands in its slot alone to the master, so that it is the same on both.
    pub fn bring_back(
        &mut self,
        master: &mut D,
        over: &mut Option<Over<D>>,
        chunk: u32,
    ) -> Result<(), Failed>
        requires chunk { chunk < chunks_of (slots_seen self.old) }
        requires back { (slots_seen self.old).memory.state chunk ≡ on_shadow }
        requires blocks { (D.seen master.old).size ≡ (slots_seen self.old).size.blocks }
        requires there { IsTrue (is_some (slots_seen self.old).shadow) }
        requires served { IsServed (slots (over_of over.old)) (slots_seen self.old) }
        ensures settles { SettlesSet (on_disks (slots_seen self.old) (D.seen master.old) (over_of over.old)) chunk on_both result
            (on_disks (slots_seen self.new) (D.seen master.new) (over_of over.new)) }
        ensures counts { OnOk result (CountsSlots self.old.slots (over_of over.old) 0 self.new.slots (over_of over.new)) }
    {
        self.compact.keeps_form();
        let settled = self.compact.bring_back(master, over, chunk);
        self.compact.keeps_form();
        settled
    }

    /// Saves so many chunks from one on before the master or the shadow changes there: each is settled as split. Where the
    /// set would need more slots than it has room for, nothing is done.
    pub fn save_before(
        &mut self,
        master: &mut D,
        over: &mut Option<Over<D>>,
        first: u32,
        count: u32,
    ) -> Result<(), CompactFault>
        requires inside { first + count ≤ chunks_of (slots_seen self.old) }
        requires blocks { (D.seen master.old).size ≡ (slots_seen self.old).size.blocks }
        requires there { IsTrue (is_some (slots_seen self.old).shadow) }
        requires served { IsServed (slots (over_of over.old)) (slots_seen self.old) }
        ensures saves { SavesSet self.old.seat self.old.slots (on_disks (slots_seen self.old) (D.seen master.old)
            (over_of over.old)) first count result
            (on_disks (slots_seen self.new) (D.seen master.new) (over_of over.new)) }
        ensures counts { OnOk result
            (CountsSlots self.old.slots (over_of over.old) (lacking (slots_seen self.old) first count) self.new.slots
            (over_of over.new)) }
    {
        self.compact.keeps_form();
        let saved = self.compact.save_before(master, over, first, count);
        self.compact.keeps_form();
        saved
    }

    /// Copies the least chunk that stands in its slot alone to the master. The answer is that chunk, and None exactly where
    /// there is none.
    pub fn copy_one(
        &mut self,
        master: &mut D,
        over: &mut Option<Over<D>>,
    ) -> Result<Option<u32>, Failed>
        requires blocks { (D.seen master.old).size ≡ (slots_seen self.old).size.blocks }
        requires there { IsTrue (is_some (slots_seen self.old).shadow) }
        requires served { IsServed (slots (over_of over.old)) (slots_seen self.old) }
        ensures copies { CopiesOne (on_disks (slots_seen self.old) (D.seen master.old) (over_of over.old)) result
            (on_disks (slots_seen self.new) (D.seen master.new) (over_of over.new)) }
        ensures counts { OnOk result (CountsSlots self.old.slots (over_of over.old) 0 self.new.slots (over_of over.new)) }
    {
        self.compact.keeps_form();
        let copied = self.compact.copy_one(master, over);
        self.compact.keeps_form();
        copied
    }

    /// Reads blocks of the shadow. A failed read may have changed `out`.
    pub fn read(
        &mut self,
        master: &mut D,
        over: &mut Option<Over<D>>,
        at: u32,
        out: &mut [u8],
    ) -> Result<(), Failed>
        requires some { 0 < length out.old }
        requires whole { 512 * (length out.old / 512) ≡ length out.old }
        requires inside { at + length out.old / 512 ≤ (slots_seen self.old).size.blocks }
        requires blocks { (D.seen master.old).size ≡ (slots_seen self.old).size.blocks }
        requires there { IsTrue (is_some (slots_seen self.old).shadow) }
        requires served { IsServed (slots (over_of over.old)) (slots_seen self.old) }
        ensures reads { ReadsShadow (on_disks (slots_seen self.old) (D.seen master.old) (over_of over.old)) at out.new result
            (on_disks (slots_seen self.new) (D.seen master.new) (over_of over.new)) }
        ensures counts { CountsSlots self.old.slots (over_of over.old) 0 self.new.slots (over_of over.new) }
    {
        self.compact.keeps_form();
        self.compact.read(master, over, at, out)
    }

    /// Writes blocks of the shadow, whose chunks are split before.
    pub fn put_shadow(
        &mut self,
        over: &mut Option<Over<D>>,
        at: u32,
        bytes: &[u8],
    ) -> Result<(), Failed>
        requires some { 0 < length bytes.now }
        requires whole { 512 * (length bytes.now / 512) ≡ length bytes.now }
        requires inside { at + length bytes.now / 512 ≤ (slots_seen self.old).size.blocks }
        requires there { IsTrue (is_some (slots_seen self.old).shadow) }
        requires split { IsSplit (slots_seen self.old) at (length bytes.now / 512) }
        requires served { IsServed (slots (over_of over.old)) (slots_seen self.old) }
        ensures writes { (m : Seen) → WritesShadow (on_disks (slots_seen self.old) m (over_of over.old)) at bytes.now result
            (on_disks (slots_seen self.new) m (over_of over.new)) }
        ensures counts { CountsSlots self.old.slots (over_of over.old) 0 self.new.slots (over_of over.new) }
    {
        self.compact.keeps_form();
        self.compact.put_shadow(over, at, bytes)
    }

    /// Copies those chunks of a part that are told and have no slot into slots that are kept for them. Their states stay.
    /// Bit i tells the i-th chunk of the part. There has to be room for them.
    pub fn copy_part(
        &mut self,
        master: &mut D,
        over: &mut Option<Over<D>>,
        part: u32,
        split: &[u8; 256],
    ) -> Result<(), Failed>
        requires part { part < area_len (chunks_of (slots_seen self.old)) }
        requires blocks { (D.seen master.old).size ≡ (slots_seen self.old).size.blocks }
        requires there { IsTrue (is_some (slots_seen self.old).shadow) }
        requires room { need_of self.old.slots + told_lacking (slots_seen self.old) part split.now
            ≤ room_of self.old.slots (over_of over.old) }
        ensures { CopiesTold (on_disks (slots_seen self.old) (D.seen master.old) (over_of over.old)) (told_by split.now part)
            (2048 * part)
            (part_end (chunks_of (slots_seen self.old)) part) result (on_disks (slots_seen self.new) (D.seen master.new) (over_of over.new)) }
    {
        self.compact.keeps_form();
        self.compact.copy_part(master, over, part, split)
    }

    /// Stages the states of a part as they are, with those chunks split that are told. Each of them has a slot, or was
    /// copied ahead.
    pub fn stage_split(&mut self, part: u32, split: &[u8; 256]) -> Result<(), Failed>
        requires { part < area_len (chunks_of (slots_seen self.old)) }
        ensures { StagesStates (slots_seen self.old) (split_state (slots_seen self.old) part split.now) part 1 result
            (slots_seen self.new) }
    {
        self.compact.keeps_form();
        self.compact.stage_split(part, split)
    }

    /// Stages the states that the set has once the shadow is its master again: no chunk has a slot.
    pub fn stage_shadow(&mut self, whole: bool) -> Result<(), Failed>
        ensures { StagesStates (slots_seen self.old) (λ c. to_shadow (slots_seen self.old).kind whole
            ((slots_seen self.old).memory.state c)) 0 (area_len (chunks_of (slots_seen self.old))) result (slots_seen self.new) }
    {
        self.compact.keeps_form();
        self.compact.turn_to_shadow(whole)
    }

    /// Stages the states that the set has once the master is its shadow.
    pub fn stage_master(&mut self) -> Result<(), Failed>
        ensures { StagesStates (slots_seen self.old) (λ c. to_master ((slots_seen self.old).memory.state c)) 0
            (area_len (chunks_of (slots_seen self.old))) result (slots_seen self.new) }
    {
        self.compact.keeps_form();
        self.compact.turn_to_master()
    }

    /// Makes the states that were staged the live ones, once the owner has committed that.
    pub fn turn(&mut self)
        ensures { TurnsSet (slots_seen self.old) (slots_seen self.new) }
    {
        self.compact.turn()
    }
}
