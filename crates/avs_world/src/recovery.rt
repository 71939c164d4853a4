// Bringing the host up again.
ghost use Rattle.std.specs.Prelude.{◌≡◌, Bool, true, Err, IfOk, OnErr, OnOk, None, Some, map};
ghost use Rattle.std.specs.List.{flat_map};
ghost use Rattle.avs_world.specs.declared.world.WorldFault.TheVariants.{NoMemory};

use crate::group::Group;
use crate::ranges::{LONGEST_WRITE, sized};
use crate::stopped::{Stopped, StoppedWrite, filled_blocks};
use crate::world::{World, WorldFault};
use avs_dev::{Arm, Back, Why};
use avs_ii::IiGroup;
use avs_model::{
    Answer, Event, GroupLine, GroupLines, Host, Recovered, Refusal, Second, SetLine, SetLines, Word,
};
use avs_seg::Failed;
use std::alloc::Global;
use std::mem;

// The number of a rule between records and disks.
const BETWEEN: u32 = 64;

impl<D: Arm> World<D> {
    ghost use Rattle.avs_model.specs.State.{State};
    ghost use Rattle.avs_model.specs.Recovery.{group_line, set_lines};
    ghost use Rattle.avs_world.specs.Views.{view_of, closed};
    ghost use Rattle.avs_world.specs.Holds.{Holds, IsPhase};
    ghost use Rattle.avs_world.specs.Causes.{FaultHasCause};
    ghost use Rattle.avs_world.specs.Recovering.{Finds, Settles, RecoversWrite, KeepsStopped};
    ghost use Rattle.avs_world.specs.World.{Steps};

    // Finds the group on its disks.
    fn open(&mut self, alloc: Global) -> Result<(), Why>
        ensures finds { Finds (view_of D.seen self.old) result (view_of D.seen self.new) }
        ensures up { self.new.up ≡ self.old.up }
        ensures stopped { self.new.stopped ≡ self.old.stopped }
    {
        match mem::replace(&mut self.group, Group::None) {
            Group::Closed(set, parts) => match IiGroup::load(alloc, parts) {
                Ok(group) => {
                    self.group = Group::Open(set, group);
                    Ok(())
                }
                Err(Back { parts, why }) => {
                    self.group = Group::Closed(set, parts);
                    Err(why)
                }
            },
            other => {
                self.group = other;
                Ok(())
            }
        }
    }

    // The host is up again, and this is told of the event in which a fault stopped it.
    fn bring_up(&mut self, alloc: Global, second: Second) -> Result<Answer, WorldFault>
        ensures told { IfOk result (λ answer. (steady : Bool) (state : State) → Holds steady (view_of D.seen self.old) state → IsPhase true (view_of D.seen self.old).group
            → answer ≡ Answer.Up (record { host = Host.P; second = second; groups = map group_line state.p.groups; sets = flat_map set_lines state.p.groups })) }
        ensures kind { IfOk result (λ answer. (told : Recovered) × (answer ≡ Answer.Up told)) }
        ensures shelf { self.new.shelf ≡ self.old.shelf }
        ensures group { self.new.group ≡ self.old.group }
        ensures stopped { self.new.stopped ≡ self.old.stopped }
        ensures up { OnOk result (self.new.up ≡ true) }
        ensures memory { OnErr result (result ≡ Err WorldFault.NoMemory) }
    {
        let mut groups = GroupLines::new(alloc);
        let mut sets = SetLines::new(alloc);
        if let Group::Open(set, group) = &self.group {
            groups.push(GroupLine {
                group: set.name.copy(alloc)?,
                session: 0,
                place: 0,
            })?;
            sets.push(SetLine {
                set: set.name.copy(alloc)?,
                left: group.to_copy(set.slot).unwrap_or(0),
            })?;
        }
        self.up = true;
        Ok(Answer::Up(Recovered {
            host: Host::P,
            second,
            groups,
            sets,
        }))
    }

    // A set that is not enabled is given up: its disks are those of volumes again. Tells whether there is one then, and so whether
    // the command that was stopped stands.
    fn settle(&mut self) -> Second
        ensures settles { Settles (view_of D.seen self.old) result (view_of D.seen self.new) }
        ensures up { self.new.up ≡ self.old.up }
        ensures stopped { self.new.stopped ≡ self.old.stopped }
    {
        match mem::replace(&mut self.group, Group::None) {
            Group::Open(set, mut group) => match group.give_up() {
                Some((_, shadow, bitmap)) => {
                    self.give_back(&set, group, shadow, bitmap);
                    Second::Kept
                }
                None => {
                    self.group = Group::Open(set, group);
                    Second::Done
                }
            },
            other => {
                self.group = other;
                Second::Kept
            }
        }
    }

    // The disks do not tell of the range of the write that was stopped, so one of them lost a block. The write is kept and the group
    // taken apart, for the next recovery.
    fn stay_down(&mut self, write: StoppedWrite) -> Answer
        ensures told { result ≡ Answer.Refused (Refusal.BadRecord 64) }
        ensures apart { (view_of D.seen self.new) ≡ record (view_of D.seen self.old) { group = closed (view_of D.seen self.old).group } }
        ensures up { self.new.up ≡ self.old.up }
        ensures stopped { self.new.stopped ≡ Some (Stopped.Write write) }
    {
        self.group.close();
        self.stopped = Some(Stopped::Write(write));
        Answer::Refused(Refusal::BadRecord(BETWEEN))
    }

    // Brings the host up, and tells which blocks of the write that was stopped now read as written. Where they can't be read, or the
    // disks do not tell of its range, the host stays down, with that write.
    fn recover_write(&mut self, alloc: Global, write: StoppedWrite) -> Result<Answer, WorldFault>
        requires none { self.old.stopped ≡ None }
        ensures steps { IfOk result (λ answer. RecoversWrite D.seen (view_of D.seen self.old) write answer self.new) }
        ensures cause { IfOk result (FaultHasCause (view_of D.seen self.old) (view_of D.seen self.new)) }
        ensures kept { IfOk result (KeepsStopped (Some (Stopped.Write write)) self.new.stopped) }
        ensures memory { OnErr result (result ≡ Err WorldFault.NoMemory) }
    {
        let target = match self.range_of(
            write.volume.as_slice(),
            write.at,
            write.len,
            LONGEST_WRITE,
        ) {
            Ok(target) => target,
            Err(_) => return Ok(self.stay_down(write)),
        };
        let mut bytes = sized(mem::replace(&mut self.spare, Vec::new(alloc)), write.len)?;
        match self.read_at(target, write.at, &mut bytes) {
            Ok(()) => {}
            Err(Failed) => return Ok(self.stop(alloc, Some(Stopped::Write(write)))),
        }
        let blocks = filled_blocks(alloc, &bytes, write.len, &write.pattern)?;
        self.spare = bytes;
        self.bring_up(
            alloc,
            Second::Torn {
                volume: write.volume,
                at: write.at,
                blocks,
            },
        )
    }

    pub(crate) fn recover(&mut self, alloc: Global) -> Result<Answer, WorldFault>
        ensures steps { IfOk result (λ answer. (steady : Bool) → Steps D.seen steady self.old (Event.Recover Host.P) answer self.new) }
        ensures cause { IfOk result (FaultHasCause (view_of D.seen self.old) (view_of D.seen self.new)) }
        ensures kept { IfOk result (KeepsStopped self.old.stopped self.new.stopped) }
        ensures memory { OnErr result (result ≡ Err WorldFault.NoMemory) }
    {
        if self.up {
            return Ok(Answer::Refused(Refusal::WrongState(Word::Up)));
        }
        match self.open(alloc) {
            Ok(()) => {}
            Err(Why::NoMemory) => return Err(WorldFault::NoMemory),
            Err(Why::BadRecord(field)) => return Ok(Answer::Refused(Refusal::BadRecord(field))),
            Err(Why::Size { .. }) => unreachable!(),
            Err(Why::Fault) => return Ok(Answer::Faulted(Host::P)),
        }
        match self.stopped.take() {
            None => self.bring_up(alloc, Second::Clean),
            Some(Stopped::Command) => {
                let second = self.settle();
                self.bring_up(alloc, second)
            }
            Some(Stopped::Write(write)) => self.recover_write(alloc, write),
        }
    }
}
