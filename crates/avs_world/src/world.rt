// What each event does to the volumes of host p.
ghost use Rattle.std.specs.Prelude.{◌≡◌, ◌≢◌, ◌+◌, ◌^◌, ◌<◌, ◌≤◌, Bool, true, false, Err, IfErr, IfOk, IsErrOf, IsTrue, None, OnErr, OnOk, Some, length, position};
ghost use Rattle.std.specs.Str.{bytes_eq};
ghost use Rattle.avs_seg.specs.Causes.{Rose};
ghost use Rattle.avs_model.specs.Script.{built_command};
ghost use Rattle.avs_model.specs.declared.event.IiCommand.TheVariants.{Enable};
ghost use Rattle.avs_world.specs.declared.world.WorldFault.TheVariants.{NoMemory};

use crate::group::{Group, Part, ShadowSet};
use crate::place::Shelf;
use crate::stopped::Stopped;
use avs_dev::{Arm, Disk, Rack, RackFault, Tear};
use avs_model::{Answer, ArmTarget, EqualRuns, Event, Host, IiCommand, Name, Refusal, Word};
use std::alloc::{AllocError, AllocFailed, Global};

const LEAST_VOLUME: u32 = 64;

const LARGEST_VOLUME: u32 = 262_144;

const ALL_VOLUMES: u32 = 1_048_576;

/// Why a world can't go on. It is then only dropped.
#[derive(Clone, Copy, Debug, PartialEq, Eq)]
pub enum WorldFault {
    Rack,
    NoMemory,
}

impl<T: Drop> From<AllocFailed<T>> for WorldFault {
    ghost from_gives = { λ _ e. e ≡ NoMemory };

    fn from(_: AllocFailed<T>) -> Self {
        WorldFault::NoMemory
    }
}

impl From<avs_seg::NoMemory> for WorldFault {
    ghost from_gives = { λ _ e. e ≡ NoMemory };

    fn from(_: avs_seg::NoMemory) -> Self {
        WorldFault::NoMemory
    }
}

impl From<AllocError> for WorldFault {
    ghost from_gives = { λ _ e. e ≡ NoMemory };

    fn from(_: AllocError) -> Self {
        WorldFault::NoMemory
    }
}

/// The volumes of host p, and its shadow set.
#[derive(Drop)]
pub struct World<D: Disk> {
    pub(crate) shelf: Shelf<D>,
    pub(crate) group: Group<D>,
    pub(crate) up: bool,
    // The event in which a fault stopped the host, where something is told of it.
    pub(crate) stopped: Option<Stopped>,
    // The buffer of the last read or write, for the next.
    pub(crate) spare: Vec<u8>,
    // The blocks of the last read, whose memory is for the next.
    pub(crate) shown: EqualRuns,
}

impl<D: Arm> World<D> {
    ghost use Rattle.avs_model.specs.Limits.{least_volume};
    ghost use Rattle.avs_model.specs.Script.{built};
    ghost use Rattle.avs_model.specs.State.{State, start};
    ghost use Rattle.avs_model.specs.Refusals.{refusal};
    ghost use Rattle.avs_model.specs.Promise.{AsksForDisk};
    ghost use Rattle.avs_world.specs.Views.{view_of, group_view};
    ghost use Rattle.avs_world.specs.Holds.{Holds};
    ghost use Rattle.avs_world.specs.Causes.{FaultHasCause, ArmsAsDisk, target_disk};
    ghost use Rattle.avs_world.specs.Arming.{ArmsView, ArmsVolume, ArmsTarget, AnswersArm, ArmHasCause, is_group};
    ghost use Rattle.avs_world.specs.World.{Stands, Steps};

    pub fn new(alloc: Global) -> World<D>
        ensures { (steady : Bool) → Stands D.seen steady result start }
    {
        World {
            shelf: Shelf::new(alloc),
            group: Group::None,
            up: true,
            stopped: None,
            spare: Vec::new(alloc),
            shown: EqualRuns::new(alloc),
        }
    }

    // Why no volume of that size is made.
    fn check_volume(&self, name: &[u8], blocks: u32) -> Result<(), Refusal>
        ensures refused { IfErr result (λ why. (steady : Bool) (state : State) → Stands D.seen steady self.now state → refusal state (Event.Volume Host.P name.now blocks) ≡ Some why) }
        ensures passes { IfOk result (λ _. (steady : Bool) (state : State) → Stands D.seen steady self.now state → refusal state (Event.Volume Host.P name.now blocks) ≡ None) }
        ensures up { IfOk result (λ _. self.now.up ≡ true) }
        ensures new { IfOk result (λ _. position (bytes_eq name.now) (view_of D.seen self.now).names ≡ None) }
        ensures room { IfOk result (λ _. (view_of D.seen self.now).blocks + blocks < 2 ^ 32) }
        ensures least { IfOk result (λ _. least_volume ≤ blocks) }
    {
        if !self.up {
            return Err(Refusal::Down(Host::P));
        }
        if self.shelf.find(name).is_some() {
            return Err(Refusal::Exists);
        }
        if blocks < LEAST_VOLUME {
            return Err(Refusal::Size {
                need: LEAST_VOLUME,
                have: blocks,
            });
        }
        if blocks > LARGEST_VOLUME {
            return Err(Refusal::Limit(u64::from(LARGEST_VOLUME)));
        }
        if u64::from(self.shelf.blocks()) + u64::from(blocks) > u64::from(ALL_VOLUMES) {
            return Err(Refusal::Limit(u64::from(ALL_VOLUMES)));
        }
        Ok(())
    }

    fn make_volume<R: Rack<D = D>>(
        &mut self,
        alloc: Global,
        name: &[u8],
        blocks: u32,
        rack: &mut R,
    ) -> Result<Answer, WorldFault>
        ensures steps { IfOk result (λ answer. IsTrue (R.seen rack.old).tells → Steps D.seen (R.seen rack.old).steady self.old (Event.Volume Host.P name.now blocks) answer self.new) }
        ensures cause { IfOk result (FaultHasCause (view_of D.seen self.old) (view_of D.seen self.new)) }
        ensures tells { (R.seen rack.new).tells ≡ (R.seen rack.old).tells }
        ensures steady { (R.seen rack.new).steady ≡ (R.seen rack.old).steady }
        ensures later { (R.seen rack.old).faults ≤ (R.seen rack.new).faults }
        ensures refused { result ≡ Err WorldFault.Rack → Rose (R.seen rack.old).faults (R.seen rack.new).faults }
        ensures quiet { result ≢ Err WorldFault.Rack → (R.seen rack.new).faults ≡ (R.seen rack.old).faults }
        ensures asked { result ≡ Err WorldFault.Rack → (steady : Bool) (state : State) → Stands D.seen steady self.old state → AsksForDisk state (Event.Volume Host.P name.now blocks) }
    {
        if let Err(why) = self.check_volume(name, blocks) {
            return Ok(Answer::Refused(why));
        }
        let disk = match rack.make(alloc, blocks) {
            Ok(disk) => disk,
            Err(RackFault::Refused) => return Err(WorldFault::Rack),
            Err(RackFault::NoMemory) => return Err(WorldFault::NoMemory),
        };
        self.shelf.add(alloc, name, disk)?;
        Ok(Answer::Done)
    }

    // Arms a tear on a disk of the group, where there is one.
    fn arm_group(&mut self, number: u32, tear: Tear) -> bool
        ensures arms { ArmsView (group_view D.seen self.old.group) number tear result (group_view D.seen self.new.group) }
        ensures shelf { self.new.shelf ≡ self.old.shelf }
        ensures up { self.new.up ≡ self.old.up }
        ensures stopped { self.new.stopped ≡ self.old.stopped }
    {
        match &mut self.group {
            Group::Open(_, group) => group.arm(number, tear),
            _ => false,
        }
    }

    // Arms a tear on the disk of a volume, and tells whether the disk lets one be armed.
    fn arm_volume(&mut self, place: usize, tear: Tear) -> bool
        requires { place < length (view_of D.seen self.old).places }
        ensures arms { ArmsVolume (view_of D.seen self.old) place tear result (view_of D.seen self.new) }
        ensures up { self.new.up ≡ self.old.up }
        ensures stopped { self.new.stopped ≡ self.old.stopped }
    {
        match self.group.role(place) {
            Part::Plain => self.shelf.arm(place, tear),
            role => self.arm_group(ShadowSet::disk_number(role), tear),
        }
    }

    // Whether the host has a group of that name.
    fn has_group(&self, name: &[u8]) -> bool
        ensures { result ≡ is_group (view_of D.seen self.now).group name.now }
    {
        match &self.group {
            Group::Open(set, _) => set.name.as_slice() == name,
            _ => false,
        }
    }

    // Arms a tear on the disk that a target names, and tells whether the disk lets one be armed.
    fn arm_target(&mut self, target: &ArmTarget, tear: Tear) -> Result<bool, Refusal>
        ensures refused { IfErr result (λ why. (steady : Bool) (state : State) → Stands D.seen steady self.old state → refusal state (Event.Arm Host.P target.now tear.skip tear.from tear.count) ≡ Some why) }
        ensures other { IfErr result (λ why. ArmsAsDisk (target_disk (view_of D.seen self.old) target.now) (Answer.Refused why)) }
        ensures same { OnErr result (self.new ≡ self.old) }
        ensures arms { IfOk result (λ armed. ArmsTarget (view_of D.seen self.old) target.now tear armed (view_of D.seen self.new)) }
        ensures was_up { IfOk result (λ _. self.old.up ≡ true) }
        ensures up { self.new.up ≡ self.old.up }
        ensures stopped { self.new.stopped ≡ self.old.stopped }
    {
        if !self.up {
            return Err(Refusal::Down(Host::P));
        }
        match target {
            ArmTarget::Volume(name) => match self.shelf.find(name.as_slice()) {
                Some(place) => Ok(self.arm_volume(place, tear)),
                None => Err(Refusal::NoVolume),
            },
            ArmTarget::StateOf(name) => {
                if !self.has_group(name.as_slice()) {
                    return Err(Refusal::NoGroup);
                }
                Ok(self.arm_group(ShadowSet::disk_number(Part::Plain), tear))
            }
        }
    }

    fn arm(&mut self, target: &ArmTarget, tear: Tear) -> Answer
        ensures steps { (steady : Bool) → Steps D.seen steady self.old (Event.Arm Host.P target.now tear.skip tear.from tear.count) result self.new }
        ensures cause { FaultHasCause (view_of D.seen self.old) (view_of D.seen self.new) result }
        ensures arms { AnswersArm (view_of D.seen self.old) target.now tear (view_of D.seen self.new) result }
    {
        match self.arm_target(target, tear) {
            Ok(true) => Answer::Done,
            Ok(false) => Answer::Refused(Refusal::WrongState(Word::Unarmed)),
            Err(why) => Answer::Refused(why),
        }
    }

    // All memory of the host is gone: its disks stay, their names, which of them are spent, and which of them a set has.
    fn crash(&mut self, alloc: Global) -> Answer
        ensures steps { (steady : Bool) → Steps D.seen steady self.old (Event.Crash Host.P) result self.new }
        ensures cause { FaultHasCause (view_of D.seen self.old) (view_of D.seen self.new) result }
    {
        if !self.up {
            return Answer::Refused(Refusal::Down(Host::P));
        }
        self.spare = Vec::new(alloc);
        self.shown = EqualRuns::new(alloc);
        self.group.close();
        self.up = false;
        Answer::Down(Host::P)
    }

    /// Takes back the memory of an answer that was printed, for the next.
    pub fn keep(&mut self, answer: Answer)
        ensures stands { (steady : Bool) (state : State) → Stands D.seen steady self.old state → Stands D.seen steady self.new state }
        ensures same { view_of D.seen self.new ≡ view_of D.seen self.old }
        ensures up { self.new.up ≡ self.old.up }
        ensures stopped { self.new.stopped ≡ self.old.stopped }
    {
        if let Answer::Shown(runs) = answer {
            self.shown = runs;
        }
    }

    /// Does what an event says, and answers it.
    pub fn step<R: Rack<D = D>>(
        &mut self,
        alloc: Global,
        event: &Event,
        rack: &mut R,
    ) -> Result<Answer, WorldFault>
        requires { built event.now ≡ true }
        ensures steps { IfOk result (λ answer. IsTrue (R.seen rack.old).tells → Steps D.seen (R.seen rack.old).steady self.old event.now answer self.new) }
        ensures cause { IfOk result (FaultHasCause (view_of D.seen self.old) (view_of D.seen self.new)) }
        ensures arms { IfOk result (ArmHasCause (view_of D.seen self.old) event.now (view_of D.seen self.new)) }
        ensures tells { (R.seen rack.new).tells ≡ (R.seen rack.old).tells }
        ensures steady { (R.seen rack.new).steady ≡ (R.seen rack.old).steady }
        ensures later { (R.seen rack.old).faults ≤ (R.seen rack.new).faults }
        ensures refused { result ≡ Err WorldFault.Rack → Rose (R.seen rack.old).faults (R.seen rack.new).faults }
        ensures quiet { result ≢ Err WorldFault.Rack → (R.seen rack.new).faults ≡ (R.seen rack.old).faults }
        ensures asked { result ≡ Err WorldFault.Rack → (steady : Bool) (state : State) → Stands D.seen steady self.old state → AsksForDisk state event.now }
    {
        match event {
            Event::Volume {
                host: _,
                volume,
                blocks,
            } => self.make_volume(alloc, volume.as_slice(), *blocks, rack),
            Event::Write {
                host: _,
                volume,
                at,
                len,
                pattern,
            } => self.write(alloc, volume, *at, *len, pattern),
            Event::Read {
                host: _,
                volume,
                at,
                len,
            } => self.read(alloc, volume.as_slice(), *at, *len),
            Event::Ii { host: _, command } => {
                let (master, shadow, bitmap) = volumes_of(command);
                self.enable(alloc, master, shadow, bitmap, rack)
            }
            Event::Arm {
                host: _,
                target,
                skip,
                first,
                count,
            } => {
                let (skip, from, count) = (*skip, *first, *count);
                Ok(self.arm(target, Tear { skip, from, count }))
            }
            Event::Crash { host: _ } => Ok(self.crash(alloc)),
            Event::Recover { host: _ } => self.recover(alloc),
        }
    }
}

// The volumes that a command names: the master, the shadow and the bitmap.
fn volumes_of(command: &IiCommand) -> (&Name, &Name, &Name)
    requires { built_command command.now ≡ true }
    ensures { command.now ≡ Enable true result.0.now result.1.now result.2.now }
{
    match command {
        IiCommand::Enable {
            dependent: _,
            master,
            shadow,
            bitmap,
        } => (master, shadow, bitmap),
    }
}
