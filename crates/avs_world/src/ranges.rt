// Reads and writes of ranges of blocks.
ghost use Rattle.std.specs.Prelude.{◌≡◌, ◌≢◌, ◌+◌, ◌*◌, ◌^◌, ◌<◌, ◌≤◌, Bool, true, false, [], Err, IfErr, IfOk, IsTrue, None, OnErr, Some, length, min, replicate, vec_len};
ghost use Rattle.avs_seg.specs.Image.{blocks_of};
ghost use Rattle.avs_model.specs.Filling.{fill};
ghost use Rattle.avs_world.specs.Views.{group_view};
ghost use Rattle.avs_world.specs.Calls.{IsMasterRange, IsShadowRangeOf, ReadsMaster, WritesMaster, ReadsShadow, WritesShadow};
ghost use Rattle.avs_world.specs.declared.ranges.TheConstants.{PIECE};
ghost use Rattle.avs_world.specs.declared.world.WorldFault.TheVariants.{NoMemory};

use crate::group::{Group, MASTER, Part};
use crate::stopped::{Stopped, StoppedWrite};
use crate::world::{World, WorldFault};
use avs_dev::{Arm, Disk};
use avs_model::{Answer, EqualRuns, Event, Host, Name, Pattern, Refusal, Role};
use avs_seg::{BLOCK, Failed, NoMemory};
use avs_text::fill;
use std::alloc::Global;
use std::mem;

pub(crate) const LONGEST_WRITE: u32 = 256;

const LONGEST_READ: u32 = 4096;

// So many blocks are read at a time. They stay in the processor's cache until they are compared.
const PIECE: u32 = 32;

// Why a range was not read.
#[derive(Clone, Copy, Debug, PartialEq, Eq)]
enum ReadStop {
    // A disk failed.
    Failed,
    NoMemory,
}

// Where blocks are read and written: the place of a volume, and what it serves as.
#[derive(Clone, Copy, Debug)]
pub(crate) struct Target {
    pub(crate) place: usize,
    pub(crate) role: Part,
}

impl<D: Arm> World<D> {
    ghost use Rattle.avs_model.specs.State.{State};
    ghost use Rattle.avs_model.specs.Refusals.{range_causes, place_causes, first_cause};
    ghost use Rattle.avs_world.specs.Views.{view_of, closed, SameApart};
    ghost use Rattle.avs_world.specs.Holds.{Holds, IsPhase};
    ghost use Rattle.avs_world.specs.Ranges.{reach, IsReached};
    ghost use Rattle.avs_world.specs.Causes.{FaultHasCause};
    ghost use Rattle.avs_world.specs.Calls.{IsOf, ReadsAt, ReadsRuns, WritesOpen, WritesAt};
    ghost use Rattle.avs_world.specs.World.{Stands, Steps};

    // How many blocks of a volume can be read and written.
    pub(crate) fn reach(&self, target: Target) -> u32
        requires { target.place < length (view_of D.seen self.now).places }
        ensures { result ≡ reach (view_of D.seen self.now) target }
    {
        match target.role {
            Part::Plain => self.shelf.size(target.place),
            role => self.group.size(role),
        }
    }

    // The volume of that name, where the range can be read and written, and is no longer than may be.
    pub(crate) fn range_of(
        &self,
        name: &[u8],
        at: u32,
        len: u32,
        longest: u32,
    ) -> Result<Target, Refusal>
        ensures refused { IfErr result (λ why. (steady : Bool) (state : State) → Holds steady (view_of D.seen self.now) state → IsPhase true (view_of D.seen self.now).group
            → first_cause (place_causes state Host.P name.now at len longest) ≡ Some why) }
        ensures passes { IfOk result (λ _. (steady : Bool) (state : State) → Holds steady (view_of D.seen self.now) state → IsPhase true (view_of D.seen self.now).group
            → first_cause (place_causes state Host.P name.now at len longest) ≡ None) }
        ensures reached { IfOk result (λ target. IsReached (view_of D.seen self.now) target at (512 * len)) }
        ensures of { IfOk result (λ target. IsOf (view_of D.seen self.now) target name.now) }
        ensures some { IfOk result (λ _. 0 < len) }
        ensures most { IfOk result (λ _. len ≤ longest) }
        ensures room { IfOk result (λ _. at + len < 2 ^ 32) }
    {
        let Some(place) = self.shelf.find(name) else {
            return Err(Refusal::NoVolume);
        };
        let target = Target {
            place,
            role: self.group.role(place),
        };
        if target.role == Part::Bitmap {
            return Err(Refusal::BusyVolume(Role::Bitmap));
        }
        if len < 1 || longest < len {
            return Err(Refusal::Length(len));
        }
        let blocks = self.reach(target);
        if u64::from(at) + u64::from(len) > u64::from(blocks) {
            return Err(Refusal::Range(blocks));
        }
        if target.role == Part::Plain && self.shelf.is_spent(place) {
            return Err(Refusal::NoContents);
        }
        Ok(target)
    }

    // The same, where the host is up.
    fn target_of(&self, name: &[u8], at: u32, len: u32, longest: u32) -> Result<Target, Refusal>
        ensures refused { IfErr result (λ why. (steady : Bool) (state : State) → Stands D.seen steady self.now state → first_cause (range_causes state Host.P name.now at len longest) ≡ Some why) }
        ensures passes { IfOk result (λ _. (steady : Bool) (state : State) → Stands D.seen steady self.now state → first_cause (range_causes state Host.P name.now at len longest) ≡ None) }
        ensures reached { IfOk result (λ target. IsReached (view_of D.seen self.now) target at (512 * len)) }
        ensures of { IfOk result (λ target. IsOf (view_of D.seen self.now) target name.now) }
        ensures some { IfOk result (λ _. 0 < len) }
        ensures most { IfOk result (λ _. len ≤ longest) }
        ensures room { IfOk result (λ _. at + len < 2 ^ 32) }
        ensures up { IfOk result (λ _. self.now.up ≡ true) }
    {
        if !self.up {
            return Err(Refusal::Down(Host::P));
        }
        self.range_of(name, at, len, longest)
    }

    // Reads blocks of a volume.
    pub(crate) fn read_at(&mut self, target: Target, at: u32, out: &mut [u8]) -> Result<(), Failed>
        requires { IsReached (view_of D.seen self.old) target at (length out.old) }
        ensures reads { ReadsAt (view_of D.seen self.old) target at out.new result (view_of D.seen self.new) }
        ensures len { length out.new ≡ length out.old }
        ensures up { self.new.up ≡ self.old.up }
        ensures stopped { self.new.stopped ≡ self.old.stopped }
    {
        match target.role {
            Part::Plain => self.shelf.read(target.place, at, out),
            Part::Shadow => match read_shadow(&mut self.group, at, out) {
                Ok(()) => Ok(()),
                Err(_) => Err(Failed),
            },
            Part::Master => read_master(&mut self.group, at, out),
            Part::Bitmap => unreachable!(),
        }
    }

    // Reads blocks of a volume piece by piece, each into `piece`, and appends them to the runs.
    fn read_runs(
        &mut self,
        target: Target,
        at: u32,
        len: u32,
        piece: &mut [u8],
        runs: &mut EqualRuns,
    ) -> Result<(), ReadStop>
        requires reached { IsReached (view_of D.seen self.old) target at (512 * len) }
        requires room { at + len < 2 ^ 32 }
        requires piece { length piece.old ≡ 512 * min len PIECE }
        requires none { runs.old ≡ [] }
        ensures reads { result ≢ Err ReadStop.NoMemory → ReadsRuns (view_of D.seen self.old) target at len runs.new result (view_of D.seen self.new) }
        ensures up { self.new.up ≡ self.old.up }
        ensures stopped { self.new.stopped ≡ self.old.stopped }
    {
        let mut done = 0;
        while done < len {
            let more = PIECE.min(len - done);
            let part = &mut piece[..more as usize * BLOCK];
            match self.read_at(target, at + done, part) {
                Ok(()) => {}
                Err(Failed) => return Err(ReadStop::Failed),
            }
            match runs.push(part) {
                Ok(()) => {}
                Err(NoMemory) => return Err(ReadStop::NoMemory),
            }
            done += more;
        }
        Ok(())
    }

    // Writes blocks of a volume. Where that fails the group in memory may be out of step with its disks.
    fn write_open(&mut self, target: Target, at: u32, bytes: &[u8]) -> Result<(), Failed>
        requires { IsReached (view_of D.seen self.old) target at (length bytes.now) }
        ensures writes { WritesOpen (view_of D.seen self.old) target at bytes.now result (view_of D.seen self.new) }
        ensures up { self.new.up ≡ self.old.up }
        ensures stopped { self.new.stopped ≡ self.old.stopped }
    {
        match target.role {
            Part::Plain => self.shelf.write(target.place, at, bytes),
            Part::Shadow => match write_shadow(&mut self.group, at, bytes) {
                Ok(()) => Ok(()),
                Err(_) => Err(Failed),
            },
            Part::Master => write_master(&mut self.group, at, bytes),
            Part::Bitmap => unreachable!(),
        }
    }

    // The same. Where that fails the group is taken apart.
    fn write_at(&mut self, target: Target, at: u32, bytes: &[u8]) -> Result<(), Failed>
        requires { IsReached (view_of D.seen self.old) target at (length bytes.now) }
        ensures writes { WritesAt (view_of D.seen self.old) target at bytes.now result (view_of D.seen self.new) }
        ensures up { self.new.up ≡ self.old.up }
        ensures stopped { self.new.stopped ≡ self.old.stopped }
    {
        match self.write_open(target, at, bytes) {
            Ok(()) => Ok(()),
            Err(Failed) => {
                self.group.close();
                Err(Failed)
            }
        }
    }

    // A fault stops the host, by an event of which this is told. No buffer stays.
    pub(crate) fn stop(&mut self, alloc: Global, stopped: Option<Stopped>) -> Answer
        ensures told { result ≡ Answer.Faulted Host.P }
        ensures apart { (view_of D.seen self.new) ≡ record (view_of D.seen self.old) { group = closed (view_of D.seen self.old).group } }
        ensures same { SameApart (view_of D.seen self.old).group }
        ensures up { self.new.up ≡ false }
        ensures stopped { self.new.stopped ≡ stopped }
    {
        self.spare = Vec::new(alloc);
        self.shown = EqualRuns::new(alloc);
        self.group.close();
        self.stopped = stopped;
        self.up = false;
        Answer::Faulted(Host::P)
    }

    pub(crate) fn write(
        &mut self,
        alloc: Global,
        volume: &Name,
        at: u32,
        len: u32,
        pattern: &Pattern,
    ) -> Result<Answer, WorldFault>
        ensures steps { IfOk result (λ answer. (steady : Bool) → Steps D.seen steady self.old (Event.Write Host.P volume.now at len pattern.now) answer self.new) }
        ensures cause { IfOk result (FaultHasCause (view_of D.seen self.old) (view_of D.seen self.new)) }
        ensures memory { OnErr result (result ≡ Err WorldFault.NoMemory) }
    {
        let target = match self.target_of(volume.as_slice(), at, len, LONGEST_WRITE) {
            Ok(target) => target,
            Err(why) => return Ok(Answer::Refused(why)),
        };
        let bytes = filled(mem::replace(&mut self.spare, Vec::new(alloc)), pattern, len)?;
        let Ok(()) = self.write_at(target, at, &bytes) else {
            let write = StoppedWrite::new(alloc, volume, at, len, pattern)?;
            return Ok(self.stop(alloc, Some(Stopped::Write(write))));
        };
        self.spare = bytes;
        Ok(Answer::Done)
    }

    pub(crate) fn read(
        &mut self,
        alloc: Global,
        name: &[u8],
        at: u32,
        len: u32,
    ) -> Result<Answer, WorldFault>
        ensures steps { IfOk result (λ answer. (steady : Bool) → Steps D.seen steady self.old (Event.Read Host.P name.now at len) answer self.new) }
        ensures cause { IfOk result (FaultHasCause (view_of D.seen self.old) (view_of D.seen self.new)) }
        ensures memory { OnErr result (result ≡ Err WorldFault.NoMemory) }
    {
        let target = match self.target_of(name, at, len, LONGEST_READ) {
            Ok(target) => target,
            Err(why) => return Ok(Answer::Refused(why)),
        };
        let mut piece = sized(
            mem::replace(&mut self.spare, Vec::new(alloc)),
            len.min(PIECE),
        )?;
        let mut runs = mem::replace(&mut self.shown, EqualRuns::new(alloc));
        runs.clear();
        match self.read_runs(target, at, len, &mut piece, &mut runs) {
            Ok(()) => {
                self.spare = piece;
                Ok(Answer::Shown(runs))
            }
            Err(ReadStop::Failed) => Ok(self.stop(alloc, None)),
            Err(ReadStop::NoMemory) => Err(WorldFault::NoMemory),
        }
    }
}

// Reads blocks of the master.
fn read_master<D: Disk>(group: &mut Group<D>, at: u32, out: &mut [u8]) -> Result<(), Failed>
    requires { IsMasterRange (group_view D.seen group.old) at (length out.old) }
    ensures reads { ReadsMaster (group_view D.seen group.old) at out.new result (group_view D.seen group.new) }
    ensures len { length out.new ≡ length out.old }
{
    match group {
        Group::Open(_, group) => group.read_volume(MASTER, at, out),
        _ => unreachable!(),
    }
}

// Reads blocks of the shadow.
fn read_shadow<D: Disk>(group: &mut Group<D>, at: u32, out: &mut [u8]) -> Result<(), Refusal>
    requires { IsShadowRangeOf (group_view D.seen group.old) at (length out.old) }
    ensures reads { ReadsShadow (group_view D.seen group.old) at out.new result (group_view D.seen group.new) }
    ensures len { length out.new ≡ length out.old }
{
    match group {
        Group::Open(set, group) => group.read_shadow(set.slot, at, out),
        _ => unreachable!(),
    }
}

// Writes blocks of the master.
fn write_master<D: Disk>(group: &mut Group<D>, at: u32, bytes: &[u8]) -> Result<(), Failed>
    requires { IsMasterRange (group_view D.seen group.old) at (length bytes.now) }
    ensures { WritesMaster (group_view D.seen group.old) at bytes.now result (group_view D.seen group.new) }
{
    match group {
        Group::Open(_, group) => group.write_volume(MASTER, at, bytes),
        _ => unreachable!(),
    }
}

// Writes blocks of the shadow.
fn write_shadow<D: Disk>(group: &mut Group<D>, at: u32, bytes: &[u8]) -> Result<(), Refusal>
    requires { IsShadowRangeOf (group_view D.seen group.old) at (length bytes.now) }
    ensures { WritesShadow (group_view D.seen group.old) at bytes.now result (group_view D.seen group.new) }
{
    match group {
        Group::Open(set, group) => group.write_shadow(set.slot, at, bytes),
        _ => unreachable!(),
    }
}

// A buffer of so many blocks, whatever is in it.
pub(crate) fn sized(mut bytes: Vec<u8>, len: u32) -> Result<Vec<u8>, WorldFault>
    ensures len { IfOk result (λ bytes. vec_len bytes ≡ 512 * len) }
    ensures memory { OnErr result (result ≡ Err WorldFault.NoMemory) }
{
    bytes.resize(len as usize * BLOCK, 0)?;
    Ok(bytes)
}

// So many blocks that the pattern fills, in that buffer.
fn filled(bytes: Vec<u8>, pattern: &Pattern, len: u32) -> Result<Vec<u8>, WorldFault>
    ensures len { IfOk result (λ bytes. vec_len bytes ≡ 512 * len) }
    ensures blocks { IfOk result (λ bytes. blocks_of bytes.items ≡ replicate len (fill pattern.now)) }
    ensures memory { OnErr result (result ≡ Err WorldFault.NoMemory) }
{
    let mut bytes = sized(bytes, len)?;
    fill(pattern, &mut bytes);
    Ok(bytes)
}
