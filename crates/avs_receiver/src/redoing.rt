// What a load does with a receiver that it has found.
ghost use Rattle.std.specs.Prelude.{◌≡◌, ◌==◌, IfErr, IfOk, OnOk, is_ok, not, true};
ghost use Rattle.avs_mirrors.specs.Entries.{is_mark};
ghost use Rattle.avs_mirrors.specs.Half.{is_marked};
ghost use Rattle.avs_land.specs.Landed.{entry_kind};
ghost use Rattle.avs_land.specs.Redo.{IsRoom};
ghost use Rattle.avs_receiver.specs.Held.{seen_of};
ghost use Rattle.avs_receiver.specs.Meaning.{is_redone, vols_of};
ghost use Rattle.avs_receiver.specs.CatchingUp.{CatchesUp, HasNoVols, IsToRedo, RedoesLanded, RestCaught, RestRedone, Settles, WipesLeft};

use crate::applying::is_mark;
use crate::half::Half;
use crate::receiver::Receiver;
use crate::telling::state_in;
use avs_dev::{Below, Disk, Why};
use avs_halves::{is_receiver, is_session};
use avs_model::State;
use avs_seg::Failed;
use std::alloc::Global;

// A rule between disks, told in place of a field.
const BETWEEN: u32 = 64;

fn is_marked(state: State) -> bool
    ensures { result ≡ is_marked state }
{
    match state {
        State::Logging | State::Syncing | State::Receiving => false,
        State::Replicating | State::Queuing => true,
    }
}

impl<D: Disk> Half<D> {
    // Whether a place has landed of the session in which it receives.
    fn is_redone(&self) -> bool
        ensures { result ≡ is_redone self.now.note self.now.land.header }
    {
        let Some((session, _)) = self.land.settled() else {
            return false;
        };
        is_receiver(self.note.role) && session == self.note.session && is_session(self.note.state)
    }

    // Whether what has landed is the mark.
    fn has_mark(&self) -> bool
        ensures { not (self.now.land.header.kind == 0) ≡ true → result ≡ is_mark (entry_kind self.now.land.header.kind) }
    {
        match self.land.landed() {
            Some((kind, _, _)) => is_mark(kind),
            None => false,
        }
    }

    // One that replicates has no bits: those that are left of before its mark go.
    fn wipe_left(&mut self) -> Result<(), Failed>
        ensures { WipesLeft self.old result self.new }
    {
        if is_marked(state_in(&self.note)) {
            return self.sets.wipe();
        }
        Ok(())
    }
}

impl<D: Disk, B: Below> Receiver<D, B> {
    // The volumes of its sets, where what has landed has its place in them.
    fn vols(&self, alloc: Global) -> Result<Vec<u32>, Why>
        ensures vols { IfOk result (λ v. v.items ≡ vols_of self.now.half.sets) }
        ensures room { IfOk result (λ _. IsRoom self.now.half.land.header (vols_of self.now.half.sets) (B.seen self.now.below)) }
        ensures none { IfErr result (λ why. HasNoVols (seen_of B.seen self.now) why) }
    {
        let vols = self.half.sets.vols(alloc)?;
        if self.half.land.has_room(&self.below, &vols) {
            Ok(vols)
        } else {
            Err(Why::BadRecord(BETWEEN))
        }
    }

    // Does what has landed once more: its blocks go below, or it is the mark.
    fn redo(&mut self, vols: &[u32]) -> Result<(), Failed>
        requires redone { IsToRedo self.old.half }
        requires vols { vols.now ≡ vols_of self.old.half.sets }
        requires room { IsRoom self.old.half.land.header (vols_of self.old.half.sets) (B.seen self.old.below) }
        ensures redoes { RedoesLanded (B.IsSound self.old.below) (seen_of B.seen self.old) result (seen_of B.seen self.new) }
        ensures sound { B.IsSound self.old.below → OnOk result (B.IsSound self.new.below) }
        ensures rest { RestRedone B.wrote (B.rest self.old.below) (seen_of B.seen self.old) (is_ok result) (B.rest self.new.below) }
    {
        if self.half.has_mark() {
            return self.mark(self.half.applied);
        }
        self.half.land.redo(&mut self.below, vols)
    }

    // What has landed of its session is done once more.
    fn catch_up(&mut self, alloc: Global) -> Result<(), Why>
        ensures catches { CatchesUp (B.IsSound self.old.below) (B.IsSound self.new.below) (seen_of B.seen self.old) result (seen_of B.seen self.new) }
        ensures sound { B.IsSound self.old.below → OnOk result (B.IsSound self.new.below) }
        ensures rest { RestCaught B.wrote (B.rest self.old.below) (seen_of B.seen self.old) (is_ok result) (B.rest self.new.below) }
    {
        if !self.half.is_redone() {
            return Ok(());
        }
        let vols = self.vols(alloc)?;
        self.redo(&vols)?;
        Ok(())
    }

    // Brings it to where a load finds it: caught up, and then it leaves.
    pub(crate) fn settle(&mut self, alloc: Global) -> Result<(), Why>
        ensures settles { Settles (B.IsSound self.old.below) (B.IsSound self.new.below) (seen_of B.seen self.old) result (seen_of B.seen self.new) }
        ensures rest { RestCaught B.wrote (B.rest self.old.below) (seen_of B.seen self.old) (is_ok result) (B.rest self.new.below) }
    {
        self.catch_up(alloc)?;
        self.half.wipe_left()?;
        self.leave()?;
        Ok(())
    }
}
