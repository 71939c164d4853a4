// A write of the receiver's own host.
ghost use Rattle.std.specs.Prelude.{◌≡◌, ◌⊎◌, ◌<◌, length, is_ok, false};
ghost use Rattle.avs_dev.specs.Below.{IsRangeOf};
ghost use Rattle.avs_halves.specs.SetBits.{set_at};
ghost use Rattle.avs_receiver.specs.Held.{seen_of};
ghost use Rattle.avs_receiver.specs.Writing.{RestWritten, Writes, write_of};

use crate::receiver::Receiver;
use crate::telling::{receives, state_in};
use avs_dev::{Below, Disk};
use avs_halves::word_of;
use avs_model::Refusal;
use avs_seg::Failed;

impl<D: Disk, B: Below> Receiver<D, B> {
    /// Writes blocks of a set's volume in no session: the bits of their segments first, and then the blocks. `WrongState` exactly
    /// where it is in a session, and else `NoContents` exactly where the set has no contents.
    pub fn write(&mut self, set: u32, at: u32, bytes: &[u8]) -> Result<(), Refusal>
        requires set { set < length self.old.half.sets }
        requires range { IsRangeOf (B.seen self.old.below) (set_at self.old.half.sets set).vol at (length bytes.now) }
        ensures writes { Writes (B.IsSound self.old.below) (B.IsSound self.new.below) (seen_of B.seen self.old) (write_of set at bytes.now) result (seen_of B.seen self.new) }
        ensures wrote { RestWritten (seen_of B.seen self.old) set (B.wrote (B.rest self.old.below) (set_at self.old.half.sets set).vol at bytes.now (is_ok result)) (is_ok result) (B.rest self.old.below) (B.rest self.new.below) }
    {
        if receives(&self.half.note) {
            return Err(Refusal::WrongState(word_of(state_in(&self.half.note))));
        }
        if !self.half.sets.is_filled(self.half.note.empty, set) {
            return Err(Refusal::NoContents);
        }
        match self.half.sets.write_noted(&mut self.below, set, at, bytes) {
            Ok(()) => Ok(()),
            Err(Failed) => Err(Refusal::Fault),
        }
    }
}
