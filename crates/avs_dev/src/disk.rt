// Disks of blocks of 512 bytes that write through.
ghost use Rattle.std.specs.Prelude.{◌≡◌, ◌<◌, ◌^◌, IsTrue, is_some, length};
ghost use Rattle.avs_dev.specs.Seen.{Seen, IsRange, Reads, Writes, Arms};

use avs_seg::Failed;

/// A disk. A range is given by its first block, and by a slice of whole blocks.
pub trait Disk: Drop {
    /// What contracts see of it.
    ghost seen: { Self → Seen };

    /// How many blocks it has.
    fn blocks(&self) -> u32
        ensures { result ≡ (seen self.now).size };

    /// Reads blocks into the slice. A failed read may have changed the slice.
    fn read(&mut self, at: u32, out: &mut [u8]) -> Result<(), Failed>
        requires { IsRange (seen self.old) at (length out.old) }
        ensures { Reads (seen self.old) at out.new result (seen self.new) };

    /// Writes the blocks of the slice. A failed write leaves each of its blocks old or new.
    fn write(&mut self, at: u32, bytes: &[u8]) -> Result<(), Failed>
        requires { IsRange (seen self.old) at (length bytes.now) }
        ensures { Writes (seen self.old) at bytes.now result (seen self.new) };

    /// How many blocks all writes that answered Ok have written. The count stops at the greatest `u64`.
    fn written(&self) -> u64
        ensures { result ≡ (seen self.now).written };

    /// The blocks of a disk can be numbered by a `u32`.
    ghost fits: { (d : Self) → (seen d).size < 2 ^ 32 };

    /// A tear is armed where the disk has one.
    ghost armed_is: { (d : Self) → (seen d).armed ≡ is_some (seen d).tear };
}

/// After `skip` further writes the next one fails, and stores `count` of its blocks from its block `from` on, as far as it has them.
#[derive(Clone, Copy, Debug, PartialEq, Eq)]
pub struct Tear {
    pub skip: u32,
    pub from: u32,
    pub count: u32,
}

/// A disk that can be made to fail.
pub trait Arm: Disk {
    /// Arms a tear, in the place of one that is armed. The answer is false where the disk can't be armed.
    fn arm(&mut self, tear: Tear) -> bool
        ensures { Arms (Self.seen self.old) tear result (Self.seen self.new) };

    /// A steady disk can be armed, so that it too can be seen to fail.
    ghost steady_arms: { (d : Self) → IsTrue (Self.seen d).steady → IsTrue (Self.seen d).arms };
}
