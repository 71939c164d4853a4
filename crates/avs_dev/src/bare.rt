// Plain disks as volumes, and a disk that holds the note.
ghost use Rattle.std.specs.Prelude.{◌≡◌, ◌<◌, ◌++◌, ◌∷◌, [], IfOk, IfErr, OnErr, length, map};
ghost use Rattle.avs_dev.specs.Bare.{BareDisks, Opens, OpenRefused, ArmsBare, written_of, note_in, note_block};

use crate::back::{Back, Closed, Why};
use crate::below::Below;
use crate::disk::{Arm, Disk, Tear};
use avs_seg::{BLOCK, Failed, NoMemory};
use std::alloc::Global;
use std::marker::Model;

// The block of the state disk that holds the note.
const NOTE_BLOCK: u32 = 1;

// Where in that block the note begins.
const NOTE_AT: usize = 400;

const NOTE_LEN: usize = 64;

/// Volumes that are disks and no more, and a state disk, whose block 1 holds the note.
#[derive(Drop)]
pub struct Bare<D: Disk> {
    state: D,
    volumes: Vec<D>,
    note: [u8; NOTE_LEN],
}

impl<D: Disk> Model for Bare<D> {
    ghost use Rattle.std.specs.Prelude.{◌<◌, ◌^◌, map, vec_len};
    ghost use Rattle.avs_dev.specs.Bare.{BareDisks};

    ghost Value = { BareDisks };

    ghost view = { λ b. record { state = D.seen b.state; volumes = map D.seen b.volumes.items; note = b.note } };

    ghost invariant = { λ b. (1 < (D.seen b.state).size) × (vec_len b.volumes < 2 ^ 32) };
}

// The note in a block.
fn note_in(block: &[u8; BLOCK]) -> [u8; NOTE_LEN]
    ensures { result ≡ note_in block.now }
{
    let mut note = [0; NOTE_LEN];
    note.copy_from_slice(&block[NOTE_AT..NOTE_AT + NOTE_LEN]);
    note
}

// A block of zeros but for the note.
fn note_block(note: &[u8; NOTE_LEN]) -> [u8; BLOCK]
    ensures { result ≡ note_block note.now }
{
    let mut block = [0; BLOCK];
    block[NOTE_AT..NOTE_AT + NOTE_LEN].copy_from_slice(note);
    block
}

impl<D: Disk> Bare<D> {
    /// No volumes, and the note of the state disk.
    pub fn new(alloc: Global, mut state: D) -> Result<Bare<D>, Closed<D>>
        requires { 1 < (D.seen state).size }
        ensures opens { IfOk result (λ b. Opens (D.seen state) b) }
        ensures refused { IfErr result (λ e. OpenRefused (D.seen state) e.why (D.seen e.parts)) }
    {
        let mut block = [0; BLOCK];
        match state.read(NOTE_BLOCK, &mut block) {
            Ok(()) => Ok(Bare {
                state,
                volumes: Vec::new(alloc),
                note: note_in(&block),
            }),
            Err(Failed) => Err(Back {
                parts: state,
                why: Why::Fault,
            }),
        }
    }

    /// Adds a volume behind the others, and answers its number. `NoMemory` also where there are as many volumes as
    /// numbers for them.
    pub fn add(&mut self, disk: D) -> Result<u32, Back<D, NoMemory>>
        ensures number { IfOk result (λ vol. vol ≡ length self.old.volumes) }
        ensures added { IfOk result (λ vol. self.new ≡ record self.old { volumes = self.old.volumes ++ D.seen disk ∷ [] }) }
        ensures back { IfErr result (λ e. e.parts ≡ disk) }
        ensures kept { OnErr result (self.new ≡ self.old) }
    {
        let vol = self.count();
        if vol == u32::MAX {
            return Err(Back {
                parts: disk,
                why: NoMemory,
            });
        }
        match self.volumes.push(disk) {
            Ok(()) => Ok(vol),
            Err(refused) => Err(Back {
                parts: refused.value,
                why: NoMemory,
            }),
        }
    }

    /// The state disk, and the volumes in order. `new` and `add` make the same of them again.
    pub fn into_parts(self) -> (D, Vec<D>)
        ensures state { D.seen result.0 ≡ self.state }
        ensures volumes { map D.seen result.1.items ≡ self.volumes }
        ensures fits { 1 < self.state.size }
    {
        let Bare { state, volumes, .. } = self;
        (state, volumes)
    }

    /// How many blocks have been written on a disk. The state disk has the number 0, and the first volume 1.
    pub fn written(&self, disk: u32) -> Option<u64>
        ensures { result ≡ written_of self.now disk }
    {
        if disk == 0 {
            return Some(self.state.written());
        }
        let volume = self.volumes.get(disk as usize - 1)?;
        Some(volume.written())
    }

    /// Arms a tear on a disk, by the same numbers.
    pub fn arm(&mut self, disk: u32, tear: Tear) -> bool
    where
        D: Arm,
        ensures { ArmsBare self.old disk tear result self.new }
    {
        if disk == 0 {
            return self.state.arm(tear);
        }
        let place = disk as usize - 1;
        place < self.volumes.len() && self.volumes[place].arm(tear)
    }
}

impl<D: Disk> Below for Bare<D> {
    ghost use Rattle.std.specs.Prelude.{is_ok, OnOk, ℕ, List};
    ghost use Rattle.avs_dev.specs.Below.{Counts, IsRangeOf, ReadsBelow, WritesBelow, SetsNote, size_of};
    ghost use Rattle.avs_dev.specs.Bare.{below_of, written_on, AddsBlocks, IsSoundBare, ReadsVolume, WritesVolume, WritesNote};

    ghost seen = { below_of };

    /// The blocks written on each volume.
    ghost Rest = { List ℕ };

    ghost rest = { written_on };

    ghost wrote = { AddsBlocks };

    ghost IsSound = { IsSoundBare };

    fn count(&self) -> u32 {
        self.volumes.len() as u32
    }

    fn size(&self, vol: u32) -> u32 {
        self.volumes[vol as usize].blocks()
    }

    fn read(&mut self, vol: u32, at: u32, out: &mut [u8]) -> Result<(), Failed>
        requires { IsRangeOf (below_of self.old) vol at (length out.old) }
        ensures reads { ReadsBelow (IsSoundBare self.old) (below_of self.old) vol at out.new result (below_of self.new) }
        ensures sound { IsSoundBare self.old → IsSoundBare self.new }
        ensures rest { written_on self.new ≡ written_on self.old }
        ensures volume { ReadsVolume self.old vol at out.new result self.new }
    {
        self.volumes[vol as usize].read(at, out)
    }

    fn write(&mut self, vol: u32, at: u32, bytes: &[u8]) -> Result<(), Failed>
        requires { IsRangeOf (below_of self.old) vol at (length bytes.now) }
        ensures writes { WritesBelow (IsSoundBare self.old) (below_of self.old) vol at bytes.now result (below_of self.new) }
        ensures sound { IsSoundBare self.old → OnOk result (IsSoundBare self.new) }
        ensures wrote { AddsBlocks (written_on self.old) vol at bytes.now (is_ok result) (written_on self.new) }
        ensures volume { WritesVolume self.old vol at bytes.now result self.new }
    {
        self.volumes[vol as usize].write(at, bytes)
    }

    fn note(&self) -> [u8; 64] {
        self.note
    }

    /// Writes block 1 of the state disk with zeros around the note. After `Failed` the note in memory is the old one.
    fn set_note(&mut self, note: &[u8; 64]) -> Result<(), Failed>
        ensures sets { SetsNote (IsSoundBare self.old) (below_of self.old) note.now result (below_of self.new) }
        ensures sound { IsSoundBare self.old → OnOk result (IsSoundBare self.new) }
        ensures rest { written_on self.new ≡ written_on self.old }
        ensures state { WritesNote self.old note.now result self.new }
    {
        self.state.write(NOTE_BLOCK, &note_block(note))?;
        self.note = *note;
        Ok(())
    }
}
