// Reads of volumes.
ghost use Rattle.std.specs.Prelude.{◌≡◌, ◌*◌, ◌/◌, ◌+◌, ◌<◌, ◌≤◌, ◌==◌, IfSome, IfNone, true, length};
ghost use Rattle.avs_seg.specs.Segment.{seg_count};
ghost use Rattle.avs_model.specs.GroupStates.{volume_image};
ghost use Rattle.avs_chunks.specs.States.{code_of};
ghost use Rattle.avs_sets.specs.Meaning.{set_of, disk_in};
ghost use Rattle.avs_group.specs.Group.{IsKeptGroup, group_of, seen};
ghost use Rattle.avs_group.specs.Reads.{IsOneChunk, IsVolumeRange, NoSource, ReadsDisk, ReadsImage, is_source};

use crate::group::ShadowGroup;
use avs_chunks::ChunkState;
use avs_dev::Disk;
use avs_seg::{BLOCK, Failed, SEGMENT};

impl<D: Disk> ShadowGroup<D> {
    // Whether a chunk of a volume stands on the shadow of the set at a place alone.
    fn is_source(&self, place: usize, volume: u32, chunk: u32) -> bool
        requires place { place < length (seen self.now).sets }
        requires chunk { chunk < seg_count (disk_in (seen self.now).volumes volume).size }
        ensures { result ≡ is_source (group_of (seen self.now)).memory volume chunk (set_of (seen self.now).sets place) }
    {
        let set = &self.sets[place];
        if set.seat().master != volume {
            return false;
        }
        if self.said_at(place).is_none() {
            return false;
        }
        is_back(set.state(chunk))
    }

    // The place of the set on whose shadow alone a chunk of a volume stands.
    fn source(&self, volume: u32, chunk: u32) -> Option<usize>
        requires { chunk < seg_count (disk_in (seen self.now).volumes volume).size }
        ensures there { IfSome result (λ place. place < length (seen self.now).sets) }
        ensures source { IfSome result (λ place. is_source (group_of (seen self.now)).memory volume chunk
            (set_of (seen self.now).sets place) ≡ true) }
        ensures none { IfNone result (NoSource (group_of (seen self.now)) volume chunk) }
        ensures kept { IsKeptGroup (seen self.now) }
    {
        for place in 0..self.sets.len() {
            if self.is_source(place, volume, chunk) {
                return Some(place);
            }
        }
        None
    }

    // How many blocks a volume has, 0 where it is not there.
    fn blocks_of(&self, volume: u32) -> u32
        ensures { result ≡ (disk_in (seen self.now).volumes volume).size }
    {
        self.volume_size(volume).unwrap_or(0)
    }

    // Reads blocks of the disk of a volume.
    fn read_disk(&mut self, volume: u32, at: u32, out: &mut [u8]) -> Result<(), Failed>
        requires { IsVolumeRange (seen self.old) volume at (length out.old) }
        ensures reads { ReadsDisk (seen self.old) volume at out.new result (seen self.new) }
        ensures len { length out.new ≡ length out.old }
    {
        let Some(disk) = &mut self.volumes[volume as usize] else {
            return Err(Failed);
        };
        disk.read(at, out)
    }

    // Reads blocks of one chunk of a volume.
    fn read_chunk(&mut self, volume: u32, at: u32, out: &mut [u8]) -> Result<(), Failed>
        requires range { IsVolumeRange (seen self.old) volume at (length out.old) }
        requires one { IsOneChunk at (length out.old / 512) }
        ensures reads { ReadsImage (λ group. volume_image group volume) (seen self.old) at out.new result (seen self.new) }
        ensures len { length out.new ≡ length out.old }
    {
        if let Some(place) = self.source(volume, at / SEGMENT) {
            return self.read_set(place, at, out);
        }
        self.read_disk(volume, at, out)
    }

    /// Reads blocks of a volume: of each chunk from the set on whose shadow alone it stands, else from the volume's disk. A failed read
    /// may have changed `out`.
    pub fn read(&mut self, volume: u32, at: u32, out: &mut [u8]) -> Result<(), Failed>
        requires { IsVolumeRange (seen self.old) volume at (length out.old) }
        ensures { ReadsImage (λ group. volume_image group volume) (seen self.old) at out.new result (seen self.new) }
    {
        let _blocks = self.blocks_of(volume);
        let count = (out.len() / BLOCK) as u32;
        let mut done = 0;
        while done < count {
            let from = at + done;
            let len = (count - done).min(SEGMENT - from % SEGMENT);
            let part = &mut out[BLOCK * done as usize..BLOCK * (done + len) as usize];
            self.read_chunk(volume, from, part)?;
            done += len;
        }
        Ok(())
    }
}

// Whether a chunk stands on the shadow alone.
fn is_back(state: ChunkState) -> bool
    ensures { result ≡ (code_of state == 3) }
{
    match state {
        ChunkState::OnShadow => true,
        ChunkState::OnMaster | ChunkState::OnBoth | ChunkState::Split => false,
    }
}
