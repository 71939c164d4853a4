// The block of a state volume.
ghost use Rattle.std.specs.Prelude.{◌≡◌, ◌<◌, ◌++◌, ℕ, length, take, drop, slice_index};
ghost use Rattle.avs_code.specs.GroupBlock.{GroupBlockKeeps, IsGroupBlock, group_block_at, group_block_rules};
ghost use Rattle.avs_code.specs.Rules.{Reads};

use crate::bytes::{is_zero_from, put_part, put_u32, put_u64, start, u32_at, u64_at};
use crate::records::{BadRecord, check};
use crate::slot_table::{Slots, put_slots, slots_at, slots_hold};
use avs_seg::BLOCK;

const MAGIC: [u8; 4] = *b"AVSG";

// Where the note lies in a block.
const NOTE: usize = 400;

/// Block 1 of a state volume: what a group keeps of its shadow sets, and its note.
#[derive(Clone, Copy, Debug, PartialEq, Eq)]
pub struct GroupBlock {
    pub version: u32,
    /// One more with each commit, and 0 after the greatest number.
    pub sequence: u64,
    pub slots: Slots,
    /// What the half of a mirror keeps here. Its bytes are no concern of this record.
    pub note: [u8; 64],
}

/// Writes the block that stands for a group's state.
pub fn put_group_block(x: &GroupBlock, out: &mut [u8; BLOCK])
    requires { GroupBlockKeeps x.now }
    ensures { IsGroupBlock out.new x.now }
{
    start(out, &MAGIC);
    put_u32(out, 4, x.version);
    put_u64(out, 8, x.sequence);
    put_slots(out, x.slots.as_slice());
    put_note(out, &x.note);
}

// Writes the note.
fn put_note(out: &mut [u8; BLOCK], note: &[u8; 64])
    ensures after { out.new ≡ (take 400 out.old ++ note.now) ++ drop 464 out.old }
    ensures len { length note.now ≡ 64 }
    ensures fits { (i : ℕ) → slice_index note.now i < 256 }
{
    put_part(out, NOTE, note);
}

/// The state of a group that a block stands for. The fields are numbered magic 0, version 1,
/// sequence 2, all sixteen slots together 3, note 4, and 5 the rest of the block.
pub fn get_group_block(block: &[u8; BLOCK]) -> Result<GroupBlock, BadRecord>
    ensures { Reads IsGroupBlock group_block_rules block.now result }
{
    check(&group_block_rules(block))?;
    Ok(group_block_at(block))
}

// The fields as they lie in a block.
fn group_block_at(block: &[u8; BLOCK]) -> GroupBlock
    ensures { result ≡ group_block_at block.now }
{
    GroupBlock {
        version: u32_at(block, 4),
        sequence: u64_at(block, 8),
        slots: slots_at(block),
        note: note_at(block),
    }
}

fn note_at(block: &[u8; BLOCK]) -> [u8; 64]
    ensures { result ≡ take 64 (drop 400 block.now) }
{
    let mut note = [0; 64];
    note.copy_from_slice(&block[NOTE..NOTE + 64]);
    note
}

// Whether each field of a block keeps its rule; `true` stands for one without a rule.
fn group_block_rules(block: &[u8; BLOCK]) -> [bool; 6]
    ensures { result ≡ group_block_rules block.now }
{
    [
        block.starts_with(&MAGIC),
        u32_at(block, 4) == 1,
        true,
        slots_hold(block),
        true,
        is_zero_from(block, NOTE + 64),
    ]
}
