// The first two blocks of a state disk: its label, and the block of its group.
ghost use Rattle.std.specs.Prelude.{◌≡◌, ◌+◌, ◌*◌, ◌≤◌, ◌∷◌, [], IfOk, IfErr, Some, length};
ghost use Rattle.avs_seg.specs.Image.{blocks_of, block_at, put};
ghost use Rattle.avs_dev.specs.Seen.{IsTold, Writes};
ghost use Rattle.avs_code.specs.Label.{LabelKeeps, IsLabel, IsBadLabel, label_block};
ghost use Rattle.avs_code.specs.Rules.{first_broken};
ghost use Rattle.avs_code.specs.GroupBlock.{GroupBlockKeeps, GroupBlockFits, IsGroupBlock, group_block, group_block_rules};
ghost use Rattle.avs_state.specs.StateDisk.{Formats, LoadRefused, IsStateDisk, empty_block, state_blocks, state_label, state_use};
ghost use Rattle.avs_state.specs.Reading.{HoldsBlock, IsBadPair};

use avs_code::{
    BadRecord, GroupBlock, Label, LabelUse, Slots, get_group_block, get_label_of, put_group_block,
    put_label,
};
use avs_dev::{Disk, Why};
use avs_seg::{BLOCK, Failed};

// The block of the group.
const GROUP_BLOCK: u32 = 1;

// How many blocks a state disk has at least.
const STATE_BLOCKS: u32 = 64;

// The number of a rule that is no field's.
const BETWEEN: u32 = 64;

// The block of a new group.
pub(crate) fn empty_block() -> GroupBlock
    ensures is { result ≡ empty_block }
    ensures keeps { GroupBlockKeeps result }
{
    GroupBlock {
        version: 1,
        sequence: 0,
        slots: Slots::empty(),
        note: [0; 64],
    }
}

// What a state disk serves as.
fn state_use() -> LabelUse
    ensures { result ≡ state_use }
{
    LabelUse {
        kind: Label::STATE,
        blocks: 0,
        segments: 0,
    }
}

// The label of a state disk.
fn state_label() -> Label
    ensures is { result ≡ state_label }
    ensures keeps { LabelKeeps result }
{
    Label {
        version: 1,
        kind: Label::STATE,
        blocks: 0,
        segments: 0,
        stamp: 0,
    }
}

// Copies a block over one of a slice of whole blocks.
fn store(bytes: &mut [u8], at: usize, block: &[u8; BLOCK])
    requires { 512 * at + 512 ≤ length bytes.old }
    ensures len { length bytes.new ≡ length bytes.old }
    ensures stored { blocks_of bytes.new ≡ put (blocks_of bytes.old) at (block.now ∷ []) }
{
    let start = BLOCK * at;
    bytes[start..start + BLOCK].copy_from_slice(block);
}

// A block of a slice.
fn block_in(bytes: &[u8], at: usize) -> [u8; BLOCK]
    requires { 512 * at + 512 ≤ length bytes.now }
    ensures { result ≡ block_at (blocks_of bytes.now) at }
{
    let start = BLOCK * at;
    let mut block = [0; BLOCK];
    block.copy_from_slice(&bytes[start..start + BLOCK]);
    block
}

// The label, and the block of a new group.
fn first_blocks() -> [u8; 2 * BLOCK]
    ensures is { blocks_of result ≡ label_block state_label ∷ group_block empty_block ∷ [] }
    ensures label { IsLabel (label_block state_label) state_label }
    ensures block { IsGroupBlock (group_block empty_block) empty_block }
{
    let mut label = [0; BLOCK];
    put_label(&state_label(), &mut label);
    let mut block = [0; BLOCK];
    put_group_block(&empty_block(), &mut block);
    let mut bytes = [0; 2 * BLOCK];
    store(&mut bytes, 0, &label);
    store(&mut bytes, 1, &block);
    bytes
}

// Writes the label and the block of a new group.
pub(crate) fn format<D: Disk>(disk: &mut D) -> Result<(), Failed>
    requires { state_blocks ≤ (D.seen disk.old).size }
    ensures formats { Formats (D.seen disk.old) result (D.seen disk.new) }
    ensures label { IsLabel (label_block state_label) state_label }
    ensures block { IsGroupBlock (group_block empty_block) empty_block }
{
    disk.write(0, &first_blocks())
}

// Writes the block of a group.
pub(crate) fn put_block<D: Disk>(disk: &mut D, block: &GroupBlock) -> Result<(), Failed>
    requires keeps { GroupBlockKeeps block.now }
    requires room { state_blocks ≤ (D.seen disk.old).size }
    ensures writes { Writes (D.seen disk.old) 1 (group_block block.now) result (D.seen disk.new) }
    ensures len { length (group_block block.now) ≡ 512 }
    ensures is { IsGroupBlock (group_block block.now) block.now }
{
    let mut bytes = [0; BLOCK];
    put_group_block(block, &mut bytes);
    disk.write(GROUP_BLOCK, &bytes)
}

// The block of the group behind the label, of two blocks.
fn block_of(bytes: &[u8; 2 * BLOCK]) -> Result<GroupBlock, BadRecord>
    ensures label { IfOk result (λ _. IsLabel (block_at (blocks_of bytes.now) 0) state_label) }
    ensures block { IfOk result (λ block. IsGroupBlock (block_at (blocks_of bytes.now) 1) block) }
    ensures bad { IfErr result (λ e. IsBadPair (blocks_of bytes.now) e.0) }
{
    let first = block_in(bytes, 0);
    let second = block_in(bytes, 1);
    get_label_of(&first, state_use())?;
    get_group_block(&second)
}

// Reads the label and the block of a state disk.
pub(crate) fn read_block<D: Disk>(disk: &mut D) -> Result<GroupBlock, Why>
    ensures kept { IfOk result (λ _. D.seen disk.new ≡ D.seen disk.old) }
    ensures room { IfOk result (λ _. state_blocks ≤ (D.seen disk.old).size) }
    ensures holds { IfOk result (λ block. IsTold (D.seen disk.old) → HoldsBlock (D.seen disk.old).image block) }
    ensures keeps { IfOk result (λ block. GroupBlockKeeps block) }
    ensures refused { IfErr result (λ why. LoadRefused (D.seen disk.old) why (D.seen disk.new)) }
{
    if disk.blocks() < STATE_BLOCKS {
        return Err(Why::BadRecord(BETWEEN));
    }
    let mut bytes = [0; 2 * BLOCK];
    disk.read(0, &mut bytes)?;
    match block_of(&bytes) {
        Ok(block) => Ok(block),
        Err(BadRecord(field)) => Err(Why::BadRecord(field)),
    }
}
