// The state disk of a group: its label, and the block that tells which sets are enabled and holds the note.
ghost use Rattle.std.specs.Prelude.{◌≡◌, ◌+◌, ◌*◌, ◌≤◌, ◌∷◌, [], IfOk, IfErr, length};
ghost use Rattle.avs_seg.specs.Image.{blocks_of, block_at, put};
ghost use Rattle.avs_dev.specs.Seen.{IsTold, Writes};
ghost use Rattle.avs_code.specs.Label.{LabelKeeps, IsLabel, label_block};
ghost use Rattle.avs_code.specs.GroupBlock.{GroupBlockKeeps, GroupBlockFits, IsGroupBlock, group_block};
ghost use Rattle.avs_ii.specs.Sound.{HoldsBlock, state_label, state_use};
ghost use Rattle.avs_ii.specs.Making.{empty_block, state_blocks, Formats, IsBadState, IsGoodState, StateRefused};

use avs_code::{
    BadRecord, GroupBlock, Label, LabelUse, Slots, get_group_block, get_label_of, put_group_block,
    put_label,
};
use avs_dev::{Disk, Why};
use avs_seg::{BLOCK, Failed};

// The block of the state disk that tells the slots and the note.
const SLOT_BLOCK: u32 = 1;

// How many blocks a state disk has at least.
const STATE_BLOCKS: u32 = 64;

// The number of a rule between records and disks.
pub(crate) const BETWEEN: u32 = 64;

// The block of a new group.
pub(crate) fn empty_block() -> GroupBlock
    ensures is { result ≡ empty_block }
    ensures keeps { GroupBlockKeeps result }
{
    GroupBlock {
        version: 1,
        sequence: 0,
        slots: Slots::empty(),
        note: [0; 64],
    }
}

// What a state disk serves as.
fn state_use() -> LabelUse
    ensures { result ≡ state_use }
{
    LabelUse {
        kind: Label::STATE,
        blocks: 0,
        segments: 0,
    }
}

// The label of a state disk.
fn state_label() -> Label
    ensures is { result ≡ state_label }
    ensures keeps { LabelKeeps result }
{
    Label {
        version: 1,
        kind: Label::STATE,
        blocks: 0,
        segments: 0,
        stamp: 0,
    }
}

// Copies a block over one of a slice of whole blocks.
fn store(bytes: &mut [u8], at: usize, block: &[u8; BLOCK])
    requires { 512 * at + 512 ≤ length bytes.old }
    ensures len { length bytes.new ≡ length bytes.old }
    ensures stored { blocks_of bytes.new ≡ put (blocks_of bytes.old) at (block.now ∷ []) }
{
    let start = BLOCK * at;
    bytes[start..start + BLOCK].copy_from_slice(block);
}

// A block of a slice.
fn block_in(bytes: &[u8], at: usize) -> [u8; BLOCK]
    requires { 512 * at + 512 ≤ length bytes.now }
    ensures { result ≡ block_at (blocks_of bytes.now) at }
{
    let start = BLOCK * at;
    let mut block = [0; BLOCK];
    block.copy_from_slice(&bytes[start..start + BLOCK]);
    block
}

// The label of a state disk, and a block behind it.
fn first_blocks(block: &GroupBlock) -> [u8; 2 * BLOCK]
    requires { GroupBlockKeeps block.now }
    ensures { blocks_of result ≡ label_block state_label ∷ group_block block.now ∷ [] }
{
    let mut label = [0; BLOCK];
    put_label(&state_label(), &mut label);
    let mut kept = [0; BLOCK];
    put_group_block(block, &mut kept);
    let mut bytes = [0; 2 * BLOCK];
    store(&mut bytes, 0, &label);
    store(&mut bytes, 1, &kept);
    bytes
}

// Writes the label and a block.
pub(crate) fn format<D: Disk>(state: &mut D, block: &GroupBlock) -> Result<(), Failed>
    requires keeps { GroupBlockKeeps block.now }
    requires room { state_blocks ≤ (D.seen state.old).size }
    ensures { Formats (D.seen state.old) block.now result (D.seen state.new) }
{
    state.write(0, &first_blocks(block))
}

// Writes a block.
pub(crate) fn put_block<D: Disk>(state: &mut D, block: &GroupBlock) -> Result<(), Failed>
    requires keeps { GroupBlockKeeps block.now }
    requires room { state_blocks ≤ (D.seen state.old).size }
    ensures writes { Writes (D.seen state.old) 1 (group_block block.now) result (D.seen state.new) }
    ensures len { length (group_block block.now) ≡ 512 }
{
    let mut bytes = [0; BLOCK];
    put_group_block(block, &mut bytes);
    state.write(SLOT_BLOCK, &bytes)
}

// The block behind the label of a state disk.
fn block_of(bytes: &[u8; 2 * BLOCK]) -> Result<GroupBlock, BadRecord>
    ensures label { IfOk result (λ _. IsLabel (block_at (blocks_of bytes.now) 0) state_label) }
    ensures block { IfOk result (λ block. IsGroupBlock (block_at (blocks_of bytes.now) 1) block) }
    ensures bad { IfErr result (λ e. IsBadState (blocks_of bytes.now) e.0 × (IsGoodState (blocks_of bytes.now) → ⊥)) }
{
    let first = block_in(bytes, 0);
    let second = block_in(bytes, 1);
    match get_label_of(&first, state_use()) {
        Ok(_) => get_group_block(&second),
        Err(bad) => Err(bad),
    }
}

// Reads the label and the block of a state disk.
pub(crate) fn read_state<D: Disk>(state: &mut D) -> Result<GroupBlock, Why>
    ensures rest { D.seen state.new ≡ record (D.seen state.old) { faults = (D.seen state.new).faults } }
    ensures later { (D.seen state.old).faults ≤ (D.seen state.new).faults }
    ensures room { IfOk result (λ _. state_blocks ≤ (D.seen state.old).size) }
    ensures holds { IfOk result (λ block. IsTold (D.seen state.old) → HoldsBlock (D.seen state.old) block) }
    ensures kept { IfOk result (λ block. GroupBlockKeeps block × GroupBlockFits block) }
    ensures refused { IfErr result (λ why. StateRefused (D.seen state.old) why (D.seen state.new)) }
{
    if state.blocks() < STATE_BLOCKS {
        return Err(Why::BadRecord(BETWEEN));
    }
    let mut bytes = [0; 2 * BLOCK];
    state.read(0, &mut bytes)?;
    match block_of(&bytes) {
        Ok(block) => Ok(block),
        Err(BadRecord(field)) => Err(Why::BadRecord(field)),
    }
}
