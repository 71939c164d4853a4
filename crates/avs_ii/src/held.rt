// A set of a group, enabled or pending.
ghost use Rattle.std.specs.Prelude.{◌≡◌, ◌<◌, ◌≤◌, ◌&&◌, ◌||◌, nat_eq, IfOk, IfErr, IfSome, IfNone, not, map, Some};
ghost use Rattle.avs_dev.specs.declared.back.Why.TheVariants.{BadRecord};
ghost use Rattle.avs_ii.specs.Saved.{IsSettledInMemory};
ghost use Rattle.std.specs.Option.{option_map};
ghost use Rattle.avs_code.specs.declared.slot_table.Slot.{Slot};
ghost use Rattle.avs_model.specs.Shadows.{slot_count};
ghost use Rattle.avs_ii.specs.Held.{has_flag, is_live, slot_in};
ghost use Rattle.avs_ii.specs.Opened.{held_of};
ghost use Rattle.avs_ii.specs.SetDisks.{set_disks};
ghost use Rattle.avs_ii.specs.Parts.{set_parts};
ghost use Rattle.avs_ii.specs.Opening.{is_whole, is_placed, IsPlacedOn, between_parts, OpensChunks, ChunksRefused, OpensSet, SetRefused};
ghost use Rattle.avs_ii.specs.Making.{between, fits_slot, kind_number, IsPlaced};

use crate::lists::SetParts;
use crate::state_disk::BETWEEN;
use avs_chunk::Chunks;
use avs_code::{GroupBlock, SLOTS, Slot};
use avs_dev::{Back, Disk, Why};
use avs_model::Kind;
use std::alloc::Global;

// A set: its slot, the place of its master, and its disks.
#[derive(Drop)]
pub(crate) struct Held<D: Disk> {
    pub(crate) slot: u32,
    pub(crate) master: u32,
    pub(crate) chunks: Chunks<D>,
}

// Whether a slot has one of the flags, each of which is a bit.
pub(crate) fn has_flag(slot: Slot, flag: u8) -> bool
    requires { 0 < flag }
    ensures { result ≡ has_flag flag slot }
{
    slot.flags / flag % 2 == 1
}

// A slot of a block.
fn slot_in(block: &GroupBlock, slot: u32) -> Slot
    requires { slot < slot_count }
    ensures { result ≡ slot_in block.now.slots slot }
{
    block.slots.get(slot as usize)
}

// Whether the slot says that its set is enabled.
pub(crate) fn is_live(block: &GroupBlock, slot: u32) -> bool
    requires { slot < slot_count }
    ensures { result ≡ is_live block.now.slots slot }
{
    has_flag(slot_in(block, slot), Slot::LIVE)
}

// Whether the set with that slot is enabled, and has that volume as its master.
pub(crate) fn is_set_of(block: &GroupBlock, slot: u32, master: u32, volume: u32) -> bool
    requires { slot < slot_count }
    ensures { result ≡ (nat_eq master volume && is_live block.now.slots slot) }
{
    master == volume && is_live(block, slot)
}

// Whether the set with that slot is enabled, and is the one that is asked for.
pub(crate) fn is_named(block: &GroupBlock, slot: u32, set: u32) -> bool
    requires { slot < slot_count }
    ensures { result ≡ (nat_eq slot set && is_live block.now.slots slot) }
{
    slot == set && is_live(block, slot)
}

// The number of a kind in a slot.
pub(crate) fn kind_number(kind: Kind) -> u8
    ensures { result ≡ kind_number kind }
{
    match kind {
        Kind::Ind => Slot::INDEPENDENT,
        Kind::Dep => Slot::DEPENDENT,
        Kind::Compact => Slot::COMPACT,
    }
}

// Whether the slot of a set is one that an enabled set of its kind may have.
fn fits_slot(slot: Slot, kind: Kind) -> bool
    ensures { result ≡ fits_slot slot kind }
{
    slot.kind == kind_number(kind)
        && !has_flag(slot, Slot::OFFLINE)
        && !has_flag(slot, Slot::EXPORTED)
}

// Whether a set of the kind has no slots of its own.
fn is_whole(kind: Kind) -> bool
    ensures { result ≡ is_whole kind }
{
    match kind {
        Kind::Ind | Kind::Dep => true,
        Kind::Compact => false,
    }
}

// Whether a slot is free for a set of that kind, or fits it.
fn fits_block(block: &GroupBlock, slot: u32, kind: Kind) -> bool
    requires { slot < slot_count }
    ensures { result ≡ (not (is_live block.now.slots slot) || fits_slot (slot_in block.now.slots slot) kind) }
{
    !is_live(block, slot) || fits_slot(slot_in(block, slot), kind)
}

// Whether the set may stand in a group with that block and so many volumes.
fn is_placed<D: Disk>(block: &GroupBlock, volumes: usize, part: &SetParts<D>) -> bool
    ensures { result ≡ is_placed block.now.slots volumes (set_disks D.seen part.now) }
{
    (part.slot as usize) < SLOTS
        && (part.master as usize) < volumes
        && is_whole(part.kind)
        && part.over.is_none()
        && fits_block(block, part.slot, part.kind)
}

// How many blocks the master of a set has, where the set may stand in a group with that block and these volumes.
fn placed_blocks<D: Disk>(block: &GroupBlock, volumes: &[D], part: &SetParts<D>) -> Option<u32>
    ensures placed { IfSome result (IsPlacedOn block.now.slots (map D.seen volumes.now) (set_disks D.seen part.now)) }
    ensures odd { IfNone result (IsPlaced block.now.slots (map D.seen volumes.now) (set_disks D.seen part.now) → ⊥) }
{
    if !is_placed(block, volumes.len(), part) {
        return None;
    }
    let blocks = volumes[part.master as usize].blocks();
    if blocks == 0 {
        return None;
    }
    Some(blocks)
}

// The set on these disks, as large as its master. A pending one is not read.
pub(crate) fn open<D: Disk>(
    alloc: Global,
    block: &GroupBlock,
    volumes: &[D],
    part: SetParts<D>,
) -> Result<Held<D>, Back<SetParts<D>, Why>>
    ensures opens { IfOk result (λ h. OpensSet block.now.slots (map D.seen volumes.now) (set_disks D.seen part) (held_of h)) }
    ensures refused { IfErr result (λ e. SetRefused block.now.slots (map D.seen volumes.now) (set_disks D.seen part) e.why (set_disks D.seen e.parts)) }
{
    let Some(blocks) = placed_blocks(block, volumes, &part) else {
        return Err(Back {
            parts: part,
            why: Why::BadRecord(BETWEEN),
        });
    };
    let SetParts {
        slot,
        kind,
        master,
        shadow,
        bitmap,
        over,
    } = part;
    match open_chunks(alloc, block, slot, kind, shadow, bitmap, blocks) {
        Ok(chunks) => Ok(Held {
            slot,
            master,
            chunks,
        }),
        Err(refused) => {
            let (shadow, bitmap) = refused.parts;
            let parts = SetParts {
                slot,
                kind,
                master,
                shadow,
                bitmap,
                over,
            };
            Err(Back {
                parts,
                why: between(refused.why),
            })
        }
    }
}

// A disk that is too small breaks a rule between the parts.
fn between(why: Why) -> Why
    ensures { result ≡ between_parts why }
{
    match why {
        Why::Size { .. } => Why::BadRecord(BETWEEN),
        other => other,
    }
}

// Refuses a set of which a chunk stands on the shadow alone.
fn settled<D: Disk>(chunks: Chunks<D>) -> Result<Chunks<D>, Back<(Option<D>, D), Why>>
    ensures settled { IfOk result (λ s. (s ≡ chunks) × IsSettledInMemory s) }
    ensures refused { IfErr result (λ e. (e.why ≡ BadRecord between) × (IsSettledInMemory chunks → ⊥)) }
    ensures shadow_back { IfErr result (λ e. option_map D.seen e.parts.0 ≡ chunks.shadow) }
    ensures bitmap_back { IfErr result (λ e. D.seen e.parts.1 ≡ chunks.areas.disk) }
{
    if chunks.back() == 0 {
        return Ok(chunks);
    }
    Err(Back {
        parts: chunks.into_disks(),
        why: Why::BadRecord(BETWEEN),
    })
}

// The chunks of a set, which are read where it is enabled.
fn open_chunks<D: Disk>(
    alloc: Global,
    block: &GroupBlock,
    slot: u32,
    kind: Kind,
    shadow: Option<D>,
    bitmap: D,
    blocks: u32,
) -> Result<Chunks<D>, Back<(Option<D>, D), Why>>
    requires slot { slot < slot_count }
    requires some { 0 < blocks }
    ensures opens { IfOk result (λ s. OpensChunks block.now.slots slot kind (option_map D.seen shadow) (D.seen bitmap) blocks s) }
    ensures refused { IfErr result (λ e. ChunksRefused block.now.slots slot (option_map D.seen shadow) (D.seen bitmap) blocks e.why (D.seen e.parts.1)) }
    ensures shadow_back { IfErr result (λ e. option_map D.seen e.parts.0 ≡ option_map D.seen shadow) }
    ensures bitmap_back { IfErr result (λ e. D.seen e.parts.1 ≡ record (D.seen bitmap) { faults = (D.seen e.parts.1).faults }) }
    ensures later { IfErr result (λ e. (D.seen bitmap).faults ≤ (D.seen e.parts.1).faults) }
{
    let Some(shadow) = shadow else {
        return Err(Back {
            parts: (None, bitmap),
            why: Why::BadRecord(BETWEEN),
        });
    };
    if is_live(block, slot) {
        let live_b = has_flag(slot_in(block, slot), Slot::AREA_B);
        return match Chunks::load(alloc, kind, Some(shadow), bitmap, blocks, live_b) {
            Ok(chunks) => settled(chunks),
            Err(refused) => Err(refused),
        };
    }
    match Chunks::found(alloc, kind, shadow, bitmap, blocks) {
        Ok(chunks) => Ok(chunks),
        Err(refused) => {
            let (shadow, bitmap) = refused.parts;
            Err(Back {
                parts: (Some(shadow), bitmap),
                why: refused.why,
            })
        }
    }
}

// The disks of a set.
pub(crate) fn close<D: Disk>(held: Held<D>) -> SetParts<D>
    ensures { set_disks D.seen result ≡ set_parts (held_of held) }
{
    let Held {
        slot,
        master,
        chunks,
    } = held;
    let kind = chunks.kind();
    let (shadow, bitmap) = chunks.into_disks();
    SetParts {
        slot,
        kind,
        master,
        shadow,
        bitmap,
        over: None,
    }
}
