// What a block says of a slot.
ghost use Rattle.std.specs.Prelude.{◌≡◌, ◌<◌, ◌≤◌, ◌^◌, true, false, if◌then◌else◌, IfSome, IfNone, Some};
ghost use Rattle.avs_code.specs.Slot.{SlotKeeps};
ghost use Rattle.avs_code.specs.GroupBlock.{GroupBlockKeeps};
ghost use Rattle.avs_sets.specs.Says.{SlotSays};
ghost use Rattle.avs_state.specs.Saying.{SaysOne, has_flag, kind_by, said_of, said_in, says_of, slot_says, stamp_in, stamp_of, standing_by, standing_flag, standing_of};

use avs_code::{GroupBlock, Slot};
use avs_model::Kind;

/// Whether the shadow of a set can be read.
#[derive(Clone, Copy, Debug, PartialEq, Eq)]
pub enum Standing {
    Online,
    /// It was dropped: it would have needed so many slots, and had so many.
    Offline { need: u32, slots: u32 },
    /// Its volume was given away with this stamp.
    Exported { stamp: u64 },
}

/// What is said of the set of a slot.
#[derive(Clone, Copy, Debug, PartialEq, Eq)]
pub struct SlotState {
    pub kind: Kind,
    /// The second of its areas is live.
    pub area_b: bool,
    /// Its copying was stopped.
    pub stopped: bool,
    pub standing: Standing,
}

// The number of a kind in a slot.
fn kind_number(kind: Kind) -> u8
    ensures by { kind_by result ≡ kind }
    ensures few { result ≤ 3 }
{
    match kind {
        Kind::Ind => Slot::INDEPENDENT,
        Kind::Dep => Slot::DEPENDENT,
        Kind::Compact => Slot::COMPACT,
    }
}

// The kind of a number.
fn kind_by(number: u8) -> Kind
    ensures { result ≡ kind_by number }
{
    match number {
        Slot::DEPENDENT => Kind::Dep,
        Slot::COMPACT => Kind::Compact,
        _ => Kind::Ind,
    }
}

// The flag, where it is set.
fn flag(is: bool, flag: u8) -> u8
    ensures is { result ≡ (if is then flag else 0) }
    ensures most { result ≤ flag }
{
    if is { flag } else { 0 }
}

// The flag of a standing.
fn standing_flag(standing: Standing) -> u8
    ensures is { result ≡ standing_flag standing }
    ensures most { result ≤ 16 }
{
    match standing {
        Standing::Online => 0,
        Standing::Offline { .. } => Slot::OFFLINE,
        Standing::Exported { .. } => Slot::EXPORTED,
    }
}

// A slot that says this of its set.
fn slot_for(state: SlotState) -> Slot
    requires stamp { stamp_of state.standing ≤ 2 ^ 62 }
    ensures says { slot_says result ≡ said_of state }
    ensures keeps { SlotKeeps result }
{
    let live = Slot {
        flags: Slot::LIVE
            + flag(state.area_b, Slot::AREA_B)
            + flag(state.stopped, Slot::STOPPED)
            + standing_flag(state.standing),
        kind: kind_number(state.kind),
        ..Slot::EMPTY
    };
    match state.standing {
        Standing::Online => live,
        Standing::Offline { need, slots } => Slot {
            need,
            slots,
            ..live
        },
        Standing::Exported { stamp } => Slot { stamp, ..live },
    }
}

// Whether a slot has a flag.
fn has_flag(slot: &Slot, flag: u8) -> bool
    requires { 0 < flag }
    ensures { result ≡ has_flag flag slot.now }
{
    slot.flags / flag % 2 == 1
}

// The standing that a slot tells.
fn standing_by(slot: &Slot) -> Standing
    ensures { standing_of result ≡ standing_by slot.now }
{
    if has_flag(slot, Slot::EXPORTED) {
        return Standing::Exported { stamp: slot.stamp };
    }
    if has_flag(slot, Slot::OFFLINE) {
        return Standing::Offline {
            need: slot.need,
            slots: slot.slots,
        };
    }
    Standing::Online
}

// What a slot says of its set.
fn said_by(slot: &Slot) -> SlotState
    requires { has_flag 1 slot.now ≡ true }
    ensures { said_of result ≡ slot_says slot.now }
{
    SlotState {
        kind: kind_by(slot.kind),
        area_b: has_flag(slot, Slot::AREA_B),
        stopped: has_flag(slot, Slot::STOPPED),
        standing: standing_by(slot),
    }
}

/// What a block says of the set of a slot, `None` exactly where no set is enabled there.
pub fn said(block: &GroupBlock, number: u32) -> Option<SlotState>
    requires { number < 16 }
    ensures some { IfSome result (λ s. (says_of block.now).slots number ≡ said_of s) }
    ensures none { IfNone result (((says_of block.now).slots number).enabled ≡ false) }
{
    let slot = block.slots.get(number as usize);
    if has_flag(&slot, Slot::LIVE) {
        Some(said_by(&slot))
    } else {
        None
    }
}

/// Has a block say this of the set of a slot, or that no set is enabled there.
pub fn put_said(block: &mut GroupBlock, number: u32, state: Option<SlotState>)
    requires number { number < 16 }
    requires stamp { stamp_in state ≤ 2 ^ 62 }
    requires kept { GroupBlockKeeps block.old }
    ensures says { SaysOne (says_of block.old) number (said_in state) (says_of block.new) }
    ensures keeps { GroupBlockKeeps block.new }
{
    let slot = match state {
        Some(state) => slot_for(state),
        None => Slot::EMPTY,
    };
    block.slots.set(number as usize, slot);
}
