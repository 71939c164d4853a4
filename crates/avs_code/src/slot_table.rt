// The sixteen slots of a group's shadow sets.
ghost use Rattle.std.specs.Prelude.{◌≡◌, ◌+◌, ◌≤◌, ◌<◌, ◌++◌, All, List, length, take, drop, slice_get, slice_set, replicate};
ghost use Rattle.std.specs.List.{flat_map};
ghost use Rattle.avs_code.specs.Slot.{SlotFits, slot_at, slot_bytes, slot_holds, slots_at, slots_hold, slot_keeps_rules, no_slot};

use crate::bytes::{is_zero, put_part, put_u32, put_u64, u32_at, u64_at};
use crate::records::MAX_NUMBER;
use avs_seg::BLOCK;
use std::marker::Model;

/// How many slots a group has.
pub const SLOTS: usize = 16;

// Where the first slot lies in a block, and how many bytes each has.
const FIRST: usize = 16;

const BYTES: usize = 24;

/// What a state volume keeps of one shadow set.
#[derive(Clone, Copy, Debug, PartialEq, Eq)]
pub struct Slot {
    /// Any of `LIVE`, `AREA_B`, `STOPPED`, `OFFLINE` and `EXPORTED`.
    pub flags: u8,
    /// `NONE`, `INDEPENDENT`, `DEPENDENT` or `COMPACT`.
    pub kind: u8,
    /// How many slots an offline set needed when it went offline.
    pub need: u32,
    /// How many slots it had then.
    pub slots: u32,
    /// The stamp of the set's last export.
    pub stamp: u64,
}

impl Slot {
    pub const LIVE: u8 = 1;

    pub const AREA_B: u8 = 2;

    pub const STOPPED: u8 = 4;

    pub const OFFLINE: u8 = 8;

    pub const EXPORTED: u8 = 16;

    pub const NONE: u8 = 0;

    pub const INDEPENDENT: u8 = 1;

    pub const DEPENDENT: u8 = 2;

    pub const COMPACT: u8 = 3;

    /// A slot that no set has.
    pub const EMPTY: Slot = Slot {
        flags: 0,
        kind: 0,
        need: 0,
        slots: 0,
        stamp: 0,
    };
}

/// The slots of a group, by their numbers from 0 to 15.
#[derive(Clone, Copy, Debug, PartialEq, Eq)]
pub struct Slots {
    items: [Slot; SLOTS],
}

impl Model for Slots {
    ghost use Rattle.std.specs.Prelude.{All, List};
    ghost use Rattle.avs_code.specs.declared.slot_table.Slot.{Slot};
    ghost use Rattle.avs_code.specs.Slot.{SlotFits};

    ghost Value = { List Slot };

    ghost view = { λ s. s.items };

    ghost invariant = { λ s. All SlotFits s.items };

    ghost inverse = { λ items. record { items = items } };
}

impl Slots {
    /// Slots that no set has.
    pub fn empty() -> Slots
        ensures { result ≡ replicate 16 no_slot }
    {
        Slots {
            items: [Slot::EMPTY; SLOTS],
        }
    }

    /// The slots in order.
    pub fn as_slice(&self) -> &[Slot]
        ensures value { result.now ≡ self.now }
        ensures count { length self.now ≡ 16 }
        ensures fits { All SlotFits self.now }
    {
        &self.items
    }

    /// The slot with that number.
    pub fn get(&self, number: usize) -> Slot
        requires { number < 16 }
        ensures { slice_get self.now number ≡ Some result }
    {
        self.items[number]
    }

    /// Gives the slot with that number these contents.
    pub fn set(&mut self, number: usize, slot: Slot)
        requires { number < 16 }
        ensures after { self.new ≡ slice_set self.old number slot }
        ensures count { length self.new ≡ 16 }
    {
        self.items[number] = slot;
    }
}

// The bytes of a slot.
fn slot_bytes(slot: &Slot) -> [u8; BYTES]
    ensures { result ≡ slot_bytes slot.now }
{
    let mut bytes = [0; BYTES];
    bytes[0] = slot.flags;
    bytes[1] = slot.kind;
    put_u32(&mut bytes, 4, slot.need);
    put_u32(&mut bytes, 8, slot.slots);
    put_u64(&mut bytes, 12, slot.stamp);
    bytes
}

// The slot that lies at a place.
fn slot_at(block: &[u8], at: usize) -> Slot
    requires { at + 24 ≤ length block.now }
    ensures { result ≡ slot_at at block.now }
{
    Slot {
        flags: block[at],
        kind: block[at + 1],
        need: u32_at(block, at + 4),
        slots: u32_at(block, at + 8),
        stamp: u64_at(block, at + 12),
    }
}

// Whether each field of a slot at a place keeps its rule, with zeros between them.
fn slot_holds(block: &[u8], at: usize) -> bool
    requires { at + 24 ≤ length block.now }
    ensures { result ≡ slot_holds at block.now }
{
    is_zero(&block[at + 2..at + 4])
        && is_zero(&block[at + 20..at + 24])
        && keeps_rules(&slot_at(block, at))
}

fn keeps_rules(slot: &Slot) -> bool
    ensures { result ≡ slot_keeps_rules slot.now }
{
    slot.flags < 32 && slot.kind <= Slot::COMPACT && slot.stamp <= MAX_NUMBER
}

// Writes the slots.
pub(crate) fn put_slots(out: &mut [u8; BLOCK], slots: &[Slot])
    requires { length slots.now ≡ 16 }
    ensures { out.new ≡ (take 16 out.old ++ flat_map slot_bytes slots.now) ++ drop 400 out.old }
{
    for i in 0..SLOTS {
        put_part(out, FIRST + BYTES * i, &slot_bytes(&slots[i]));
    }
}

// The slots that lie in a block.
pub(crate) fn slots_at(block: &[u8; BLOCK]) -> Slots
    ensures { result ≡ slots_at block.now }
{
    let mut items = [Slot::EMPTY; SLOTS];
    for i in 0..SLOTS {
        items[i] = slot_at(block, FIRST + BYTES * i);
    }
    Slots { items }
}

// Whether each slot of a block keeps its rules.
#[tactic(auto, unfolding(crate::specs::Slot::slots_hold))]
pub(crate) fn slots_hold(block: &[u8; BLOCK]) -> bool
    ensures { result ≡ slots_hold block.now }
{
    (0..SLOTS).all(|i| slot_holds(block, FIRST + BYTES * i))
}
