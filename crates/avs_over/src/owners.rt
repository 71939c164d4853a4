// The owners of slots.
ghost use Rattle.std.specs.Prelude.{◌≡◌, ◌≢◌, ◌⊎◌, ℕ, ◌+◌, ◌<◌, ◌≤◌, IsTrue, not, IfOk, IfErr, None, length, map, replicate};
ghost use Rattle.avs_over.specs.Slots.{is_of, without, used_in, given_to, owner_at, FindsFree, AreApart, AreGiven, HasBadSlot};

use avs_code::BadRecord;
use avs_seg::NoMemory;
use std::alloc::Global;

// A rule between a volume and those that know of its slots is broken.
pub(crate) const BETWEEN: u32 = 64;

/// So many slots, all of them free.
pub(crate) fn all_free(alloc: Global, slots: usize) -> Result<Vec<Option<u32>>, NoMemory>
    ensures items { IfOk result (λ v. v.items ≡ replicate slots None) }
    ensures len { IfOk result (λ v. length v.items ≡ slots) }
{
    Ok(vec![in alloc; None; slots]?)
}

// Whether there is such a slot, and it is free.
fn is_free(owners: &[Option<u32>], slot: usize) -> bool
    ensures free { IsTrue result → (slot < length owners.now) × (owner_at owners.now slot ≡ None) }
    ensures other { IsTrue (not result) → (length owners.now ≤ slot) ⊎ (owner_at owners.now slot ≢ None) }
{
    slot < owners.len() && owners[slot].is_none()
}

/// The least free slot from one on.
pub(crate) fn first_free(owners: &[Option<u32>], from: usize) -> Option<usize>
    ensures { FindsFree owners.now from result }
{
    for slot in from..owners.len() {
        if is_free(owners, slot) {
            return Some(slot);
        }
    }
    None
}

// Whether an owner is this set.
fn is_of(owner: Option<u32>, set: u32) -> bool
    ensures { result ≡ is_of set owner }
{
    match owner {
        Some(by) => by == set,
        None => false,
    }
}

/// Frees the slots of a set, and tells how many it had.
pub(crate) fn free_of(owners: &mut [Option<u32>], set: u32) -> usize
    ensures owners { owners.new ≡ map (without set) owners.old }
    ensures count { result ≡ given_to set owners.old }
    ensures fewer { used_in owners.new + result ≡ used_in owners.old }
{
    let mut freed = 0;
    for slot in 0..owners.len() {
        if is_of(owners[slot], set) {
            owners[slot] = None;
            freed += 1;
        }
    }
    freed
}

/// Gives slots to sets by a list of pairs of these two.
pub(crate) fn give_all(owners: &mut [Option<u32>], taken: &[(u32, u32)]) -> Result<(), BadRecord>
    requires { owners.old ≡ replicate (length owners.old) None }
    ensures given { IfOk result (λ _. AreGiven taken.now (length taken.now) owners.new) }
    ensures apart { IfOk result (λ _. AreApart taken.now (length taken.now) (length owners.old)) }
    ensures bad { IfErr result (λ e. (e.0 ≡ 64) × HasBadSlot taken.now (length owners.old)) }
{
    for place in 0..taken.len() {
        let (set, slot) = taken[place];
        if !is_free(owners, slot as usize) {
            return Err(BadRecord(BETWEEN));
        }
        owners[slot as usize] = Some(set);
    }
    Ok(())
}
