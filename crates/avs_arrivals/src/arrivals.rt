// Entries that are held until the place before theirs is applied.
ghost use Rattle.std.specs.Prelude.{◌≡◌, ◌<◌, [], position, IfOk, IfErr, IfNone, IfSome, OnOk, OnErr, is_err, is_some, length};
ghost use Rattle.avs_arrivals.specs.Arrivals.{has_place, entry_at, Holds, Gives};

use avs_model::Entry;
use avs_seg::NoMemory;
use std::alloc::Global;
use std::marker::Model;

/// An entry and its place.
#[derive(Debug, Drop)]
pub(crate) struct Arrival {
    pub(crate) place: u64,
    pub(crate) entry: Entry,
}

/// Entries by place, each place at most once. Room for as many as the limit is reserved when it is made. A call looks at
/// each entry that is held.
#[derive(Debug, Drop)]
pub struct Arrivals {
    held: Vec<Arrival>,
    limit: u32,
}

impl Model for Arrivals {
    ghost use Rattle.std.specs.Prelude.{◌≡◌, ◌≤◌, true, vec_capacity};
    ghost use Rattle.avs_arrivals.specs.Arrivals.{Waiting, is_distinct};

    ghost Value = { Waiting };

    ghost view = { λ a. record { held = a.held.items; limit = a.limit } };

    ghost invariant = { λ a. (is_distinct a.held.items ≡ true) × (a.limit ≤ vec_capacity a.held) };
}

impl Arrivals {
    /// No entry, and room for `limit` of them.
    pub fn new(alloc: Global, limit: u32) -> Result<Arrivals, NoMemory>
        ensures empty { IfOk result (λ a. a.held ≡ []) }
        ensures limit { IfOk result (λ a. a.limit ≡ limit) }
    {
        Ok(Arrivals {
            held: Vec::with_capacity(alloc, limit as usize)?,
            limit,
        })
    }

    /// Holds an entry. One whose place is held already is handed back.
    pub fn hold(&mut self, place: u64, entry: Entry) -> Result<(), Entry>
        requires room { length self.old.held < self.old.limit }
        ensures ok { OnOk result (Holds self.old place entry self.new) }
        ensures held { is_err result ≡ is_some (entry_at self.old place) }
        ensures handed_back { IfErr result (λ e. e ≡ entry) }
        ensures unchanged { OnErr result (self.new ≡ self.old) }
    {
        if place_of(&self.held, place).is_some() {
            return Err(entry);
        }
        self.held.push_reserved(Arrival { place, entry });
        Ok(())
    }

    /// Takes the entry of a place out, if it is held.
    pub fn next(&mut self, place: u64) -> Option<Entry>
        ensures gives { Gives self.old place result self.new }
        ensures unchanged { IfNone result (self.new ≡ self.old) }
    {
        let index = place_of(&self.held, place)?;
        Some(self.held.remove(index).entry)
    }
}

// Where the entry of a place stands.
fn place_of(held: &[Arrival], place: u64) -> Option<usize>
    ensures first { result ≡ position (has_place place) held.now }
    ensures within { IfSome result (λ index. index < length held.now) }
{
    held.iter().position(|arrival| arrival.place == place)
}
