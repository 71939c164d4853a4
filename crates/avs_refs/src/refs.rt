// The greatest place that touched each segment, and the places that are outstanding.
ghost use Rattle.std.specs.Prelude.{◌≡◌, ◌+◌, ◌*◌, ◌^◌, ◌<◌, ◌≤◌, ◌==◌, ◌&&◌, ◌||◌, ℕ, false, if◌then◌else◌, IfOk, IfSome, IfNone, length, slice_index};
ghost use Rattle.avs_refs.specs.Places.{Places, untouched, is_idle, is_left, is_touched, IsAbove, IsDrained, Adds, Retires, Gives, KeepsOutstanding, Drains, GoesOnDraining};
ghost use Rattle.avs_refs.specs.Listed.{has_at};
ghost use Rattle.avs_refs.specs.Touches.{is_touched_by};

use crate::candidates::Candidates;
use crate::touch::{Touch, is_behind, is_left, pop_retired};
use avs_seg::{NoMemory, Span};
use std::alloc::Global;
use std::collections::VecDeque;
use std::marker::Model;

/// Which segments of a volume outstanding places touch. A segment is idle once the greatest place that touched it is
/// retired, and is then given once. All room is reserved when it is made: no later call takes memory. The work of a
/// call grows with the segments of the places that come or go, and not with the volume.
#[derive(Debug, Drop)]
pub struct Refs {
    greatest: Vec<u64>,
    outstanding: VecDeque<Touch>,
    candidates: Candidates,
    room: u32,
}

impl Model for Refs {
    ghost use Rattle.std.specs.Prelude.{◌<◌, ◌≤◌, ◌^◌, length};
    ghost use Rattle.std.specs.VecDeque.{deque_capacity};
    ghost use Rattle.avs_refs.specs.Places.{Places};
    ghost use Rattle.avs_refs.specs.Touches.{places_of, IsConsistent};

    ghost Value = { Places };

    ghost view = { λ r. record { greatest = r.greatest.items; outstanding = places_of r.outstanding.items; room = r.room } };

    ghost invariant = { λ r. IsConsistent r.greatest.items r.outstanding.items r.candidates.has
        × (length r.greatest.items < 2 ^ 32)
        × (r.room ≤ deque_capacity r.outstanding) };
}

impl Refs {
    /// No segment of so many is touched, and there is room for so many outstanding places.
    pub fn new(alloc: Global, segs: u32, places: u32) -> Result<Refs, NoMemory>
        ensures untouched { IfOk result (λ r. r ≡ untouched segs places) }
        ensures above { IfOk result (λ r. (next : ℕ) → 0 < next → IsAbove next r) }
        ensures drained { IfOk result IsDrained }
    {
        Ok(Refs {
            greatest: vec![in alloc; 0; segs as usize]?,
            outstanding: VecDeque::with_capacity(alloc, places as usize)?,
            candidates: Candidates::new(alloc, segs)?,
            room: places,
        })
    }

    /// A place is outstanding from now on, which touches these blocks. Places rise from 1: it is above each that is
    /// outstanding, and above the greatest place of each segment that is still to be given.
    pub fn add(&mut self, place: u64, span: Span)
        requires rises { IsAbove place self.old }
        requires room { length self.old.outstanding < self.old.room }
        requires some { 0 < span.len }
        requires inside { span.at + span.len ≤ 64 * length self.old.greatest }
        ensures { Adds self.old place span.at span.len self.new }
    {
        let touch = Touch::new(place, span);
        let greatest = self.greatest.as_mut_slice();
        set_places(greatest, touch);
        self.outstanding.push_back_reserved(touch);
    }

    /// Each place at or below this one is outstanding no more.
    pub fn retire(&mut self, upto: u64)
        ensures retires { Retires self.old upto self.new }
        ensures drains { Drains self.old upto self.new }
    {
        while let Some(touch) = pop_retired(&mut self.outstanding, upto) {
            list_freed(&self.greatest, touch, &mut self.candidates);
        }
    }

    /// A segment that has become idle and was not given since it was touched, if there is one. The order is any.
    /// Asked again until there is none, it gives exactly the segments that the last retired place frees; where no place
    /// is outstanding then, places may begin again at 1.
    pub fn next_idle(&mut self) -> Option<u32>
        ensures kept { KeepsOutstanding self.old self.new }
        ensures some { IfSome result (λ seg. Gives self.old seg self.new) }
        ensures none { IfNone result ((seg : ℕ) → is_left self.old seg ≡ false) }
        ensures unchanged { IfNone result (self.new ≡ self.old) }
        ensures draining { (start : Places) (upto : ℕ) → IsDrained start → Drains start upto self.old
            → GoesOnDraining start upto self.old result self.new }
    {
        while let Some(seg) = self.candidates.take() {
            if is_left(&self.outstanding, self.greatest[seg as usize]) {
                self.greatest[seg as usize] = 0;
                return Some(seg);
            }
        }
        None
    }

    /// Whether no outstanding place touches a segment.
    pub fn idle(&self, seg: u32) -> bool
        requires { seg < length self.now.greatest }
        ensures { result ≡ is_idle self.now seg }
    {
        is_behind(&self.outstanding, self.greatest[seg as usize])
    }
}

// Makes a place the greatest of the segments that it touches.
fn set_places(greatest: &mut [u64], touch: Touch)
    requires { touch.first + touch.count ≤ length greatest.old }
    ensures { (seg : ℕ) → seg < length greatest.old
        → slice_index greatest.new seg ≡ (if is_touched_by touch seg then touch.place else slice_index greatest.old seg) }
{
    let from = touch.first as usize;
    greatest[from..from + touch.count as usize].fill(touch.place);
}

// Lists the segments of a place that no later place touched.
fn list_freed(greatest: &[u64], touch: Touch, candidates: &mut Candidates)
    requires inside { touch.first + touch.count ≤ length greatest.now }
    requires fits { touch.first + touch.count < 2 ^ 32 }
    requires segs { length candidates.old.has ≡ length greatest.now }
    ensures segs { length candidates.new.has ≡ length greatest.now }
    ensures listed { (seg : ℕ) → has_at candidates.new.has seg
        ≡ (has_at candidates.old.has seg || (is_touched_by touch seg && slice_index greatest.now seg == touch.place)) }
{
    for seg in touch.first..touch.first + touch.count {
        if greatest[seg as usize] == touch.place {
            candidates.insert(seg);
        }
    }
}
