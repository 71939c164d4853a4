// A place and the segments that it touches.
ghost use Rattle.std.specs.Prelude.{◌≡◌, ◌≤◌, ◌&&◌, ◌∷◌, true, nat_lt, IfSome, IfNone};
ghost use Rattle.std.specs.VecDeque.{deque_capacity};
ghost use Rattle.avs_seg.specs.Segment.{first_segment, touch_count};
ghost use Rattle.avs_refs.specs.Touches.{places_of, is_behind};

use avs_seg::{SEGMENT, Span};
use std::collections::VecDeque;

/// A place that touches `count` segments, from `first` on.
#[derive(Clone, Copy, Debug)]
pub(crate) struct Touch {
    pub(crate) place: u64,
    pub(crate) first: u32,
    pub(crate) count: u32,
}

impl Touch {
    // A place that touches the segments of these blocks. The block behind them may be past the end of u32.
    pub(crate) fn new(place: u64, span: Span) -> Touch
        ensures place { result.place ≡ place }
        ensures first { result.first ≡ first_segment span.at }
        ensures count { result.count ≡ touch_count span.at span.len }
    {
        let first = span.at / SEGMENT;
        let behind = u64::from(span.at) + u64::from(span.len);
        let count = behind.div_ceil(u64::from(SEGMENT)) as u32 - first;
        Touch {
            place,
            first,
            count,
        }
    }
}

// Whether a place is below the first of the outstanding ones.
pub(crate) fn is_behind(touches: &VecDeque<Touch>, place: u64) -> bool
    ensures { result ≡ is_behind (places_of touches.now.items) place }
{
    match touches.front() {
        Some(first) => place < first.place,
        None => true,
    }
}

// Whether a segment with this greatest place is left: it was touched, and no outstanding place touches it.
pub(crate) fn is_left(touches: &VecDeque<Touch>, place: u64) -> bool
    ensures { result ≡ (nat_lt 0 place && is_behind (places_of touches.now.items) place) }
{
    place != 0 && is_behind(touches, place)
}

// Takes out the first of the outstanding places, if it is at or below this one.
pub(crate) fn pop_retired(touches: &mut VecDeque<Touch>, upto: u64) -> Option<Touch>
    ensures some { IfSome result (λ touch. touches.old.items ≡ touch ∷ touches.new.items) }
    ensures low { IfSome result (λ touch. touch.place ≤ upto) }
    ensures none { IfNone result (is_behind (places_of touches.old.items) upto ≡ true) }
    ensures unchanged { IfNone result (touches.new ≡ touches.old) }
    ensures capacity { deque_capacity touches.new ≡ deque_capacity touches.old }
{
    if is_behind(touches, upto) {
        return None;
    }
    touches.pop_front()
}
