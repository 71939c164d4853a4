ghost use Rattle.std.specs.Prelude.{◌≡◌, ◌≤◌, [], All, length};
ghost use Rattle.avs_refs.specs.Places.{IsAbove, IsDrained};

use crate::Refs;
use avs_seg::Span;
use std::test::Fail;

#[test]
fn a_segment_is_given_by_its_greatest_place(rt: HostRuntime) -> Result<(), Fail> {
    let mut refs = Refs::new(rt.alloc(), 4, 8)?;
    refs.add(1, Span { at: 0, len: 1 });
    refs.add(2, Span { at: 64, len: 1 });
    refs.add(3, Span { at: 0, len: 1 });
    refs.retire(2);
    assert_eq!(rt; refs.next_idle(), Some(1));
    assert_eq!(rt; refs.next_idle(), None);
    assert!(rt; !refs.idle(0));
    refs.retire(3);
    assert_eq!(rt; refs.next_idle(), Some(0));
    assert_eq!(rt; refs.next_idle(), None);
    Ok(())
}

#[test]
fn a_segment_that_is_touched_again_waits(rt: HostRuntime) -> Result<(), Fail> {
    let mut refs = Refs::new(rt.alloc(), 3, 1)?;
    refs.add(4, Span { at: 60, len: 10 });
    assert!(rt; !refs.idle(0) && !refs.idle(1) && refs.idle(2));
    refs.retire(3);
    assert_eq!(rt; refs.next_idle(), None);
    refs.retire(4);
    assert!(rt; refs.idle(0) && refs.idle(1));
    refs.add(9, Span { at: 127, len: 65 });
    assert_eq!(rt; refs.next_idle(), Some(0));
    assert_eq!(rt; refs.next_idle(), None);
    assert!(rt; refs.idle(0) && !refs.idle(1) && !refs.idle(2));
    refs.retire(u64::MAX);
    let given = (refs.next_idle(), refs.next_idle());
    assert!(rt; given == (Some(1), Some(2)) || given == (Some(2), Some(1)));
    assert_eq!(rt; refs.next_idle(), None);
    Ok(())
}

// Retires each place, and takes each segment that is given then.
fn reset(refs: &mut Refs, last: u64)
    requires drained { IsDrained refs.old }
    requires last { All (λ p. p ≤ last) refs.old.outstanding }
    ensures above { IsAbove 1 refs.new }
    ensures none { refs.new.outstanding ≡ [] }
    ensures segs { length refs.new.greatest ≡ length refs.old.greatest }
    ensures room { refs.new.room ≡ refs.old.room }
{
    refs.retire(last);
    while let Some(_seg) = refs.next_idle() {}
}

#[test]
fn places_begin_again_once_all_are_retired(rt: HostRuntime) -> Result<(), Fail> {
    let mut refs = Refs::new(rt.alloc(), 3, 1)?;
    refs.add(7, Span { at: 60, len: 10 });
    reset(&mut refs, 7);
    refs.add(1, Span { at: 0, len: 1 });
    assert!(rt; !refs.idle(0) && refs.idle(1));
    refs.retire(1);
    assert_eq!(rt; refs.next_idle(), Some(0));
    assert_eq!(rt; refs.next_idle(), None);
    Ok(())
}
