// Entries that are held and taken out again.
ghost use Rattle.std.specs.Prelude.{◌≡◌, ◌+◌, ◌<◌, ◌≤◌, length};

use crate::Arrivals;
use avs_model::{Blocks, Entry, EntryKind};
use std::alloc::Global;
use std::fmt::Debug;
use std::process::Abort;

fn same<T: PartialEq + Debug + Drop>(rt: &impl Abort, found: T, want: T) {
    assert_eq!(rt; found, want);
}

// A mark of a set: an entry without blocks that is told by its number.
fn entry_of(alloc: Global, set: u32) -> Entry {
    Entry {
        kind: EntryKind::Mark,
        set,
        at: 0,
        bytes: Blocks::new(Vec::new(alloc)),
    }
}

// Holds an entry, and answers the set of one that is handed back.
fn hold(arrivals: &mut Arrivals, alloc: Global, place: u64, set: u32) -> Option<u32>
    requires { length arrivals.old.held < arrivals.old.limit }
    ensures count { length arrivals.new.held ≤ length arrivals.old.held + 1 }
    ensures limit { arrivals.new.limit ≡ arrivals.old.limit }
{
    match arrivals.hold(place, entry_of(alloc, set)) {
        Ok(()) => None,
        Err(entry) => Some(entry.set),
    }
}

fn next(arrivals: &mut Arrivals, place: u64) -> Option<u32> {
    Some(arrivals.next(place)?.set)
}

#[test]
fn entries_are_given_by_their_places(rt: HostRuntime) {
    let alloc = rt.alloc();
    let mut arrivals = Arrivals::new(alloc, 3).expect(&rt, "no memory");
    same(&rt, hold(&mut arrivals, alloc, 7, 1), None);
    same(&rt, hold(&mut arrivals, alloc, 5, 2), None);
    same(&rt, hold(&mut arrivals, alloc, 7, 3), Some(3));
    same(&rt, next(&mut arrivals, 4), None);
    same(&rt, next(&mut arrivals, 5), Some(2));
    same(&rt, next(&mut arrivals, 5), None);
    same(&rt, next(&mut arrivals, 7), Some(1));
    same(&rt, next(&mut arrivals, 7), None);
}
