// Rows of calls drawn from a number, and after each of them all that can be asked.
ghost use Rattle.std.specs.Prelude.{◌≡◌, length};
ghost use Rattle.avs_refs_tests.specs.Ready.{IsReady};

use avs_refs::Refs;
use avs_seg::Span;
use std::alloc::Global;
use std::fmt::Debug;
use std::process::Abort;

// The segments of a volume, its blocks, and how many places are added at most.
const SEGS: u32 = 6;

const BLOCKS: u32 = 384;

const PLACES: u32 = 40;

// The plain reading: of each segment the greatest place that touched it since it was given, else 0; and the place up to which all are
// retired.
#[derive(Debug, Drop)]
struct Plain {
    greatest: [u64; 6],
    retired: u64,
}

// The places beside it, the next one, and how many were added.
#[derive(Drop)]
struct Held {
    refs: Refs,
    next: u64,
    added: u32,
    plain: Plain,
}

fn same<T: PartialEq + Debug + Drop>(rt: &impl Abort, found: T, want: T) {
    assert_eq!(rt; found, want);
}

// The number behind another, and one below a limit that is made of it.
fn drawn(number: u64) -> u64 {
    number.wrapping_mul(1_103_515_245).wrapping_add(12_345) & 0x7fff_ffff
}

fn below(number: u64, limit: u32) -> u32 {
    match u64::from(limit) {
        0 => 0,
        some => (number / 65_536 % some) as u32,
    }
}

fn new(rt: &impl Abort, alloc: Global) -> Held
    ensures { IsReady result.refs result.next result.added }
{
    let refs = Refs::new(alloc, SEGS, PLACES).expect(rt, "memory");
    Held {
        refs,
        next: 1,
        added: 0,
        plain: Plain {
            greatest: [0; 6],
            retired: 0,
        },
    }
}

// A place touches these blocks, by the plain reading.
fn touch(plain: &mut Plain, place: u64, at: u32, len: u32) {
    let end = at.saturating_add(len);
    for seg in 0..6 {
        let first = 64 * seg as u32;
        if first < end && at < first + 64 {
            plain.greatest[seg] = place;
        }
    }
}

// A place that touches these blocks, where there is room for one.
fn add(rt: &impl Abort, held: &mut Held, at: u32, len: u32)
    requires { IsReady held.old.refs held.old.next held.old.added }
    ensures { IsReady held.new.refs held.new.next held.new.added }
{
    assert!(rt; 0 < len && len <= BLOCKS && at <= BLOCKS - len);
    if held.added < PLACES && held.next < 1_000_000 {
        let place = held.next;
        held.refs.add(place, Span { at, len });
        held.next = place + 1;
        held.added += 1;
        touch(&mut held.plain, place, at, len);
    }
}

// Each place up to one is retired, which is given already.
fn retire(held: &mut Held, upto: u64)
    requires { IsReady held.old.refs held.old.next held.old.added }
    ensures { IsReady held.new.refs held.new.next held.new.added }
{
    let upto = upto.min(held.next.saturating_sub(1));
    held.refs.retire(upto);
    held.plain.retired = held.plain.retired.max(upto);
}

// Whether no outstanding place touches a segment, by the plain reading.
fn is_idle(plain: &Plain, seg: u32) -> bool {
    match plain.greatest.get(seg as usize) {
        Some(greatest) => *greatest <= plain.retired,
        None => true,
    }
}

fn check_idle(rt: &impl Abort, held: &Held)
    requires { length held.now.refs.greatest ≡ 6 }
{
    for seg in 0..SEGS {
        same(rt, held.refs.idle(seg), is_idle(&held.plain, seg));
    }
}

// One segment that is given is one that is left, which it is no more.
fn give(rt: &impl Abort, plain: &mut Plain, seg: u32) {
    assert!(rt; is_idle(plain, seg));
    match plain.greatest.get_mut(seg as usize) {
        Some(greatest) => {
            assert!(rt; *greatest != 0);
            *greatest = 0;
        }
        None => panic!(rt; "no such segment"),
    }
}

// Segments are given, at most so many. Whether none is left then.
fn drain(rt: &impl Abort, held: &mut Held, most: u32) -> bool
    requires { IsReady held.old.refs held.old.next held.old.added }
    ensures { IsReady held.new.refs held.new.next held.new.added }
{
    for _ in 0..most {
        match held.refs.next_idle() {
            Some(seg) => give(rt, &mut held.plain, seg),
            None => return true,
        }
    }
    false
}

// No segment is left to be given, by the plain reading.
fn check_drained(rt: &impl Abort, plain: &Plain) {
    for greatest in plain.greatest {
        assert!(rt; greatest == 0 || greatest > plain.retired);
    }
}

// A call that a number names: a place comes, places go, or some segments are given.
fn act(rt: &impl Abort, held: &mut Held, number: u64)
    requires { IsReady held.old.refs held.old.next held.old.added }
    ensures { IsReady held.new.refs held.new.next held.new.added }
{
    let kind = below(number, 8);
    let len = below(drawn(drawn(number)), 130);
    if kind < 4 {
        add(rt, held, below(drawn(number), 255), 1 + len.min(128));
    } else if kind < 6 {
        let upto = held.plain.retired.saturating_add(u64::from(len % 5));
        retire(held, upto);
    } else if drain(rt, held, len % 7) {
        check_drained(rt, &held.plain);
    }
    check_idle(rt, held);
}

// All places are retired, and all segments are given.
fn end(rt: &impl Abort, held: &mut Held)
    requires { IsReady held.old.refs held.old.next held.old.added }
{
    retire(held, held.next);
    assert!(rt; drain(rt, held, 7));
    same(rt, held.plain.greatest, [0; 6]);
}

fn play(rt: &impl Abort, alloc: Global, seed: u64, calls: u32) {
    let mut held = new(rt, alloc);
    let mut number = seed;
    for _ in 0..calls {
        number = drawn(drawn(drawn(number)));
        act(rt, &mut held, number);
    }
    end(rt, &mut held);
}

#[test]
fn rows_of_calls_give_each_segment_by_its_greatest_place(rt: HostRuntime) {
    let alloc = rt.alloc();
    for seed in [1, 7, 42, 1_000, 77_777, 123_456_789] {
        play(&rt, alloc, seed, 60);
    }
}

fn one_place(rt: &impl Abort, alloc: Global, at: u32, len: u32) {
    let mut held = new(rt, alloc);
    add(rt, &mut held, at, len);
    check_idle(rt, &held);
    assert!(rt; drain(rt, &mut held, 1));
    end(rt, &mut held);
}

#[test]
fn a_place_touches_the_segments_of_its_blocks(rt: HostRuntime) {
    let alloc = rt.alloc();
    for (at, len) in [
        (0, 1),
        (63, 1),
        (63, 2),
        (64, 64),
        (64, 65),
        (0, 384),
        (383, 1),
        (100, 200),
    ] {
        one_place(&rt, alloc, at, len);
    }
}
