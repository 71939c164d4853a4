// Whole runs over sources, sinks and racks in memory that fail. Those over ones that do not stand under examples/.
use avs_dev::MemRack;
use avs_io::{MemSink, MemSource};
use avs_run::run_script;
use std::alloc::Global;
use std::fmt::Debug;
use std::process::Abort;

mod enabling;
mod failing;
mod faults;
mod filled;

const ROW: &[u8] =
    b"volume p /v/a 64\nwrite p /v/a 63 1 ab\nread p /v/a 62 2\nread p /v/a 63 2\nvolume p /v/a 64\nvolume p /v/z 300000\n";

const ANSWERS: &[u8] =
    b"ok\nok\ndata 1*00 1*ab\nrefused Range 64\nrefused Exists\nrefused Limit 262144\n";

/// What the outside does: how many bytes a read of the source gives at most, what the sink has room for, and which calls fail.
#[derive(Clone, Copy)]
struct Outside<'a> {
    piece: u32,
    room: u32,
    source: &'a [u64],
    sink: &'a [u64],
    rack: &'a [u64],
    disks: &'a [u64],
}

const FAIR: Outside<'static> = Outside {
    piece: 1000,
    room: 100_000,
    source: &[],
    sink: &[],
    rack: &[],
    disks: &[],
};

fn same<T: PartialEq + Debug + Drop>(rt: &impl Abort, found: T, want: T) {
    assert_eq!(rt; found, want);
}

fn copy<T: Copy + Drop>(rt: &impl Abort, alloc: Global, items: &[T]) -> Vec<T> {
    items.to_vec(alloc).expect(rt, "memory")
}

// Runs a script, and gives the status and what was written.
fn run(rt: &impl Abort, alloc: Global, script: &[u8], outside: Outside<'_>) -> (u8, Vec<u8>) {
    let script = copy(rt, alloc, script);
    let mut source = MemSource::new(
        script,
        outside.piece.max(1),
        copy(rt, alloc, outside.source),
    );
    let mut sink = MemSink::new(alloc, outside.room, copy(rt, alloc, outside.sink)).expect(
        rt, "memory",
    );
    let mut rack = MemRack::new(
        copy(rt, alloc, outside.rack),
        copy(rt, alloc, outside.disks),
    );
    let status = run_script(
        alloc,
        &Vec::new(alloc),
        &mut source,
        &mut sink,
        &mut rack,
        Vec::new(alloc),
    );
    (status, copy(rt, alloc, sink.bytes()))
}

// A script ends with that status, and that is written.
fn check(
    rt: &impl Abort,
    alloc: Global,
    script: &[u8],
    outside: Outside<'_>,
    status: u8,
    want: &[u8],
) {
    let (ended, written) = run(rt, alloc, script, outside);
    same(rt, written.as_slice(), want);
    same(rt, ended, status);
}

#[test]
fn a_source_gives_pieces_of_any_length(rt: HostRuntime) {
    let script = b"# none\n\n \t\r\nvolume p /v/a 64\n\tread  p\t/v/a \t0 1\r\nfrob\n";
    for piece in [1, 7, 1000] {
        let outside = Outside { piece, ..FAIR };
        check(&rt, rt.alloc(), ROW, outside, 0, ANSWERS);
        check(
            &rt,
            rt.alloc(),
            script,
            outside,
            3,
            b"ok\ndata 1*00\nbad line 6\n",
        );
    }
}

#[test]
fn a_disk_fails_at_each_of_its_calls(rt: HostRuntime) {
    let script =
        b"volume p /v/a 64\nwrite p /v/a 0 1 11\nread p /v/a 0 1\nwrite p /v/a 0 1 22\nread p /v/a 0 1\nvolume p /v/b 64\n".as_slice();
    let wants: [(u64, &[u8]); 5] = [
        (
            1,
            b"ok\nrefused Fault p\nrefused Down p\nrefused Down p\nrefused Down p\nrefused Down p\n",
        ),
        (
            2,
            b"ok\nok\nrefused Fault p\nrefused Down p\nrefused Down p\nrefused Down p\n",
        ),
        (
            3,
            b"ok\nok\ndata 1*11\nrefused Fault p\nrefused Down p\nrefused Down p\n",
        ),
        (
            4,
            b"ok\nok\ndata 1*11\nok\nrefused Fault p\nrefused Down p\n",
        ),
        (5, b"ok\nok\ndata 1*11\nok\ndata 1*22\nok\n"),
    ];
    for (call, want) in wants {
        let disks = &[call];
        check(&rt, rt.alloc(), script, Outside { disks, ..FAIR }, 0, want);
    }
}

// One byte a call: the call behind the last byte finds the end.
fn source_fails(rt: &impl Abort, alloc: Global, call: u64) {
    let source = &[call];
    let (status, written) = run(
        rt,
        alloc,
        ROW,
        Outside {
            piece: 1,
            source,
            ..FAIR
        },
    );
    let whole = call > ROW.len() as u64 + 1;
    same(rt, status, if whole { 0 } else { 4 });
    assert!(rt; ANSWERS.starts_with(&written));
    assert!(rt; written.is_empty() || written.ends_with(b"\n"));
    assert!(rt; !whole || written.len() == ANSWERS.len());
}

#[test]
fn the_source_fails_at_each_of_its_calls(rt: HostRuntime) {
    let alloc = rt.alloc();
    for call in 1..ROW.len() as u64 + 3 {
        source_fails(&rt, alloc, call);
    }
    check(
        &rt,
        alloc,
        ROW,
        Outside {
            source: &[1],
            ..FAIR
        },
        4,
        b"",
    );
    let outside = Outside {
        piece: 25,
        source: &[2],
        ..FAIR
    };
    check(
        &rt,
        alloc,
        b"volume p /v/a 64\nvolume p",
        outside,
        4,
        b"ok\n",
    );
}

#[test]
fn the_sink_fails_at_each_of_its_calls(rt: HostRuntime) {
    let alloc = rt.alloc();
    let wants: [(u64, u8, &[u8]); 7] = [
        (1, 5, b""),
        (2, 5, b"ok\n"),
        (3, 5, b"ok\nok\n"),
        (4, 5, b"ok\nok\ndata 1*00 1*ab\n"),
        (5, 5, b"ok\nok\ndata 1*00 1*ab\nrefused Range 64\n"),
        (
            6,
            5,
            b"ok\nok\ndata 1*00 1*ab\nrefused Range 64\nrefused Exists\n",
        ),
        (7, 0, ANSWERS),
    ];
    for (call, status, want) in wants {
        let sink = &[call];
        check(&rt, alloc, ROW, Outside { sink, ..FAIR }, status, want);
    }
}

#[test]
fn the_sink_is_full(rt: HostRuntime) {
    let alloc = rt.alloc();
    let bad = b"volume p /v/a 64\nfrob\n".as_slice();
    check(
        &rt,
        alloc,
        ROW,
        Outside { room: 10, ..FAIR },
        5,
        b"ok\nok\ndata",
    );
    check(&rt, alloc, bad, Outside { room: 7, ..FAIR }, 5, b"ok\nbad ");
    check(&rt, alloc, bad, Outside { sink: &[1], ..FAIR }, 5, b"");
}

#[test]
fn the_rack_refuses(rt: HostRuntime) {
    let alloc = rt.alloc();
    let script = b"volume p /v/a 64\nvolume p /v/a 64\nvolume p /v/b 64\nfrob\n";
    check(&rt, alloc, ROW, Outside { rack: &[1], ..FAIR }, 6, b"");
    check(
        &rt,
        alloc,
        script,
        Outside { rack: &[2], ..FAIR },
        6,
        b"ok\nrefused Exists\n",
    );
}

// With these words and a script, nothing is read or written.
fn refuses_words(rt: &impl Abort, alloc: Global, words: &Vec<String>) {
    let mut source = MemSource::new(copy(rt, alloc, ROW), 1000, Vec::new(alloc));
    let mut sink = MemSink::new(alloc, 1000, Vec::new(alloc)).expect(rt, "memory");
    let mut rack = MemRack::new(Vec::new(alloc), Vec::new(alloc));
    let status = run_script(
        alloc,
        words,
        &mut source,
        &mut sink,
        &mut rack,
        Vec::new(alloc),
    );
    same(rt, status, 2);
    assert!(rt; sink.bytes().is_empty());
}

#[test]
fn a_word_is_refused(rt: HostRuntime) {
    let alloc = rt.alloc();
    let mut words = Vec::new(alloc);
    for word in ["--gen", "x"] {
        words
            .push(String::from_str(alloc, word).expect(&rt, "memory"))
            .expect(&rt, "memory");
    }
    refuses_words(&rt, alloc, &words);
}
