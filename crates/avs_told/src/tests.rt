// Pieces of lines that are given, and the line that is kept.
use crate::Told;
use avs_io::{MemSource, Source};
use std::alloc::Global;
use std::fmt::Debug;
use std::process::Abort;

fn same<T: PartialEq + Debug + Drop>(rt: &impl Abort, found: T, want: T) {
    assert_eq!(rt; found, want);
}

fn put(rt: &impl Abort, text: &mut Vec<u8>, bytes: &[u8]) {
    text.extend_from_slice(bytes).expect(rt, "memory");
}

// One read into five bytes: what it gives and a bar, `E` at the end, or `F` where it fails. True is the end.
fn read<S: Source>(rt: &impl Abort, source: &mut Told<S>, text: &mut Vec<u8>) -> bool {
    let mut out = [0; 5];
    match source.read(&mut out) {
        Ok(0) => {
            put(rt, text, b"E");
            true
        }
        Ok(count) => {
            put(rt, text, &out[..count]);
            put(rt, text, b"|");
            false
        }
        Err(_) => {
            put(rt, text, b"F");
            false
        }
    }
}

// What the reads give, up to the end or the one that comes last, and the line that is kept then, with its number.
fn gives(
    rt: &impl Abort,
    alloc: Global,
    bytes: &[u8],
    fails: &[u64],
    reads: u32,
    want: &[u8],
    line: &[u8],
    number: u64,
) {
    let bytes = bytes.to_vec(alloc).expect(rt, "memory");
    let fails = fails.to_vec(alloc).expect(rt, "memory");
    let mut source = Told::new(MemSource::new(bytes, 7, fails));
    let mut text = Vec::new(alloc);
    for _ in 0..reads {
        if read(rt, &mut source, &mut text) {
            break;
        }
    }
    same(rt, text.as_slice(), want);
    same(rt, source.line().text(), line);
    same(rt, source.line().number(), number);
}

#[test]
fn lines_come_one_by_one(rt: HostRuntime) {
    let alloc = rt.alloc();
    gives(&rt, alloc, b"", &[], 9, b"E", b"", 0);
    gives(&rt, alloc, b"ab\ncd", &[], 9, b"ab\n|cd|E", b"cd", 2);
    gives(&rt, alloc, b"ab\ncd\n", &[], 9, b"ab\n|cd\n|E", b"cd", 2);
    gives(&rt, alloc, b"\n\nx\n\n", &[], 3, b"\n|\n|x\n|", b"x", 3);
    gives(
        &rt,
        alloc,
        b"0123456789\n",
        &[],
        9,
        b"01234|56|789\n|E",
        b"0123456789",
        1,
    );
}

#[test]
fn a_fault_keeps_the_line(rt: HostRuntime) {
    let alloc = rt.alloc();
    gives(
        &rt,
        alloc,
        b"ab\ncdefgh\n",
        &[1, 3],
        9,
        b"Fab\n|cdef|Fgh\n|E",
        b"cdefgh",
        2,
    );
    gives(
        &rt,
        alloc,
        b"ab\ncdefgh\n",
        &[2],
        3,
        b"ab\n|cdef|F",
        b"cdef",
        2,
    );
}

#[test]
fn a_long_line_is_kept_in_part(rt: HostRuntime) {
    let alloc = rt.alloc();
    let mut bytes = Vec::new(alloc);
    bytes.resize(5000, b'x').expect(&rt, "memory");
    let mut source = Told::new(MemSource::new(bytes, 5000, Vec::new(alloc)));
    let mut text = Vec::new(alloc);
    for _ in 0..1000 {
        let _ = read(&rt, &mut source, &mut text);
    }
    same(&rt, source.line().text().len(), 4097);
}
