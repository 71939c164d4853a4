// Lines of scripts, answers given to a sink, and the two adapters.
use avs_io::{LineFault, Lines, MemSink, MemSource, Next, Reading, Sink, Source, Writing, put_all};
use avs_seg::Failed;
use std::alloc::Global;
use std::fmt::Debug;
use std::process::Abort;

fn same<T: PartialEq + Debug + Drop>(rt: &impl Abort, found: T, want: T) {
    assert_eq!(rt; found, want);
}

// Puts the next line behind the text, with a letter for what it is. A bar means that more may follow.
fn show_next<S: Source>(
    rt: &impl Abort,
    alloc: Global,
    lines: &mut Lines<'_, S>,
    text: &mut Vec<u8>,
) -> bool {
    let end = match lines.next(alloc) {
        Ok(Next::Line(line)) => {
            text.extend_from_slice(line.as_slice()).expect(rt, "memory");
            b'|'
        }
        Ok(Next::Long) => b'L',
        Ok(Next::End) => b'E',
        Ok(Next::Budget) => b'B',
        Err(LineFault::Read) => b'R',
        Err(LineFault::NoMemory) => b'M',
    };
    text.push(end).expect(rt, "memory");
    end == b'|'
}

// The lines, each with a bar behind it, and a letter for what ends them.
fn shown<S: Source>(rt: &impl Abort, alloc: Global, source: &mut S) -> Vec<u8> {
    let mut text = Vec::new(alloc);
    let mut lines = Lines::new(source);
    for _ in 0..100 {
        if !show_next(rt, alloc, &mut lines, &mut text) {
            break;
        }
    }
    text
}

// A source of these bytes, whose call of that number fails.
fn source(rt: &impl Abort, alloc: Global, bytes: &[u8], piece: u32, call: u64) -> MemSource {
    assert!(rt; piece > 0);
    let bytes = bytes.to_vec(alloc).expect(rt, "memory");
    let fails = vec![in alloc; call; 1].expect(rt, "memory");
    MemSource::new(bytes, piece, fails)
}

// What is given of these bytes, by pieces of so many, of which the one of that number is a fault.
fn gives(rt: &impl Abort, alloc: Global, bytes: &[u8], piece: u32, call: u64, want: &[u8]) {
    let mut source = source(rt, alloc, bytes, piece, call);
    let text = shown(rt, alloc, &mut source);
    assert!(rt; text.as_slice() == want);
}

#[test]
fn gives_the_lines(rt: HostRuntime) {
    let alloc = rt.alloc();
    let two = b"volume p /v/a 64\nread p /v/a 0 1\n";
    let want = b"volume p /v/a 64|read p /v/a 0 1|E";
    gives(&rt, alloc, b"", 1, 9, b"E");
    gives(&rt, alloc, two, 1, 99, want);
    gives(&rt, alloc, &two[..two.len() - 1], 7, 99, want);
    gives(
        &rt,
        alloc,
        b"# none\r\ncrash p\r",
        99,
        9,
        b"# none\r|crash p\r|E",
    );
    gives(&rt, alloc, b"\n\nx\n\n", 2, 9, b"||x||E");
}

// Calls 1 to 3 give `ab\nc`, `d` and none, and there is no call 4.
#[test]
fn hands_a_fault_on(rt: HostRuntime) {
    let alloc = rt.alloc();
    gives(&rt, alloc, b"ab\ncd", 4, 1, b"R");
    gives(&rt, alloc, b"ab\ncd", 4, 2, b"ab|R");
    gives(&rt, alloc, b"ab\ncd", 4, 3, b"ab|R");
    gives(&rt, alloc, b"ab\ncd", 4, 4, b"ab|cd|E");
}

// A line of so many bytes, with another behind it, taken by pieces of so many.
fn long_line(rt: &impl Abort, alloc: Global, len: usize, piece: u32, at: usize, end: u8) {
    let mut bytes = vec![in alloc; b'a'; len].expect(rt, "memory");
    bytes.extend_from_slice(b"\nb\n").expect(rt, "memory");
    let mut source = source(rt, alloc, &bytes, piece, 99);
    let text = shown(rt, alloc, &mut source);
    same(rt, text.get(at).copied(), Some(end));
}

#[test]
fn refuses_a_long_line(rt: HostRuntime) {
    let alloc = rt.alloc();
    long_line(&rt, alloc, 4096, 1000, 4096, b'|');
    long_line(&rt, alloc, 4097, 1000, 0, b'L');
    long_line(&rt, alloc, 4097, 9000, 0, b'L');
}

fn counts<S: Source>(rt: &impl Abort, alloc: Global, lines: &mut Lines<'_, S>, want: u32) {
    assert!(rt; lines.next(alloc).is_ok());
    same(rt, lines.given(), want);
}

#[test]
fn counts_the_lines(rt: HostRuntime) {
    let alloc = rt.alloc();
    let mut source = source(&rt, alloc, b"a\nb", 9, 99);
    let mut lines = Lines::new(&mut source);
    same(&rt, lines.given(), 0);
    counts(&rt, alloc, &mut lines, 1);
    counts(&rt, alloc, &mut lines, 2);
    counts(&rt, alloc, &mut lines, 2);
}

// Two answers, given to a sink that has so much room, and fails at the call of that number.
fn puts(rt: &impl Abort, alloc: Global, room: u32, call: u64, want: &[u8]) {
    let fails = vec![in alloc; call; 1].expect(rt, "memory");
    let mut sink = MemSink::new(alloc, room, fails).expect(rt, "memory");
    let first = put_all(&mut sink, b"abc");
    let result = first.and_then(|()| put_all(&mut sink, b"def"));
    same(rt, result.is_ok(), want.len() == 6);
    assert!(rt; sink.bytes() == want);
}

// A sink that is full has taken what fitted, by the call before the one that fails.
#[test]
fn puts_all_or_a_part(rt: HostRuntime) {
    let alloc = rt.alloc();
    puts(&rt, alloc, 9, 3, b"abcdef");
    puts(&rt, alloc, 6, 9, b"abcdef");
    puts(&rt, alloc, 5, 9, b"abcde");
    puts(&rt, alloc, 3, 9, b"abc");
    puts(&rt, alloc, 0, 9, b"");
    puts(&rt, alloc, 9, 2, b"abc");
    puts(&rt, alloc, 9, 1, b"");
}

#[test]
fn reads_from_a_reader(rt: HostRuntime) {
    let mut source = Reading::new(b"a line\nand one".as_slice());
    let text = shown(&rt, rt.alloc(), &mut source);
    same(&rt, text.as_slice(), b"a line|and one|E".as_slice());
}

#[test]
fn writes_to_a_writer(rt: HostRuntime) {
    let mut room = [0; 4];
    let mut sink = Writing::new(room.as_mut_slice());
    same(&rt, sink.write(b"abc"), Ok(3));
    same(&rt, sink.write(b"def"), Ok(1));
    same(&rt, sink.write(b"def"), Err(Failed));
    same(&rt, sink.write(b""), Ok(0));
    drop(sink);
    same(&rt, room, *b"abcd");
}
