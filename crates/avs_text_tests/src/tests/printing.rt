use super::same;
use avs_model::{
    Answer, EqualRuns, GroupLine, GroupLines, Host, Name, Pattern, Recovered, Refusal, Role,
    Second, SetLine, SetLines, Word,
};
use avs_seg::SegList;
use avs_text::{answer_line, bad_line, fill, is_volume_name, runs};
use std::alloc::Global;
use std::process::Abort;

const SIXTEEN: &[u8] = b"0123456789abcdef";

// Appends these bytes so many times.
fn append(rt: &impl Abort, bytes: &mut Vec<u8>, times: u32, part: &[u8]) {
    for _ in 0..times {
        bytes.extend_from_slice(part).expect(rt, "memory");
    }
}

/// A part that stands so many times.
type Part<'a> = (u32, &'a [u8]);

fn joined(rt: &impl Abort, alloc: Global, parts: &[Part<'_>]) -> Vec<u8> {
    let mut bytes = Vec::new(alloc);
    for (times, part) in parts {
        append(rt, &mut bytes, *times, part);
    }
    bytes
}

// Blocks of these bytes.
fn blocks(rt: &impl Abort, alloc: Global, bytes: &[u8]) -> EqualRuns {
    let len = bytes.len();
    assert!(rt; 512 * (len / 512) == len);
    let mut runs = EqualRuns::new(alloc);
    runs.push(bytes).expect(rt, "memory");
    runs
}

// Blocks of these parts are printed as those parts, alone and behind the word of an answer.
fn prints(rt: &impl Abort, alloc: Global, held: &[Part<'_>], want: &[Part<'_>]) {
    let bytes = joined(rt, alloc, held);
    let len = bytes.len();
    assert!(rt; 512 * (len / 512) == len);
    let text = runs(alloc, &bytes).expect(rt, "memory");
    same(rt, text.as_bytes(), joined(rt, alloc, want).as_slice());
    let answer = Answer::Shown(blocks(rt, alloc, &bytes));
    let line = answer_line(alloc, &answer).expect(rt, "memory");
    let told = [(1, "data ".as_bytes()), (1, text.as_bytes()), (1, b"\n")];
    same(rt, line.as_bytes(), joined(rt, alloc, &told).as_slice());
}

// Three blocks are filled with a pattern of these bytes, which they hold so many times then.
fn fills(rt: &impl Abort, alloc: Global, pattern: &Pattern, part: &[u8], times: u32) {
    let mut out = [0; 1536];
    fill(pattern, &mut out);
    same(
        rt,
        out.as_slice(),
        joined(rt, alloc, &[(times, part)]).as_slice(),
    );
}

#[test]
fn fills_three_blocks_with_each_length(rt: HostRuntime) {
    let alloc = rt.alloc();
    fills(&rt, alloc, &Pattern::new(b"0"), b"0", 1536);
    fills(&rt, alloc, &Pattern::new(b"01"), b"01", 768);
    fills(&rt, alloc, &Pattern::new(b"0123"), b"0123", 384);
    fills(&rt, alloc, &Pattern::new(b"01234567"), b"01234567", 192);
    fills(&rt, alloc, &Pattern::new(b"0123456789abcdef"), SIXTEEN, 96);
    let mut none = [0; 0];
    fill(&Pattern::new(b"ab"), &mut none);
}

#[test]
fn prints_the_shortest_pattern(rt: HostRuntime) {
    let cases: [(u32, &[u8], &[u8]); 8] = [
        (512, b"\xab", b"1*ab"),
        (256, b"\x01\x23", b"1*0123"),
        (128, b"\x01\x01\x01\x23", b"1*01010123"),
        (
            64,
            b"\x00\x01\x00\x01\x00\x01\x00\x02",
            b"1*0001000100010002",
        ),
        (32, SIXTEEN, b"1*30313233343536373839616263646566"),
        (1024, b"\xff", b"2*ff"),
        (3072, b"\x00", b"6*00"),
        (0, b"", b""),
    ];
    for (times, part, want) in cases {
        prints(&rt, rt.alloc(), &[(times, part)], &[(1, want)]);
    }
}

// A block in which one byte differs from the others.
#[test]
fn prints_all_of_other_blocks(rt: HostRuntime) {
    for (before, after) in [(511, 0), (0, 511), (15, 496)] {
        let held: [Part<'_>; 3] = [(before, b"\x5a"), (1, b"\xa5"), (after, b"\x5a")];
        let want: [Part<'_>; 4] = [(1, b"1*"), (before, b"5a"), (1, b"a5"), (after, b"5a")];
        prints(&rt, rt.alloc(), &held, &want);
    }
}

#[test]
fn prints_equal_runs_apart(rt: HostRuntime) {
    let held: [Part<'_>; 5] = [
        (1024, b"\xaa"),
        (256, b"\xaa\xbb"),
        (1024, b"\xaa"),
        (511, b"\xaa"),
        (1, b"\xab"),
    ];
    let want: [Part<'_>; 3] = [(1, b"2*aa 1*aabb 2*aa 1*"), (511, b"aa"), (1, b"ab")];
    prints(&rt, rt.alloc(), &held, &want);
}

fn says(rt: &impl Abort, alloc: Global, answer: &Answer, want: &str) {
    let line = answer_line(alloc, answer).expect(rt, "memory");
    same(rt, line.as_str(), want);
}

#[test]
fn prints_the_arguments_of_a_refusal(rt: HostRuntime) {
    for (why, want) in [
        (Refusal::BadWord(1), "refused BadWord 1\n"),
        (Refusal::NoFile, "refused NoFile\n"),
        (Refusal::NoTap(2), "refused NoTap 2\n"),
        (Refusal::NotPrimary, "refused NotPrimary\n"),
        (Refusal::LinkDown, "refused LinkDown\n"),
        (Refusal::BusyVolume(Role::Away), "refused BusyVolume away\n"),
        (Refusal::Unlike(8), "refused Unlike 8\n"),
        (Refusal::Tap { tap: 2, code: 1 }, "refused Tap 2 1\n"),
        (Refusal::Stale { ours: 2, theirs: 1 }, "refused Stale 2 1\n"),
        (
            Refusal::WrongState(Word::Compact),
            "refused WrongState compact\n",
        ),
        (
            Refusal::WrongState(Word::Replicating),
            "refused WrongState replicating\n",
        ),
        (Refusal::NoPlace(0), "refused NoPlace 0\n"),
        (Refusal::Copying(1), "refused Copying 1\n"),
        (
            Refusal::Offline { need: 4, slots: 3 },
            "refused Offline 4 3\n",
        ),
        (
            Refusal::WrongStamp { ours: 3, theirs: 1 },
            "refused WrongStamp 3 1\n",
        ),
        (Refusal::Differ(1), "refused Differ 1\n"),
        (
            Refusal::QueueFull {
                writes: 1,
                blocks: 61,
            },
            "refused QueueFull 1 61\n",
        ),
    ] {
        says(&rt, rt.alloc(), &Answer::Refused(why), want);
    }
}

#[test]
fn prints_the_line_of_each_answer(rt: HostRuntime) {
    let bytes = joined(&rt, rt.alloc(), &[(1024, b"\x00"), (256, b"\x0a\xf0")]);
    let read = blocks(&rt, rt.alloc(), &bytes);
    for (answer, want) in [
        (Answer::Done, "ok\n"),
        (Answer::Shown(read), "data 2*00 1*0af0\n"),
        (Answer::Refused(Refusal::Down(Host::P)), "refused Down p\n"),
        (Answer::Refused(Refusal::NoVolume), "refused NoVolume\n"),
        (Answer::Refused(Refusal::NoSet), "refused NoSet\n"),
        (Answer::Refused(Refusal::NoGroup), "refused NoGroup\n"),
        (Answer::Refused(Refusal::Exists), "refused Exists\n"),
        (
            Answer::Refused(Refusal::BusyVolume(Role::Master)),
            "refused BusyVolume master\n",
        ),
        (
            Answer::Refused(Refusal::BusyVolume(Role::Shadow)),
            "refused BusyVolume shadow\n",
        ),
        (
            Answer::Refused(Refusal::BusyVolume(Role::Bitmap)),
            "refused BusyVolume bitmap\n",
        ),
        (
            Answer::Refused(Refusal::BusyVolume(Role::Plain)),
            "refused BusyVolume plain\n",
        ),
        (
            Answer::Refused(Refusal::Length(257)),
            "refused Length 257\n",
        ),
        (
            Answer::Refused(Refusal::WrongState(Word::Up)),
            "refused WrongState up\n",
        ),
        (
            Answer::Refused(Refusal::WrongState(Word::Unarmed)),
            "refused WrongState unarmed\n",
        ),
        (Answer::Refused(Refusal::NoContents), "refused NoContents\n"),
        (
            Answer::Refused(Refusal::BadRecord(4_294_967_295)),
            "refused BadRecord 4294967295\n",
        ),
        (Answer::Down(Host::S), "down s\n"),
        (Answer::Refused(Refusal::Range(64)), "refused Range 64\n"),
        (
            Answer::Refused(Refusal::Size {
                need: 128,
                have: 64,
            }),
            "refused Size 128 64\n",
        ),
        (
            Answer::Refused(Refusal::Limit(262_144)),
            "refused Limit 262144\n",
        ),
        (Answer::Faulted(Host::S), "refused Fault s\n"),
    ] {
        says(&rt, rt.alloc(), &answer, want);
    }
    let line = bad_line(rt.alloc(), 17).expect(&rt, "memory");
    same(&rt, line.as_str(), "bad line 17\n");
}

fn recovered(alloc: Global, second: Second) -> Answer {
    Answer::Up(Recovered {
        host: Host::P,
        second,
        groups: GroupLines::new(alloc),
        sets: SetLines::new(alloc),
    })
}

fn name(rt: &impl Abort, alloc: Global, word: &[u8]) -> Name {
    assert!(rt; is_volume_name(word));
    Name::new(alloc, word).expect(rt, "memory")
}

// A recovery that tells these blocks of a torn write.
fn tells_torn(rt: &impl Abort, alloc: Global, list: &[u32], want: &str) {
    let mut blocks = SegList::new(alloc);
    for block in list {
        blocks.push(*block).expect(rt, "memory");
    }
    let second = Second::Torn {
        volume: name(rt, alloc, b"/v/a"),
        at: 100,
        blocks,
    };
    says(rt, alloc, &recovered(alloc, second), want);
}

#[test]
fn prints_the_lines_of_a_recovery(rt: HostRuntime) {
    let alloc = rt.alloc();
    says(
        &rt,
        alloc,
        &recovered(alloc, Second::Clean),
        "up p\nclean\n",
    );
    says(&rt, alloc, &recovered(alloc, Second::Kept), "up p\nkept\n");
    says(&rt, alloc, &recovered(alloc, Second::Done), "up p\ndone\n");
    tells_torn(&rt, alloc, &[], "up p\ntorn /v/a 100\n");
    tells_torn(&rt, alloc, &[1, 2], "up p\ntorn /v/a 100 1 2\n");
    tells_torn(&rt, alloc, &[0, 255], "up p\ntorn /v/a 100 0 255\n");
}

fn add_lines(
    rt: &impl Abort,
    alloc: Global,
    groups: &mut GroupLines,
    sets: &mut SetLines,
    word: &[u8],
    place: u64,
    left: u32,
) {
    let group = GroupLine {
        group: name(rt, alloc, word),
        session: 0,
        place,
    };
    groups.push(group).expect(rt, "memory");
    let set = SetLine {
        set: name(rt, alloc, word),
        left,
    };
    sets.push(set).expect(rt, "memory");
}

#[test]
fn prints_groups_in_front_of_their_sets(rt: HostRuntime) {
    let alloc = rt.alloc();
    let mut groups = GroupLines::new(alloc);
    let mut sets = SetLines::new(alloc);
    add_lines(&rt, alloc, &mut groups, &mut sets, b"/s/a", 0, 0);
    add_lines(
        &rt,
        alloc,
        &mut groups,
        &mut sets,
        b"/s/b",
        18_446_744_073_709_551_615,
        4096,
    );
    let answer = Answer::Up(Recovered {
        host: Host::P,
        second: Second::Kept,
        groups,
        sets,
    });
    let want =
        "up p\nkept\ngroup /s/a plain session 0 at 0\ngroup /s/b plain session 0 at 18446744073709551615\nset /s/a left 0\nset /s/b left 4096\n";
    says(&rt, alloc, &answer, want);
}
