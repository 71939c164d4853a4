// What lines are read as, and why some are none.
use avs_model::{ArmTarget, Event, IiCommand, Statement};
use avs_script::{BadLine, LineError, read_line, reason};
use std::alloc::Global;
use std::fmt::{Debug, Write};
use std::process::Abort;

fn same<T: PartialEq + Debug + Drop>(rt: &impl Abort, found: T, want: T) {
    assert_eq!(rt; found, want);
}

fn put_command(rt: &impl Abort, text: &mut String, command: &IiCommand) {
    match command {
        IiCommand::Enable {
            dependent,
            master,
            shadow,
            bitmap,
        } => {
            write!(text, " enables {dependent} {master} {shadow} {bitmap}").expect(rt, "memory");
        }
    }
}

fn put_target(rt: &impl Abort, text: &mut String, target: &ArmTarget) {
    match target {
        ArmTarget::Volume(name) => write!(text, " disk of {name}").expect(rt, "memory"),
        ArmTarget::StateOf(name) => write!(text, " state of {name}").expect(rt, "memory"),
    }
}

fn put_event(rt: &impl Abort, text: &mut String, event: &Event) {
    match event {
        Event::Volume {
            host,
            volume,
            blocks,
        } => write!(text, "{host} {volume} has {blocks}").expect(rt, "memory"),
        Event::Write {
            host,
            volume,
            at,
            len,
            pattern,
        } => {
            write!(
                text,
                "{host} {volume} at {at} len {len} of {:?}",
                pattern.as_slice()
            )
            .expect(rt, "memory");
        }
        Event::Read {
            host,
            volume,
            at,
            len,
        } => write!(text, "{host} {volume} at {at} len {len}").expect(rt, "memory"),
        Event::Ii { host, command } => {
            write!(text, "{host}").expect(rt, "memory");
            put_command(rt, text, command);
        }
        Event::Arm {
            host,
            target,
            skip,
            first,
            count,
        } => {
            write!(text, "{host}").expect(rt, "memory");
            put_target(rt, text, target);
            write!(text, " skip {skip} from {first} count {count}").expect(rt, "memory");
        }
        Event::Crash { host } => write!(text, "{host} crashes").expect(rt, "memory"),
        Event::Recover { host } => write!(text, "{host} recovers").expect(rt, "memory"),
    }
}

// A word for each reason.
fn reason_word(found: Option<BadLine>) -> &'static str {
    match found {
        None => "none",
        Some(BadLine::TooLong) => "long",
        Some(BadLine::NoSuchStatement) => "statement",
        Some(BadLine::NoHost) => "host",
        Some(BadLine::WrongWords) => "words",
        Some(BadLine::NotANumber) => "number",
        Some(BadLine::NotBuilt) => "later",
    }
}

// What a line is read as: the event, `nothing`, or `bad` and the reason.
fn put_line(rt: &impl Abort, alloc: Global, text: &mut String, line: &[u8]) {
    let word = match reason(alloc, line) {
        Ok(found) => reason_word(found),
        Err(_) => "memory",
    };
    match read_line(alloc, line) {
        Ok(Statement::Nothing) => write!(text, "nothing, {word}\n").expect(rt, "memory"),
        Ok(Statement::Run(event)) => {
            put_event(rt, text, &event);
            write!(text, ", {word}\n").expect(rt, "memory");
        }
        Err(LineError::Bad) => write!(text, "bad {word}\n").expect(rt, "memory"),
        Err(LineError::NoMemory) => write!(text, "memory\n").expect(rt, "memory"),
    }
}

// Each line of a text is read as the line of the other text that stands in its place.
fn reads(rt: &impl Abort, alloc: Global, lines: &str, want: &str) {
    let mut text = String::new(alloc);
    for line in lines.as_bytes().split(|byte| *byte == b'\n') {
        put_line(rt, alloc, &mut text, line);
    }
    same(rt, text.as_str(), want);
}

#[test]
fn statements_are_read(rt: HostRuntime) {
    reads(
        &rt,
        rt.alloc(),
        "volume p /v/a 128\nvolume p /v/a 64\nvolume p /v/a 4294967295\nwrite p /v/a 0 1 ff\nwrite p /v/a 7 256 0a\nread p /v/a 0 1\nvolume p /v/a 0\nwrite p /v/a 0 0 ff\nwrite p /v/a 0 4294967295 ff\nread p /v/a 0 4097\niiadm p -e dep /v/a /s/a /c/a\n\tiiadm  p\r-e dep\t /v/a /v/a /v/a \narm p /v/a 0 1 2\narm p state:g 4294967295 0 4294967295\narm p state:0123456789aZ_-zz 0 0 0\narm p state:/v/a 0 0 0\narm p state:s:/v/a 0 0 0\ncrash p\n recover\tp \nread p /v/a 4294967295 4096\n\t volume\tp\r/aZ09._-/   64\r\nread p /23456789012345678901234567890123456789012345678901234567890123 0 1\nread p /234567890123456789012345678901234567890123456789012345678901234 0 1\n\n \n\t\r \n#\n# read p /v/a 0 1\n  #read\n#\u{e9}",
        "p /v/a has 128, none\np /v/a has 64, none\np /v/a has 4294967295, none\np /v/a at 0 len 1 of [255], none\np /v/a at 7 len 256 of [10], none\np /v/a at 0 len 1, none\np /v/a has 0, none\np /v/a at 0 len 0 of [255], none\np /v/a at 0 len 4294967295 of [255], none\np /v/a at 0 len 4097, none\np enables true /v/a /s/a /c/a, none\np enables true /v/a /v/a /v/a, none\np disk of /v/a skip 0 from 1 count 2, none\np state of g skip 4294967295 from 0 count 4294967295, none\np state of 0123456789aZ_-zz skip 0 from 0 count 0, none\np state of /v/a skip 0 from 0 count 0, none\np state of s:/v/a skip 0 from 0 count 0, none\np crashes, none\np recovers, none\np /v/a at 4294967295 len 4096, none\np /aZ09._-/ has 64, none\np /23456789012345678901234567890123456789012345678901234567890123 at 0 len 1, none\np /234567890123456789012345678901234567890123456789012345678901234 at 0 len 1, none\nnothing, none\nnothing, none\nnothing, none\nnothing, none\nnothing, none\nnothing, none\nnothing, none\n",
    );
}

#[test]
fn other_lines_are_bad(rt: HostRuntime) {
    reads(
        &rt,
        rt.alloc(),
        "volume s /v/a 64\nvolume P /v/a 64\nvolume p /v/a 064\nvolume p /v/a 4294967296\nvolume p /v/a\nvolume p /v/a 64 64\nvolume p / 64\nvolume p v/a 64\nvolume p /v:a 64\nvolume p /2345678901234567890123456789012345678901234567890123456789012345 64\nvolume p /v/a #64\nwrite s /v/a 0 1 ff\nwrite p /v/a 0 1 f\nwrite p /v/a 0 1 fff\nwrite p /v/a 0 1 ffff\nwrite p /v/a 0 1 000102030405060708090a0b0c0d0e0f\nwrite p /v/a 0 1 000102030405060708090a0b0c0d0e0f00\nwrite p /v/a 0 1 FF\nwrite p /v/a 0 1\nwrite p /v/a 0 1 ff ff\nread s /v/a 0 1\nread p /v/a 00 1\nread p /v/a 4294967296 1\nread p /v/a 0\nread p /v/a 0 1 1\nreads p /v/a 0 1\nRead p /v/a 0 1\nread\nx\nlink up\niiadm\niiadm p\niiadm p -e\niiadm p dep /v/a /s/a /c/a\niiadm p -e dep /v/a /s/a\niiadm p -e dep /v/a /s/a /c/a /c/a\niiadm p -e ind /v/a /s/a /c/a\niiadm p -e foo /v/a /s/a /c/a\niiadm p -e Dep /v/a /s/a /c/a\niiadm p -e /v/a /s/a /c/a dep\niiadm p -e dep v/a /s/a /c/a\niiadm p -e dep /v/a / /c/a\niiadm p -e dep /v/a /s/a c\niiadm p -n -e dep /v/a /s/a /c/a\niiadm p -g g -e dep /v/a /s/a /c/a\niiadm p -d dep /v/a /s/a /c/a\niiadm p -E dep /v/a /s/a /c/a\niiadm p e dep /v/a /s/a /c/a\niiadm -e dep /v/a /s/a /c/a\niiadm s -e dep /v/a /s/a /c/a\niiadm q -e dep /v/a /s/a /c/a\nIIADM p -e dep /v/a /s/a /c/a\nsndradm p -e dep /v/a /s/a /c/a\narm s /v/a 0 0 0\narm p v 0 0 0\narm p /v/a 0 0\narm p /v/a 0 0 0 0\narm p /v/a 00 0 0\narm p /v/a 0 4294967296 0\narm p state: 0 0 0\narm p state:0123456789aZ_-zzz 0 0 0\narm p state:g! 0 0 0\narm p state:s:g 0 0 0\narm p state:s: 0 0 0\narm p State:g 0 0 0\narm p land:g 0 0 0\narm p config: 0 0 0\ncrash\ncrash s\ncrash p p\nrecover\nrecover s\nrecover q\ncrashes p\niiadm p -u s /s/a\niiadm s -w\ndsstat p\ntap p /v/a drop\nmove /v/a p s\niiadm p p -d\nvolume /v/a 64\nwrite\narm x /v/a 0 0 0\ncrash /v/a\niiadm -w\nvolume ps /v/a 64\nvolume s /v/a\niiadm s\niiadm s -e dep\ncrash p s\niiadm p -b /s/a\niiadm p -ne\niiadm p -e -n\niiadm p --n\narm p land:/v/a 0 0 0\narm s land:s:/v/a 0 0 0\narm s config: 0 0 0\narm p config: 00 0 0\narm p config: 0 0\narm p land: 0 0 0\narm p land:g! 0 0 0\narm p config:g 0 0 0\narm p landg 0 0 0",
        "bad later\nbad host\nbad number\nbad number\nbad words\nbad words\nbad words\nbad words\nbad words\nbad words\nbad number\nbad later\nbad words\nbad words\nbad later\nbad later\nbad words\nbad words\nbad words\nbad words\nbad later\nbad number\nbad number\nbad words\nbad words\nbad statement\nbad statement\nbad host\nbad statement\nbad later\nbad host\nbad words\nbad words\nbad words\nbad words\nbad words\nbad later\nbad words\nbad words\nbad words\nbad words\nbad words\nbad words\nbad later\nbad later\nbad later\nbad later\nbad words\nbad host\nbad later\nbad host\nbad statement\nbad later\nbad later\nbad words\nbad words\nbad words\nbad number\nbad number\nbad words\nbad words\nbad words\nbad words\nbad words\nbad words\nbad later\nbad later\nbad host\nbad later\nbad words\nbad host\nbad later\nbad host\nbad statement\nbad later\nbad later\nbad later\nbad later\nbad later\nbad words\nbad host\nbad host\nbad host\nbad host\nbad host\nbad host\nbad words\nbad words\nbad words\nbad words\nbad words\nbad words\nbad words\nbad words\nbad later\nbad later\nbad later\nbad number\nbad words\nbad words\nbad words\nbad words\nbad words\n",
    );
}

// The product's options and the statements that are not there yet, and what only looks like one of them.
#[test]
fn what_comes_later_is_told(rt: HostRuntime) {
    reads(
        &rt,
        rt.alloc(),
        "iiadm p -n\niiadm p -g\niiadm p -C\niiadm p -d\niiadm p -u\niiadm p -c\niiadm p -a\niiadm p -w\niiadm p -O\niiadm p -A\niiadm p -D\niiadm p -Q\niiadm p -E\niiadm p -I\niiadm p -J\niiadm p -l\niiadm p -i\nsndradm\nfile\ncopy\nsync\ntake\ncarry\nback\nlose\nsettle\nbits\ndsstat\nlink\ntap\nmove\nversion\nupgrade\nfetch\niiadm p -N\niiadm p -G\niiadm p -W\niiadm p -j\ndscfgadm\nscmadm\nsndradms\nsyncs\nbegin 1\nmode sync",
        "bad later\nbad later\nbad later\nbad later\nbad later\nbad later\nbad later\nbad later\nbad later\nbad later\nbad later\nbad later\nbad later\nbad later\nbad later\nbad later\nbad later\nbad later\nbad later\nbad later\nbad later\nbad later\nbad later\nbad later\nbad later\nbad later\nbad later\nbad later\nbad later\nbad later\nbad later\nbad later\nbad later\nbad later\nbad words\nbad words\nbad words\nbad words\nbad statement\nbad statement\nbad statement\nbad statement\nbad statement\nbad statement\n",
    );
}

// A line of these bytes and then blanks, as long as may be and by one blank longer.
fn longest(rt: &impl Abort, alloc: Global, start: &str, want: &str) {
    let mut line = Vec::with_capacity(alloc, 4097).expect(rt, "memory");
    line.extend_from_slice(start.as_bytes())
        .expect(rt, "memory");
    line.resize(4096, b' ').expect(rt, "memory");
    let mut text = String::new(alloc);
    put_line(rt, alloc, &mut text, &line);
    line.push(b' ').expect(rt, "memory");
    put_line(rt, alloc, &mut text, &line);
    same(rt, text.as_str(), want);
}

#[test]
fn a_line_has_at_most_4096_bytes(rt: HostRuntime) {
    longest(
        &rt,
        rt.alloc(),
        "read p /v/a 0 1",
        "p /v/a at 0 len 1, none\nbad long\n",
    );
    longest(&rt, rt.alloc(), "# read", "nothing, none\nbad long\n");
    longest(&rt, rt.alloc(), "", "nothing, none\nbad long\n");
}
