// What standard error says, in words.
use avs_script::{BadLine, reason};
use avs_told::KeptLine;

/// What is said at an exit status other than 0 and 3.
pub fn message(status: u8) -> &'static str {
    match status {
        2 =>
            "no words are taken: a script is read from standard input, as in `bin/avs < examples/first.avs`; docs/MANUAL.md has the statements",
        4 => "standard input failed; what was answered before stands",
        5 => "standard output failed; not all answers were written",
        6 => "a disk could not be had for a volume or a group",
        7 => "there was no memory; the answers that were written stand",
        8 => "the script has more than 1048576 lines; the first 1048576 were answered",
        _ => "the run ended",
    }
}

// Why a line is no statement.
fn text(why: BadLine) -> &'static str {
    match why {
        BadLine::TooLong => "too long, a line has at most 4096 bytes",
        BadLine::NoSuchStatement => "no such statement",
        BadLine::NoHost => "no host, p or s, behind its first word",
        BadLine::WrongWords => "wrong words for this statement",
        BadLine::NotANumber => "not a number where one belongs",
        BadLine::NotBuilt => "not built yet",
    }
}

/// Why the line that ended a run is no statement.
pub fn line_message(rt: &HostRuntime, line: &KeptLine) -> &'static str {
    match reason(rt.alloc(), line.text()) {
        Ok(Some(why)) => text(why),
        Ok(None) => "no statement",
        Err(_) => "there was no memory to say why",
    }
}
