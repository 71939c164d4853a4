// Runs a script from standard input, and writes its answers to standard output. On standard error it says in one line why the
// exit status is not 0.
#![tactic(auto)]

mod messages;
#[cfg(test)]
mod tests;

use crate::messages::{line_message, message};
use avs_dev::MemRack;
use avs_io::{Reading, Writing};
use avs_run::run_script;
use avs_told::{KeptLine, Told};
use std::io;
use std::process::ExitCode;
use std::rt::Env;

// The words of the command line behind the program's name.
fn words_of<R: Env + AllocGlobal>(rt: &R) -> io::Result<Vec<String>> {
    let mut words = Vec::new(rt.alloc());
    let mut args = std::env::args(rt)?;
    let _ = args.next();
    for word in args {
        words
            .push(word)
            .map_err(|_| io::Error::from(io::ErrorKind::OutOfMemory))?;
    }
    Ok(words)
}

// Says why a run ended with a status, behind which nothing is done where standard error fails.
fn tell(rt: &HostRuntime, status: u8, line: &KeptLine) {
    let told = match status {
        0 => Ok(()),
        3 => eprintln!(rt;
            "avs: line {} is no statement: {}",
            line.number(),
            line_message(rt, line)
        ),
        _ => eprintln!(rt; "avs: {}", message(status)),
    };
    let _ = told;
}

fn run(rt: &HostRuntime, words: &Vec<String>) -> u8 {
    let alloc = rt.alloc();
    let mut source = Told::new(Reading::new(rt.reader()));
    let mut sink = Writing::new(io::writer(rt));
    let mut rack = MemRack::new(Vec::new(alloc), Vec::new(alloc));
    // No statement attaches a tap yet.
    let taps = Vec::new(alloc);
    let status = run_script(alloc, words, &mut source, &mut sink, &mut rack, taps);
    tell(rt, status, source.line());
    status
}

fn main(rt: HostRuntime) -> ExitCode {
    let words = match words_of(&rt) {
        Ok(words) => words,
        Err(why) => {
            // A word that is no text is a word too.
            let status = if why.kind() == io::ErrorKind::OutOfMemory {
                7
            } else {
                2
            };
            tell(&rt, status, &KeptLine::new());
            return ExitCode::from(status);
        }
    };
    ExitCode::from(run(&rt, &words))
}
