// What is printed of answers.
ghost use Rattle.std.specs.Prelude.{◌≡◌, ◌++◌, ◌∷◌, IfOk, OnOk};
ghost use Rattle.std.specs.String.{string_bytes};
ghost use Rattle.std.specs.List.{flat_map};
ghost use Rattle.avs_model.specs.Printed.{answer_line, bad_line, blocks_text, second_text, group_text, set_text};
ghost use Rattle.avs_model.specs.declared.answer.Answer.TheVariants.{Shown, Up};

use crate::equal_runs::push_runs;
use avs_model::{Answer, EqualRuns, GroupLine, Recovered, Second, SetLine};
use avs_seg::NoMemory;
use std::alloc::Global;
use std::fmt::Write;

/// The lines of an answer, each with its line feed. Only memory can be wanting.
pub fn answer_line(alloc: Global, answer: &Answer) -> Result<String, NoMemory>
    ensures { IfOk result (λ line. string_bytes line ≡ answer_line answer.now) }
{
    match answer {
        Answer::Done => Ok(String::from_str(alloc, "ok\n")?),
        Answer::Shown(runs) => shown_line(alloc, runs),
        Answer::Down(host) => Ok(format!(in alloc; "down {host}\n")?),
        Answer::Up(told) => recovered_lines(alloc, told),
        Answer::Refused(why) => Ok(format!(in alloc; "refused {why}\n")?),
        Answer::Faulted(host) => Ok(format!(in alloc; "refused Fault {host}\n")?),
    }
}

// The line of blocks that were read.
fn shown_line(alloc: Global, runs: &EqualRuns) -> Result<String, NoMemory>
    ensures { IfOk result (λ line. string_bytes line ≡ answer_line (Shown runs.now)) }
{
    let mut line = String::from_str(alloc, "data ")?;
    push_runs(&mut line, runs)?;
    line.push('\n')?;
    Ok(line)
}

// The lines on a host that is up again.
fn recovered_lines(alloc: Global, told: &Recovered) -> Result<String, NoMemory>
    ensures { IfOk result (λ lines. string_bytes lines ≡ answer_line (Up told.now)) }
{
    let mut lines = format!(in alloc; "up {}\n", told.host)?;
    push_second(&mut lines, &told.second)?;
    push_groups(&mut lines, told.groups.as_slice())?;
    push_sets(&mut lines, told.sets.as_slice())?;
    lines.push('\n')?;
    Ok(lines)
}

// Appends what became of the event that a fault stopped.
fn push_second(text: &mut String, second: &Second) -> Result<(), NoMemory>
    ensures { OnOk result (string_bytes text.new ≡ string_bytes text.old ++ second_text second.now) }
{
    match second {
        Second::Torn { volume, at, blocks } => {
            write!(text, "torn {volume} {at}")?;
            push_blocks(text, blocks.as_slice())
        }
        Second::Kept => Ok(text.push_str("kept")?),
        Second::Done => Ok(text.push_str("done")?),
        Second::Clean => Ok(text.push_str("clean")?),
    }
}

// Appends the blocks of a write that read as written.
fn push_blocks(text: &mut String, blocks: &[u32]) -> Result<(), NoMemory>
    ensures { OnOk result (string_bytes text.new ≡ string_bytes text.old ++ blocks_text blocks.now) }
{
    for block in blocks {
        write!(text, " {block}")?;
    }
    Ok(())
}

// Appends the lines on groups, each behind a line feed.
fn push_groups(text: &mut String, lines: &[GroupLine]) -> Result<(), NoMemory>
    ensures { OnOk result (string_bytes text.new ≡ string_bytes text.old ++ flat_map (λ line. 10 ∷ group_text line) lines.now) }
{
    for line in lines {
        write!(text, "\n{line}")?;
    }
    Ok(())
}

// Appends the lines on shadow sets, each behind a line feed.
fn push_sets(text: &mut String, lines: &[SetLine]) -> Result<(), NoMemory>
    ensures { OnOk result (string_bytes text.new ≡ string_bytes text.old ++ flat_map (λ line. 10 ∷ set_text line) lines.now) }
{
    for line in lines {
        write!(text, "\n{line}")?;
    }
    Ok(())
}

/// The line for a line of a script that is no statement, with its line feed. `number` counts the script's lines from 1.
/// Only memory can be wanting.
pub fn bad_line(alloc: Global, number: u32) -> Result<String, NoMemory>
    ensures { IfOk result (λ line. string_bytes line ≡ bad_line number) }
{
    Ok(format!(in alloc; "bad line {number}\n")?)
}
