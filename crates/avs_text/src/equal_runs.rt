// What is printed of runs of equal blocks.
ghost use Rattle.std.specs.Prelude.{◌≡◌, ◌*◌, ◌/◌, ◌<◌, ◌++◌, length, IfOk, OnOk};
ghost use Rattle.std.specs.Fmt.{decimal};
ghost use Rattle.std.specs.String.{string_bytes};
ghost use Rattle.avs_seg.specs.Image.{blocks_of};
ghost use Rattle.avs_model.specs.EqualBlocks.{runs_of, run_at};
ghost use Rattle.avs_model.specs.Printed.{hex_digit, hex_text, run_text, runs_text};

use avs_model::EqualRuns;
use avs_seg::NoMemory;
use std::alloc::Global;
use std::fmt::Write;

/// What is printed of whole blocks: each run of equal ones as their number, `*` and the digits of the shortest pattern that fills such a
/// block, and one space between two runs. Only memory can be wanting.
pub fn runs(alloc: Global, bytes: &[u8]) -> Result<String, NoMemory>
    requires { 512 * (length bytes.now / 512) ≡ length bytes.now }
    ensures { IfOk result (λ text. string_bytes text ≡ runs_text (blocks_of bytes.now)) }
{
    let mut held = EqualRuns::new(alloc);
    held.push(bytes)?;
    let mut text = String::new(alloc);
    push_runs(&mut text, &held)?;
    Ok(text)
}

// Appends what is printed of blocks: each run of equal ones as their number, `*` and the digits of the shortest pattern that fills such a
// block, and one space between two runs.
pub(crate) fn push_runs(text: &mut String, runs: &EqualRuns) -> Result<(), NoMemory>
    ensures { OnOk result (string_bytes text.new ≡ string_bytes text.old ++ runs_text runs.now) }
{
    let count = runs.len();
    if count == 0 {
        return Ok(());
    }
    push_run(text, runs, 0)?;
    for index in 1..count {
        text.push(' ')?;
        push_run(text, runs, index)?;
    }
    Ok(())
}

// Appends what is printed of one run.
fn push_run(text: &mut String, runs: &EqualRuns, index: usize) -> Result<(), NoMemory>
    requires { index < length (runs_of runs.now) }
    ensures { OnOk result (string_bytes text.new ≡ string_bytes text.old ++ run_text (run_at runs.now index)) }
{
    push_count(text, runs.count(index))?;
    text.push('*')?;
    push_hex(text, runs.pattern(index))
}

// Appends a number. Most runs have fewer blocks than ten.
fn push_count(text: &mut String, count: usize) -> Result<(), NoMemory>
    ensures { OnOk result (string_bytes text.new ≡ string_bytes text.old ++ decimal count) }
{
    if count < 10 {
        text.push(hex_digit(count as u8))?;
        return Ok(());
    }
    write!(text, "{count}")?;
    Ok(())
}

// Appends the two digits of each byte.
fn push_hex(text: &mut String, bytes: &[u8]) -> Result<(), NoMemory>
    ensures { OnOk result (string_bytes text.new ≡ string_bytes text.old ++ hex_text bytes.now) }
{
    text.reserve(2 * bytes.len())?;
    for byte in bytes {
        text.push(hex_digit(byte / 16))?;
        text.push(hex_digit(byte % 16))?;
    }
    Ok(())
}

// A lower-case hexadecimal digit.
fn hex_digit(n: u8) -> char
    requires { n < 16 }
    ensures { result ≡ hex_digit n }
{
    char::from(if n < 10 { b'0' + n } else { b'a' + (n - 10) })
}
