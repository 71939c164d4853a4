// Why a line is no statement.
ghost use Rattle.std.specs.Prelude.{◌≡◌, ◌≤◌, ◌↔◌, Some, None, IfOk, IsErr, IsSome, length};
ghost use Rattle.avs_seg.specs.Lines.{line_limit};
ghost use Rattle.avs_model.specs.Words.{words_of};
ghost use Rattle.avs_model.specs.Script.{event_of, statement};
ghost use Rattle.avs_script.specs.Reason.{is_number, volume_number, write_numbers, read_numbers, is_disk_to_come, why_arm, is_set_option, is_volume_option, is_option_to_come, why_ii, is_mirror_to_come, is_other_to_come, is_to_come, is_there, by_numbers, why_at_host, why, why_words, words_reason, reason_of};

use crate::built::is_built;
use crate::error::LineError;
use crate::line::{LONGEST_LINE, read_event};
use avs_seg::NoMemory;
use avs_text::{WordReader, host_named, is_group_name, number};
use std::alloc::Global;

/// Why a line is no statement.
#[derive(Clone, Copy, Debug, PartialEq, Eq)]
pub enum BadLine {
    /// It has more than 4,096 bytes.
    TooLong,
    /// No statement begins with its first word.
    NoSuchStatement,
    /// Its first word begins a statement, and no host is named behind it.
    NoHost,
    /// Its first word begins a statement, and the words behind it are not those of this statement.
    WrongWords,
    /// It has as many words as its statement, and one where a number belongs is none.
    NotANumber,
    /// It is a statement or an option of the product that is not there yet.
    NotBuilt,
}

fn is_number(word: &[u8]) -> bool
    ensures { result ≡ is_number word.now }
{
    number(word).is_some()
}

// Whether N of `volume H V N` is a number, behind the host.
fn volume_number(words: &mut WordReader<'_>) -> bool
    ensures { result ≡ volume_number words.old }
{
    let (Some(_), Some(blocks), None) = (words.next(), words.next(), words.next()) else {
        return true;
    };
    is_number(blocks)
}

// Whether AT and LEN of `write H V AT LEN HEX` are numbers, behind the host.
fn write_numbers(words: &mut WordReader<'_>) -> bool
    ensures { result ≡ write_numbers words.old }
{
    let (Some(_), Some(at), Some(len), Some(_), None) = (
        words.next(),
        words.next(),
        words.next(),
        words.next(),
        words.next(),
    ) else {
        return true;
    };
    is_number(at) && is_number(len)
}

// Whether AT and LEN of `read H V AT LEN` are numbers, behind the host.
fn read_numbers(words: &mut WordReader<'_>) -> bool
    ensures { result ≡ read_numbers words.old }
{
    let (Some(_), Some(at), Some(len), None) = (
        words.next(),
        words.next(),
        words.next(),
        words.next(),
    ) else {
        return true;
    };
    is_number(at) && is_number(len)
}

// Whether a word names a disk for `arm` that is not there yet.
fn is_disk_to_come(word: &[u8]) -> bool
    ensures { result ≡ is_disk_to_come word.now }
{
    word == b"config:".as_slice() || word.starts_with(b"land:") && is_group_name(&word[5..])
}

// Why the words of `arm H X SKIP FROM COUNT` behind the host are no event.
fn why_arm(words: &mut WordReader<'_>) -> BadLine
    ensures { result ≡ why_arm words.old }
{
    let (Some(disk), Some(skip), Some(first), Some(count), None) = (
        words.next(),
        words.next(),
        words.next(),
        words.next(),
        words.next(),
    ) else {
        return BadLine::WrongWords;
    };
    if !(is_number(skip) && is_number(first) && is_number(count)) {
        return BadLine::NotANumber;
    }
    if is_disk_to_come(disk) {
        BadLine::NotBuilt
    } else {
        BadLine::WrongWords
    }
}

// Whether a word is an option of `iiadm` before a command, or for a command on sets, that is not there yet.
fn is_set_option(word: &[u8]) -> bool
    ensures { result ≡ is_set_option word.now }
{
    word == b"-n".as_slice()
        || word == b"-g".as_slice()
        || word == b"-C".as_slice()
        || word == b"-d".as_slice()
        || word == b"-u".as_slice()
        || word == b"-c".as_slice()
        || word == b"-a".as_slice()
        || word == b"-w".as_slice()
        || word == b"-l".as_slice()
        || word == b"-i".as_slice()
}

// Whether a word is an option of `iiadm` for a command on overflow volumes, exports or imports.
fn is_volume_option(word: &[u8]) -> bool
    ensures { result ≡ is_volume_option word.now }
{
    word == b"-O".as_slice()
        || word == b"-A".as_slice()
        || word == b"-D".as_slice()
        || word == b"-Q".as_slice()
        || word == b"-E".as_slice()
        || word == b"-I".as_slice()
        || word == b"-J".as_slice()
}

fn is_option_to_come(word: &[u8]) -> bool
    ensures { result ≡ is_option_to_come word.now }
{
    is_set_option(word) || is_volume_option(word)
}

// Why the words of `iiadm H REST` behind the host are no event.
fn why_ii(words: &mut WordReader<'_>) -> BadLine
    ensures { result ≡ why_ii words.old }
{
    let Some(option) = words.next() else {
        return BadLine::WrongWords;
    };
    if is_option_to_come(option) {
        BadLine::NotBuilt
    } else {
        BadLine::WrongWords
    }
}

// Whether statements of mirrors that are not there yet begin with a word.
fn is_mirror_to_come(word: &[u8]) -> bool
    ensures { result ≡ is_mirror_to_come word.now }
{
    word == b"sndradm".as_slice()
        || word == b"sync".as_slice()
        || word == b"take".as_slice()
        || word == b"carry".as_slice()
        || word == b"back".as_slice()
        || word == b"lose".as_slice()
        || word == b"settle".as_slice()
        || word == b"bits".as_slice()
        || word == b"fetch".as_slice()
}

// Whether other statements that are not there yet begin with a word.
fn is_other_to_come(word: &[u8]) -> bool
    ensures { result ≡ is_other_to_come word.now }
{
    word == b"copy".as_slice()
        || word == b"dsstat".as_slice()
        || word == b"file".as_slice()
        || word == b"link".as_slice()
        || word == b"move".as_slice()
        || word == b"tap".as_slice()
        || word == b"upgrade".as_slice()
        || word == b"version".as_slice()
}

fn is_to_come(word: &[u8]) -> bool
    ensures { result ≡ is_to_come word.now }
{
    is_mirror_to_come(word) || is_other_to_come(word)
}

// Whether statements that are there begin with a word. A host stands behind each.
fn is_there(word: &[u8]) -> bool
    ensures { result ≡ is_there word.now }
{
    word == b"volume".as_slice()
        || word == b"write".as_slice()
        || word == b"read".as_slice()
        || word == b"iiadm".as_slice()
        || word == b"arm".as_slice()
        || word == b"crash".as_slice()
        || word == b"recover".as_slice()
}

fn by_numbers(numbers: bool) -> BadLine
    ensures { result ≡ by_numbers numbers }
{
    if numbers {
        BadLine::WrongWords
    } else {
        BadLine::NotANumber
    }
}

// Why a first word that is there, and the words behind the host, are no event.
fn why_at_host(word: &[u8], words: &mut WordReader<'_>) -> BadLine
    ensures { result ≡ why_at_host word.now words.old }
{
    if word == b"volume".as_slice() {
        return by_numbers(volume_number(words));
    }
    if word == b"write".as_slice() {
        return by_numbers(write_numbers(words));
    }
    if word == b"read".as_slice() {
        return by_numbers(read_numbers(words));
    }
    if word == b"arm".as_slice() {
        return why_arm(words);
    }
    if word == b"iiadm".as_slice() {
        return why_ii(words);
    }
    BadLine::WrongWords
}

// Why a first word and the words behind it are no event.
fn why(word: &[u8], words: &mut WordReader<'_>) -> BadLine
    ensures { result ≡ why word.now words.old }
{
    if !is_there(word) {
        return if is_to_come(word) {
            BadLine::NotBuilt
        } else {
            BadLine::NoSuchStatement
        };
    }
    let Some(host) = words.next() else {
        return BadLine::NoHost;
    };
    if host_named(host).is_none() {
        return BadLine::NoHost;
    }
    why_at_host(word, words)
}

// Why the words of a line are no event.
fn why_line(line: &[u8]) -> BadLine
    ensures { result ≡ why_words (words_of line.now) }
{
    let mut words = WordReader::new(line);
    match words.next() {
        Some(word) => why(word, &mut words),
        None => BadLine::NoSuchStatement,
    }
}

// Why the words of a line are no statement, where they are none.
fn words_reason(alloc: Global, line: &[u8]) -> Result<Option<BadLine>, NoMemory>
    ensures is { IfOk result (λ found. found ≡ words_reason (words_of line.now)) }
    ensures memory { IsErr result → IsSome (event_of (words_of line.now)) }
{
    let mut words = WordReader::new(line);
    let Some(word) = words.next() else {
        return Ok(None);
    };
    if word[0] == b'#' {
        return Ok(None);
    }
    match read_event(alloc, word, &mut words) {
        Ok(event) => Ok(if is_built(&event) {
            None
        } else {
            Some(BadLine::NotBuilt)
        }),
        Err(LineError::NoMemory) => Err(NoMemory),
        Err(LineError::Bad) => Ok(Some(why_line(line))),
    }
}

/// Why a line, which comes without its line feed, is no statement: a reason exactly where it is
/// none. Takes memory for names alone, where its words are an event.
pub fn reason(alloc: Global, line: &[u8]) -> Result<Option<BadLine>, NoMemory>
    ensures is { IfOk result (λ found. found ≡ reason_of line.now) }
    ensures exact { IfOk result (λ found. (found ≡ None) ↔ IsSome (statement line.now)) }
    ensures memory { IsErr result → (length line.now ≤ line_limit) × IsSome (event_of (words_of line.now)) }
{
    if LONGEST_LINE < line.len() {
        return Ok(Some(BadLine::TooLong));
    }
    words_reason(alloc, line)
}
