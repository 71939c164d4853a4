// Reads a line of a script.
ghost use Rattle.std.specs.Prelude.{◌≡◌, ◌≤◌, ◌↔◌, Some, None, Err, IfOk, IsSome, length};
ghost use Rattle.avs_seg.specs.Lines.{line_limit};
ghost use Rattle.avs_model.specs.Words.{words_of};
ghost use Rattle.avs_model.specs.Script.{volume_event, write_event, read_event, dependent_named, enable_command, ii_command, ii_event, host_alone, arm_event, fault_event, words_event, event_of, statement};
ghost use Rattle.avs_model.specs.Names.{disk_named};
ghost use Rattle.avs_model.specs.Fits.{StatementFits};

use crate::built::is_built;
use crate::error::LineError;
use avs_model::{ArmTarget, Event, Host, IiCommand, Name, Statement};
use avs_text::{WordReader, host_named, is_group_name, is_volume_name, number, pattern};
use std::alloc::Global;

// The most bytes of a line.
pub(crate) const LONGEST_LINE: usize = 4096;

// `volume H V N`, behind its first word.
fn read_volume(alloc: Global, words: &mut WordReader<'_>) -> Result<Event, LineError>
    ensures ok { IfOk result (λ event. volume_event words.old ≡ Some event) }
    ensures bad { (result ≡ Err LineError.Bad) ↔ (volume_event words.old ≡ None) }
{
    let (Some(host), Some(volume), Some(blocks), None) = (
        words.next(),
        words.next(),
        words.next(),
        words.next(),
    ) else {
        return Err(LineError::Bad);
    };
    let (Some(host), true, Some(blocks)) = (
        host_named(host),
        is_volume_name(volume),
        number(blocks),
    ) else {
        return Err(LineError::Bad);
    };
    let volume = Name::new(alloc, volume)?;
    Ok(Event::Volume {
        host,
        volume,
        blocks,
    })
}

// `write H V AT LEN HEX`, behind its first word.
fn read_write(alloc: Global, words: &mut WordReader<'_>) -> Result<Event, LineError>
    ensures ok { IfOk result (λ event. write_event words.old ≡ Some event) }
    ensures bad { (result ≡ Err LineError.Bad) ↔ (write_event words.old ≡ None) }
{
    let (Some(host), Some(volume), Some(at), Some(len), Some(hex), None) = (
        words.next(),
        words.next(),
        words.next(),
        words.next(),
        words.next(),
        words.next(),
    ) else {
        return Err(LineError::Bad);
    };
    let (Some(host), true, Some(at), Some(len), Some(pattern)) = (
        host_named(host),
        is_volume_name(volume),
        number(at),
        number(len),
        pattern(hex),
    ) else {
        return Err(LineError::Bad);
    };
    let volume = Name::new(alloc, volume)?;
    Ok(Event::Write {
        host,
        volume,
        at,
        len,
        pattern,
    })
}

// `read H V AT LEN`, behind its first word.
fn read_read(alloc: Global, words: &mut WordReader<'_>) -> Result<Event, LineError>
    ensures ok { IfOk result (λ event. read_event words.old ≡ Some event) }
    ensures bad { (result ≡ Err LineError.Bad) ↔ (read_event words.old ≡ None) }
{
    let (Some(host), Some(volume), Some(at), Some(len), None) = (
        words.next(),
        words.next(),
        words.next(),
        words.next(),
        words.next(),
    ) else {
        return Err(LineError::Bad);
    };
    let (Some(host), true, Some(at), Some(len)) = (
        host_named(host),
        is_volume_name(volume),
        number(at),
        number(len),
    ) else {
        return Err(LineError::Bad);
    };
    let volume = Name::new(alloc, volume)?;
    Ok(Event::Read {
        host,
        volume,
        at,
        len,
    })
}

// Whether a kind of shadow set is the dependent one.
fn is_dependent(word: &[u8]) -> Option<bool>
    ensures { result ≡ dependent_named word.now }
{
    if word == b"dep".as_slice() {
        return Some(true);
    }
    if word == b"ind".as_slice() {
        return Some(false);
    }
    None
}

// `KIND MASTER SHADOW BITMAP` of `iiadm H -e`, behind the letter.
fn read_enable(alloc: Global, words: &mut WordReader<'_>) -> Result<IiCommand, LineError>
    ensures ok { IfOk result (λ command. enable_command words.old ≡ Some command) }
    ensures bad { (result ≡ Err LineError.Bad) ↔ (enable_command words.old ≡ None) }
{
    let (Some(kind), Some(master), Some(shadow), Some(bitmap), None) = (
        words.next(),
        words.next(),
        words.next(),
        words.next(),
        words.next(),
    ) else {
        return Err(LineError::Bad);
    };
    let (Some(dependent), true, true, true) = (
        is_dependent(kind),
        is_volume_name(master),
        is_volume_name(shadow),
        is_volume_name(bitmap),
    ) else {
        return Err(LineError::Bad);
    };
    let master = Name::new(alloc, master)?;
    let shadow = Name::new(alloc, shadow)?;
    let bitmap = Name::new(alloc, bitmap)?;
    Ok(IiCommand::Enable {
        dependent,
        master,
        shadow,
        bitmap,
    })
}

// A command on shadow sets, from its letter on.
fn read_command(alloc: Global, words: &mut WordReader<'_>) -> Result<IiCommand, LineError>
    ensures ok { IfOk result (λ command. ii_command words.old ≡ Some command) }
    ensures bad { (result ≡ Err LineError.Bad) ↔ (ii_command words.old ≡ None) }
{
    let Some(letter) = words.next() else {
        return Err(LineError::Bad);
    };
    if letter == b"-e".as_slice() {
        return read_enable(alloc, words);
    }
    Err(LineError::Bad)
}

// `iiadm H REST`, behind its first word.
fn read_ii(alloc: Global, words: &mut WordReader<'_>) -> Result<Event, LineError>
    ensures ok { IfOk result (λ event. ii_event words.old ≡ Some event) }
    ensures bad { (result ≡ Err LineError.Bad) ↔ (ii_event words.old ≡ None) }
{
    let Some(host) = words.next() else {
        return Err(LineError::Bad);
    };
    let Some(host) = host_named(host) else {
        return Err(LineError::Bad);
    };
    match read_command(alloc, words) {
        Ok(command) => Ok(Event::Ii { host, command }),
        Err(why) => Err(why),
    }
}

// The disk that a word names: a volume's, or `state:` and a group's.
fn read_disk(alloc: Global, word: &[u8]) -> Result<ArmTarget, LineError>
    ensures ok { IfOk result (λ disk. disk_named word.now ≡ Some disk) }
    ensures bad { (result ≡ Err LineError.Bad) ↔ (disk_named word.now ≡ None) }
{
    if is_volume_name(word) {
        return Ok(ArmTarget::Volume(Name::new(alloc, word)?));
    }
    if word.starts_with(b"state:") && is_group_name(&word[6..]) {
        return Ok(ArmTarget::StateOf(Name::new(alloc, &word[6..])?));
    }
    Err(LineError::Bad)
}

// `arm H X SKIP FROM COUNT`, behind its first word.
fn read_arm(alloc: Global, words: &mut WordReader<'_>) -> Result<Event, LineError>
    ensures ok { IfOk result (λ event. arm_event words.old ≡ Some event) }
    ensures bad { (result ≡ Err LineError.Bad) ↔ (arm_event words.old ≡ None) }
{
    let (Some(host), Some(disk), Some(skip), Some(first), Some(count), None) = (
        words.next(),
        words.next(),
        words.next(),
        words.next(),
        words.next(),
        words.next(),
    ) else {
        return Err(LineError::Bad);
    };
    let (Some(host), Some(skip), Some(first), Some(count)) = (
        host_named(host),
        number(skip),
        number(first),
        number(count),
    ) else {
        return Err(LineError::Bad);
    };
    match read_disk(alloc, disk) {
        Ok(target) => Ok(Event::Arm {
            host,
            target,
            skip,
            first,
            count,
        }),
        Err(why) => Err(why),
    }
}

// The host of `crash H` and of `recover H`, behind the first word.
fn read_host(words: &mut WordReader<'_>) -> Option<Host>
    ensures { result ≡ host_alone words.old }
{
    let (Some(host), None) = (words.next(), words.next()) else {
        return None;
    };
    host_named(host)
}

// The event that a first word and the words behind it are, of those on faults.
fn read_fault(alloc: Global, word: &[u8], words: &mut WordReader<'_>) -> Result<Event, LineError>
    ensures ok { IfOk result (λ event. fault_event word.now words.old ≡ Some event) }
    ensures bad { (result ≡ Err LineError.Bad) ↔ (fault_event word.now words.old ≡ None) }
{
    if word == b"arm".as_slice() {
        return read_arm(alloc, words);
    }
    let crashes = word == b"crash".as_slice();
    if !crashes && word != b"recover".as_slice() {
        return Err(LineError::Bad);
    }
    let Some(host) = read_host(words) else {
        return Err(LineError::Bad);
    };
    if crashes {
        Ok(Event::Crash { host })
    } else {
        Ok(Event::Recover { host })
    }
}

// The event that a first word and the words behind it are.
pub(crate) fn read_event(
    alloc: Global,
    word: &[u8],
    words: &mut WordReader<'_>,
) -> Result<Event, LineError>
    ensures ok { IfOk result (λ event. words_event word.now words.old ≡ Some event) }
    ensures bad { (result ≡ Err LineError.Bad) ↔ (words_event word.now words.old ≡ None) }
{
    if word == b"volume".as_slice() {
        return read_volume(alloc, words);
    }
    if word == b"write".as_slice() {
        return read_write(alloc, words);
    }
    if word == b"read".as_slice() {
        return read_read(alloc, words);
    }
    if word == b"iiadm".as_slice() {
        return read_ii(alloc, words);
    }
    read_fault(alloc, word, words)
}

/// What a line says, which comes without its line feed. Takes memory for names alone, behind the
/// last word that can be bad.
pub fn read_line(alloc: Global, line: &[u8]) -> Result<Statement, LineError>
    ensures ok { IfOk result (λ said. statement line.now ≡ Some said) }
    ensures bad { result ≡ Err LineError.Bad → statement line.now ≡ None }
    ensures memory { result ≡ Err LineError.NoMemory → (length line.now ≤ line_limit) × IsSome (event_of (words_of line.now)) }
    ensures fits { IfOk result StatementFits }
{
    if LONGEST_LINE < line.len() {
        return Err(LineError::Bad);
    }
    let mut words = WordReader::new(line);
    let Some(word) = words.next() else {
        return Ok(Statement::Nothing);
    };
    if word[0] == b'#' {
        return Ok(Statement::Nothing);
    }
    let event = read_event(alloc, word, &mut words)?;
    if is_built(&event) {
        Ok(Statement::Run(event))
    } else {
        Err(LineError::Bad)
    }
}
