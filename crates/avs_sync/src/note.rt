// The note of a half: 64 bytes that lie below it.
ghost use Rattle.std.specs.Prelude.{◌≡◌};
ghost use Rattle.avs_code.specs.Rules.{Reads};
ghost use Rattle.avs_sync.specs.Note.{IsNote, NoteKeeps, note_at, note_rules, is_rest, role_byte, role_of, state_byte, state_of, most_state, reverse_byte};

use avs_code::{
    BadRecord, MAX_NUMBER, check, is_zero, is_zero_from, put_part, put_u16, put_u64, start, u16_at,
    u64_at,
};
use avs_model::{HalfRole, State};

/// The bytes of a note.
pub const NOTE: usize = 64;

/// What a half keeps of its session. A note of zeros is that of a half that was in none.
#[derive(Clone, Copy, Debug, PartialEq, Eq)]
pub struct Note {
    /// The number of the session that it was in last, at most 2^62, or 0.
    pub session: u64,
    pub role: HalfRole,
    /// One of the states that a half of that role may have.
    pub state: State,
    /// The slots of the mirror sets whose volumes have no contents: bit i stands for slot i.
    pub empty: u16,
    /// Whether the session goes from host `s` to host `p`.
    pub reverse: bool,
    /// The place of the session's mark, where it is known as applied or was applied here; else 0.
    pub mark: u64,
}

/// Writes the bytes that stand for a note.
pub fn put_note(x: &Note, out: &mut [u8; NOTE])
    requires { NoteKeeps x.now }
    ensures { IsNote out.new x.now }
{
    start(out, &[]);
    put_u64(out, 0, x.session);
    put_part(out, 8, &[role_byte(x.role), state_byte(x.state)]);
    put_u16(out, 10, x.empty);
    put_part(out, 12, &[reverse_byte(x.reverse), 0, 0, 0]);
    put_u64(out, 16, x.mark);
}

/// The note that bytes stand for. The fields are numbered session 0, role 1, state 2, empty slots 3, direction 4,
/// mark 5, and 6 the bytes that belong to none.
pub fn get_note(bytes: &[u8; NOTE]) -> Result<Note, BadRecord>
    ensures { Reads IsNote note_rules bytes.now result }
{
    check(&note_rules(bytes))?;
    Ok(note_at(bytes))
}

// The fields as they lie in the bytes.
fn note_at(bytes: &[u8; NOTE]) -> Note
    ensures { result ≡ note_at bytes.now }
{
    let role = role_of(bytes[8]);
    Note {
        session: u64_at(bytes, 0),
        role,
        state: state_of(role, bytes[9]),
        empty: u16_at(bytes, 10),
        reverse: bytes[12] == 1,
        mark: u64_at(bytes, 16),
    }
}

// Whether each field keeps its rule; `true` stands for one without a rule.
fn note_rules(bytes: &[u8; NOTE]) -> [bool; 7]
    ensures { result ≡ note_rules bytes.now }
{
    [
        u64_at(bytes, 0) <= MAX_NUMBER,
        bytes[8] <= 2,
        bytes[9] <= most_state(role_of(bytes[8])),
        true,
        bytes[12] <= 1,
        u64_at(bytes, 16) <= MAX_NUMBER,
        is_rest(bytes),
    ]
}

// Whether the bytes that belong to no field are zeros.
fn is_rest(bytes: &[u8; NOTE]) -> bool
    ensures { result ≡ is_rest bytes.now }
{
    is_zero(&bytes[13..16]) && is_zero_from(bytes, 24)
}

fn role_byte(role: HalfRole) -> u8
    ensures { result ≡ role_byte role }
{
    match role {
        HalfRole::Lone => 0,
        HalfRole::Sender => 1,
        HalfRole::Receiver => 2,
    }
}

fn role_of(byte: u8) -> HalfRole
    ensures { result ≡ role_of byte }
{
    match byte {
        1 => HalfRole::Sender,
        2 => HalfRole::Receiver,
        _ => HalfRole::Lone,
    }
}

fn reverse_byte(reverse: bool) -> u8
    ensures { result ≡ reverse_byte reverse }
{
    if reverse { 1 } else { 0 }
}

fn state_byte(state: State) -> u8
    ensures { result ≡ state_byte state }
{
    match state {
        State::Logging => 0,
        State::Syncing | State::Receiving => 1,
        State::Replicating => 2,
        State::Queuing => 3,
    }
}

fn state_of(role: HalfRole, byte: u8) -> State
    ensures { result ≡ state_of role byte }
{
    match byte {
        1 if role == HalfRole::Receiver => State::Receiving,
        1 => State::Syncing,
        2 => State::Replicating,
        3 => State::Queuing,
        _ => State::Logging,
    }
}

// The greatest state byte of a half of that role.
fn most_state(role: HalfRole) -> u8
    ensures { result ≡ most_state role }
{
    match role {
        HalfRole::Lone => 0,
        HalfRole::Sender => 3,
        HalfRole::Receiver => 2,
    }
}
