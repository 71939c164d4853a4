// What roles and states are, and the word that a state is told by.
ghost use Rattle.std.specs.Prelude.{◌≡◌};
ghost use Rattle.avs_mirrors.specs.Half.{is_receiver, is_session};
ghost use Rattle.avs_halves.specs.Words.{word_of};

use avs_model::{HalfRole, State, Word};

/// Whether a half of this role receives.
pub fn is_receiver(role: HalfRole) -> bool
    ensures { result ≡ is_receiver role }
{
    match role {
        HalfRole::Receiver => true,
        HalfRole::Lone | HalfRole::Sender => false,
    }
}

/// Whether a state is one of a session.
pub fn is_session(state: State) -> bool
    ensures { result ≡ is_session state }
{
    match state {
        State::Logging => false,
        State::Syncing | State::Receiving | State::Replicating | State::Queuing => true,
    }
}

/// The word that a state is told by.
pub fn word_of(state: State) -> Word
    ensures { result ≡ word_of state }
{
    match state {
        State::Logging => Word::Logging,
        State::Syncing => Word::Syncing,
        State::Receiving => Word::Receiving,
        State::Replicating => Word::Replicating,
        State::Queuing => Word::Queuing,
    }
}
