//! What the two halves of a mirror group are, and what each event makes of them: all of it in `specs/`, as moves.
#![tactic(auto)]
