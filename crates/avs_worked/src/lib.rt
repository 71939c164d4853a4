//! Scripts worked over the definitions of `avs_model` by hand: all of it in `proofs/`.
#![tactic(auto)]
