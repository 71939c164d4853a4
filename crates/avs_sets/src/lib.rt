//! A group of shadow sets of any kind over its disks: what they stand for, and lemmas on that. All of it in `specs/` and `proofs/`.
#![tactic(auto)]
