// Segments that are looked at when an idle one is asked for.
ghost use Rattle.std.specs.Prelude.{◌≡◌, ◌<◌, ℕ, true, false, IfOk, IfSome, IfNone, length, replicate, slice_set};
ghost use Rattle.avs_refs.specs.Listed.{has_at, Takes};

use std::alloc::{AllocError, Global};
use std::marker::Model;

/// Segments in no order, each at most once. There is room for all.
#[derive(Debug, Drop)]
pub(crate) struct Candidates {
    stack: Vec<u32>,
    has: Vec<bool>,
}

impl Model for Candidates {
    ghost use Rattle.std.specs.Prelude.{◌≤◌, length, vec_len, vec_capacity};
    ghost use Rattle.avs_refs.specs.Listed.{Listed, IsStacked};

    ghost Value = { Listed };

    ghost view = { λ c. record { has = c.has.items; left = length c.stack.items } };

    ghost invariant = { λ c. IsStacked c.stack.items c.has.items × (vec_len c.has ≤ vec_capacity c.stack) };
}

impl Candidates {
    pub(crate) fn new(alloc: Global, segs: u32) -> Result<Candidates, AllocError>
        ensures { IfOk result (λ c. c.has ≡ replicate segs false) }
    {
        Ok(Candidates {
            stack: Vec::with_capacity(alloc, segs as usize)?,
            has: vec![in alloc; false; segs as usize]?,
        })
    }

    pub(crate) fn insert(&mut self, seg: u32)
        requires { seg < length self.old.has }
        ensures { self.new.has ≡ slice_set self.old.has seg true }
    {
        if !self.has[seg as usize] {
            self.has[seg as usize] = true;
            self.stack.push_reserved(seg);
        }
    }

    pub(crate) fn take(&mut self) -> Option<u32>
        ensures some { IfSome result (λ seg. Takes self.old seg self.new) }
        ensures none { IfNone result ((seg : ℕ) → has_at self.old.has seg ≡ false) }
        ensures unchanged { IfNone result (self.new ≡ self.old) }
    {
        let seg = self.stack.pop()?;
        self.has[seg as usize] = false;
        Some(seg)
    }
}
