// Segments that wait to be copied.
ghost use Rattle.std.specs.Prelude.{◌≡◌, ◌<◌, ◌≤◌, ℕ, false, true, IfOk, IfSome, IfNone, length, replicate, slice_set, slice_index_or};
ghost use Rattle.avs_sender.specs.Waits.{waits_at, IsFirstFrom, IsLeastWaiting};

use avs_seg::NoMemory;
use std::alloc::Global;
use std::marker::Model;

/// Which segments of a set wait to be copied. The least one is looked for from where the last one was found on, and not from the
/// first segment.
#[derive(Debug, Drop)]
pub(crate) struct Waiting {
    waits: Vec<bool>,
    // No segment below this one waits.
    from: usize,
}

impl Model for Waiting {
    ghost use Rattle.std.specs.Prelude.{Bool, List};
    ghost use Rattle.avs_sender.specs.Waits.{WaitFrom};

    ghost Value = { List Bool };

    ghost view = { λ w. w.waits.items };

    ghost invariant = { λ w. WaitFrom w.waits.items w.from };
}

// The first place from one on where there is true.
fn first_from(waits: &[bool], from: usize) -> Option<usize>
    ensures some { IfSome result (IsFirstFrom waits.now from) }
    ensures none { IfNone result ((i : ℕ) → from ≤ i → waits_at waits.now i ≡ false) }
{
    for i in from..waits.len() {
        if waits[i] {
            return Some(i);
        }
    }
    None
}

impl Waiting {
    /// None of so many segments waits.
    pub(crate) fn new(alloc: Global, segs: u32) -> Result<Waiting, NoMemory>
        ensures { IfOk result (λ w. w ≡ replicate segs false) }
    {
        Ok(Waiting {
            waits: vec![in alloc; false; segs as usize]?,
            from: 0,
        })
    }

    /// Whether a segment waits.
    pub(crate) fn has(&self, seg: u32) -> bool
        requires { seg < length self.now }
        ensures { result ≡ waits_at self.now seg }
    {
        self.waits[seg as usize]
    }

    /// A segment waits from now on.
    pub(crate) fn insert(&mut self, seg: u32)
        requires { seg < length self.old }
        ensures { self.new ≡ slice_set self.old seg true }
    {
        self.waits[seg as usize] = true;
        self.from = self.from.min(seg as usize);
    }

    /// A segment waits no more.
    pub(crate) fn remove(&mut self, seg: u32)
        requires { seg < length self.old }
        ensures { self.new ≡ slice_set self.old seg false }
    {
        self.waits[seg as usize] = false;
    }

    /// The least segment that waits.
    pub(crate) fn least(&mut self) -> Option<u32>
        ensures kept { self.new ≡ self.old }
        ensures some { IfSome result (IsLeastWaiting self.old) }
        ensures none { IfNone result ((seg : ℕ) → waits_at self.old seg ≡ false) }
    {
        let found = first_from(&self.waits, self.from);
        self.from = found.unwrap_or(self.waits.len());
        Some(found? as u32)
    }
}
