// Of the segments of a set: which place touched each last, and which wait to be copied.
ghost use Rattle.std.specs.Prelude.{◌≡◌, false, IfOk, replicate};
ghost use Rattle.avs_refs.specs.Places.{untouched};

use crate::waiting::Waiting;
use avs_refs::Refs;
use avs_seg::NoMemory;
use std::alloc::Global;

#[derive(Debug, Drop)]
pub(crate) struct Tracked {
    pub(crate) touched: Refs,
    pub(crate) waiting: Waiting,
}

impl Tracked {
    // No segment of so many is touched, and none waits.
    pub(crate) fn new(alloc: Global, segs: u32, places: u32) -> Result<Tracked, NoMemory>
        ensures touched { IfOk result (λ t. t.touched ≡ untouched segs places) }
        ensures waiting { IfOk result (λ t. t.waiting ≡ replicate segs false) }
    {
        Ok(Tracked {
            touched: Refs::new(alloc, segs, places)?,
            waiting: Waiting::new(alloc, segs)?,
        })
    }
}
