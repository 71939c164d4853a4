// Racks of disks in memory, which refuse the calls of a list.
ghost use Rattle.std.specs.Prelude.{◌≡◌, ◌↔◌, ◌≤◌, IfOk, IsTrue, is_ok};

use crate::mem_disk::MemDisk;
use crate::rack::{Rack, RackFault};
use std::alloc::Global;

/// A rack that makes disks in memory.
#[derive(Debug, Drop)]
pub struct MemRack {
    fails: Vec<u64>,
    disk_fails: Vec<u64>,
    calls: u64,
    faults: u64,
    made: u64,
}

impl MemRack {
    ghost use Rattle.avs_dev.specs.MemRacks.{rack_of, is_refusing, after_make};

    /// Its calls of `make` with the numbers of `fails` are refused, counted from 1. Each disk fails at the calls of `disk_fails`.
    pub fn new(fails: Vec<u64>, disk_fails: Vec<u64>) -> MemRack
        ensures { rack_of result ≡ record { fails = fails.items; disk_fails = disk_fails.items; calls = 0; faults = 0; made = 0 } }
    {
        MemRack {
            fails,
            disk_fails,
            calls: 0,
            faults: 0,
            made: 0,
        }
    }

    // Counts a call, and a refusal where the call is on the list. Says whether it is.
    fn refuses(&mut self) -> bool
        ensures answer { result ≡ is_refusing (rack_of self.old) }
        ensures after { rack_of self.new ≡ after_make (rack_of self.old) }
        ensures later { self.old.faults ≤ self.new.faults }
    {
        self.calls = self.calls.saturating_add(1);
        let refuses = self.fails.contains(&self.calls);
        if refuses {
            self.faults = self.faults.saturating_add(1);
        }
        refuses
    }
}

impl Rack for MemRack {
    ghost use Rattle.avs_dev.specs.Rack.{Makes};
    ghost use Rattle.avs_dev.specs.Memory.{state_of, seen_of, new_state};
    ghost use Rattle.avs_dev.specs.MemRacks.{rack_of, rack_seen_of, is_refusing, rack_after};

    type D = MemDisk;

    ghost seen = { λ r. rack_seen_of (rack_of r) };

    /// It is refused exactly where the list says so.
    fn make(&mut self, alloc: Global, blocks: u32) -> Result<MemDisk, RackFault>
        ensures makes { Makes (λ d. seen_of (state_of d)) (rack_seen_of (rack_of self.old)) blocks result (rack_seen_of (rack_of self.new)) }
        ensures refused { IsTrue (is_refusing (rack_of self.old)) ↔ (result ≡ Err RackFault.Refused) }
        ensures after { rack_of self.new ≡ rack_after (is_ok result) (rack_of self.old) }
        ensures made { IfOk result (λ d. state_of d ≡ new_state blocks (rack_of self.old).disk_fails) }
    {
        if self.refuses() {
            return Err(RackFault::Refused);
        }
        let fails = self.disk_fails.to_vec(alloc)?;
        let disk = MemDisk::new(alloc, blocks, fails)?;
        self.made = self.made.saturating_add(1);
        Ok(disk)
    }
}
