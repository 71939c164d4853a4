// Sources and sinks in memory, which fail at the calls that they are told.
ghost use Rattle.std.specs.Prelude.{◌≡◌, ◌≤◌, ◌<◌, [], ℕ, Some, length, take, IfOk, OnErr, OnOk};
ghost use Rattle.std.specs.Io.KnownBytes.{prepend_known, append_known, IsAtEnd};
ghost use Rattle.avs_seg.specs.Causes.{HasCause};
ghost use Rattle.avs_io.specs.Counts.{one_more};

use crate::stream::{Sink, Source};
use avs_seg::{Failed, NoMemory};
use std::alloc::Global;
use std::marker::Model;

// Counts a fault.
fn fault(faults: &mut u64) -> Failed
    ensures { faults.new ≡ one_more faults.old }
{
    *faults = faults.saturating_add(1);
    Failed
}

/// A source over bytes in memory.
#[derive(Drop)]
pub struct MemSource {
    bytes: Vec<u8>,
    at: usize,
    piece: u32,
    fails: Vec<u64>,
    calls: u64,
    faults: u64,
}

impl Model for MemSource {
    ghost use Rattle.std.specs.Prelude.{◌≤◌, ◌<◌, vec_len};
    ghost use Rattle.avs_io.specs.Memory.{Supply, supply_of};

    ghost Value = { Supply };

    ghost view = { supply_of };

    ghost invariant = { λ s. (s.at ≤ vec_len s.bytes) × (0 < s.piece) };
}

impl MemSource {
    ghost use Rattle.avs_io.specs.Memory.{no_calls};

    /// Gives at most `piece` bytes at a call. The calls whose numbers are listed fail, counted
    /// from 1.
    pub fn new(bytes: Vec<u8>, piece: u32, fails: Vec<u64>) -> MemSource
        requires { 0 < piece }
        ensures { result ≡ record { left = bytes.items; piece = piece; calls = no_calls fails.items } }
    {
        MemSource {
            bytes,
            at: 0,
            piece,
            fails,
            calls: 0,
            faults: 0,
        }
    }
}

impl Source for MemSource {
    ghost use Rattle.avs_io.specs.Memory.{Supplies};

    ghost left = { λ s. Some s.left };

    ghost faults = { λ s. s.calls.faults };

    fn read(&mut self, out: &mut [u8]) -> Result<usize, Failed>
        ensures bound { IfOk result (λ n. n ≤ length out.new) }
        ensures bytes { IfOk result (λ n. Some self.old.left ≡ prepend_known (take n out.new) (Some self.new.left)) }
        ensures end { IfOk result (λ n. n ≡ 0 → 0 < length out.new → IsAtEnd (Some self.new.left)) }
        ensures kept { OnErr result (Some self.new.left ≡ Some self.old.left) }
        ensures cause { HasCause self.old.calls.faults self.new.calls.faults result }
        ensures quiet { OnOk result (self.new.calls.faults ≡ self.old.calls.faults) }
        ensures supplies { Supplies self.old self.new (length out.new) result }
    {
        self.calls = self.calls.saturating_add(1);
        if self.fails.contains(&self.calls) {
            return Err(fault(&mut self.faults));
        }
        let rest = &self.bytes[self.at..];
        let count = rest.len().min(out.len()).min(self.piece as usize);
        out[..count].copy_from_slice(&rest[..count]);
        self.at += count;
        Ok(count)
    }
}

/// A sink that keeps what it takes in memory.
#[derive(Drop)]
pub struct MemSink {
    bytes: Vec<u8>,
    room: u32,
    fails: Vec<u64>,
    calls: u64,
    faults: u64,
}

impl Model for MemSink {
    ghost use Rattle.std.specs.Prelude.{◌≤◌, vec_capacity};
    ghost use Rattle.avs_io.specs.Memory.{Store, store_of};

    ghost Value = { Store };

    ghost view = { store_of };

    ghost invariant = { λ s. s.room ≤ vec_capacity s.bytes };
}

impl MemSink {
    ghost use Rattle.avs_io.specs.Memory.{no_calls};

    /// Has room for so many bytes. The calls whose numbers are listed fail, counted from 1.
    pub fn new(alloc: Global, room: u32, fails: Vec<u64>) -> Result<MemSink, NoMemory>
        ensures { IfOk result (λ sink. sink ≡ record { taken = []; room = room; calls = no_calls fails.items }) }
    {
        Ok(MemSink {
            bytes: Vec::with_capacity(alloc, room as usize)?,
            room,
            fails,
            calls: 0,
            faults: 0,
        })
    }

    /// What it has taken.
    pub fn bytes(&self) -> &[u8]
        ensures { result.now ≡ self.now.taken }
    {
        &self.bytes
    }
}

impl Sink for MemSink {
    ghost use Rattle.avs_io.specs.Memory.{Stores};

    ghost written = { λ s. Some s.taken };

    ghost faults = { λ s. s.calls.faults };

    /// Takes what still fits, and no memory.
    fn write(&mut self, bytes: &[u8]) -> Result<usize, Failed>
        ensures bound { IfOk result (λ n. n ≤ length bytes.now) }
        ensures some { IfOk result (λ n. 0 < length bytes.now → 0 < n) }
        ensures bytes { IfOk result (λ n. Some self.new.taken ≡ append_known (Some self.old.taken) (take n bytes.now)) }
        ensures kept { OnErr result (Some self.new.taken ≡ Some self.old.taken) }
        ensures cause { HasCause self.old.calls.faults self.new.calls.faults result }
        ensures quiet { OnOk result (self.new.calls.faults ≡ self.old.calls.faults) }
        ensures stores { Stores self.old self.new bytes.now result }
    {
        self.calls = self.calls.saturating_add(1);
        if self.fails.contains(&self.calls) {
            return Err(fault(&mut self.faults));
        }
        let free = (self.room as usize).saturating_sub(self.bytes.len());
        let count = bytes.len().min(free);
        if count == 0 && !bytes.is_empty() {
            return Err(fault(&mut self.faults));
        }
        if self.bytes.extend_from_slice(&bytes[..count]).is_err() {
            unreachable!();
        }
        Ok(count)
    }
}
