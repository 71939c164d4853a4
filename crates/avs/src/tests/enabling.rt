// A tear at each write of the enabling of a set, also of the state disk that the enabling asks for.
ghost use Rattle.std.specs.Prelude.{◌≡◌, true, false, refl, IfOk, None};
ghost use Rattle.avs_dev.specs.Memory.{state_of, seen_of};
ghost use Rattle.avs_seg.specs.Image.{blank};

use super::{copy, same};
use avs_dev::{Arm, Disk, MemDisk, Rack, RackFault, Tear};
use avs_io::{MemSink, MemSource};
use avs_run::run_script;
use avs_seg::{Failed, NoMemory};
use std::alloc::Global;
use std::process::Abort;

/// A disk in memory that may come with a tear, which it does not show. It lets no other be armed.
#[derive(Drop)]
struct Prepared {
    disk: MemDisk,
}

impl Disk for Prepared {
    ghost seen = { λ p. record (seen_of (state_of p.disk)) { steady = false; armed = false; tear = None; arms = false } };

    ghost fits = { λ p. p.disk.in_range };

    ghost armed_is = { λ _. refl };

    fn blocks(&self) -> u32 {
        self.disk.blocks()
    }

    fn read(&mut self, at: u32, out: &mut [u8]) -> Result<(), Failed> {
        self.disk.read(at, out)
    }

    fn write(&mut self, at: u32, bytes: &[u8]) -> Result<(), Failed> {
        self.disk.write(at, bytes)
    }

    fn written(&self) -> u64 {
        self.disk.written()
    }
}

impl Arm for Prepared {
    ghost steady_arms = { λ _ steady. steady };

    fn arm(&mut self, _tear: Tear) -> bool {
        false
    }
}

// A disk of zeros, with that tear.
fn disk_with(alloc: Global, blocks: u32, tear: Option<Tear>) -> Result<MemDisk, NoMemory>
    ensures { IfOk result (λ disk. record (seen_of (state_of disk)) { steady = false; armed = false; tear = None; arms = false }
        ≡ record { image = blank blocks; size = blocks; faults = 0; written = 0; steady = false; armed = false; tear = None; arms = false }) }
{
    let mut disk = MemDisk::new(alloc, blocks, Vec::new(alloc))?;
    if let Some(tear) = tear {
        let _ = disk.arm(tear);
    }
    Ok(disk)
}

/// A rack whose disk of one number, counted from 1, comes with a tear.
#[derive(Drop)]
struct Preparing {
    made: u64,
    number: u32,
    tear: Tear,
}

impl Rack for Preparing {
    type D = Prepared;

    ghost seen = { λ r. record { faults = 0; made = r.made; tells = true; steady = false } };

    fn make(&mut self, alloc: Global, blocks: u32) -> Result<Prepared, RackFault> {
        let tear = if self.made.saturating_add(1) == u64::from(self.number) {
            Some(self.tear)
        } else {
            None
        };
        match disk_with(alloc, blocks, tear) {
            Ok(disk) => {
                self.made = self.made.saturating_add(1);
                Ok(Prepared { disk })
            }
            Err(NoMemory) => Err(RackFault::NoMemory),
        }
    }
}

/// A disk that the enabling writes.
#[derive(Clone, Copy)]
enum Which {
    /// The bitmap: its label, and the states of the chunks in both areas.
    Bitmap,
    /// The state disk: its label with a group without sets, and the group with the set.
    State,
}

impl Which {
    // Its number in the order of making.
    fn number(self) -> u32 {
        match self {
            Which::Bitmap => 3,
            Which::State => 4,
        }
    }

    // How often it is written.
    fn times(self) -> u32 {
        match self {
            Which::Bitmap => 3,
            Which::State => 2,
        }
    }
}

/// What a recovery finds.
#[derive(Clone, Copy)]
enum Found {
    /// No set, and whether the bitmap is spent.
    Kept { spent: bool },
    /// The set.
    Done,
    /// A host that is up, with the set.
    Up,
}

fn found_by(which: Which, tear: Tear) -> Found {
    if tear.skip >= which.times() {
        return Found::Up;
    }
    match which {
        Which::Bitmap => Found::Kept { spent: true },
        Which::State if tear.skip == 0 => Found::Kept { spent: false },
        Which::State if tear.count == 0 => Found::Kept { spent: true },
        Which::State => Found::Done,
    }
}

// The enabling, a recovery and reads of all blocks, and the enabling and a read once more.
const SCRIPT: &[u8] =
    b"volume p /v/a 128\nvolume p /s/a 128\nvolume p /c/a 64\nwrite p /v/a 5 3 11\nwrite p /s/a 0 128 22\niiadm p -e dep /v/a /s/a /c/a\nrecover p\nread p /v/a 0 128\nread p /s/a 0 128\nread p /c/a 0 64\niiadm p -e dep /v/a /s/a /c/a\nread p /s/a 0 128\n";

// What is printed from the enabling on.
fn wanted(found: Found) -> &'static [u8] {
    match found {
        Found::Kept { spent: true } => {
            b"refused Fault p\nup p\nkept\ndata 5*00 3*11 120*00\ndata 128*22\nrefused NoContents\nok\ndata 5*00 3*11 120*00\n"
        }
        Found::Kept { spent: false } => {
            b"refused Fault p\nup p\nkept\ndata 5*00 3*11 120*00\ndata 128*22\ndata 64*00\nok\ndata 5*00 3*11 120*00\n"
        }
        Found::Done => {
            b"refused Fault p\nup p\ndone\ngroup /s/a plain session 0 at 0\nset /s/a left 0\ndata 5*00 3*11 120*00\ndata 5*00 3*11 120*00\nrefused BusyVolume bitmap\nrefused BusyVolume shadow\ndata 5*00 3*11 120*00\n"
        }
        Found::Up => {
            b"ok\nrefused WrongState up\ndata 5*00 3*11 120*00\ndata 5*00 3*11 120*00\nrefused BusyVolume bitmap\nrefused BusyVolume shadow\ndata 5*00 3*11 120*00\n"
        }
    }
}

fn check_enabling(rt: &impl Abort, alloc: Global, which: Which, tear: Tear) {
    let mut source = MemSource::new(copy(rt, alloc, SCRIPT), 1000, Vec::new(alloc));
    let mut sink = MemSink::new(alloc, 10_000, Vec::new(alloc)).expect(rt, "memory");
    let mut rack = Preparing {
        made: 0,
        number: which.number(),
        tear,
    };
    let status = run_script(
        alloc,
        &Vec::new(alloc),
        &mut source,
        &mut sink,
        &mut rack,
        Vec::new(alloc),
    );
    assert!(rt; sink.bytes().starts_with(b"ok\nok\nok\nok\nok\n"));
    same(rt, &sink.bytes()[15..], wanted(found_by(which, tear)));
    same(rt, status, 0);
    // A state disk that was made is used again.
    same(rt, rack.made, 4);
}

#[test]
fn a_tear_meets_each_write_of_an_enabling(rt: HostRuntime) {
    for which in [Which::Bitmap, Which::State] {
        for skip in 0..=which.times() {
            for count in [0, 1] {
                let from = 0;
                check_enabling(&rt, rt.alloc(), which, Tear { skip, from, count });
            }
        }
    }
}
