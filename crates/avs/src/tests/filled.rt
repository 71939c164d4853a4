// Reads of disks that hold other blocks than a statement can write so far.
ghost use Rattle.std.specs.Prelude.{◌<◌, ◌^◌, false, refl, None, []};

use super::{copy, same};
use avs_dev::{Arm, Disk, Rack, RackFault, Tear};
use avs_io::{MemSink, MemSource};
use avs_run::run_script;
use avs_seg::{BLOCK, Failed};
use std::alloc::Global;
use std::process::Abort;

/// A disk that holds these bytes and then zeros, and takes no others. It does not tell them to contracts.
#[derive(Drop)]
struct Filled {
    bytes: Vec<u8>,
    blocks: u32,
    faults: u64,
    ghost in_range: { blocks < 2 ^ 32 },
}

impl Disk for Filled {
    ghost seen = { λ d. record { image = []; size = d.blocks; faults = d.faults; written = 0; steady = false; armed = false; tear = None; arms = false } };

    ghost fits = { λ d. d.in_range };

    ghost armed_is = { λ _. refl };

    fn blocks(&self) -> u32 {
        self.blocks
    }

    fn read(&mut self, at: u32, out: &mut [u8]) -> Result<(), Failed> {
        let start = BLOCK * at as usize;
        for (place, byte) in out.iter_mut().enumerate() {
            *byte = self.bytes.get(start + place).copied().unwrap_or(0);
        }
        Ok(())
    }

    fn write(&mut self, _at: u32, _bytes: &[u8]) -> Result<(), Failed> {
        self.faults = self.faults.saturating_add(1);
        Err(Failed)
    }

    fn written(&self) -> u64 {
        0
    }
}

impl Arm for Filled {
    ghost steady_arms = { λ _ steady. steady };

    fn arm(&mut self, _tear: Tear) -> bool {
        false
    }
}

/// A rack of such disks.
#[derive(Drop)]
struct FilledRack {
    bytes: Vec<u8>,
    made: u64,
}

impl Rack for FilledRack {
    type D = Filled;

    ghost seen = { λ r. record { faults = 0; made = r.made; tells = false; steady = false } };

    fn make(&mut self, alloc: Global, blocks: u32) -> Result<Filled, RackFault> {
        let bytes = self.bytes.to_vec(alloc)?;
        self.made = self.made.saturating_add(1);
        Ok(Filled {
            bytes,
            blocks,
            faults: 0,
        })
    }
}

/// A part that stands so many times, one behind another.
type Parts<'a> = &'a [(u32, &'a [u8])];

fn repeat(rt: &impl Abort, bytes: &mut Vec<u8>, times: u32, part: &[u8]) {
    for _ in 0..times {
        bytes.extend_from_slice(part).expect(rt, "memory");
    }
}

fn joined(rt: &impl Abort, alloc: Global, parts: Parts<'_>) -> Vec<u8> {
    let mut bytes = Vec::new(alloc);
    for &(times, part) in parts {
        repeat(rt, &mut bytes, times, part);
    }
    bytes
}

// Reads the first three blocks of a disk that begins with `held`, and looks at what is printed.
fn check_read(rt: &impl Abort, alloc: Global, held: Parts<'_>, want: Parts<'_>) {
    let script = b"volume p /v/a 64\nread p /v/a 0 3\n";
    let mut source = MemSource::new(copy(rt, alloc, script), 1000, Vec::new(alloc));
    let mut sink = MemSink::new(alloc, 10_000, Vec::new(alloc)).expect(rt, "memory");
    let mut rack = FilledRack {
        bytes: joined(rt, alloc, held),
        made: 0,
    };
    let words = Vec::new(alloc);
    let status = run_script(
        alloc,
        &words,
        &mut source,
        &mut sink,
        &mut rack,
        Vec::new(alloc),
    );
    same(rt, sink.bytes(), joined(rt, alloc, want).as_slice());
    same(rt, status, 0);
}

#[test]
fn blocks_are_printed_by_their_shortest_period(rt: HostRuntime) {
    let cases: [(u32, &[u8], &[u8]); 9] = [
        (512, b"\xab", b"ab"),
        (256, b"\x01\x23", b"0123"),
        (256, b"\xab\xab", b"ab"),
        (128, b"\x01\x23\x01\x24", b"01230124"),
        (128, b"\x00\xff\x00\xff", b"00ff"),
        (64, b"\x00\x00\x00\x00\x00\x00\x00\x01", b"0000000000000001"),
        (64, b"\x00\x00\x00\x01\x00\x00\x00\x01", b"00000001"),
        (32, b"0123456789abcdef", b"30313233343536373839616263646566"),
        (32, b"0123456701234567", b"3031323334353637"),
    ];
    for (times, part, text) in cases {
        check_read(
            &rt,
            rt.alloc(),
            &[(2 * times, part)],
            &[(1, b"ok\ndata 2*"), (1, text), (1, b" 1*00\n")],
        );
    }
}

#[test]
fn other_blocks_are_printed_whole(rt: HostRuntime) {
    let cases: [(Parts<'_>, Parts<'_>); 6] = [
        // Another first byte, another last byte, and another one in the last period.
        (&[(1, b"\x01"), (511, b"\x00")], &[(1, b"01"), (511, b"00")]),
        (&[(511, b"\xff"), (1, b"\xfe")], &[(511, b"ff"), (1, b"fe")]),
        (&[(511, b"\xa0"), (1, b"\x0a")], &[(511, b"a0"), (1, b"0a")]),
        (
            &[(31, b"0123456789abcdef"), (1, b"0123456789abcdeg")],
            &[
                (31, b"30313233343536373839616263646566"),
                (1, b"30313233343536373839616263646567"),
            ],
        ),
        // Periods of 3 and of 32 bytes.
        (
            &[(170, b"\x01\x02\x03"), (1, b"\x01\x02")],
            &[(170, b"010203"), (1, b"0102")],
        ),
        (
            &[(16, b"0123456789abcdef0123456789ABCDEF")],
            &[(
                16,
                b"3031323334353637383961626364656630313233343536373839414243444546",
            )],
        ),
    ];
    for (held, text) in cases {
        let held = joined(&rt, rt.alloc(), held);
        let text = joined(&rt, rt.alloc(), text);
        check_read(
            &rt,
            rt.alloc(),
            &[(1, &held)],
            &[(1, b"ok\ndata 1*"), (1, &text), (1, b" 2*00\n")],
        );
    }
}

#[test]
fn equal_blocks_are_one_run_behind_another_block(rt: HostRuntime) {
    let cases: [(Parts<'_>, Parts<'_>); 5] = [
        (
            &[(512, b"\x01"), (1024, b"\x02")],
            &[(1, b"ok\ndata 1*01 2*02\n")],
        ),
        (
            &[(256, b"\x01\x02"), (512, b"\x02\x01")],
            &[(1, b"ok\ndata 1*0102 2*0201\n")],
        ),
        // The first block is another one in its first or its last byte alone.
        (
            &[(1, b"\x07"), (1535, b"\x08")],
            &[(1, b"ok\ndata 1*07"), (511, b"08"), (1, b" 2*08\n")],
        ),
        (
            &[(511, b"\x08"), (1, b"\x07"), (1024, b"\x08")],
            &[(1, b"ok\ndata 1*"), (511, b"08"), (1, b"07 2*08\n")],
        ),
        (
            &[(512, b"\x01"), (512, b"\x02"), (512, b"\x01")],
            &[(1, b"ok\ndata 1*01 1*02 1*01\n")],
        ),
    ];
    for (held, want) in cases {
        check_read(&rt, rt.alloc(), held, want);
    }
}
