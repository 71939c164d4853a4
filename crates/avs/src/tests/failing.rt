// Whole runs in which one call of a disk or of the sink fails.
use avs_dev::MemRack;
use avs_io::{MemSink, MemSource};
use avs_run::run_script;
use std::alloc::Global;
use std::process::Abort;

// Two volumes' worth of refusals, and four events that use a disk.
const EVENTS: &[u8] =
    b"volume p /v/a 64\nwrite p /v/a 63 1 ab\nread p /v/a 62 2\nread p /v/a 63 2\nvolume p /v/a 64\nvolume p /v/z 300000\nwrite p /v/a 0 1 cd\nread p /v/a 0 1\n";

fn calls(rt: &impl Abort, alloc: Global, number: u64) -> Vec<u64> {
    vec![in alloc; number; 1].expect(rt, "memory")
}

// Runs the script over disks and a sink that fail at the calls of these numbers: it ends so, and this is written.
fn ends(
    rt: &impl Abort,
    alloc: Global,
    script: &[u8],
    disk_call: u64,
    sink_call: u64,
    status: u8,
    want: &[u8],
) {
    let script = script.to_vec(alloc).expect(rt, "memory");
    let mut source = MemSource::new(script, 1000, Vec::new(alloc));
    let mut sink = MemSink::new(alloc, 1000, calls(rt, alloc, sink_call)).expect(rt, "memory");
    let mut rack = MemRack::new(Vec::new(alloc), calls(rt, alloc, disk_call));
    let ended = run_script(
        alloc,
        &Vec::new(alloc),
        &mut source,
        &mut sink,
        &mut rack,
        Vec::new(alloc),
    );
    assert!(rt; ended == status);
    assert!(rt; sink.bytes() == want);
}

// A fault of the disk ends the host, and no later call of it is made.
#[test]
fn a_disk_fails_at_one_of_its_calls(rt: HostRuntime) {
    let wants: [&[u8]; 6] = [
        b"ok\nrefused Fault p\nrefused Down p\nrefused Down p\nrefused Down p\nrefused Down p\nrefused Down p\nrefused Down p\n",
        b"ok\nok\nrefused Fault p\nrefused Down p\nrefused Down p\nrefused Down p\nrefused Down p\nrefused Down p\n",
        b"ok\nok\ndata 1*00 1*ab\nrefused Range 64\nrefused Exists\nrefused Limit 262144\nrefused Fault p\nrefused Down p\n",
        b"ok\nok\ndata 1*00 1*ab\nrefused Range 64\nrefused Exists\nrefused Limit 262144\nok\nrefused Fault p\n",
        b"ok\nok\ndata 1*00 1*ab\nrefused Range 64\nrefused Exists\nrefused Limit 262144\nok\ndata 1*cd\n",
        b"ok\nok\ndata 1*00 1*ab\nrefused Range 64\nrefused Exists\nrefused Limit 262144\nok\ndata 1*cd\n",
    ];
    for (place, want) in wants.iter().enumerate() {
        ends(&rt, rt.alloc(), EVENTS, place as u64 + 1, 99, 0, want);
    }
}

// Each answer is given to the sink by one call: where the second fails, the first answer is there whole and nothing of the second.
#[test]
fn an_answer_is_one_call_of_the_sink(rt: HostRuntime) {
    let alloc = rt.alloc();
    let script = b"volume p /v/a 64\nread p /v/a 0 64\nread p /v/a 0 65\n";
    ends(&rt, alloc, script, 99, 1, 5, b"");
    ends(&rt, alloc, script, 99, 2, 5, b"ok\n");
    ends(&rt, alloc, script, 99, 3, 5, b"ok\ndata 64*00\n");
    ends(
        &rt,
        alloc,
        script,
        99,
        4,
        0,
        b"ok\ndata 64*00\nrefused Range 64\n",
    );
    ends(&rt, alloc, b"frob\n", 99, 1, 5, b"");
    ends(&rt, alloc, b"frob\n", 99, 2, 3, b"bad line 1\n");
}
