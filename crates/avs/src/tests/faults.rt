// Whole runs over disks that are not steady, and a sink that cuts what is told.
use super::{FAIR, Outside, check, run, same};
use std::alloc::Global;
use std::process::Abort;

#[test]
fn disks_that_are_not_steady_fail_in_recovery(rt: HostRuntime) {
    let script =
        b"volume p /v/a 64\nwrite p /v/a 3 2 11\nrecover p\nrecover p\nrecover p\nread p /v/a 3 2\nrecover p\n".as_slice();
    let wants: [(&[u64], &[u8]); 4] = [
        (
            &[1],
            b"ok\nrefused Fault p\nup p\ntorn /v/a 3\nrefused WrongState up\nrefused WrongState up\ndata 2*00\nrefused WrongState up\n",
        ),
        (
            &[1, 2],
            b"ok\nrefused Fault p\nrefused Fault p\nup p\ntorn /v/a 3\nrefused WrongState up\ndata 2*00\nrefused WrongState up\n",
        ),
        (
            &[1, 2, 3, 4],
            b"ok\nrefused Fault p\nrefused Fault p\nrefused Fault p\nrefused Fault p\nrefused Down p\nup p\ntorn /v/a 3\n",
        ),
        (
            &[2],
            b"ok\nok\nrefused WrongState up\nrefused WrongState up\nrefused WrongState up\nrefused Fault p\nup p\nclean\n",
        ),
    ];
    for (disks, want) in wants {
        check(&rt, rt.alloc(), script, Outside { disks, ..FAIR }, 0, want);
    }
}

// A sink with room for so many bytes takes the first of them.
fn is_cut(rt: &impl Abort, alloc: Global, room: u32) {
    let (status, written) = run(rt, alloc, b"crash p\nrecover p\n", Outside { room, ..FAIR });
    same(rt, status, 5);
    same(rt, written.len(), room as usize);
    assert!(rt; b"down p\nup p\nclean\n".as_slice().starts_with(&written));
}

#[test]
fn the_sink_cuts_what_is_told_of_a_recovery(rt: HostRuntime) {
    for room in 0..18u32 {
        is_cut(&rt, rt.alloc(), room);
    }
}

#[test]
fn a_group_is_looked_for_again_where_its_disks_failed(rt: HostRuntime) {
    let script =
        b"volume p /v/a 128\nvolume p /s/a 128\nvolume p /c/a 64\niiadm p -e dep /v/a /s/a /c/a\nwrite p /v/a 5 1 11\ncrash p\nrecover p\nread p /s/a 5 1\nrecover p\nread p /v/a 4 3\nread p /s/a 4 3\n".as_slice();
    // Its fifth call is the first of the recovery on the bitmap.
    let disks = Outside {
        disks: &[5],
        ..FAIR
    };
    let want =
        b"ok\nok\nok\nok\nok\ndown p\nrefused Fault p\nrefused Down p\nup p\nclean\ngroup /s/a plain session 0 at 0\nset /s/a left 0\ndata 1*00 1*11 1*00\ndata 3*00\n";
    check(&rt, rt.alloc(), script, disks, 0, want);
}
