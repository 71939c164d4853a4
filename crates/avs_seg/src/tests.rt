// Segments, at ranges and volumes that do not end at the end of one.
use crate::{NoMemory, SegList, Span, seg_count, seg_span, segments};

#[test]
fn a_range_touches_each_segment_that_it_has_a_block_of(rt: HostRuntime) {
    for (at, len, want) in [
        (63, 256, (0, 5)),
        (0, 64, (0, 1)),
        (64, 1, (1, 1)),
        (63, 2, (0, 2)),
        (100, 300, (1, 6)),
    ] {
        assert_eq!(rt;
            segments(Span { at, len }),
            want,
            "{len} blocks from {at} on"
        );
    }
}

#[test]
fn the_last_segment_of_a_volume_may_be_short(rt: HostRuntime) {
    for (blocks, want) in [(64, 1), (65, 2), (100, 2), (512, 8)] {
        assert_eq!(rt; seg_count(blocks), want, "{blocks} blocks");
    }
    assert_eq!(rt; seg_span(0, 100), Span { at: 0, len: 64 });
    assert_eq!(rt; seg_span(1, 100), Span { at: 64, len: 36 });
}

#[test]
fn a_list_gives_its_segments_in_order(rt: HostRuntime) -> Result<(), NoMemory> {
    let mut list = SegList::new(rt.alloc());
    assert_eq!(rt; list.as_slice(), [].as_slice());
    list.push(4)?;
    list.push(0)?;
    assert_eq!(rt; list.as_slice(), [4, 0].as_slice());
    Ok(())
}
