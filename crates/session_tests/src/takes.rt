//! Links that end or fail while they are read.
use crate::counted::Counts;
use crate::sessions::{TURN, both, sink, source};
use ds_space::PlainSpace;
use lc_watch::{Table, Watcher};
use sr_pass::NoNames;
use srv_turns::{ReaderEnd, WriterEnd};
use std::alloc::{AllocError, Global};
use std::sync::Wait;
use std::test::Fail;

/// Whether sessions over a link with these bytes, which come so many at a take, end so where a take
/// fails or none does, with one close, so many turns done, and nothing put.
fn end_so<R: Wait>(
    rt: &R,
    alloc: Global,
    link: (&[u8], usize, &[u64]),
    end: ReaderEnd,
    packets: u64,
) -> Result<bool, AllocError> {
    let mut reads = source(alloc, link.0, link.1, link.2)?;
    let mut writes = sink(alloc, &[])?;
    let ended = both::<R, PlainSpace, NoNames, Watcher<Table>>(
        rt,
        alloc,
        NoNames,
        Watcher::new(Table),
        &mut reads,
        &mut writes,
    );
    let counts = Counts {
        packets,
        bads: 0,
        closes: 1,
    };
    let told = ended == Some((end, WriterEnd::Ended, counts));
    Ok(told && writes.held().is_empty() && writes.finishes() == 1)
}

/// How a reader of these bytes ends, and how many turns it does.
fn due(bytes: &[u8]) -> (ReaderEnd, u64) {
    match bytes.len() {
        0 => (ReaderEnd::Clean, 0),
        103 => (ReaderEnd::Clean, 1),
        _ => (ReaderEnd::Cut, 0),
    }
}

/// After how many bytes, in turn, a link may end and its sessions end as is due.
fn cuts<R: Wait>(rt: &R, alloc: Global, piece: usize) -> Result<usize, AllocError> {
    for count in 0..=TURN.len() {
        let bytes = &TURN[..count];
        let (end, packets) = due(bytes);
        if !end_so(rt, alloc, (bytes, piece, &[]), end, packets)? {
            return Ok(count);
        }
    }
    Ok(TURN.len() + 1)
}

#[test]
fn a_link_may_end_after_each_byte(rt: HostRuntime) -> Result<(), Fail> {
    for piece in [1, 64] {
        assert!(rt; cuts(&rt, rt.alloc(), piece)? == 104);
    }
    Ok(())
}

/// How many takes, in turn, may fail and its sessions end as is due: of so many the last would have
/// told the link's end, behind the whole turn.
fn failed_takes<R: Wait>(
    rt: &R,
    alloc: Global,
    piece: usize,
    takes: u64,
) -> Result<u64, AllocError> {
    for failing in 0..takes {
        let packets = if failing + 1 == takes { 1 } else { 0 };
        let link: (&[u8], usize, &[u64]) = (&TURN, piece, &[failing]);
        if !end_so(rt, alloc, link, ReaderEnd::ReadFault, packets)? {
            return Ok(failing);
        }
    }
    Ok(takes)
}

#[test]
fn each_take_may_fail(rt: HostRuntime) -> Result<(), Fail> {
    for (piece, takes) in [(1, 104), (10, 12), (64, 3), (103, 2)] {
        assert!(rt; failed_takes(&rt, rt.alloc(), piece, takes)? == takes);
    }
    Ok(())
}
