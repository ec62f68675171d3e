//! Bytes that begin with no value.
use crate::counted::Counts;
use crate::sessions::{both, sink, source};
use ds_space::PlainSpace;
use hub_machine::Fault;
use lc_watch::{Table, Watcher};
use sr_pass::NoNames;
use srv_turns::{ReaderEnd, WriterEnd};
use std::alloc::{AllocError, Global};
use std::sync::Wait;
use std::test::Fail;

/// Bytes, and the number of their fault and its place.
const CASES: [(&[u8], u8, u8); 16] = [
    (b"\x84", 2, 0),
    (b"\xb4\x84", 2, 1),
    (b"\x86\x84", 2, 1),
    (b"\xb7\xb0\x00\x84", 2, 3),
    (b"\x87\x07", 2, 0),
    (b"\xb0\x11", 5, 0),
    (b"\xb6\x80\x80\x84", 7, 0),
    (&[0x86; 65], 8, 64),
    (b"\x80\xb1\x01\xff", 6, 1),
    (b"\x00", 2, 0),
    (b"\xb5\x84\x00", 2, 2),
    (b"\xb0\x01\x00", 4, 0),
    (b"\xb1\x80\x00", 3, 0),
    (b"\xb7\x80\xb0\x00\x80\xb0\x00\x84", 7, 0),
    (b"\x85", 2, 0),
    (b"\xb5\xb3\x03\xed\xa0\x80", 6, 1),
];

/// `<error "bad bytes" [KIND PLACE]>` before its numbers, and the first number but for itself.
const FRONT: &[u8] = b"\xb4\xb3\x05error\xb1\x09bad bytes\xb5\xb0\x01";

/// `<error "bad bytes" [KIND PLACE]>`, as it is written.
fn error_packet(alloc: Global, kind: u8, place: u8) -> Result<Vec<u8>, AllocError> {
    let mut bytes = Vec::from_slice(alloc, FRONT)?;
    bytes.push(kind)?;
    match place {
        0 => bytes.extend_from_slice(b"\xb0\x00")?,
        place => bytes.extend_from_slice(&[0xb0, 0x01, place])?,
    }
    bytes.extend_from_slice(b"\x84\x84")?;
    Ok(bytes)
}

/// Whether sessions over a link that brings these bytes, so many at a take, end so, having
/// committed so many steps, and this is put then.
fn end_so<R: Wait>(
    rt: &R,
    alloc: Global,
    link: (&[u8], usize),
    end: ReaderEnd,
    counts: Counts,
    holds: &[u8],
) -> Result<bool, AllocError> {
    let mut reads = source(alloc, link.0, link.1, &[])?;
    let mut writes = sink(alloc, &[])?;
    let ended = both::<R, PlainSpace, NoNames, Watcher<Table>>(
        rt,
        alloc,
        NoNames,
        Watcher::new(Table),
        &mut reads,
        &mut writes,
    );
    let told = ended == Some((end, WriterEnd::Ended, counts));
    Ok(told && writes.held() == holds && writes.finishes() == 1)
}

/// Whether a reader of these bytes is refused for this fault, by one bad step and nothing behind
/// it, and the error packet waits for the writer.
fn is_refused<R: Wait>(
    rt: &R,
    alloc: Global,
    case: (&[u8], u8, u8),
    piece: usize,
    packets: u64,
) -> Result<bool, AllocError> {
    let (bytes, kind, place) = case;
    let end = ReaderEnd::Refused(Fault::BadBytes(kind, u64::from(place)));
    let counts = Counts {
        packets,
        bads: 1,
        closes: 0,
    };
    let packet = error_packet(alloc, kind, place)?;
    end_so(rt, alloc, (bytes, piece), end, counts, &packet)
}

#[test]
fn what_is_no_value_is_refused_and_told(rt: HostRuntime) -> Result<(), Fail> {
    for case in CASES {
        let packets = if case.0.starts_with(b"\xb5\x84") {
            1
        } else {
            0
        };
        for piece in [1, 64] {
            assert!(rt; is_refused(&rt, rt.alloc(), case, piece, packets)?);
        }
    }
    Ok(())
}

/// Whether a reader of these bytes takes so many turns, and ends clean.
fn is_taken<R: Wait>(
    rt: &R,
    alloc: Global,
    bytes: &[u8],
    packets: u64,
) -> Result<bool, AllocError> {
    let counts = Counts {
        packets,
        bads: 0,
        closes: 1,
    };
    end_so(rt, alloc, (bytes, 1), ReaderEnd::Clean, counts, b"")
}

#[test]
fn the_empty_turn_is_taken(rt: HostRuntime) -> Result<(), Fail> {
    assert!(rt; is_taken(&rt, rt.alloc(), b"\xb5\x84", 1)?);
    assert!(rt; is_taken(&rt, rt.alloc(), b"\xb5\x84\x80\xb5\x84", 2)?);
    Ok(())
}
