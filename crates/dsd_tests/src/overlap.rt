//! Eight sessions at once: each link's second answer comes once all eight have given their first.
use crate::guests::{Part, Piece, door_with, link_for};
use crate::running::ends_with;
use std::alloc::{AllocError, Global};
use std::sync::Wait;
use std::sync::atomic::{AtomicU64, Ordering};
use std::test::Fail;
use std::thread::Threads;

/// A packet that is passed over.
const NOTHING: &[u8] = b"\x80";

fn piece(alloc: Global, least: u64) -> Result<Piece, AllocError> {
    let bytes = Vec::from_slice(alloc, NOTHING)?;
    Ok(Piece { least, bytes })
}

/// Two pieces, of which the second waits until eight were given.
fn part(alloc: Global) -> Result<Part, AllocError> {
    let mut pieces = Vec::new(alloc);
    pieces.push(piece(alloc, 8)?)?;
    pieces.push(piece(alloc, 0)?)?;
    Ok(Part {
        pieces,
        texts: Vec::new(alloc),
        last: 0,
    })
}

/// Whether eight links are served, and none gave up.
fn eight_at_once<Rt: Threads + Wait + Sync>(rt: &Rt, alloc: Global) -> Result<bool, Fail> {
    let gave = AtomicU64::new(0);
    let lost = AtomicU64::new(0);
    let mut links = Vec::new(alloc);
    for _ in 0..8 {
        links.push(link_for(alloc, part(alloc)?, &gave, &gave, &lost))?;
    }
    let mut door = door_with(Vec::new(alloc), links);
    let words = ["serve", "a", "c", "2", "8"];
    let wanted: (u8, &[u8], &[u8]) = (0, b"<served 8 0>\n", b"");
    let ended = ends_with(rt, alloc, &words, &mut door, wanted)?;
    drop(door);
    Ok(ended && lost.load(Ordering::SeqCst) == 0 && gave.load(Ordering::SeqCst) == 16)
}

#[test]
fn eight_sessions_run_beside_one_another(rt: HostRuntime) -> Result<(), Fail> {
    assert!(rt; eight_at_once(&rt, rt.alloc())?);
    Ok(())
}
