//! A connection's sessions over a link in memory, at a hub of their own.
use crate::counted::{Counted, Counts};
use ds_space::Space;
use hub_machine::Step;
use lc_watch::Behaves;
use out_ports::memory::{MemSink, MemSource};
use out_ports::ports::Outgoing;
use rl_packet::{Packet, Turn};
use rl_stream::{Next, next_packet};
use sr_pass::Judge;
use srv_session::{Seated, Served};
use srv_turns::{ReaderEnd, Turns, WriterEnd, serve_reader, serve_writer};
use std::alloc::{AllocError, Global};
use std::sync::Wait;
use turn_gate::Gate;

/// A turn that asserts `<Present "ann">`, and an observer of such assertions at object 1.
pub const TURN: [u8; 103] = [
    0xb5, 0xb5, 0xb0, 0x00, 0xb4, 0xb3, 0x01, 0x41, 0xb4, 0xb3, 0x07, 0x50, 0x72, 0x65, 0x73, 0x65,
    0x6e, 0x74, 0xb1, 0x03, 0x61, 0x6e, 0x6e, 0x84, 0xb0, 0x01, 0x01, 0x84, 0x84, 0xb5, 0xb0, 0x00,
    0xb4, 0xb3, 0x01, 0x41, 0xb4, 0xb3, 0x07, 0x4f, 0x62, 0x73, 0x65, 0x72, 0x76, 0x65, 0xb4, 0xb3,
    0x05, 0x67, 0x72, 0x6f, 0x75, 0x70, 0xb4, 0xb3, 0x03, 0x72, 0x65, 0x63, 0xb3, 0x07, 0x50, 0x72,
    0x65, 0x73, 0x65, 0x6e, 0x74, 0x84, 0xb7, 0xb0, 0x00, 0xb4, 0xb3, 0x04, 0x62, 0x69, 0x6e, 0x64,
    0xb4, 0xb3, 0x01, 0x5f, 0x84, 0x84, 0x84, 0x84, 0x86, 0xb5, 0xb0, 0x00, 0xb0, 0x01, 0x01, 0x84,
    0x84, 0xb0, 0x01, 0x02, 0x84, 0x84, 0x84,
];

/// What can be read of a link with these bytes, which gives so many at a take, at most, and whose
/// takes of these numbers fail.
pub fn source(
    alloc: Global,
    bytes: &[u8],
    piece: usize,
    failing: &[u64],
) -> Result<MemSource, AllocError> {
    let bytes = Vec::from_slice(alloc, bytes)?;
    Ok(MemSource::new(bytes, piece.max(1), Vec::from_slice(alloc, failing)?))
}

/// What can be written of a link with room for 100 bytes, whose puts of these numbers fail.
pub fn sink(alloc: Global, failing: &[u64]) -> Result<MemSink, AllocError> {
    let room = Vec::with_capacity(alloc, 100)?;
    Ok(MemSink::new(room, Vec::from_slice(alloc, failing)?))
}

/// How the sessions of connection 1 at the first dataspace end, the reader's and then the writer's,
/// and what they committed.
pub fn both<R: Wait, S: Space + Drop, J: Judge + Drop, B: Behaves + Drop>(
    rt: &R,
    alloc: Global,
    judge: J,
    behaves: B,
    reads: &mut MemSource,
    writes: &mut MemSink,
) -> Option<(ReaderEnd, WriterEnd, Counts)> {
    let served = Served::<S, J, B>::begin(alloc, judge, behaves).ok()?;
    let (gate, mut pass) = Gate::begin(alloc, served, 2).ok()?;
    let other = gate.split(&mut pass, 1).ok()?;
    let mut seat = Counted {
        turns: Seated::new(&gate, pass),
        other: Seated::new(&gate, other),
        counts: Counts::none(),
    };
    if seat.commit(rt, Step::Arrive(1)).is_err() {
        return None;
    }
    let read = serve_reader(rt, alloc, 1, reads, &mut seat);
    let written = serve_writer(rt, alloc, 1, writes, &mut seat);
    Some((read, written, seat.counts))
}

/// The turn above, as it is read.
fn turn(alloc: Global) -> Option<Turn> {
    match next_packet(alloc, &TURN, 0) {
        Ok(Next::Whole(Packet::Turn(turn), _)) => Some(turn),
        _ => None,
    }
}

/// How the writer of connection 1 at the first dataspace ends, once the connection has sent the
/// turn above, and what was committed.
pub fn writer<R: Wait, S: Space + Drop, J: Judge + Drop, B: Behaves + Drop, W: Outgoing>(
    rt: &R,
    alloc: Global,
    judge: J,
    behaves: B,
    writes: &mut W,
) -> Option<(WriterEnd, Counts)> {
    let turn = turn(alloc)?;
    let served = Served::<S, J, B>::begin(alloc, judge, behaves).ok()?;
    let (gate, mut pass) = Gate::begin(alloc, served, 2).ok()?;
    let other = gate.split(&mut pass, 1).ok()?;
    let mut seat = Counted {
        turns: Seated::new(&gate, pass),
        other: Seated::new(&gate, other),
        counts: Counts::none(),
    };
    for step in [
        Step::Arrive(1),
        Step::Packet(1, turn),
        Step::Work,
        Step::Work,
    ] {
        if seat.commit(rt, step).is_err() {
            return None;
        }
    }
    let written = serve_writer(rt, alloc, 1, writes, &mut seat);
    Some((written, seat.counts))
}
