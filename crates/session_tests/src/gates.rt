//! A gate over the hub.
ghost use Rattle.std.specs.Prelude.{◌≡◌};

use ds_space::{PlainSpace, Space};
use hub_machine::{Fault, Reply, Step};
use lc_watch::{Behaves, Table, Watcher};
use out_ports::memory::{MemSink, MemSource};
use sr_pass::{Judge, NoNames};
use srv_session::{Seated, Served, ServedStep};
use srv_turns::{ReaderEnd, Turns, WriterEnd, serve_reader, serve_writer};
use std::alloc::{AllocError, Global};
use std::sync::Wait;
use std::test::Fail;
use turn_gate::Gate;

/// A turn that asserts `<Present "ann">`, and an observer of such assertions.
const TURN: [u8; 103] = [
    0xb5, 0xb5, 0xb0, 0x00, 0xb4, 0xb3, 0x01, 0x41, 0xb4, 0xb3, 0x07, 0x50, 0x72, 0x65, 0x73, 0x65,
    0x6e, 0x74, 0xb1, 0x03, 0x61, 0x6e, 0x6e, 0x84, 0xb0, 0x01, 0x01, 0x84, 0x84, 0xb5, 0xb0, 0x00,
    0xb4, 0xb3, 0x01, 0x41, 0xb4, 0xb3, 0x07, 0x4f, 0x62, 0x73, 0x65, 0x72, 0x76, 0x65, 0xb4, 0xb3,
    0x05, 0x67, 0x72, 0x6f, 0x75, 0x70, 0xb4, 0xb3, 0x03, 0x72, 0x65, 0x63, 0xb3, 0x07, 0x50, 0x72,
    0x65, 0x73, 0x65, 0x6e, 0x74, 0x84, 0xb7, 0xb0, 0x00, 0xb4, 0xb3, 0x04, 0x62, 0x69, 0x6e, 0x64,
    0xb4, 0xb3, 0x01, 0x5f, 0x84, 0x84, 0x84, 0x84, 0x86, 0xb5, 0xb0, 0x00, 0xb0, 0x01, 0x01, 0x84,
    0x84, 0xb0, 0x01, 0x02, 0x84, 0x84, 0x84,
];

/// `<error "bad bytes" [2 0]>`, as it is written.
const ERROR: [u8; 27] = [
    0xb4, 0xb3, 0x05, b'e', b'r', b'r', b'o', b'r', 0xb1, 0x09, b'b', b'a', b'd', b' ', b'b', b'y',
    b't', b'e', b's', 0xb5, 0xb0, 0x01, 0x02, 0xb0, 0x00, 0x84, 0x84,
];

/// Whether a connection that comes to the first dataspace is the first one, and a second gate call
/// finds it there when the gate is closed.
fn one_arrival<R: Wait>(rt: &R, alloc: Global) -> bool {
    let watcher = Watcher::new(Table);
    let Ok(served) = Served::<PlainSpace, NoNames, Watcher<Table>>::begin(alloc, NoNames, watcher)
    else {
        return false;
    };
    let Ok((gate, mut pass)) = Gate::begin(alloc, served, 1) else {
        return false;
    };
    let reply = gate.commit(rt, &mut pass, ServedStep::new(Step::Arrive(1)));
    let first = match reply {
        Ok(Reply::Opened(number)) => number == 1,
        _ => false,
    };
    match gate.close(pass) {
        Some(served) => first && served.hub.live(1),
        None => false,
    }
}

/// What can be read of a link with these bytes, whose takes of these numbers fail.
fn source(alloc: Global, bytes: &[u8], failing: &[u64]) -> Result<MemSource, AllocError> {
    let bytes = Vec::from_slice(alloc, bytes)?;
    Ok(MemSource::new(bytes, 64, Vec::from_slice(alloc, failing)?))
}

/// What can be written of a link with room for 100 bytes, whose puts of these numbers fail.
fn sink(alloc: Global, failing: &[u64]) -> Result<MemSink, AllocError> {
    let room = Vec::with_capacity(alloc, 100)?;
    Ok(MemSink::new(room, Vec::from_slice(alloc, failing)?))
}

/// How the sessions of a connection at the first dataspace end, the reader's and then the writer's.
fn sessions<R: Wait, S: Space + Drop, J: Judge + Drop, B: Behaves + Drop>(
    rt: &R,
    alloc: Global,
    judge: J,
    behaves: B,
    reads: &mut MemSource,
    writes: &mut MemSink,
) -> Option<(ReaderEnd, WriterEnd)> {
    let Ok(served) = Served::<S, J, B>::begin(alloc, judge, behaves) else {
        return None;
    };
    let Ok((gate, pass)) = Gate::begin(alloc, served, 1) else {
        return None;
    };
    let mut seat = Seated::new(&gate, pass);
    let opened = seat.commit(rt, Step::Arrive(1)).is_ok();
    let read = serve_reader(rt, alloc, 1, reads, &mut seat);
    let written = serve_writer(rt, alloc, 1, writes, &mut seat);
    if opened { Some((read, written)) } else { None }
}

/// Whether the sessions over a link with these bytes, these takes and these puts of which fail, end
/// so, and what is held is this.
fn ends<R: Wait>(
    rt: &R,
    alloc: Global,
    link: (&[u8], &[u64], &[u64]),
    ends: (ReaderEnd, WriterEnd),
    holds: &[u8],
) -> Result<bool, AllocError> {
    let mut reads = source(alloc, link.0, link.1)?;
    let mut writes = sink(alloc, link.2)?;
    let ended = sessions::<R, PlainSpace, NoNames, Watcher<Table>>(
        rt,
        alloc,
        NoNames,
        Watcher::new(Table),
        &mut reads,
        &mut writes,
    );
    Ok(ended == Some(ends) && writes.held() == holds && writes.finishes() == 1)
}

#[test]
fn bad_bytes_are_refused_and_told(rt: HostRuntime) -> Result<(), Fail> {
    let refused = ReaderEnd::Refused(Fault::BadBytes(2, 0));
    let link: (&[u8], &[u64], &[u64]) = (&[0], &[], &[]);
    assert!(rt; ends(&rt, rt.alloc(), link, (refused, WriterEnd::Ended), &ERROR)?);
    Ok(())
}

#[test]
fn a_failed_put_closes(rt: HostRuntime) -> Result<(), Fail> {
    let refused = ReaderEnd::Refused(Fault::BadBytes(2, 0));
    let link: (&[u8], &[u64], &[u64]) = (&[0], &[], &[0]);
    assert!(rt; ends(&rt, rt.alloc(), link, (refused, WriterEnd::WriteFault), &[])?);
    Ok(())
}

#[test]
fn a_whole_turn_ends_clean(rt: HostRuntime) -> Result<(), Fail> {
    let link: (&[u8], &[u64], &[u64]) = (&TURN, &[], &[]);
    assert!(rt;
        ends(
            &rt,
            rt.alloc(),
            link,
            (ReaderEnd::Clean, WriterEnd::Ended),
            &[]
        )?
    );
    Ok(())
}

#[test]
fn a_failed_take_closes(rt: HostRuntime) -> Result<(), Fail> {
    let link: (&[u8], &[u64], &[u64]) = (&TURN, &[1], &[]);
    assert!(rt;
        ends(
            &rt,
            rt.alloc(),
            link,
            (ReaderEnd::ReadFault, WriterEnd::Ended),
            &[]
        )?
    );
    Ok(())
}

#[test]
fn a_gate_holds_the_hub(rt: HostRuntime) -> Result<(), Fail> {
    assert!(rt; one_arrival(&rt, rt.alloc()));
    Ok(())
}
