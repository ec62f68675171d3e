//! A sink of another kind: what it holds where it fails.
ghost use Rattle.std.specs.Prelude.{Some};

use crate::running::status_of_run;
use out_ports::ports::{Put, Sink};
use std::alloc::Global;
use std::sync::Wait;
use std::test::Fail;
use std::thread::Threads;

/// Somebody is present, and an observer at object 1 captures who.
const PRESENT: &[u8; 140] = b"\xb4\xb3\x04open\xb0\x01\x01\x84\
    \xb4\xb3\x05bytes\xb0\x01\x01\xb2g\
    \xb5\xb5\xb0\x00\xb4\xb3\x01A\xb4\xb3\x07Present\xb1\x03ann\x84\xb0\x01\x01\x84\x84\
    \xb5\xb0\x00\xb4\xb3\x01A\xb4\xb3\x07Observe\
    \xb4\xb3\x05group\xb4\xb3\x03rec\xb3\x07Present\x84\
    \xb7\xb0\x00\xb4\xb3\x04bind\xb4\xb3\x01_\x84\x84\x84\x84\
    \x86\xb5\xb0\x00\xb0\x01\x01\x84\x84\xb0\x01\x02\x84\x84\x84\x84\
    \xb4\xb3\x05drain\xb0\x01d\x84";

/// The connection holds the capture, and was sent one packet.
const PRESENT_REPORT: &[u8; 79] = b"\xb4\xb3\x06report\xb0\x00\
    \xb5\xb4\xb3\x04conn\xb0\x01\x01\xb3\x04live\
    \xb5\xb4\xb3\x05holds\xb0\x01\x01\xb0\x01\x03\xb5\xb1\x03ann\x84\x84\x84\
    \xb2\x16\xb5\xb5\xb0\x01\x01\xb4\xb3\x01A\xb5\xb1\x03ann\x84\xb0\x01\x03\x84\x84\x84\
    \x84\x84\x84";

/// A sink that takes a byte at a time, and fails once it has taken so many.
#[derive(Drop)]
struct Drip {
    held: Vec<u8>,
    room: usize,
    finishes: u64,
    faults: u64,
}

impl Sink for Drip {
    ghost held = { λ s. Some s.held.items };

    ghost finishes = { λ s. s.finishes };

    ghost faults = { λ s. s.faults };

    fn faults(&self) -> u64 {
        self.faults
    }

    fn put(&mut self, piece: &[u8]) -> Put {
        if self.held.len() >= self.room || self.held.extend_from_slice(&piece[..1]).is_err() {
            self.faults = self.faults.saturating_add(1);
            return Put::Failed;
        }
        Put::Some(1)
    }

    fn finish(&mut self) {
        self.finishes = self.finishes.saturating_add(1);
    }
}

/// Whether a sink with room for so many bytes holds as long a front of the report, and the status
/// says whether that is all of it.
fn holds_front<Rt: Threads + Wait + Sync>(
    rt: &Rt,
    alloc: Global,
    room: usize,
) -> Result<bool, Fail> {
    let mut out = Drip {
        held: Vec::new(alloc),
        room,
        finishes: 0,
        faults: 0,
    };
    let status = status_of_run(rt, alloc, PRESENT, &mut out)?;
    let wanted = if room < PRESENT_REPORT.len() { 4 } else { 0 };
    Ok(status == wanted && out.held.len() == room && PRESENT_REPORT.starts_with(&out.held))
}

#[test]
fn a_sink_that_fails_holds_a_front(rt: HostRuntime) -> Result<(), Fail> {
    let alloc = rt.alloc();
    for room in [0, 1, PRESENT_REPORT.len() - 1, PRESENT_REPORT.len()] {
        assert!(rt; holds_front(&rt, alloc, room)?);
    }
    Ok(())
}
