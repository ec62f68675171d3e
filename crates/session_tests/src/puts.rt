//! Links that fail while they are written.
use crate::counted::Counts;
use crate::drip::Drip;
use crate::sessions::{sink, writer};
use ds_space::PlainSpace;
use lc_watch::{Table, Watcher};
use out_ports::memory::MemSink;
use sr_pass::NoNames;
use srv_turns::WriterEnd;
use std::alloc::{AllocError, Global};
use std::sync::Wait;
use std::test::Fail;

/// What the observer is told, `[[1 <A ["ann"] 3>]]`.
const TOLD: &[u8; 22] =
    b"\xb5\xb5\xb0\x01\x01\xb4\xb3\x01A\xb5\xb1\x03ann\x84\xb0\x01\x03\x84\x84\x84";

/// Whether a writer that puts a byte at a time, and whose puts of these numbers fail, ends so, with
/// so many closes of its own, and this was put.
fn ends_so<R: Wait>(
    rt: &R,
    alloc: Global,
    failing: &[u64],
    end: WriterEnd,
    closes: u64,
    holds: &[u8],
) -> Result<bool, AllocError> {
    let mut writes: Drip<MemSink> = Drip {
        sink: sink(alloc, failing)?,
    };
    let ended = writer::<R, PlainSpace, NoNames, Watcher<Table>, Drip<MemSink>>(
        rt,
        alloc,
        NoNames,
        Watcher::new(Table),
        &mut writes,
    );
    let counts = Counts {
        packets: 1,
        bads: 0,
        closes,
    };
    let told = ended == Some((end, counts));
    Ok(told && writes.sink.held() == holds && writes.sink.finishes() == 1)
}

/// How many puts, in turn, may fail and the writer end with one close, the bytes before them being
/// put.
fn failed_puts<R: Wait>(rt: &R, alloc: Global) -> Result<usize, AllocError> {
    for count in 0..TOLD.len() {
        let failing = [count as u64];
        let holds = &TOLD[..count];
        if !ends_so(rt, alloc, &failing, WriterEnd::WriteFault, 1, holds)? {
            return Ok(count);
        }
    }
    Ok(TOLD.len())
}

#[test]
fn each_put_may_fail(rt: HostRuntime) -> Result<(), Fail> {
    assert!(rt; failed_puts(&rt, rt.alloc())? == 22);
    assert!(rt; ends_so(&rt, rt.alloc(), &[], WriterEnd::Ended, 0, TOLD)?);
    Ok(())
}
