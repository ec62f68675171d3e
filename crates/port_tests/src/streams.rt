//! A source and a sink in memory, and whole texts over them.
use out_ports::memory::{MemSink, MemSource};
use out_ports::ports::{HostFault, Incoming, Offered, Outgoing, Put, Sink, Source};
use out_ports::streams::{ReadFault, WriteFault, read_front, read_kept, read_to_end, write_all};
use std::alloc::{AllocError, Global};
use std::test::Fail;

/// A source of five bytes in pieces of two, which fails at these takes.
fn source(alloc: Global, failing: &[u64]) -> Result<MemSource, AllocError> {
    let bytes = Vec::from_slice(alloc, b"abcde")?;
    Ok(MemSource::new(bytes, 2, Vec::from_slice(alloc, failing)?))
}

/// Whether reading to the end stops at a fault.
fn stops(alloc: Global, source: &mut MemSource) -> bool {
    matches!(read_to_end(alloc, source), Err(ReadFault::Failed))
}

/// Whether these bytes are read to the end.
fn reads(alloc: Global, source: &mut MemSource, wanted: &[u8]) -> bool {
    match read_to_end(alloc, source) {
        Ok(bytes) => bytes.as_slice() == wanted,
        Err(_) => false,
    }
}

/// Whether the first three bytes, or those that are left, are these.
fn begins(alloc: Global, source: &mut MemSource, wanted: &[u8]) -> bool {
    match read_front(alloc, source, 3) {
        Ok(bytes) => bytes.as_slice() == wanted,
        Err(_) => false,
    }
}

/// Whether the first three bytes, or those that are left, are these, and nothing is left then.
fn keeps(alloc: Global, source: &mut MemSource, wanted: &[u8]) -> bool {
    match read_kept(alloc, source, 3) {
        Ok(bytes) => bytes.as_slice() == wanted && source.left().is_empty(),
        Err(_) => false,
    }
}

/// What was read before the second take is gone with its fault, and the rest is left.
fn failed_take_leaves_the_rest(alloc: Global) -> Result<bool, AllocError> {
    let mut source = source(alloc, &[1])?;
    let stopped = stops(alloc, &mut source) && source.faults() == 1;
    Ok(stopped && reads(alloc, &mut source, b"cde"))
}

#[test]
fn a_take_that_fails_leaves_the_rest(rt: HostRuntime) -> Result<(), Fail> {
    assert!(rt; failed_take_leaves_the_rest(rt.alloc())?);
    Ok(())
}

/// The second piece is taken whole, and of it only the first byte is given.
fn front_ends_within_a_piece(alloc: Global) -> Result<bool, AllocError> {
    let mut source = source(alloc, &[])?;
    Ok(begins(alloc, &mut source, b"abc") && begins(alloc, &mut source, b"e"))
}

#[test]
fn a_front_ends_within_a_piece(rt: HostRuntime) -> Result<(), Fail> {
    assert!(rt; front_ends_within_a_piece(rt.alloc())?);
    Ok(())
}

/// Three bytes are kept of five, and none is left.
fn first_bytes_are_kept(alloc: Global) -> Result<bool, AllocError> {
    let mut source = source(alloc, &[])?;
    Ok(keeps(alloc, &mut source, b"abc") && keeps(alloc, &mut source, b""))
}

#[test]
fn what_is_kept_ends_and_the_rest_is_read(rt: HostRuntime) -> Result<(), Fail> {
    assert!(rt; first_bytes_are_kept(rt.alloc())?);
    Ok(())
}

/// A sink with room for five bytes, which fails at its second put.
fn sink(alloc: Global) -> Result<MemSink, AllocError> {
    let room = Vec::with_capacity(alloc, 5)?;
    Ok(MemSink::new(room, Vec::from_slice(alloc, &[1])?))
}

fn writes(sink: &mut MemSink, bytes: &[u8]) -> bool {
    write_all(sink, bytes).is_ok()
}

/// The third put goes past the room.
fn failed_put_leaves_what_came_before(alloc: Global) -> Result<bool, AllocError> {
    let mut sink = sink(alloc)?;
    let first = writes(&mut sink, b"abc") && !writes(&mut sink, b"de");
    let then = !writes(&mut sink, b"def") && writes(&mut sink, b"fg");
    sink.finish();
    Ok(first && then && sink.held() == b"abcfg".as_slice() && sink.finishes() == 1)
}

#[test]
fn a_put_that_fails_leaves_what_came_before(rt: HostRuntime) -> Result<(), Fail> {
    assert!(rt; failed_put_leaves_what_came_before(rt.alloc())?);
    Ok(())
}

/// Of four offers the first and the third wait, which are no puts, so the fourth is the second put
/// and fails.
fn offers_wait_at_their_numbers(alloc: Global) -> Result<bool, AllocError> {
    let mut sink = sink(alloc)?.with_waits(Vec::from_slice(alloc, &[0, 2])?);
    let first = sink.offer(b"ab") == Offered::Waits && sink.offer(b"ab") == Offered::Some(2);
    let then = sink.offer(b"c") == Offered::Waits && sink.offer(b"c") == Offered::Failed;
    let put = sink.faults() == 1 && sink.put(b"c") == Put::Some(1);
    Ok(first && then && put && sink.held() == b"abc".as_slice())
}

#[test]
fn an_offer_that_waits_takes_nothing(rt: HostRuntime) -> Result<(), Fail> {
    assert!(rt; offers_wait_at_their_numbers(rt.alloc())?);
    Ok(())
}

/// Both are told, and nothing else changes.
fn settled_and_hurried(alloc: Global) -> Result<bool, AllocError> {
    let (mut source, mut sink) = (source(alloc, &[])?, sink(alloc)?);
    let before = !source.is_settled() && !sink.is_hurried();
    source.settle();
    sink.hurry();
    let after = source.is_settled() && sink.is_hurried() && sink.held().is_empty();
    Ok(before && after && begins(alloc, &mut source, b"abc"))
}

#[test]
fn a_link_is_settled_and_hurried(rt: HostRuntime) -> Result<(), Fail> {
    assert!(rt; settled_and_hurried(rt.alloc())?);
    Ok(())
}

/// Whether the texts of the faults, one after another, are this.
fn faults_read(alloc: Global, wanted: &str) -> Result<bool, AllocError> {
    let (host, no_memory) = (HostFault::Failed, HostFault::NoMemory);
    let (read, write) = (ReadFault::Failed, WriteFault);
    let texts = format!(in alloc; "{host}; {no_memory}; {read}; {write}")?;
    Ok(texts.as_str() == wanted)
}

#[test]
fn the_texts_of_faults(rt: HostRuntime) -> Result<(), Fail> {
    let wanted = "the file, the port or the dialled link failed; out of memory; \
        the source failed; the sink failed";
    assert!(rt; faults_read(rt.alloc(), wanted)?);
    Ok(())
}
