//! Statuses of words that serve, with links that end at once, and of words that don't.
use crate::running::{ends_with, no_host};
use out_ports::memory::{MemFile, MemHost, MemLink, MemListen, MemSink, MemSource};
use std::alloc::{AllocError, Global};
use std::sync::Wait;
use std::test::Fail;
use std::thread::Threads;

/// A host with one file, so many empty links, and a port that can't be opened where it is so.
pub fn host(alloc: Global, config: &[u8], links: u32, closed: bool) -> Result<MemHost, AllocError> {
    let mut all = Vec::new(alloc);
    for _ in 0..links {
        all.push(MemLink {
            reads: MemSource::new(Vec::new(alloc), 1, Vec::new(alloc)),
            writes: MemSink::new(Vec::new(alloc), Vec::new(alloc)),
        })?;
    }
    let mut files = Vec::new(alloc);
    files.push(MemFile {
        name: String::from_str(alloc, "c")?,
        bytes: Vec::from_slice(alloc, config)?,
    })?;
    let listen = MemListen::new(all, Vec::new(alloc));
    let failing: &[u64] = if closed { &[0] } else { &[] };
    Ok(MemHost::new(
        files,
        listen,
        Vec::new(alloc),
        Vec::from_slice(alloc, failing)?,
    ))
}

/// Whether `serve` with this file's name and these numbers ends so over a host with one link.
fn serves<Rt: Threads + Wait + Sync>(
    rt: &Rt,
    alloc: Global,
    words: (&str, &str, &str),
    config: &[u8],
    closed: bool,
    wanted: (u8, &[u8], &[u8]),
) -> Result<bool, AllocError> {
    let mut host = host(alloc, config, 1, closed)?;
    let words = ["serve", "a", words.0, words.1, words.2];
    ends_with(rt, alloc, &words, &mut host, wanted)
}

#[test]
fn a_link_and_a_stop_are_one_served(rt: HostRuntime) -> Result<(), Fail> {
    let wanted: (u8, &[u8], &[u8]) = (0, b"<served 1 0>\n", b"");
    assert!(rt; serves(&rt, rt.alloc(), ("c", "2", "2"), b"", false, wanted)?);
    Ok(())
}

#[test]
fn a_file_that_is_not_there_is_told(rt: HostRuntime) -> Result<(), Fail> {
    let wanted: (u8, &[u8], &[u8]) = (3, b"", b"dsd: read failed\n");
    assert!(rt; serves(&rt, rt.alloc(), ("d", "2", "2"), b"", false, wanted)?);
    Ok(())
}

#[test]
fn a_bad_configuration_is_told(rt: HostRuntime) -> Result<(), Fail> {
    let wanted: (u8, &[u8], &[u8]) = (7, b"", b"dsd: bad config at 0\n");
    assert!(rt; serves(&rt, rt.alloc(), ("c", "2", "2"), b"<open 1>", false, wanted)?);
    Ok(())
}

#[test]
fn an_address_that_is_taken_is_told(rt: HostRuntime) -> Result<(), Fail> {
    let wanted: (u8, &[u8], &[u8]) = (8, b"", b"dsd: listen failed\n");
    assert!(rt; serves(&rt, rt.alloc(), ("c", "2", "2"), b"", true, wanted)?);
    Ok(())
}

#[test]
fn other_numbers_are_bad_words(rt: HostRuntime) -> Result<(), Fail> {
    let wanted: (u8, &[u8], &[u8]) = (2, b"", b"dsd: bad words\n");
    for numbers in [
        ("0", "1"),
        ("17", "1"),
        ("1", "0"),
        ("1", "1001"),
        ("01", "1"),
        ("+1", "1"),
    ] {
        let words = ("c", numbers.0, numbers.1);
        assert!(rt; serves(&rt, rt.alloc(), words, b"", false, wanted)?);
    }
    Ok(())
}

/// Whether the words are refused.
fn are_refused<Rt: Threads + Wait + Sync>(
    rt: &Rt,
    alloc: Global,
    words: &[&str],
) -> Result<bool, AllocError> {
    let mut host = no_host(alloc);
    ends_with(rt, alloc, words, &mut host, (2, b"", b"dsd: bad words\n"))
}

#[test]
fn words_that_begin_with_serve_are_refused(rt: HostRuntime) -> Result<(), Fail> {
    assert!(rt; are_refused(&rt, rt.alloc(), &["serve"])?);
    assert!(rt; are_refused(&rt, rt.alloc(), &["server", "run"])?);
    Ok(())
}
