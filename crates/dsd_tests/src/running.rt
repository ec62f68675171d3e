//! The program with these words over a host, and with threads at hand.
use dsd_program::run_words;
use kp_keeper::{MemKeeper, MemKeeping, Records};
use out_ports::memory::{MemHost, MemListen, MemSink, MemSource};
use out_ports::ports::{Host, Sink};
use std::alloc::{AllocError, Global};
use std::sync::Wait;
use std::thread::Threads;

fn words_of(alloc: Global, words: &[&str]) -> Result<Vec<String>, AllocError> {
    let mut texts = Vec::new(alloc);
    for word in words {
        texts.push(String::from_str(alloc, word)?)?;
    }
    Ok(texts)
}

fn source_of(alloc: Global, bytes: &[u8]) -> Result<MemSource, AllocError> {
    let bytes = Vec::from_slice(alloc, bytes)?;
    Ok(MemSource::new(bytes, 100, Vec::new(alloc)))
}

fn sink(alloc: Global) -> Result<MemSink, AllocError> {
    Ok(MemSink::new(Vec::with_capacity(alloc, 100)?, Vec::new(alloc)))
}

/// A host without files, to which nobody comes.
pub fn no_host(alloc: Global) -> MemHost {
    let links = MemListen::new(Vec::new(alloc), Vec::new(alloc));
    MemHost::new(Vec::new(alloc), links, Vec::new(alloc), Vec::new(alloc))
}

/// A keeper that keeps nothing.
fn no_keeper(alloc: Global) -> MemKeeping {
    MemKeeping::new(MemKeeper::new(Records::new(alloc), 1000))
}

/// The status of `run` for this input.
pub fn status_of_run<Rt: Threads + Wait + Sync, O: Sink>(
    rt: &Rt,
    alloc: Global,
    bytes: &[u8],
    out: &mut O,
) -> Result<u8, AllocError> {
    let words = words_of(alloc, &["run"])?;
    let mut input = source_of(alloc, bytes)?;
    let mut diag = sink(alloc)?;
    let mut host = no_host(alloc);
    let mut keeper = no_keeper(alloc);
    Ok(run_words(
        rt,
        alloc,
        &words,
        &mut input,
        out,
        &mut diag,
        &mut host,
        &mut keeper,
    ))
}

/// Whether the program with these words ends with this status, this output and this line on
/// standard error. Its input is no value.
pub fn ends_with<Rt: Threads + Wait + Sync, H: Host>(
    rt: &Rt,
    alloc: Global,
    words: &[&str],
    host: &mut H,
    wanted: (u8, &[u8], &[u8]),
) -> Result<bool, AllocError>
where
    H::R: Send + Drop,
    H::W: Send + Drop,
{
    let mut keeper = no_keeper(alloc);
    ends_over(rt, alloc, words, host, &mut keeper, wanted)
}

/// The same over a keeper.
pub fn ends_over<Rt: Threads + Wait + Sync, H: Host>(
    rt: &Rt,
    alloc: Global,
    words: &[&str],
    host: &mut H,
    keeper: &mut MemKeeping,
    wanted: (u8, &[u8], &[u8]),
) -> Result<bool, AllocError>
where
    H::R: Send + Drop,
    H::W: Send + Drop,
{
    let words = words_of(alloc, words)?;
    let mut input = source_of(alloc, b"\xff")?;
    let mut out = sink(alloc)?;
    let mut diag = sink(alloc)?;
    let status = run_words(
        rt, alloc, &words, &mut input, &mut out, &mut diag, host, keeper,
    );
    Ok(status == wanted.0 && out.held() == wanted.1 && diag.held() == wanted.2)
}
