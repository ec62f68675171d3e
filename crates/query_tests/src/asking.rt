//! Words over a host whose peer is a server.
use dsd_query::query_words;
use out_ports::memory::{MemHost, MemListen, MemSink, MemSource};
use pv_binary::write_into;
use pv_text::read_all;
use std::alloc::{AllocError, Global};
use std::test::Fail;

/// What a server sends, and which calls fail, counted from 0.
#[derive(Drop)]
pub(crate) struct Server<'a> {
    pub(crate) packets: &'a str,
    pub(crate) failing_dials: &'a [u64],
    pub(crate) failing_hears: &'a [u64],
    pub(crate) failing_says: &'a [u64],
    pub(crate) failing_puts: &'a [u64],
}

/// A server of which no call fails.
pub(crate) fn steady(packets: &str) -> Server<'_> {
    Server {
        packets,
        failing_dials: &[],
        failing_hears: &[],
        failing_says: &[],
        failing_puts: &[],
    }
}

/// What comes of words: the status, the output and the line on standard error.
#[derive(Drop)]
pub(crate) struct Wanted<'a> {
    pub(crate) status: u8,
    pub(crate) output: &'a str,
    pub(crate) line: &'a str,
}

/// The status, the output and the line.
pub(crate) fn outcome<'a>(status: u8, output: &'a str, line: &'a str) -> Wanted<'a> {
    Wanted {
        status,
        output,
        line,
    }
}

/// The binary spellings of the values of a text, one behind the other.
fn bytes(alloc: Global, text: &str) -> Result<Vec<u8>, Fail> {
    let values = read_all(alloc, text.as_bytes())?;
    let mut bytes = Vec::new(alloc);
    for value in values.as_slice() {
        write_into(&mut bytes, value)?;
    }
    Ok(bytes)
}

/// A sink with much room that fails at these puts.
fn sink(alloc: Global, failing: &[u64]) -> Result<MemSink, AllocError> {
    Ok(MemSink::new(
        Vec::with_capacity(alloc, 4096)?,
        Vec::from_slice(alloc, failing)?,
    ))
}

/// A host whose peer is the server. What it sends comes in pieces of three bytes.
fn host(alloc: Global, server: &Server) -> Result<MemHost, Fail> {
    let sent = bytes(alloc, server.packets)?;
    let hears = MemSource::new(sent, 3, Vec::from_slice(alloc, server.failing_hears)?);
    let says = sink(alloc, server.failing_says)?;
    let nobody = MemListen::new(Vec::new(alloc), Vec::new(alloc));
    let host = MemHost::new(Vec::new(alloc), nobody, Vec::new(alloc), Vec::new(alloc));
    Ok(host.with_peer(hears, says, Vec::from_slice(alloc, server.failing_dials)?))
}

fn texts(alloc: Global, words: &[&str]) -> Result<Vec<String>, AllocError> {
    let mut texts = Vec::new(alloc);
    for word in words {
        texts.push(String::from_str(alloc, word)?)?;
    }
    Ok(texts)
}

/// Whether this comes of the words, where the server is dialled at `a:1` or nobody is, and so much
/// is said to it.
pub(crate) fn comes_of(
    alloc: Global,
    words: &[&str],
    server: &Server,
    wanted: &Wanted,
    said: &str,
) -> Result<bool, Fail> {
    let words = texts(alloc, words)?;
    let mut host = host(alloc, server)?;
    let mut out = sink(alloc, server.failing_puts)?;
    let mut diag = sink(alloc, &[])?;
    let status = query_words(alloc, &words, &mut out, &mut diag, &mut host);
    let said = bytes(alloc, said)?;
    let told = out.held() == wanted.output.as_bytes() && diag.held() == wanted.line.as_bytes();
    let asked = host.says().held() == said.as_slice();
    let place = host.dialled()
        == if wanted.status == 2 || wanted.status == 11 {
            None
        } else {
            Some("a:1")
        };
    Ok(status == wanted.status && told && asked && place)
}
