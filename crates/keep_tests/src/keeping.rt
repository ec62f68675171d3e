//! Words over a keeper in memory.
use dsd_keep::bindings_words;
use kp_keeper::{MemKeeper, MemKeeping, Record, Records};
use out_ports::memory::MemSink;
use pv_value::Blob;
use std::alloc::{AllocError, Global};
use std::test::Fail;

/// A key of sixteen bytes in hexadecimal digits.
pub const KEY: &str = "000102030405060708090a0b0c0d0e0f";

/// The signed references of `"a"` and of `"b"` under that key, whose signatures are those that HMAC
/// over BLAKE2s of another library gives.
pub const A_LINE: &str = "<ref {oid: \"a\" sig: #[zKcs/HxUMNmy34aj92x/ug==]}>\n";

pub const B_LINE: &str = "<ref {oid: \"b\" sig: #[YP6jr1fPoeQ+bJPJQSSF0w==]}>\n";

/// What comes of words: the status, the output and the line on standard error.
#[derive(Drop)]
pub struct Wanted<'a> {
    pub status: u8,
    pub output: &'a str,
    pub line: &'a str,
}

impl<'a> Wanted<'a> {
    pub fn new(status: u8, output: &'a str, line: &'a str) -> Wanted<'a> {
        Wanted {
            status,
            output,
            line,
        }
    }
}

/// A keeper of these records that works for so many calls. No file is open.
pub fn keeping_of(records: Records, works: u64) -> MemKeeping {
    MemKeeping::new(MemKeeper::new(records, works))
}

/// A keeper of no records that works on.
pub fn empty(alloc: Global) -> MemKeeping {
    keeping_of(Records::new(alloc), 1000)
}

pub fn texts(alloc: Global, words: &[&str]) -> Result<Vec<String>, AllocError> {
    let mut texts = Vec::new(alloc);
    for word in words {
        texts.push(String::from_str(alloc, word)?)?;
    }
    Ok(texts)
}

/// A sink with much room that fails at these puts.
pub fn sink(alloc: Global, failing: &[u64]) -> Result<MemSink, AllocError> {
    Ok(MemSink::new(
        Vec::with_capacity(alloc, 4096)?,
        Vec::from_slice(alloc, failing)?,
    ))
}

/// A record with canonical bytes, and these of its oid.
pub fn record(alloc: Global, oid: &[u8], space: u8) -> Result<Record, Fail> {
    Ok(Record {
        oid: Blob::from_slice(alloc, oid)?,
        key: Blob::from_slice(alloc, b"k")?,
        space,
        caveats: Blob::from_slice(alloc, b"\xb5\x84")?,
    })
}

/// Whether this comes of the words over the keeper, with a sink that fails at these puts.
pub fn comes_with(
    alloc: Global,
    keeper: &mut MemKeeping,
    words: &[&str],
    failing: &[u64],
    wanted: &Wanted,
) -> Result<bool, Fail> {
    let words = texts(alloc, words)?;
    let mut out = sink(alloc, failing)?;
    let mut diag = sink(alloc, &[])?;
    let status = bindings_words(alloc, &words, &mut out, &mut diag, keeper);
    let told = out.held() == wanted.output.as_bytes() && diag.held() == wanted.line.as_bytes();
    Ok(status == wanted.status && told)
}

/// Whether this comes of the words over the keeper.
pub fn comes_of(
    alloc: Global,
    keeper: &mut MemKeeping,
    words: &[&str],
    wanted: &Wanted,
) -> Result<bool, Fail> {
    comes_with(alloc, keeper, words, &[], wanted)
}
