//! A server by kept bindings: what the words `bindings` kept before is bound, and what they let go
//! isn't.
use crate::guests::{Part, Piece, door_with, link_for};
use crate::running::{ends_over, no_host};
use crate::statuses::host;
use kp_keeper::{MemKeeper, MemKeeping, Record, Records};
use pv_value::Blob;
use std::alloc::{AllocError, Global};
use std::sync::Wait;
use std::sync::atomic::{AtomicU64, Ordering};
use std::test::Fail;
use std::thread::Threads;

/// A key of sixteen bytes.
const KEY: &str = "000102030405060708090a0b0c0d0e0f";

/// The signed references of `"a"` and of `"b"` under that key, whose signatures are those that HMAC
/// over BLAKE2s of another library gives.
const A_LINE: &[u8] = b"<ref {oid: \"a\" sig: #[zKcs/HxUMNmy34aj92x/ug==]}>\n";

const B_LINE: &[u8] = b"<ref {oid: \"b\" sig: #[YP6jr1fPoeQ+bJPJQSSF0w==]}>\n";

/// A turn that resolves the reference of `"a"`: `[[0 <A <resolve S #:[0 2]> 2>]]`.
const RESOLVE_A: &[u8] = b"\xb5\xb5\xb0\x00\xb4\xb3\x01A\xb4\xb3\x07resolve\xb4\xb3\x03ref\xb7\
    \xb3\x03oid\xb1\x01a\xb3\x03sig\xb2\x10\xcc\xa7\x2c\xfc\x7c\x54\x30\xd9\xb2\xdf\x86\xa3\xf7\
    \x6c\x7f\xba\x84\x84\x86\xb5\xb0\x00\xb0\x01\x02\x84\x84\xb0\x01\x02\x84\x84\x84";

/// The same of `"b"`: `[[0 <A <resolve S #:[0 1]> 1>]]`.
const RESOLVE_B: &[u8] = b"\xb5\xb5\xb0\x00\xb4\xb3\x01A\xb4\xb3\x07resolve\xb4\xb3\x03ref\xb7\
    \xb3\x03oid\xb1\x01b\xb3\x03sig\xb2\x10\x60\xfe\xa3\xaf\x57\xcf\xa1\xe4\x3e\x6c\x93\xc9\x41\
    \x24\x85\xd3\x84\x84\x86\xb5\xb0\x00\xb0\x01\x01\x84\x84\xb0\x01\x01\x84\x84\x84";

/// An event at object 1 that rejects, without its end: `[1 <A <rejected "refused">`.
const REJECTED: &[u8] = b"\xb5\xb0\x01\x01\xb4\xb3\x01A\xb4\xb3\x08rejected\xb1\x07refused\x84";

/// An event at object 2 that accepts, without its end: `[2 <A <accepted #:[0 1]>`.
const ACCEPTED: &[u8] = b"\xb5\xb0\x01\x02\xb4\xb3\x01A\xb4\xb3\x08accepted\x86\xb5\xb0\x00\xb0\
    \x01\x01\x84\x84";

/// Whether words on bindings end with status 0 and this output.
fn writes<Rt: Threads + Wait + Sync>(
    rt: &Rt,
    alloc: Global,
    keeper: &mut MemKeeping,
    words: &[&str],
    output: &[u8],
) -> Result<bool, AllocError> {
    let mut host = no_host(alloc);
    ends_over(rt, alloc, words, &mut host, keeper, (0, output, b""))
}

/// `"b"` and `"a"` were kept, and `"b"` was let go.
fn is_prepared<Rt: Threads + Wait + Sync>(
    rt: &Rt,
    alloc: Global,
    keeper: &mut MemKeeping,
) -> Result<bool, AllocError> {
    let add_b = ["bindings", "f", "add", "\"b\"", KEY, "1"];
    let add_a = ["bindings", "f", "add", "\"a\"", KEY, "2", "<reject <_>>"];
    Ok(
        writes(rt, alloc, keeper, &add_b, B_LINE)?
            && writes(rt, alloc, keeper, &add_a, A_LINE)?
            && writes(
                rt,
                alloc,
                keeper,
                &["bindings", "f", "revoke", "\"b\""],
                b"",
            )?,
    )
}

fn piece(alloc: Global, least: u64, bytes: &[u8]) -> Result<Piece, AllocError> {
    let bytes = Vec::from_slice(alloc, bytes)?;
    Ok(Piece { least, bytes })
}

/// A client that resolves the reference of `"b"`, is refused, and resolves that of `"a"`.
fn client(alloc: Global) -> Result<Part, AllocError> {
    let mut pieces = Vec::new(alloc);
    pieces.push(piece(alloc, 1, RESOLVE_A)?)?;
    pieces.push(piece(alloc, 0, RESOLVE_B)?)?;
    let mut texts = Vec::new(alloc);
    texts.push(Vec::from_slice(alloc, ACCEPTED)?)?;
    texts.push(Vec::from_slice(alloc, REJECTED)?)?;
    Ok(Part {
        pieces,
        texts,
        last: 2,
    })
}

/// Whether the client hears what it waits for, and the file opened last is that of the words.
fn is_heard<Rt: Threads + Wait + Sync>(rt: &Rt, alloc: Global) -> Result<bool, Fail> {
    let (counter, gave) = (AtomicU64::new(0), AtomicU64::new(0));
    let lost = AtomicU64::new(0);
    let mut keeper = MemKeeping::new(MemKeeper::new(Records::new(alloc), 1000));
    let prepared = is_prepared(rt, alloc, &mut keeper)?;
    let mut links = Vec::new(alloc);
    links.push(link_for(alloc, client(alloc)?, &counter, &gave, &lost))?;
    let mut door = door_with(Vec::new(alloc), links);
    let words = ["serve-kept", "a", "g", "2", "1"];
    let served: (u8, &[u8], &[u8]) = (0, b"<served 1 0>\n", b"");
    let ended = ends_over(rt, alloc, &words, &mut door, &mut keeper, served)?;
    drop(door);
    let heard = counter.load(Ordering::SeqCst) == 2 && lost.load(Ordering::SeqCst) == 0;
    Ok(prepared && ended && heard && keeper.file() == Some("g"))
}

#[test]
fn what_is_kept_is_bound_and_what_was_revoked_is_refused(rt: HostRuntime) -> Result<(), Fail> {
    assert!(rt; is_heard(&rt, rt.alloc())?);
    Ok(())
}

/// A keeper of one record, of this oid, that works for so many calls.
fn keeper_of(alloc: Global, oid: &[u8], works: u64) -> Result<MemKeeping, Fail> {
    let mut records = Records::new(alloc);
    records.put(&Record {
        oid: Blob::from_slice(alloc, oid)?,
        key: Blob::from_slice(alloc, b"k")?,
        space: 1,
        caveats: Blob::from_slice(alloc, b"\xb5\x84")?,
    })?;
    Ok(MemKeeping::new(MemKeeper::new(records, works)))
}

/// Whether a server over a keeper of this record, which works for so many calls, ends so where
/// nobody comes, and whether its file is open then.
fn ends<Rt: Threads + Wait + Sync>(
    rt: &Rt,
    alloc: Global,
    oid: &[u8],
    works: u64,
    closed: bool,
    wanted: (u8, &[u8], bool),
) -> Result<bool, Fail> {
    let mut keeper = keeper_of(alloc, oid, works)?;
    let mut host = host(alloc, b"", 0, closed)?;
    let words = ["serve-kept", "a", "g", "2", "1"];
    let said: (u8, &[u8], &[u8]) = (wanted.0, b"", wanted.1);
    let ended = ends_over(rt, alloc, &words, &mut host, &mut keeper, said)?;
    Ok(ended && (keeper.file() == Some("g")) == wanted.2)
}

#[test]
fn statuses_of_serving_by_kept_bindings(rt: HostRuntime) -> Result<(), Fail> {
    let alloc = rt.alloc();
    let bad_record: (u8, &[u8], bool) = (7, b"dsd: bad config at 0\n", true);
    let unheard: (u8, &[u8], bool) = (8, b"dsd: listen failed\n", true);
    let unopened: (u8, &[u8], bool) = (15, b"dsd: keeper failed\n", false);
    let unlisted: (u8, &[u8], bool) = (15, b"dsd: keeper failed\n", true);
    assert!(rt; ends(&rt, alloc, b"\xff", 1000, false, bad_record)?);
    assert!(rt; ends(&rt, alloc, b"\x80", 1000, true, unheard)?);
    assert!(rt; ends(&rt, alloc, b"\x80", 0, false, unopened)?);
    assert!(rt; ends(&rt, alloc, b"\x80", 1, false, unlisted)?);
    Ok(())
}

/// Whether words out of their form are refused, and no file is opened for them.
fn is_refused<Rt: Threads + Wait + Sync>(
    rt: &Rt,
    alloc: Global,
    words: &[&str],
) -> Result<bool, Fail> {
    let mut keeper = keeper_of(alloc, b"\x80", 1000)?;
    let mut host = no_host(alloc);
    let bad: (u8, &[u8], &[u8]) = (2, b"", b"dsd: bad words\n");
    Ok(ends_over(rt, alloc, words, &mut host, &mut keeper, bad)? && keeper.file().is_none())
}

#[test]
fn words_that_serve_by_nothing_are_refused(rt: HostRuntime) -> Result<(), Fail> {
    let alloc = rt.alloc();
    assert!(rt; is_refused(&rt, alloc, &["serve-kept", "a", "g", "2"])?);
    assert!(rt; is_refused(&rt, alloc, &["serve-kept", "a", "g", "17", "1"])?);
    assert!(rt; is_refused(&rt, alloc, &["serve-kept", "a", "g", "2", "0"])?);
    assert!(rt; is_refused(&rt, alloc, &["serve-kep", "a", "g", "2", "1"])?);
    Ok(())
}
