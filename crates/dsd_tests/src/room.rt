//! A room of twenty: each resolves the room's reference, says that it is there, observes who is and
//! what is said, and says something once it was told of all that.
use crate::guests::{Part, Piece, door_with, link_for};
use crate::running::ends_with;
use std::alloc::{AllocError, Global};
use std::sync::Wait;
use std::sync::atomic::{AtomicU64, Ordering};
use std::test::Fail;
use std::thread::Threads;

/// What binds the room's reference.
pub(crate) const CONFIG: &[u8] = b"<bind \"room\" #x\"000102030405060708090a0b0c0d0e0f\" 1 []>";

/// The names of the twenty, a letter each.
const NAMES: &[u8; 20] = b"abcdefghijklmnopqrst";

/// A turn that resolves the room's reference: `[[0 <A <resolve S #:[0 1]> 1>]]`.
pub(crate) const RESOLVE: &[u8] =
    b"\xb5\xb5\xb0\x00\xb4\xb3\x01A\xb4\xb3\x07resolve\xb4\xb3\x03ref\xb7\xb3\
    \x03oid\xb1\x04room\xb3\x03sig\xb2\x10\xbe\x09\xf0K\xb8\xe63r]Z\x15\x8a&\x82\xbb\xd5\x84\x84\
    \x86\xb5\xb0\x00\xb0\x01\x01\x84\x84\xb0\x01\x01\x84\x84\x84";

/// A turn at the room, before a letter and behind it: the letter is the name of one who is present
/// and online, who is present is observed at object 2, what is said at object 3, and a sync is to
/// be answered at object 4.
const ENTER: (&[u8], &[u8]) = (
    b"\xb5\xb5\xb0\x01\x01\xb4\xb3\x01A\xb4\xb3\x07Present\xb1\x01",
    b"\xb1\x06online\x84\xb0\x01\x02\x84\x84\xb5\xb0\x01\x01\xb4\xb3\x01A\
    \xb4\xb3\x07Observe\xb4\xb3\x05group\xb4\xb3\x03rec\xb3\x07Present\x84\xb7\xb0\x00\xb4\xb3\
    \x04bind\xb4\xb3\x01_\x84\x84\x84\x84\x86\xb5\xb0\x00\xb0\x01\x02\x84\x84\xb0\x01\x03\x84\x84\
    \xb5\xb0\x01\x01\xb4\xb3\x01A\xb4\xb3\x07Observe\xb4\xb3\x05group\xb4\xb3\x03rec\xb3\x04Said\
    \x84\xb7\xb0\x00\xb4\xb3\x04bind\xb4\xb3\x01_\x84\x84\xb0\x01\x01\xb4\xb3\x04bind\xb4\xb3\x01\
    _\x84\x84\x84\x84\x86\xb5\xb0\x00\xb0\x01\x03\x84\x84\xb0\x01\x04\x84\x84\xb5\xb0\x01\x01\xb4\
    \xb3\x01S\x86\xb5\xb0\x00\xb0\x01\x04\x84\x84\x84\x84",
);

/// A turn that says `<Said NAME "hello">` in the room, before the letter and behind it.
const SAY: (&[u8], &[u8]) = (
    b"\xb5\xb5\xb0\x01\x01\xb4\xb3\x01M\xb4\xb3\x04Said\xb1\x01",
    b"\xb1\x05hello\x84\x84\x84\x84",
);

/// An event that accepts, at object 1, without its end: `[1 <A <accepted #:[0 1]>`.
const ACCEPTED: &[u8] = b"\xb5\xb0\x01\x01\xb4\xb3\x01A\xb4\xb3\x08accepted\x86\xb5\xb0\x00\xb0\
    \x01\x01\x84\x84";

/// The event that answers a sync at object 4: `[4 <M #t>]`.
const SYNCED: &[u8] = b"\xb5\xb0\x01\x04\xb4\xb3\x01M\x81\x84\x84";

/// The event that tells at object 3 what was said: `[3 <M [NAME "hello"]>]`.
const HEARD: (&[u8], &[u8]) = (
    b"\xb5\xb0\x01\x03\xb4\xb3\x01M\xb5\xb1\x01",
    b"\xb1\x05hello\x84\x84\x84",
);

/// A letter between two parts.
fn around(alloc: Global, parts: (&[u8], &[u8]), letter: u8) -> Result<Vec<u8>, AllocError> {
    let mut bytes = Vec::from_slice(alloc, parts.0)?;
    bytes.push(letter)?;
    bytes.extend_from_slice(parts.1)?;
    Ok(bytes)
}

/// What one of them sends, the last first, each once the writing half of its link has got more.
fn pieces(alloc: Global, letter: u8) -> Result<Vec<Piece>, AllocError> {
    let mut pieces = Vec::new(alloc);
    pieces.push(Piece {
        least: 2,
        bytes: around(alloc, SAY, letter)?,
    })?;
    pieces.push(Piece {
        least: 1,
        bytes: around(alloc, ENTER, letter)?,
    })?;
    pieces.push(Piece {
        least: 0,
        bytes: Vec::from_slice(alloc, RESOLVE)?,
    })?;
    Ok(pieces)
}

/// What one of them is to get, the last first.
fn texts(alloc: Global, letter: u8) -> Result<Vec<Vec<u8>>, AllocError> {
    let mut texts = Vec::new(alloc);
    texts.push(around(alloc, HEARD, letter)?)?;
    texts.push(Vec::from_slice(alloc, SYNCED)?)?;
    texts.push(Vec::from_slice(alloc, ACCEPTED)?)?;
    Ok(texts)
}

/// One of the twenty. Its link ends once it heard itself.
fn part(alloc: Global, letter: u8) -> Result<Part, AllocError> {
    Ok(Part {
        pieces: pieces(alloc, letter)?,
        texts: texts(alloc, letter)?,
        last: 3,
    })
}

/// Whether all twenty are served, and none waited in vain.
fn twenty_meet<Rt: Threads + Wait + Sync>(rt: &Rt, alloc: Global) -> Result<bool, Fail> {
    let mut heard = Vec::new(alloc);
    for _ in NAMES {
        heard.push(AtomicU64::new(0))?;
    }
    let gave = AtomicU64::new(0);
    let lost = AtomicU64::new(0);
    let mut links = Vec::new(alloc);
    for (letter, counter) in NAMES.iter().zip(heard.iter()) {
        links.push(link_for(alloc, part(alloc, *letter)?, counter, &gave, &lost))?;
    }
    let mut door = door_with(Vec::from_slice(alloc, CONFIG)?, links);
    let words = ["serve", "a", "c", "2", "20"];
    let wanted: (u8, &[u8], &[u8]) = (0, b"<served 20 0>\n", b"");
    let ended = ends_with(rt, alloc, &words, &mut door, wanted)?;
    drop(door);
    Ok(ended && lost.load(Ordering::SeqCst) == 0 && gave.load(Ordering::SeqCst) == 60)
}

#[test]
fn twenty_meet_in_a_room(rt: HostRuntime) -> Result<(), Fail> {
    assert!(rt; twenty_meet(&rt, rt.alloc())?);
    Ok(())
}
