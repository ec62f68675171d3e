//! What a feed tells is next.
use pv_binary::{BinKind, write};
use pv_stream::{Feed, Next, first_in};
use pv_value::{Items, NoMemory, Text, Value};
use std::alloc::Global;
use std::test::Fail;

fn is_more(next: Next) -> bool {
    match next {
        Next::More => true,
        _ => false,
    }
}

fn is_some_value(next: Next) -> bool {
    match next {
        Next::Value(_) => true,
        _ => false,
    }
}

fn is_too_long(next: Next) -> bool {
    match next {
        Next::TooLong => true,
        _ => false,
    }
}

fn is_fault(next: Next, kind: BinKind, at: u64) -> bool {
    match next {
        Next::Fault(told, place) => told == kind && place == at,
        _ => false,
    }
}

/// A feed with a string that announces 2^60 bytes, of which so many come; it was asked before them.
fn announced(alloc: Global, count: usize) -> Result<Feed, NoMemory> {
    let mut feed = Feed::new(alloc);
    feed.push(&[0xb1, 0x80, 0x80, 0x80, 0x80, 0x80, 0x80, 0x80, 0x80, 0x10])?;
    feed.next(alloc)?;
    let piece = [0u8; 4096];
    for _ in 0..count / 4096 {
        feed.push(&piece)?;
    }
    feed.push(&piece[..count % 4096])?;
    Ok(feed)
}

fn waits_behind(alloc: Global, count: usize) -> Result<bool, NoMemory> {
    let mut feed = announced(alloc, count)?;
    Ok(is_more(feed.next(alloc)?))
}

fn is_too_long_behind(alloc: Global, count: usize) -> Result<bool, NoMemory> {
    let mut feed = announced(alloc, count)?;
    Ok(is_too_long(feed.next(alloc)?))
}

#[test]
fn a_value_is_too_long_at_its_last_byte(rt: HostRuntime) -> Result<(), Fail> {
    assert!(rt; waits_behind(rt.alloc(), 262_133)?);
    assert!(rt; is_too_long_behind(rt.alloc(), 262_134)?);
    Ok(())
}

/// Whether this fault stands in the bytes, behind so many values.
fn stands(
    alloc: Global,
    bytes: &[u8],
    values: u32,
    kind: BinKind,
    at: u64,
) -> Result<bool, NoMemory> {
    let mut feed = Feed::new(alloc);
    feed.push(bytes)?;
    for _ in 0..values {
        if !is_some_value(feed.next(alloc)?) {
            return Ok(false);
        }
    }
    Ok(is_fault(feed.next(alloc)?, kind, at))
}

#[test]
fn faults_are_told_by_their_place_in_the_stream(rt: HostRuntime) -> Result<(), Fail> {
    assert!(rt; stands(rt.alloc(), &[0xb5; 65], 0, BinKind::TooDeep, 64)?);
    assert!(rt; stands(rt.alloc(), &[0xb5, 0x84, 0x80, 0xff], 2, BinKind::BadTag, 3)?);
    assert!(rt;
        stands(
            rt.alloc(),
            &[0xb5, 0xb6, 0x80, 0x80, 0x84],
            0,
            BinKind::Duplicate,
            1
        )?
    );
    Ok(())
}

/// `[1 #:#t <"ab">]`
pub(crate) fn value_of_all(alloc: Global) -> Result<Value, Fail> {
    let mut items = Vec::new(alloc);
    items.push(Value::integer(1))?;
    items.push(Value::embedded(alloc, Value::boolean(true))?)?;
    let label = Value::string(Text::from_str(alloc, "ab")?);
    items.push(Value::record(alloc, label, Vec::new(alloc))?)?;
    Ok(Value::sequence(Items::from_vec(alloc, items)?))
}

/// Whether the value comes whole, and only with its last byte, twice one behind the other.
fn comes_by_bytes(alloc: Global) -> Result<bool, Fail> {
    let value = value_of_all(alloc)?;
    let bytes = write(alloc, &value)?;
    let mut feed = Feed::new(alloc);
    for _ in 0..2 {
        for byte in bytes.as_slice() {
            if !is_more(feed.next(alloc)?) {
                return Ok(false);
            }
            feed.push(&[*byte])?;
        }
        if !is_value(feed.next(alloc)?, &value) {
            return Ok(false);
        }
    }
    Ok(feed.left() == 0)
}

pub(crate) fn is_value(next: Next, value: &Value) -> bool {
    match next {
        Next::Value(told) => told == *value,
        _ => false,
    }
}

#[test]
fn a_value_comes_byte_by_byte(rt: HostRuntime) -> Result<(), Fail> {
    assert!(rt; comes_by_bytes(rt.alloc())?);
    Ok(())
}

/// Whether a sequence of so many bytes comes whole with its last byte, one byte after another.
fn comes_long(alloc: Global, count: usize) -> Result<bool, NoMemory> {
    let mut feed = Feed::new(alloc);
    feed.push(&[0xb5])?;
    for _ in 2..count {
        feed.push(&[0x80])?;
        if !is_more(feed.next(alloc)?) {
            return Ok(false);
        }
    }
    feed.push(&[0x84])?;
    Ok(is_some_value(feed.next(alloc)?))
}

#[test]
fn a_long_value_comes_byte_by_byte(rt: HostRuntime) -> Result<(), Fail> {
    assert!(rt; comes_long(rt.alloc(), 262_144)?);
    Ok(())
}

/// Whether a string of 20,000 bytes, behind these bytes, comes whole with its last byte, one byte
/// after another.
fn string_comes(alloc: Global, before: &[u8]) -> Result<bool, NoMemory> {
    let mut feed = Feed::new(alloc);
    feed.push(before)?;
    feed.push(&[0xb1, 0xa0, 0x9c, 0x01])?;
    for _ in 0..20_000 {
        if !is_more(feed.next(alloc)?) {
            return Ok(false);
        }
        feed.push(b"a")?;
    }
    Ok(is_some_value(feed.next(alloc)?))
}

#[test]
fn a_long_string_comes_byte_by_byte(rt: HostRuntime) -> Result<(), Fail> {
    assert!(rt; string_comes(rt.alloc(), &[])?);
    assert!(rt; string_comes(rt.alloc(), &[0x86])?);
    Ok(())
}

/// `[#{1 2} {"a": #t}]`
const SETS: [u8; 16] = [
    0xb5, 0xb6, 0xb0, 1, 1, 0xb0, 1, 2, 0x84, 0xb7, 0xb1, 1, 0x61, 0x81, 0x84, 0x84,
];

fn is_written_so(alloc: Global, next: Next, bytes: &[u8]) -> Result<bool, NoMemory> {
    match next {
        Next::Value(value) => Ok(write(alloc, &value)?.as_slice() == bytes),
        _ => Ok(false),
    }
}

/// Whether the sets come whole, of two pieces, of which the first has so many bytes.
fn sets_come_cut(alloc: Global, count: usize) -> Result<bool, NoMemory> {
    let mut feed = Feed::new(alloc);
    feed.push(&SETS[..count.min(16)])?;
    if !is_more(feed.next(alloc)?) {
        return Ok(false);
    }
    feed.push(&SETS[count.min(16)..])?;
    is_written_so(alloc, feed.next(alloc)?, &SETS)
}

fn sets_come(alloc: Global) -> Result<bool, NoMemory> {
    for count in 0..16 {
        if !sets_come_cut(alloc, count)? {
            return Ok(false);
        }
    }
    Ok(true)
}

/// Whether what repeats in `[#{1 1}` is told with the end of the set, byte by byte, and not before.
fn repeat_is_told(alloc: Global) -> Result<bool, NoMemory> {
    let mut feed = Feed::new(alloc);
    for byte in [0xb5u8, 0xb6, 0xb0, 1, 1, 0xb0, 1, 1] {
        feed.push(&[byte])?;
        if !is_more(feed.next(alloc)?) {
            return Ok(false);
        }
    }
    feed.push(&[0x84])?;
    Ok(is_fault(feed.next(alloc)?, BinKind::Duplicate, 1))
}

#[test]
fn sets_are_cut_inside(rt: HostRuntime) -> Result<(), Fail> {
    assert!(rt; sets_come(rt.alloc())?);
    assert!(rt; repeat_is_told(rt.alloc())?);
    Ok(())
}

/// Whether nothing is left, and nothing is known of it, behind these bytes: a value.
fn is_fresh_behind(alloc: Global, bytes: &[u8]) -> Result<bool, NoMemory> {
    let mut feed = Feed::new(alloc);
    feed.push(bytes)?;
    feed.next(alloc)?;
    Ok(feed.is_fresh() && feed.left() == 0)
}

/// Whether these bytes are left, and looked at: a front of a compound.
fn is_known_behind(alloc: Global, bytes: &[u8]) -> Result<bool, NoMemory> {
    let mut feed = Feed::new(alloc);
    feed.push(bytes)?;
    feed.next(alloc)?;
    Ok(!feed.is_fresh() && feed.as_slice() == bytes)
}

#[test]
fn what_is_left_can_be_looked_at(rt: HostRuntime) -> Result<(), Fail> {
    assert!(rt; is_fresh_behind(rt.alloc(), &SETS)?);
    assert!(rt; is_known_behind(rt.alloc(), &SETS[..5])?);
    Ok(())
}

/// A feed of `[] #f`, of which the first value was found, and then given.
fn given_first(alloc: Global) -> Result<Feed, NoMemory> {
    let mut feed = Feed::new(alloc);
    feed.push(&[0xb5, 0x84, 0x80])?;
    let found = feed.first(alloc)?;
    feed.give(found.size);
    Ok(feed)
}

fn goes_on(alloc: Global) -> Result<bool, NoMemory> {
    let feed = given_first(alloc)?;
    Ok(feed.before() == 2 && feed.left() == 1)
}

/// Whether a value of so many bytes stands first in these.
fn finds(alloc: Global, bytes: &[u8], size: usize) -> Result<bool, NoMemory> {
    let found = first_in(alloc, bytes, 0)?;
    Ok(found.size == size)
}

#[test]
fn what_is_found_is_given_by_its_size(rt: HostRuntime) -> Result<(), Fail> {
    assert!(rt; goes_on(rt.alloc())?);
    assert!(rt; finds(rt.alloc(), &[0xb5, 0x84, 0x80], 2)?);
    Ok(())
}
