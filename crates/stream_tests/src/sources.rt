//! What a feed has of a source that writes into its room.
use crate::feeds::{is_value, value_of_all};
use out_ports::memory::MemSource;
use out_ports::ports::Took;
use pv_binary::write;
use pv_stream::{Feed, Next};
use pv_value::{Items, Text, Value};
use std::alloc::Global;
use std::test::Fail;

/// `["..."]`, with a string of so many bytes.
fn long_value(alloc: Global, count: usize) -> Result<Value, Fail> {
    let mut text = String::new(alloc);
    for _ in 0..count {
        text.push('a')?;
    }
    let mut items = Vec::new(alloc);
    items.push(Value::string(Text::from_string(text)?))?;
    Ok(Value::sequence(Items::from_vec(alloc, items)?))
}

/// The value's bytes, so many times.
fn times(alloc: Global, value: &Value, count: u64) -> Result<Vec<u8>, Fail> {
    let bytes = write(alloc, value)?;
    let mut all = Vec::new(alloc);
    for _ in 0..count {
        all.extend_from_slice(bytes.as_slice())?;
    }
    Ok(all)
}

/// Whether the value comes so many times, and then the end, of a source that gives at most so many
/// bytes at once.
fn comes(alloc: Global, value: &Value, count: u64, piece: usize) -> Result<bool, Fail> {
    let bytes = times(alloc, value, count)?;
    let mut source = MemSource::new(bytes, piece.max(1), Vec::new(alloc));
    let mut feed = Feed::new(alloc);
    let mut told = 0u64;
    for _ in 0..1_000_000 {
        match feed.next(alloc)? {
            Next::More => match feed.take_from(&mut source, 65_536)? {
                Took::Some(_) => {}
                Took::End => return Ok(told == count && feed.left() == 0),
                Took::Failed => return Ok(false),
            },
            next => {
                if !is_value(next, value) {
                    return Ok(false);
                }
                told = told.saturating_add(1);
            }
        }
    }
    Ok(false)
}

fn short_comes(alloc: Global, count: u64, piece: usize) -> Result<bool, Fail> {
    let value = value_of_all(alloc)?;
    comes(alloc, &value, count, piece)
}

fn long_comes(alloc: Global, size: usize, count: u64, piece: usize) -> Result<bool, Fail> {
    let value = long_value(alloc, size)?;
    comes(alloc, &value, count, piece)
}

#[test]
fn values_come_of_a_source_whatever_it_gives_at_once(rt: HostRuntime) -> Result<(), Fail> {
    assert!(rt; short_comes(rt.alloc(), 20_000, 65_536)?);
    assert!(rt; short_comes(rt.alloc(), 20_000, 32_767)?);
    assert!(rt; short_comes(rt.alloc(), 5_000, 7)?);
    assert!(rt; long_comes(rt.alloc(), 40_000, 9, 65_536)?);
    assert!(rt; long_comes(rt.alloc(), 262_000, 5, 65_536)?);
    assert!(rt; long_comes(rt.alloc(), 100_000, 7, 10_007)?);
    Ok(())
}

/// Whether a feed is as it was where its source fails, and goes on behind it.
fn stands_through_a_fault(alloc: Global) -> Result<bool, Fail> {
    let value = value_of_all(alloc)?;
    let bytes = write(alloc, &value)?;
    let mut all = Vec::new(alloc);
    all.extend_from_slice(bytes.as_slice())?;
    let mut failing = Vec::new(alloc);
    failing.push(1)?;
    let mut source = MemSource::new(all, 5, failing);
    let mut feed = Feed::new(alloc);
    let first = feed.take_from(&mut source, 65_536)?;
    let second = feed.take_from(&mut source, 65_536)?;
    if first != Took::Some(5) || second != Took::Failed || feed.left() != 5 {
        return Ok(false);
    }
    feed.take_from(&mut source, 2)?;
    if feed.left() != 7 {
        return Ok(false);
    }
    feed.take_from(&mut source, 65_536)?;
    feed.take_from(&mut source, 65_536)?;
    Ok(is_value(feed.next(alloc)?, &value))
}

#[test]
fn a_fault_of_a_source_takes_nothing(rt: HostRuntime) -> Result<(), Fail> {
    assert!(rt; stands_through_a_fault(rt.alloc())?);
    Ok(())
}
