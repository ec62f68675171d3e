//! What behaviours make, through what is kept of them.
use crate::{Behaves, Table, Watcher};
use pv_value::{Items, NoMemory, Value};
use pv_words::{labelled, number};
use std::alloc::Global;
use std::test::Fail;

/// The numbers from 1 up to this one.
fn numbers(alloc: Global, last: u64) -> Result<Vec<Value>, NoMemory> {
    let mut list = Vec::new(alloc);
    for n in 1..=last {
        list.push(number(n))?;
    }
    Ok(list)
}

/// What is made of the numbers from 1 up to this one.
fn made<B: Behaves>(alloc: Global, behaves: &B, name: &[u8], last: u64) -> Result<Items, NoMemory> {
    let captures = Items::from_vec(alloc, numbers(alloc, last)?)?;
    behaves.behave(alloc, name, &captures)
}

/// Whether the numbers from 1 up to one are made of those up to another.
fn makes_each(alloc: Global, given: u64, wanted: u64) -> Result<bool, NoMemory> {
    let made = made(alloc, &Watcher::new(Table), b"each", given)?;
    Ok(made.as_slice() == numbers(alloc, wanted)?.as_slice())
}

/// Whether one record is made, with this word and the numbers from 1 up to one.
fn makes_record(alloc: Global, word: &str, given: u64, wanted: u64) -> Result<bool, NoMemory> {
    let made = made(alloc, &Watcher::new(Table), word.as_bytes(), given)?;
    let fields = numbers(alloc, wanted)?;
    Ok(made.len() == 1 && made.as_slice()[0] == labelled(alloc, word, fields)?)
}

/// Whether a name has a behaviour, and makes something of two captures.
fn is_known(alloc: Global, name: &[u8]) -> Result<bool, NoMemory> {
    let watcher = Watcher::new(Table);
    Ok(watcher.knows(name) && !made(alloc, &watcher, name, 2)?.is_empty())
}

/// Whether a name has no behaviour, and makes nothing of two captures.
fn is_unknown(alloc: Global, name: &[u8]) -> Result<bool, NoMemory> {
    let watcher = Watcher::new(Table);
    Ok(!watcher.knows(name) && made(alloc, &watcher, name, 2)?.is_empty())
}

#[test]
fn each_makes_the_first_eight(rt: HostRuntime) -> Result<(), Fail> {
    assert!(rt; makes_each(rt.alloc(), 0, 0)?);
    assert!(rt; makes_each(rt.alloc(), 2, 2)?);
    assert!(rt; makes_each(rt.alloc(), 8, 8)?);
    assert!(rt; makes_each(rt.alloc(), 9, 8)?);
    Ok(())
}

#[test]
fn a_record_of_all_or_of_how_many(rt: HostRuntime) -> Result<(), Fail> {
    assert!(rt; makes_record(rt.alloc(), "tuple", 0, 0)?);
    assert!(rt; makes_record(rt.alloc(), "tuple", 9, 9)?);
    // the one number of `<size 1>` is that of one capture
    assert!(rt; makes_record(rt.alloc(), "size", 1, 1)?);
    Ok(())
}

#[test]
fn three_names_have_behaviours(rt: HostRuntime) -> Result<(), Fail> {
    for name in [b"each".as_slice(), b"tuple".as_slice(), b"size".as_slice()] {
        assert!(rt; is_known(rt.alloc(), name)?);
    }
    for name in [b"".as_slice(), b"eac".as_slice(), b"sizes".as_slice()] {
        assert!(rt; is_unknown(rt.alloc(), name)?);
    }
    Ok(())
}
