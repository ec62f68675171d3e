//! Copies, the first repeat of a set, and texts at the bound of those that stand in place.
use pv_value::{Blob, Entry, Items, NoMemory, SetFault, Text, Value, weight};
use std::alloc::Global;
use std::test::Fail;

/// A text is kept as it is, and so is its copy.
fn is_kept(alloc: Global, text: &str) -> Result<bool, NoMemory> {
    let kept = Text::from_str(alloc, text)?;
    let copy = kept.copy()?;
    Ok(kept.as_str() == text && copy.as_str() == text)
}

#[test]
fn texts_stand_in_place_or_are_shared(rt: HostRuntime) -> Result<(), Fail> {
    assert!(rt; is_kept(rt.alloc(), "abcdefghijklmnopqrstuv")?);
    assert!(rt; is_kept(rt.alloc(), "abcdefghijklmnopqrstuvw")?);
    Ok(())
}

fn bytes_are_copied(alloc: Global) -> Result<bool, NoMemory> {
    let copy = Blob::from_slice(alloc, &[1, 2, 3])?.copy()?;
    Ok(copy.as_slice() == [1u8, 2, 3].as_slice())
}

#[test]
fn bytes_are_shared(rt: HostRuntime) -> Result<(), Fail> {
    assert!(rt; bytes_are_copied(rt.alloc())?);
    Ok(())
}

fn integers(alloc: Global, numbers: &[i128]) -> Result<Vec<Value>, NoMemory> {
    let mut values = Vec::new(alloc);
    for n in numbers {
        values.push(Value::integer(*n))?;
    }
    Ok(values)
}

fn items_are_copied(alloc: Global) -> Result<bool, NoMemory> {
    let items = Items::from_vec(alloc, integers(alloc, &[1, 2])?)?;
    let copy = items.copy()?;
    Ok(copy.as_slice() == items.as_slice())
}

#[test]
fn lists_are_shared(rt: HostRuntime) -> Result<(), Fail> {
    assert!(rt; items_are_copied(rt.alloc())?);
    Ok(())
}

/// `<0 1 2>`
fn record(alloc: Global) -> Result<Value, NoMemory> {
    Value::record(alloc, Value::integer(0), integers(alloc, &[1, 2])?)
}

fn record_is_copied(alloc: Global) -> Result<bool, NoMemory> {
    let record = record(alloc)?;
    let copy = record.copy()?;
    Ok(record == copy && weight(&copy) == weight(&record))
}

#[test]
fn a_record_is_copied(rt: HostRuntime) -> Result<(), Fail> {
    assert!(rt; record_is_copied(rt.alloc())?);
    Ok(())
}

/// The place that is told as the first repeat.
fn place_of(made: Result<Value, SetFault>) -> Option<usize> {
    match made {
        Err(SetFault::Duplicate(place)) => Some(place),
        _ => None,
    }
}

/// The place of the first repeat among these as elements of a set.
fn repeat_in(alloc: Global, numbers: &[i128]) -> Result<Option<usize>, NoMemory> {
    Ok(place_of(Value::set(alloc, integers(alloc, numbers)?)))
}

fn entries(alloc: Global, numbers: &[i128]) -> Result<Vec<Entry>, NoMemory> {
    let mut entries = Vec::new(alloc);
    for n in numbers {
        let key = Value::integer(*n);
        entries.push(Entry {
            key,
            value: Value::boolean(true),
        })?;
    }
    Ok(entries)
}

/// The place of the first repeat among these as keys of a dictionary.
fn repeated_key_in(alloc: Global, numbers: &[i128]) -> Result<Option<usize>, NoMemory> {
    Ok(place_of(Value::dict(alloc, entries(alloc, numbers)?)))
}

#[test]
fn the_first_repeat_is_told(rt: HostRuntime) -> Result<(), Fail> {
    assert!(rt; repeat_in(rt.alloc(), &[3, 1, 2, 1, 3])? == Some(3));
    assert!(rt; repeated_key_in(rt.alloc(), &[1, 2, 1, 2])? == Some(2));
    Ok(())
}
