//! Equal values have one mark, and a map by marks finds what it holds.
use crate::{Marked, mark};
use pv_value::{NoMemory, Text, Value};
use std::alloc::Global;
use std::collections::BTreeMap;
use std::test::Fail;

/// `<Load n>`.
fn load(alloc: Global, n: i128) -> Result<Value, NoMemory> {
    let mut fields = Vec::new(alloc);
    fields.push(Value::integer(n))?;
    Value::record(alloc, Value::symbol(Text::from_str(alloc, "Load")?), fields)
}

/// Whether equal values have one mark, and others two.
fn are_told_apart(alloc: Global) -> Result<bool, NoMemory> {
    let (one, again, two) = (load(alloc, 1)?, load(alloc, 1)?, load(alloc, 2)?);
    Ok(mark(&one) == mark(&again) && mark(&one) != mark(&two))
}

/// Whether a map by marks finds what it holds, and nothing else.
fn are_found(alloc: Global) -> Result<bool, NoMemory> {
    let mut places = BTreeMap::new(alloc);
    places.insert(Marked::of(&load(alloc, 1)?)?, 1)?;
    places.insert(Marked::of(&load(alloc, 2)?)?, 2)?;
    let one = places.get(&Marked::of(&load(alloc, 1)?)?) == Some(&1);
    let two = places.get(&Marked::of(&load(alloc, 2)?)?) == Some(&2);
    Ok(one && two && places.get(&Marked::of(&load(alloc, 3)?)?).is_none())
}

#[test]
fn values_are_found_by_marks(rt: HostRuntime) -> Result<(), Fail> {
    assert!(rt; are_told_apart(rt.alloc())?);
    assert!(rt; are_found(rt.alloc())?);
    Ok(())
}
