//! Keys come and go, one and two.
use crate::{Held, SmallSet};
use pv_value::NoMemory;
use pv_words::number;
use std::alloc::Global;
use std::test::Fail;

/// Whether nothing, one key or more is shown, as a number.
fn shown(set: &SmallSet) -> u64 {
    match set.held() {
        Held::Nothing => 0,
        Held::One(_) => 1,
        Held::Many(_) => 2,
    }
}

/// Whether a set has what was put in, in place and in a tree.
fn set_grows(alloc: Global) -> Result<bool, NoMemory> {
    let mut set = SmallSet::new();
    let none = set.is_empty() && shown(&set) == 0;
    let first = set.insert(alloc, number(7))? && !set.insert(alloc, number(7))?;
    let one = shown(&set) == 1 && set.contains(&number(7)) && !set.contains(&number(8));
    let second = set.insert(alloc, number(8))? && set.insert(alloc, number(6))?;
    let more = shown(&set) == 2 && set.len() == 3 && set.contains(&number(7));
    Ok(none && first && one && second && more)
}

/// Whether a set hasn't what was taken out.
fn set_shrinks(alloc: Global) -> Result<bool, NoMemory> {
    let mut set = SmallSet::one(number(7));
    let other = !set.remove(&number(8)) && set.len() == 1;
    let two = set.insert(alloc, number(8))? && set.remove(&number(7)) && set.len() == 1;
    let none = set.remove(&number(8)) && set.is_empty() && !set.remove(&number(8));
    Ok(other && two && none)
}

#[test]
fn keys_come_and_go(rt: HostRuntime) -> Result<(), Fail> {
    assert!(rt; set_grows(rt.alloc())?);
    assert!(rt; set_shrinks(rt.alloc())?);
    Ok(())
}
