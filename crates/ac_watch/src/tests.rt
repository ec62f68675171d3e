//! A watcher that has got a sequence.
ghost use Rattle.ds_space.specs.Spaces.{IsNew};

use crate::Watching;
use ds_space::{Applied, SpaceEvent};
use lc_watch::{Table, Watcher};
use pv_value::{Items, NoMemory, Text, Value};
use pv_words::number;
use std::alloc::Global;
use std::test::Fail;

/// The sequence `[7]`.
fn captures(alloc: Global) -> Result<Value, NoMemory> {
    let mut items = Vec::new(alloc);
    items.push(number(7))?;
    Ok(Value::sequence(Items::from_vec(alloc, items)?))
}

/// The key of the first place of what is made of it.
fn key(alloc: Global) -> Result<Value, NoMemory> {
    let mut parts = Vec::new(alloc);
    parts.push(captures(alloc)?)?;
    parts.push(number(0))?;
    Ok(Value::sequence(Items::from_vec(alloc, parts)?))
}

/// The watcher after an event, and how many keys it changed.
fn applied(
    alloc: Global,
    watching: Watching,
    event: SpaceEvent,
) -> Result<Option<(Watching, usize)>, NoMemory>
    requires { IsNew watching.got event }
{
    match watching.apply(alloc, &Watcher::new(Table), event)? {
        Applied::Done(watching, changes) => Ok(Some((watching, changes.len()))),
        Applied::Over(_, _) => Ok(None),
    }
}

/// A watcher that has got the sequence, and how many keys came.
fn with_row(alloc: Global) -> Result<Option<(Watching, usize)>, NoMemory> {
    let watching = Watching::new(alloc, Text::from_str(alloc, "each")?);
    applied(alloc, watching, SpaceEvent::Add(1, captures(alloc)?))
}

/// Whether it has the row, and something is wanted under the key.
fn has_value(alloc: Global, watching: &Watching) -> Result<bool, NoMemory> {
    let key = key(alloc)?;
    let value = watching.value_at(alloc, &Watcher::new(Table), &key)?;
    Ok(watching.has(1) && value.is_some())
}

/// Whether one key leaves with the row.
fn leaves(alloc: Global, watching: Watching) -> Result<bool, NoMemory> {
    match applied(alloc, watching, SpaceEvent::Gone(1))? {
        Some((watching, left)) => Ok(left == 1 && !watching.has(1)),
        None => Ok(false),
    }
}

/// Whether one key comes with a sequence, is of a value, and leaves with it.
fn comes_and_leaves(alloc: Global) -> Result<bool, NoMemory> {
    match with_row(alloc)? {
        Some((watching, came)) => {
            Ok(came == 1 && has_value(alloc, &watching)? && leaves(alloc, watching)?)
        }
        None => Ok(false),
    }
}

#[test]
fn a_key_comes_and_leaves(rt: HostRuntime) -> Result<(), Fail> {
    assert!(rt; comes_and_leaves(rt.alloc())?);
    Ok(())
}
