//! The keys of what is made of captures.
ghost use Rattle.std.specs.Prelude.{◌≡◌, map, IfOk};
ghost use Rattle.ds_space.specs.declared.space.Change.TheVariants.{Left, Came};
ghost use Rattle.ac_watch.specs.Watching.{key_at, keys_from};

use ds_space::{Change, Changes};
use pv_value::{Items, NoMemory, Value};
use pv_words::number;
use std::alloc::Global;

/// The key of a place of what is made of captures.
fn key_at(alloc: Global, captures: &Value, place: usize) -> Result<Value, NoMemory>
    ensures { IfOk result (λ key. key ≡ key_at captures.now place) }
{
    let mut parts = Vec::with_capacity(alloc, 2)?;
    parts.push(captures.copy()?)?;
    parts.push(number(place as u64))?;
    Ok(Value::sequence(Items::from_vec(alloc, parts)?))
}

/// The keys of all that is made of captures, ascending.
fn keys_of(alloc: Global, captures: &Value, made: &[Value]) -> Result<Vec<Value>, NoMemory>
    ensures { IfOk result (λ keys. keys.items ≡ keys_from captures.now 0 made.now) }
{
    let mut keys = Vec::with_capacity(alloc, made.len())?;
    for (place, _) in made.iter().enumerate() {
        keys.push(key_at(alloc, captures, place)?)?;
    }
    Ok(keys)
}

/// All that is made of captures is wanted no more.
pub(crate) fn all_left(alloc: Global, captures: &Value, made: &Items) -> Result<Changes, NoMemory>
    ensures { IfOk result (λ cs. cs.items ≡ map Left (keys_from captures.now 0 made.now)) }
{
    let mut changes = Vec::with_capacity(alloc, made.len())?;
    for key in keys_of(alloc, captures, made.as_slice())? {
        changes.push(Change::Left(key))?;
    }
    Ok(changes)
}

/// All that is made of captures is wanted now.
pub(crate) fn all_came(alloc: Global, captures: &Value, made: &Items) -> Result<Changes, NoMemory>
    ensures { IfOk result (λ cs. cs.items ≡ map Came (keys_from captures.now 0 made.now)) }
{
    let mut changes = Vec::with_capacity(alloc, made.len())?;
    for key in keys_of(alloc, captures, made.as_slice())? {
        changes.push(Change::Came(key))?;
    }
    Ok(changes)
}
