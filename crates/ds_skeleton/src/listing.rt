//! Lists of keys as lists of changes, and their weight.
ghost use Rattle.std.specs.Prelude.{◌≡◌, ◌≤◌, ◌+◌, ◌-◌, ◌^◌, min, map, IfOk};
ghost use Rattle.ds_space.specs.declared.space.Change.TheVariants.{Left, Came};
ghost use Rattle.ds_skeleton.specs.Keys.{key_value, weight_of_entries};

use crate::touching::Keys;
use ds_space::{Change, Changes};
use pv_value::{Entry, Items, NoMemory, Value, weight};
use std::alloc::Global;

/// The weight of what is wanted under the keys, at most the greatest u64.
pub(crate) fn weigh(keys: &Keys) -> u64
    ensures { result ≡ min (weight_of_entries keys.now.items) (2 ^ 64 - 1) }
{
    let mut total: u64 = 0;
    for key in keys {
        total = total.saturating_add(weight(&key.value));
    }
    total
}

/// The weight with what is wanted under these keys too, at most the greatest u64.
pub(crate) fn weight_with(weight: u64, keys: &Keys) -> u64
    ensures { result ≡ min (weight + weight_of_entries keys.now.items) (2 ^ 64 - 1) }
{
    weight.saturating_add(weigh(keys))
}

/// The weight without what is wanted under these keys.
pub(crate) fn weight_without(weight: u64, keys: &Keys) -> u64
    ensures { weight_of_entries keys.now.items ≤ weight
        → result + weight_of_entries keys.now.items ≡ weight }
{
    weight.saturating_sub(weigh(keys))
}

/// The key `[observation captures]`.
fn key_value(alloc: Global, key: Entry) -> Result<Value, NoMemory>
    ensures { IfOk result (λ v. v ≡ key_value key) }
{
    let Entry { key, value } = key;
    let mut parts = Vec::new(alloc);
    parts.push(key)?;
    parts.push(value)?;
    Ok(Value::sequence(Items::from_vec(alloc, parts)?))
}

/// The keys that came, in their order.
pub(crate) fn came(alloc: Global, keys: Keys) -> Result<Changes, NoMemory>
    ensures { IfOk result (λ cs. cs.items ≡ map (λ q. Came (key_value q)) keys.items) }
{
    let mut changes = Vec::new(alloc);
    for key in keys {
        changes.push(Change::Came(key_value(alloc, key)?))?;
    }
    Ok(changes)
}

/// The keys that left, in their order.
pub(crate) fn left(alloc: Global, keys: Keys) -> Result<Changes, NoMemory>
    ensures { IfOk result (λ cs. cs.items ≡ map (λ q. Left (key_value q)) keys.items) }
{
    let mut changes = Vec::new(alloc);
    for key in keys {
        changes.push(Change::Left(key_value(alloc, key)?))?;
    }
    Ok(changes)
}
