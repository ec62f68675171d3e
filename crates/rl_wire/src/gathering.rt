//! Sets and dictionaries of elements and keys of which some may be equal.
ghost use Rattle.std.specs.Prelude.{◌≡◌, map, IfOk, OnOk};
ghost use Rattle.std.specs.BTreeMap.{insert_entry};
ghost use Rattle.pv_value.specs.Plain.{set_of, dictionary, plains, pairs};
ghost use Rattle.pv_value.specs.View.{key_and_value};
ghost use Rattle.pv_value.specs.Sets.{ascending_by};
ghost use Rattle.pv_value.specs.Order.{order};
ghost use Rattle.pv_value.specs.WellFormed.{Ascend, KeysAscend};
ghost use Rattle.rl_wire.specs.Crossing.{by_keys};

use pv_value::{Entry, NoMemory, Value};
use std::alloc::Global;
use std::collections::{BTreeMap, BTreeSet};

/// The set of these elements.
pub(crate) fn set(alloc: Global, elements: Vec<Value>) -> Result<Value, NoMemory>
    ensures { IfOk result (λ v. v ≡ set_of (plains (ascending_by order elements.items))) }
{
    let elements = in_order(alloc, elements)?;
    match Value::set(alloc, elements) {
        Ok(set) => Ok(set),
        Err(_) => Err(NoMemory),
    }
}

/// The same elements in ascending order, each once.
fn in_order(alloc: Global, elements: Vec<Value>) -> Result<Vec<Value>, NoMemory>
    ensures same { IfOk result (λ list. list.items ≡ ascending_by order elements.items) }
    ensures ascending { IfOk result (λ list. Ascend list.items) }
{
    let gathered = gathered(alloc, elements)?;
    Ok(gathered.into_iter().collect(alloc)?)
}

/// These elements, from the last one to the first.
fn gathered(alloc: Global, mut elements: Vec<Value>) -> Result<BTreeSet<Value>, NoMemory>
    ensures { IfOk result (λ set. set.keys ≡ ascending_by order elements.items) }
{
    let mut gathered = BTreeSet::new(alloc);
    while let Some(element) = elements.pop() {
        gathered.insert(element)?;
    }
    Ok(gathered)
}

/// The dictionary of these entries. Of those with equal keys the first stands.
pub(crate) fn dictionary(alloc: Global, entries: Vec<Entry>) -> Result<Value, NoMemory>
    ensures { IfOk result (λ v. v
        ≡ dictionary (pairs (by_keys (map key_and_value entries.items)))) }
{
    let entries = by_keys(alloc, entries)?;
    match Value::dict(alloc, entries) {
        Ok(dictionary) => Ok(dictionary),
        Err(_) => Err(NoMemory),
    }
}

/// The entries ascending by their keys. Of those with equal keys the first stands.
fn by_keys(alloc: Global, entries: Vec<Entry>) -> Result<Vec<Entry>, NoMemory>
    ensures same { IfOk result (λ list. map key_and_value list.items
        ≡ by_keys (map key_and_value entries.items)) }
    ensures ascending { IfOk result (λ list. KeysAscend (map key_and_value list.items)) }
{
    let gathered = gathered_by_keys(alloc, entries)?;
    let mut list = Vec::with_capacity(alloc, gathered.len())?;
    for (key, value) in gathered {
        list.push(Entry { key, value })?;
    }
    Ok(list)
}

/// These entries, from the last one to the first, so that an earlier one replaces a later.
fn gathered_by_keys(
    alloc: Global,
    mut entries: Vec<Entry>,
) -> Result<BTreeMap<Value, Value>, NoMemory>
    ensures { IfOk result (λ tree. tree.entries ≡ by_keys (map key_and_value entries.items)) }
{
    let mut gathered = BTreeMap::new(alloc);
    while let Some(entry) = entries.pop() {
        put(&mut gathered, entry)?;
    }
    Ok(gathered)
}

/// The entry comes, and takes the place of one with an equal key.
fn put(gathered: &mut BTreeMap<Value, Value>, entry: Entry) -> Result<(), NoMemory>
    ensures { OnOk result
        (gathered.new.entries ≡ insert_entry order gathered.old.entries entry.key entry.value) }
{
    let Entry { key, value } = entry;
    gathered.insert(key, value)?;
    Ok(())
}
