//! What is wanted over the values of rows.
ghost use Rattle.std.specs.Prelude.{◌≡◌, ◌||◌, OnOk, IfOk};
ghost use Rattle.std.specs.List.{list_any};
ghost use Rattle.std.specs.List.Sorted.{IsStrictlySortedBy};
ghost use Rattle.std.specs.BTreeMap as tree;
ghost use Rattle.std.specs.BTreeSet as sorted;
ghost use Rattle.pv_value.specs.Plain.{Plain};
ghost use Rattle.pv_value.specs.Order.{order};
ghost use Rattle.pv_words.specs.Parts.{same};
ghost use Rattle.dp_pattern.specs.Matching.{matched};
ghost use Rattle.ds_space.specs.Wants.{key_of, is_one, is_key, gives, wanted, wants};

use crate::standing::Standing;
use dp_pattern::{DPat, captures};
use pv_value::{Items, NoMemory, Value};
use std::alloc::Global;
use std::collections::{BTreeMap, BTreeSet};

/// The key `[observation captures]`.
fn key_of(alloc: Global, observe: &Value, captures: Items) -> Result<Value, NoMemory>
    ensures { IfOk result (λ k. k ≡ key_of observe.now captures) }
{
    let mut key = Vec::new(alloc);
    key.push(observe.copy()?)?;
    key.push(Value::sequence(captures))?;
    Ok(Value::sequence(Items::from_vec(alloc, key)?))
}

/// The key of what the pattern captures of one value, where it does.
fn key_with(
    alloc: Global,
    observe: &Standing,
    pattern: &DPat,
    value: &Standing,
) -> Result<Option<Value>, NoMemory>
    ensures { IfOk result
        (λ found. (q : Plain) → is_one q found
        ≡ is_key q observe.now (matched pattern.now value.now)) }
{
    match captures(alloc, pattern, value.value())? {
        Some(captures) => Ok(Some(key_of(alloc, observe.value(), captures)?)),
        None => Ok(None),
    }
}

/// One key more, where there is one.
fn put(keys: &mut BTreeSet<Value>, key: Option<Value>) -> Result<(), NoMemory>
    ensures { OnOk result
        ((q : Plain) → sorted.contains order keys.new q
        ≡ (sorted.contains order keys.old q || is_one q key)) }
{
    match key {
        Some(key) => put_key(keys, key),
        None => Ok(()),
    }
}

pub(crate) fn put_key(keys: &mut BTreeSet<Value>, key: Value) -> Result<(), NoMemory>
    ensures { OnOk result
        ((q : Plain) → sorted.contains order keys.new q
        ≡ (sorted.contains order keys.old q || same q key)) }
{
    keys.insert(key)?;
    Ok(())
}

/// The keys of what the pattern captures of each value, among more keys.
fn put_captured(
    alloc: Global,
    keys: &mut BTreeSet<Value>,
    rows: &BTreeMap<u64, Standing>,
    observe: &Standing,
    pattern: &DPat,
) -> Result<(), NoMemory>
    ensures { OnOk result ((q : Plain) → sorted.contains order keys.new q
        ≡ (sorted.contains order keys.old q
        || list_any (λ v. is_key q observe.now (matched pattern.now v)) (tree.values rows.now))) }
{
    for value in rows.values() {
        let key = key_with(alloc, observe, pattern, value)?;
        put(keys, key)?;
    }
    Ok(())
}

/// The keys of one observation, where it is one, among more keys.
fn put_wanted(
    alloc: Global,
    keys: &mut BTreeSet<Value>,
    rows: &BTreeMap<u64, Standing>,
    observe: &Standing,
) -> Result<(), NoMemory>
    ensures { OnOk result ((q : Plain) → sorted.contains order keys.new q
        ≡ (sorted.contains order keys.old q
        || list_any (gives q observe.now) (tree.values rows.now))) }
{
    match observe.pattern() {
        Some(pattern) => put_captured(alloc, keys, rows, observe, pattern),
        None => Ok(()),
    }
}

fn collected(alloc: Global, rows: &BTreeMap<u64, Standing>) -> Result<BTreeSet<Value>, NoMemory>
    ensures { IfOk result
        (λ keys. (q : Plain) → sorted.contains order keys q ≡ wanted (tree.values rows.now) q) }
{
    let mut keys = BTreeSet::new(alloc);
    for observe in rows.values() {
        put_wanted(alloc, &mut keys, rows, observe)?;
    }
    Ok(keys)
}

/// The members of a set, in a list.
pub(crate) fn listed<K: Ord + Drop>(alloc: Global, keys: BTreeSet<K>) -> Result<Vec<K>, NoMemory>
    ensures same { IfOk result (λ list. list.items ≡ keys.keys) }
    ensures ascending { IfOk result (λ list. IsStrictlySortedBy K.cmp list.items) }
{
    let _ = keys.len();
    let mut list = Vec::new(alloc);
    for key in keys {
        list.push(key)?;
    }
    Ok(list)
}

/// The keys that are wanted, ascending.
pub(crate) fn all_wanted(
    alloc: Global,
    rows: &BTreeMap<u64, Standing>,
) -> Result<Vec<Value>, NoMemory>
    ensures { IfOk result (λ keys. keys.items ≡ wants (tree.values rows.now)) }
{
    let keys = collected(alloc, rows)?;
    listed(alloc, keys)
}
