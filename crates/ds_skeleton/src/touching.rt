//! The keys that come or go with one value.
ghost use Rattle.std.specs.Prelude.{◌≡◌, ◌==◌, ◌&&◌, ◌||◌, Some, nat_lt, OnOk, IfOk};
ghost use Rattle.std.specs.List.Sorted.{IsStrictlySortedBy};
ghost use Rattle.std.specs.BTreeMap as tree;
ghost use Rattle.std.specs.BTreeSet as sorted;
ghost use Rattle.pv_value.specs.Order.{order};
ghost use Rattle.pv_value.specs.EntryOrder.{entry_order};
ghost use Rattle.pv_value.specs.declared.Entry.{Entry};
ghost use Rattle.pv_words.specs.Parts.{same};
ghost use Rattle.ds_skeleton.specs.Places.{place_of};
ghost use Rattle.ds_skeleton.specs.Leaves.{number};
ghost use Rattle.ds_skeleton.specs.Keys.{has_key};
ghost use Rattle.ds_skeleton.specs.Shapes.{AreInOrder};
ghost use Rattle.ds_skeleton.specs.Indexes.{touched, touched_by, own, own_by, goes_with};

use crate::counting::count_of;
use crate::finding::find;
use crate::leaf::{Leaf, Leaves};
use crate::observing::{Place, place_of};
use crate::shape::Shape;
use crate::standing::Parts;
use pv_value::{Entry, NoMemory, Value};
use std::alloc::Global;
use std::collections::{BTreeMap, BTreeSet};

/// Keys, each as the observation and the captures.
pub(crate) type Keys = Vec<Entry>;

/// One key more.
fn put_key(keys: &mut Keys, observer: &Value, captures: &Value) -> Result<(), NoMemory>
    ensures { OnOk result ((q : Entry) → has_key keys.new.items q
        ≡ (has_key keys.old.items q
        || (same observer.now q.key && same captures.now q.value))) }
{
    let key = Entry {
        key: observer.copy()?,
        value: captures.copy()?,
    };
    keys.push(key)?;
    Ok(())
}

/// The key of each observation with these captures.
pub(crate) fn put_observers(
    keys: &mut Keys,
    observers: &BTreeSet<Value>,
    captures: &Value,
) -> Result<(), NoMemory>
    ensures { OnOk result ((q : Entry) → has_key keys.new.items q
        ≡ (has_key keys.old.items q
        || (same captures.now q.value && sorted.contains order observers.now q.key))) }
{
    for observer in observers.iter() {
        put_key(keys, observer, captures)?;
    }
    Ok(())
}

/// One key more, where the captures were counted.
fn put_counted(
    keys: &mut Keys,
    observer: &Value,
    captures: &Value,
    count: u64,
) -> Result<(), NoMemory>
    ensures { OnOk result ((q : Entry) → has_key keys.new.items q
        ≡ (has_key keys.old.items q
        || (same observer.now q.key && (same captures.now q.value && nat_lt 0 count)))) }
{
    if count > 0 {
        return put_key(keys, observer, captures);
    }
    Ok(())
}

/// The keys of an observation, with each capture list that was counted.
fn put_captured(
    keys: &mut Keys,
    captured: &BTreeMap<Value, u64>,
    observer: &Value,
) -> Result<(), NoMemory>
    ensures { OnOk result ((q : Entry) → has_key keys.new.items q
        ≡ (has_key keys.old.items q
        || (same observer.now q.key
        && nat_lt 0 (number (tree.get order captured.now q.value))))) }
{
    for (captures, count) in captured.iter() {
        put_counted(keys, observer, captures, *count)?;
    }
    Ok(())
}

/// Whether the captures were counted once.
fn is_one(leaf: &Leaf, captures: &Value) -> bool
    ensures { result ≡ (number (tree.get order leaf.now.captured captures.now) == 1) }
{
    count_of(&leaf.captured, captures) == 1
}

/// The keys that go with the last value that has these parts of an outline.
fn put_last(keys: &mut Keys, leaves: &Leaves, parts: Parts) -> Result<(), NoMemory>
    ensures { OnOk result ((q : Entry) → has_key keys.new.items q
        ≡ (has_key keys.old.items q || touched_by leaves.now (Some parts) q)) }
{
    let Parts {
        constants,
        captures,
    } = parts;
    let Some(leaf) = leaves.get(&constants) else {
        return Ok(());
    };
    if is_one(leaf, &captures) {
        return put_observers(keys, &leaf.observers, &captures);
    }
    Ok(())
}

/// The keys that go at one outline.
fn put_touched(alloc: Global, keys: &mut Keys, shape: &Shape, value: &Value) -> Result<(), NoMemory>
    ensures { OnOk result ((q : Entry) → has_key keys.new.items q
        ≡ (has_key keys.old.items q || touched value.now q shape.now)) }
{
    match shape.parts_of(alloc, value)? {
        Some(parts) => put_last(keys, &shape.leaves, parts),
        None => Ok(()),
    }
}

/// The keys of an observation at its place.
fn put_at(keys: &mut Keys, shapes: &[Shape], place: &Place, value: &Value) -> Result<(), NoMemory>
    requires { AreInOrder shapes.now }
    ensures { OnOk result ((q : Entry) → has_key keys.new.items q
        ≡ (has_key keys.old.items q
        || (same value.now q.key && own_by shapes.now (Some place.now) q.value))) }
{
    let Some(shape) = find(shapes, &place.outline) else {
        return Ok(());
    };
    match shape.leaves.get(&place.constants) {
        Some(leaf) => put_captured(keys, &leaf.captured, value),
        None => Ok(()),
    }
}

/// The keys of the value itself, where it is an observation.
fn put_own(alloc: Global, keys: &mut Keys, shapes: &[Shape], value: &Value) -> Result<(), NoMemory>
    requires { AreInOrder shapes.now }
    ensures { OnOk result ((q : Entry) → has_key keys.new.items q
        ≡ (has_key keys.old.items q || own shapes.now value.now q)) }
{
    match place_of(alloc, value)? {
        Some(place) => put_at(keys, shapes, &place, value),
        None => Ok(()),
    }
}

/// The keys in their order, each once.
pub(crate) fn put_in_order(keys: &mut Keys)
    ensures keys { (q : Entry) → has_key keys.new.items q ≡ has_key keys.old.items q }
    ensures ascending { IsStrictlySortedBy entry_order keys.new.items }
{
    keys.sort_unstable();
    keys.dedup();
}

/// The keys that come or go with the value, where the index has it.
pub(crate) fn keys_with(alloc: Global, shapes: &[Shape], value: &Value) -> Result<Keys, NoMemory>
    requires { AreInOrder shapes.now }
    ensures keys { IfOk result (λ keys. (q : Entry) → has_key keys.items q
        ≡ goes_with shapes.now value.now q) }
    ensures ascending { IfOk result (λ keys. IsStrictlySortedBy entry_order keys.items) }
{
    let mut keys = Vec::new(alloc);
    for shape in shapes {
        put_touched(alloc, &mut keys, shape, value)?;
    }
    put_own(alloc, &mut keys, shapes, value)?;
    put_in_order(&mut keys);
    Ok(keys)
}
