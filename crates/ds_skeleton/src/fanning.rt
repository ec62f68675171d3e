//! To whom a message goes.
ghost use Rattle.std.specs.Prelude.{◌≡◌, ◌||◌, map, Some, List, OnOk, IfOk};
ghost use Rattle.std.specs.List.{list_any};
ghost use Rattle.std.specs.List.Sorted.{IsStrictlySortedBy};
ghost use Rattle.pv_value.specs.Plain.{Plain};
ghost use Rattle.pv_value.specs.EntryOrder.{entry_order};
ghost use Rattle.pv_value.specs.declared.Entry.{Entry};
ghost use Rattle.ds_space.specs.Spaces.{IsFan};
ghost use Rattle.ds_skeleton.specs.Indexes.{IsWhole, AreCounts, met, met_by};
ghost use Rattle.ds_skeleton.specs.Keys.{has_key, items_of, fanned_of};

use crate::index::Index;
use crate::leaf::Leaves;
use crate::listing::weigh;
use crate::shape::Shape;
use crate::standing::Parts;
use crate::touching::{Keys, put_in_order, put_observers};
use ds_space::{Fan, FanList, Fanned, is_over};
use pv_value::{Items, NoMemory, Node, Value};
use std::alloc::Global;

/// The observations with the parts that a message has at an outline.
fn put_at(keys: &mut Keys, leaves: &Leaves, parts: Parts) -> Result<(), NoMemory>
    ensures { OnOk result ((q : Entry) → has_key keys.new.items q
        ≡ (has_key keys.old.items q || met_by leaves.now (Some parts) q)) }
{
    let Parts {
        constants,
        captures,
    } = parts;
    match leaves.get(&constants) {
        Some(leaf) => put_observers(keys, &leaf.observers, &captures),
        None => Ok(()),
    }
}

/// The observations of one outline that the message matches.
fn put_met(alloc: Global, keys: &mut Keys, shape: &Shape, message: &Value) -> Result<(), NoMemory>
    ensures { OnOk result ((q : Entry) → has_key keys.new.items q
        ≡ (has_key keys.old.items q || met message.now q shape.now)) }
{
    match shape.parts_of(alloc, message)? {
        Some(parts) => put_at(keys, &shape.leaves, parts),
        None => Ok(()),
    }
}

/// The observations that the message matches, each with its captures.
fn keys_met(alloc: Global, shapes: &[Shape], message: &Value) -> Result<Keys, NoMemory>
    ensures keys { IfOk result (λ keys. (q : Entry) → has_key keys.items q
        ≡ list_any (met message.now q) shapes.now) }
    ensures ascending { IfOk result (λ keys. IsStrictlySortedBy entry_order keys.items) }
{
    let mut keys = Vec::new(alloc);
    for shape in shapes {
        put_met(alloc, &mut keys, shape, message)?;
    }
    put_in_order(&mut keys);
    Ok(keys)
}

/// The items of a sequence.
#[tactic(auto, using(crate::proofs::Fans::items_listed))]
fn items_of(alloc: Global, value: &Value) -> Result<Items, NoMemory>
    ensures { IfOk result (λ items. items ≡ items_of value.now) }
{
    match &value.node {
        Node::Seq(items) => items.copy(),
        _ => Ok(Items::from_vec(alloc, Vec::new(alloc))?),
    }
}

fn fan_list(alloc: Global, keys: Keys) -> Result<FanList, NoMemory>
    ensures { IfOk result (λ list. list.items ≡ map fanned_of keys.items) }
{
    let mut list = Vec::new(alloc);
    for key in keys {
        let captures = items_of(alloc, &key.value)?;
        let observe = key.key;
        list.push(Fanned { observe, captures })?;
    }
    Ok(list)
}

/// The observations among the values that a message matches.
pub(crate) fn fan(alloc: Global, index: &Index, message: &Value) -> Result<Fan, NoMemory>
    requires { IsWhole index.now }
    ensures { IfOk result (λ fan. (vs : List Plain) → AreCounts index.now.values vs
        → IsFan vs message.now fan) }
{
    let keys = keys_met(alloc, &index.shapes, message)?;
    let weight = weigh(&keys);
    if is_over(weight) {
        return Ok(Fan::Over(weight));
    }
    let list = fan_list(alloc, keys)?;
    Ok(Fan::Each(list))
}
