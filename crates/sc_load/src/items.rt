//! What items assert.
ghost use Rattle.std.specs.Prelude.{◌≡◌, ◌+◌, ◌≤◌, [], ◌∷◌, ℕ, map, IfOk, OnOk};
ghost use Rattle.pv_value.specs.Plain.{plains, pairs, dictionary, sequence, embedded};
ghost use Rattle.pv_value.specs.View.{key_and_value};
ghost use Rattle.pv_words.specs.Words.{labelled, number};
ghost use Rattle.sc_load.specs.Limits.{most_items};
ghost use Rattle.sc_load.specs.Loads.{fields_of, pattern_of, own_object, observation};
ghost use Rattle.sc_load.specs.Loads.{observes, loads, events_of, after, given};

use crate::draws::Draws;
use pv_value::{Entry, Items, NoMemory, Text, Value};
use pv_words::{labelled, number};
use rl_packet::{Event, TurnEvent, TurnEvents};
use std::alloc::Global;

/// A record with one field.
pub(crate) fn of_one(alloc: Global, word: &str, field: Value) -> Result<Value, NoMemory>
    ensures { IfOk result (λ v. v ≡ labelled word.now (field ∷ [])) }
{
    let mut fields = Vec::new(alloc);
    fields.push(field)?;
    labelled(alloc, word, fields)
}

/// A record with two fields.
pub(crate) fn of_two(
    alloc: Global,
    word: &str,
    first: Value,
    second: Value,
) -> Result<Value, NoMemory>
    ensures { IfOk result (λ v. v ≡ labelled word.now (first ∷ second ∷ [])) }
{
    let mut fields = Vec::new(alloc);
    fields.push(first)?;
    fields.push(second)?;
    labelled(alloc, word, fields)
}

/// `{0: <lit i> 1: <bind <_>>}`, as entries.
fn entries_of(alloc: Global, item: u64) -> Result<Vec<Entry>, NoMemory>
    ensures { IfOk result (λ es. map key_and_value es.items ≡ fields_of item) }
{
    let any = labelled(alloc, "_", Vec::new(alloc))?;
    let mut entries = Vec::new(alloc);
    entries.push(Entry {
        key: number(0),
        value: of_one(alloc, "lit", number(item))?,
    })?;
    entries.push(Entry {
        key: number(1),
        value: of_one(alloc, "bind", any)?,
    })?;
    Ok(entries)
}

/// `{0: <lit i> 1: <bind <_>>}`.
#[tactic(auto, using(crate::proofs::Made::made))]
fn fields_of(alloc: Global, item: u64) -> Result<Value, NoMemory>
    ensures { IfOk result (λ v. v ≡ dictionary (pairs (fields_of item))) }
{
    match Value::dict(alloc, entries_of(alloc, item)?) {
        Ok(fields) => Ok(fields),
        Err(_) => Err(NoMemory),
    }
}

/// `<group <rec Load> {0: <lit i> 1: <bind <_>>}>`.
fn pattern_of(alloc: Global, item: u64) -> Result<Value, NoMemory>
    ensures { IfOk result (λ v. v ≡ pattern_of item) }
{
    let label = Value::symbol(Text::from_str(alloc, "Load")?);
    let group = of_one(alloc, "rec", label)?;
    of_two(alloc, "group", group, fields_of(alloc, item)?)
}

/// `#:[0 n]`.
fn own_object(alloc: Global, object: u64) -> Result<Value, NoMemory>
    ensures { IfOk result (λ v. v ≡ own_object object) }
{
    let mut items = Vec::new(alloc);
    items.push(number(0))?;
    items.push(number(object))?;
    Value::embedded(alloc, Value::sequence(Items::from_vec(alloc, items)?))
}

/// What observes an item.
fn observation(alloc: Global, item: u64) -> Result<Value, NoMemory>
    requires { item ≤ most_items }
    ensures { IfOk result (λ v. v ≡ observation item) }
{
    let pattern = pattern_of(alloc, item)?;
    of_two(alloc, "Observe", pattern, own_object(alloc, item + 1)?)
}

/// The observations of so many items, from one on.
pub(crate) fn observations(alloc: Global, first: u64, count: u64) -> Result<TurnEvents, NoMemory>
    requires { first + count ≤ most_items }
    ensures { IfOk result (λ events. events ≡ events_of observes first count) }
{
    let mut events = Vec::new(alloc);
    for further in 0..count {
        let item = first + further;
        let event = Event::Assert(observation(alloc, item)?, 2 * item);
        events.push(TurnEvent { oid: 0, event })?;
    }
    Ok(TurnEvents::from_vec(events))
}

/// What so many items assert, from one on, behind the draws of those before.
pub(crate) fn loads(
    alloc: Global,
    draws: &mut Draws,
    first: u64,
    count: u64,
) -> Result<TurnEvents, NoMemory>
    requires { first + count ≤ most_items }
    ensures events { IfOk result (λ events. (start : ℕ) → draws.old.number ≡ after start first
        → events ≡ events_of (loads start) first count) }
    ensures draws { IfOk result (λ events. (start : ℕ) → draws.old.number ≡ after start first
        → draws.new.number ≡ after start (first + count)) }
{
    let mut events = Vec::new(alloc);
    for further in 0..count {
        let item = first + further;
        let load = of_two(alloc, "Load", number(item), number(draws.draw()))?;
        let event = Event::Assert(load, 2 * item + 1);
        events.push(TurnEvent { oid: 0, event })?;
    }
    Ok(TurnEvents::from_vec(events))
}
