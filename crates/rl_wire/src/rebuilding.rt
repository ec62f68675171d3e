//! Values with what their embedded values hold changed. What doesn't change is shared.
//!
//! A value nests as deep as the server made it, and each level takes a frame or two of the stack.
//! So what a level needs only once its insides have crossed stands in functions of their own, which
//! aren't inlined.
ghost use Rattle.std.specs.Prelude.{◌≡◌, ◌<◌, ◌+◌, ◌∷◌, ◌++◌, IfOk, map, take, drop, length};
ghost use Rattle.std.specs.Prelude.{MatchOption, None, option_map, unwrap_or, vec_items};
ghost use Rattle.pv_value.specs.Plain.{Plain, embedded, sequence, set_of, dictionary};
ghost use Rattle.pv_value.specs.Plain.{plains, pairs};
ghost use Rattle.pv_value.specs.View.{key_and_value};
ghost use Rattle.pv_value.specs.Sets.{ascending_by};
ghost use Rattle.pv_value.specs.Order.{order};
ghost use Rattle.rl_wire.specs.Crossing.{crossed, by_keys};
ghost use Rattle.rl_wire.specs.Changes.{IsChange, AreChanged, entry_crossed, record_or};

use crate::gathering;
use pv_value::{Entry, Items, NoMemory, Node, Rec, Value};
use std::alloc::Global;

/// A change of what embedded values hold.
pub(crate) trait Way {
    /// What it becomes.
    ghost way: { Self → Plain → Plain };

    /// What it becomes, where it isn't the same.
    fn cross(&self, alloc: Global, inside: &Value) -> Result<Option<Value>, NoMemory>
        ensures { IfOk result (IsChange inside.now (way self.now inside.now)) };
}

/// A value with what each embedded value in it holds changed, those inside others excepted.
pub(crate) fn crossed<W: Way>(alloc: Global, way: &W, value: &Value) -> Result<Value, NoMemory>
    ensures { IfOk result (λ v. v ≡ crossed (W.way way.now) value.now) }
{
    let changed = changed(alloc, way, value)?;
    value_or(changed, value)
}

/// The crossed value, where it isn't the same.
#[cycle(changed)]
fn changed<W: Way>(alloc: Global, way: &W, value: &Value) -> Result<Option<Value>, NoMemory>
    ensures { IfOk result (IsChange value.now (crossed (W.way way.now) value.now)) }
{
    match &value.node {
        Node::Emb(inside) => embedded_changed(alloc, way, inside),
        Node::Rec(rec) => {
            let label = changed(alloc, way, &rec.label)?;
            let fields = all_changed(alloc, way, rec.fields.as_slice())?;
            new_record(alloc, rec, label, fields)
        }
        Node::Seq(items) => new_sequence(alloc, all_changed(alloc, way, items.as_slice())?),
        Node::Set(items) => new_set(alloc, all_changed(alloc, way, items.as_slice())?),
        Node::Dict(entries) => {
            new_dictionary(alloc, entries_changed(alloc, way, entries.as_slice())?)
        }
        _ => Ok(None),
    }
}

/// The crossed embedded value, by what it holds.
#[inline(never)]
fn embedded_changed<W: Way>(
    alloc: Global,
    way: &W,
    inside: &Value,
) -> Result<Option<Value>, NoMemory>
    ensures { IfOk result (IsChange (embedded inside.now) (embedded (W.way way.now inside.now))) }
{
    new_embedded(alloc, way.cross(alloc, inside)?)
}

/// The crossed values, where one of them isn't the same.
#[cycle(changed)]
fn all_changed<W: Way>(
    alloc: Global,
    way: &W,
    values: &[Value],
) -> Result<Option<Vec<Value>>, NoMemory>
    ensures { IfOk result (AreChanged values.now (map (crossed (W.way way.now)) values.now)) }
{
    for (i, x) in values.iter().enumerate() {
        if let Some(first) = changed(alloc, way, x)? {
            return Ok(Some(changed_from(alloc, way, values, i, first)?));
        }
    }
    Ok(None)
}

/// The crossed values, of which the first that isn't the same stands at a place.
#[cycle(changed)]
#[inline(never)]
fn changed_from<W: Way>(
    alloc: Global,
    way: &W,
    values: &[Value],
    place: usize,
    first: Value,
) -> Result<Vec<Value>, NoMemory>
    requires { place < length values.now }
    ensures { IfOk result (λ vs. vs.items ≡ take place values.now
        ++ first ∷ map (crossed (W.way way.now)) (drop (place + 1) values.now)) }
{
    let mut all = copies(alloc, &values[..place])?;
    all.push(first)?;
    for later in place + 1..values.len() {
        let x = &values[later];
        let changed = changed(alloc, way, x)?;
        all.push(value_or(changed, x)?)?;
    }
    Ok(all)
}

/// The crossed entries, where one of them isn't the same.
#[cycle(changed)]
#[inline(never)]
fn entries_changed<W: Way>(
    alloc: Global,
    way: &W,
    entries: &[Entry],
) -> Result<Option<Vec<Entry>>, NoMemory>
    ensures { IfOk result (AreChanged entries.now
        (map (entry_crossed (W.way way.now)) entries.now)) }
{
    for (i, e) in entries.iter().enumerate() {
        let key = changed(alloc, way, &e.key)?;
        let value = changed(alloc, way, &e.value)?;
        if key.is_some() || value.is_some() {
            let first = entry_or(key, value, e)?;
            return Ok(Some(entries_changed_from(alloc, way, entries, i, first)?));
        }
    }
    Ok(None)
}

/// The crossed entries, of which the first that isn't the same stands at a place.
#[cycle(changed)]
#[inline(never)]
fn entries_changed_from<W: Way>(
    alloc: Global,
    way: &W,
    entries: &[Entry],
    place: usize,
    first: Entry,
) -> Result<Vec<Entry>, NoMemory>
    requires { place < length entries.now }
    ensures { IfOk result (λ es. es.items ≡ take place entries.now
        ++ first ∷ map (entry_crossed (W.way way.now)) (drop (place + 1) entries.now)) }
{
    let mut all = entry_copies(alloc, &entries[..place])?;
    all.push(first)?;
    for later in place + 1..entries.len() {
        let e = &entries[later];
        let key = changed(alloc, way, &e.key)?;
        let value = changed(alloc, way, &e.value)?;
        all.push(entry_or(key, value, e)?)?;
    }
    Ok(all)
}

/// The value that is there, or else a copy of the other.
fn value_or(value: Option<Value>, other: &Value) -> Result<Value, NoMemory>
    ensures { IfOk result (λ v. v ≡ unwrap_or value other.now) }
{
    match value {
        Some(value) => Ok(value),
        None => other.copy(),
    }
}

/// The values that are there, or else copies of the others.
fn values_or(
    alloc: Global,
    values: Option<Vec<Value>>,
    others: &[Value],
) -> Result<Vec<Value>, NoMemory>
    ensures { IfOk result (λ vs. vs.items ≡ unwrap_or (option_map vec_items values) others.now) }
{
    match values {
        Some(values) => Ok(values),
        None => copies(alloc, others),
    }
}

/// The entry of the key and the value that are there, or else of copies of the other's.
fn entry_or(key: Option<Value>, value: Option<Value>, other: &Entry) -> Result<Entry, NoMemory>
    ensures key { IfOk result (λ e. e.key ≡ unwrap_or key other.now.key) }
    ensures value { IfOk result (λ e. e.value ≡ unwrap_or value other.now.value) }
{
    let key = value_or(key, &other.key)?;
    let value = value_or(value, &other.value)?;
    Ok(Entry { key, value })
}

/// Equal values.
pub(crate) fn copies(alloc: Global, values: &[Value]) -> Result<Vec<Value>, NoMemory>
    ensures { IfOk result (λ vs. vs.items ≡ values.now) }
{
    let mut all = Vec::new(alloc);
    for x in values {
        all.push(x.copy()?)?;
    }
    Ok(all)
}

/// Equal entries.
fn entry_copies(alloc: Global, entries: &[Entry]) -> Result<Vec<Entry>, NoMemory>
    ensures { IfOk result (λ es. es.items ≡ entries.now) }
{
    let mut all = Vec::new(alloc);
    for e in entries {
        all.push(e.copy()?)?;
    }
    Ok(all)
}

/// The embedded value that holds what is new.
#[inline(never)]
fn new_embedded(alloc: Global, inside: Option<Value>) -> Result<Option<Value>, NoMemory>
    ensures { IfOk result (λ v. v ≡ option_map embedded inside) }
{
    match inside {
        Some(inside) => Ok(Some(Value::embedded(alloc, inside)?)),
        None => Ok(None),
    }
}

/// The record with what is new in the place of its label and of its fields, where something is.
#[inline(never)]
fn new_record(
    alloc: Global,
    rec: &Rec,
    label: Option<Value>,
    fields: Option<Vec<Value>>,
) -> Result<Option<Value>, NoMemory>
    ensures { IfOk result (λ c. MatchOption c
        ((label ≡ None) × (fields ≡ None))
        (λ v. v
        ≡ record_or rec.now.label rec.now.fields.items label (option_map vec_items fields))) }
{
    if label.is_none() && fields.is_none() {
        return Ok(None);
    }
    let label = value_or(label, &rec.label)?;
    let fields = values_or(alloc, fields, rec.fields.as_slice())?;
    Ok(Some(Value::record(alloc, label, fields)?))
}

/// The sequence of what is new.
#[inline(never)]
fn new_sequence(alloc: Global, items: Option<Vec<Value>>) -> Result<Option<Value>, NoMemory>
    ensures { IfOk result (λ v. v ≡ option_map (λ xs. sequence (plains xs.items)) items) }
{
    match items {
        Some(items) => Ok(Some(Value::sequence(Items::from_vec(alloc, items)?))),
        None => Ok(None),
    }
}

/// The set of what is new.
#[inline(never)]
fn new_set(alloc: Global, elements: Option<Vec<Value>>) -> Result<Option<Value>, NoMemory>
    ensures { IfOk result (λ v. v
        ≡ option_map (λ xs. set_of (plains (ascending_by order xs.items))) elements) }
{
    match elements {
        Some(elements) => Ok(Some(gathering::set(alloc, elements)?)),
        None => Ok(None),
    }
}

/// The dictionary of what is new.
#[inline(never)]
fn new_dictionary(alloc: Global, entries: Option<Vec<Entry>>) -> Result<Option<Value>, NoMemory>
    ensures { IfOk result (λ v. v ≡ option_map
        (λ es. dictionary (pairs (by_keys (map key_and_value es.items)))) entries) }
{
    match entries {
        Some(entries) => Ok(Some(gathering::dictionary(alloc, entries)?)),
        None => Ok(None),
    }
}
