//! The atoms that stand in a value at root places.
ghost use Rattle.std.specs.Prelude.{◌≡◌, ◌++◌, OnOk, IfOk};
ghost use Rattle.pv_value.specs.Plain.{plains, pairs};
ghost use Rattle.pv_value.specs.View.{key_and_value};
ghost use Rattle.std.specs.Prelude.{map};
ghost use Rattle.ds_facts.specs.Atoms.{is_atom, entry_of, numbered, keyed, entries_of};

use pv_value::{Entry, NoMemory, Node, Value};
use pv_words::number;
use std::alloc::Global;

/// Whether nothing is inside.
pub(crate) fn is_atom(value: &Value) -> bool
    ensures { result ≡ is_atom value.now }
{
    match &value.node {
        Node::Bool(_) => true,
        Node::Double(_) => true,
        Node::Int(_) => true,
        Node::Str(_) => true,
        Node::Bytes(_) => true,
        Node::Sym(_) => true,
        _ => false,
    }
}

/// The entry of a value at a place.
pub(crate) fn entry_of(place: &Value, value: &Value) -> Result<Entry, NoMemory>
    ensures { IfOk result (λ e. e ≡ record { key = place.now; value = value.now }) }
{
    Ok(Entry {
        key: place.copy()?,
        value: value.copy()?,
    })
}

/// One entry more, where the value is an atom.
fn push_atom(list: &mut Vec<Entry>, place: &Value, value: &Value) -> Result<(), NoMemory>
    ensures { OnOk result (list.new.items ≡ list.old.items ++ entry_of place.now value.now) }
{
    if is_atom(value) {
        list.push(entry_of(place, value)?)?;
    }
    Ok(())
}

/// The atoms among items, each at its number.
fn numbered(alloc: Global, items: &[Value]) -> Result<Vec<Entry>, NoMemory>
    ensures { IfOk result (λ list. list.items ≡ numbered 0 (plains items.now)) }
{
    let mut list = Vec::new(alloc);
    for i in 0..items.len() {
        push_atom(&mut list, &number(i as u64), &items[i])?;
    }
    Ok(list)
}

/// The atoms among the values of entries, each at its key.
fn keyed(alloc: Global, entries: &[Entry]) -> Result<Vec<Entry>, NoMemory>
    ensures { IfOk result (λ list. list.items ≡ keyed (pairs (map key_and_value entries.now))) }
{
    let mut list = Vec::new(alloc);
    for entry in entries {
        push_atom(&mut list, &entry.key, &entry.value)?;
    }
    Ok(list)
}

/// The atoms that stand in a value at root places, each with its place.
pub(crate) fn entries_of(alloc: Global, value: &Value) -> Result<Vec<Entry>, NoMemory>
    ensures { IfOk result (λ list. list.items ≡ entries_of value.now) }
{
    match &value.node {
        Node::Rec(rec) => numbered(alloc, rec.fields.as_slice()),
        Node::Seq(items) => numbered(alloc, items.as_slice()),
        Node::Dict(entries) => keyed(alloc, entries.as_slice()),
        _ => Ok(Vec::new(alloc)),
    }
}
