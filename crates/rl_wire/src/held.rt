//! What the embedded values in a value hold.
ghost use Rattle.std.specs.Prelude.{◌≡◌, [], ◌∷◌, ◌++◌, map, IfOk, OnOk};
ghost use Rattle.pv_value.specs.Plain.{plains, pairs};
ghost use Rattle.pv_value.specs.View.{key_and_value};
ghost use Rattle.rl_wire.specs.Crossing.{held_in, all_held_in, all_pairs_held_in};

use pv_value::{Entry, NoMemory, Node, Value};
use std::alloc::Global;

/// What each embedded value holds, those inside others excepted, in the order in which they stand.
pub(crate) fn held_in(alloc: Global, value: &Value) -> Result<Vec<Value>, NoMemory>
    ensures { IfOk result (λ held. held.items ≡ held_in value.now) }
{
    let mut held = Vec::new(alloc);
    collect(value, &mut held)?;
    Ok(held)
}

/// Adds what is held in a value.
#[cycle(collect)]
fn collect(value: &Value, held: &mut Vec<Value>) -> Result<(), NoMemory>
    ensures { OnOk result (held.new.items ≡ held.old.items ++ held_in value.now) }
{
    match &value.node {
        Node::Emb(inside) => add_copy(inside, held),
        Node::Rec(rec) => {
            collect(&rec.label, held)?;
            collect_all(rec.fields.as_slice(), held)
        }
        Node::Seq(items) => collect_all(items.as_slice(), held),
        Node::Set(items) => collect_all(items.as_slice(), held),
        Node::Dict(entries) => collect_entries(entries.as_slice(), held),
        _ => Ok(()),
    }
}

/// Adds a copy of the value.
fn add_copy(value: &Value, held: &mut Vec<Value>) -> Result<(), NoMemory>
    ensures { OnOk result (held.new.items ≡ held.old.items ++ value.now ∷ []) }
{
    held.push(value.copy()?)?;
    Ok(())
}

/// Adds what is held in values, from the first one on.
#[cycle(collect)]
fn collect_all(values: &[Value], held: &mut Vec<Value>) -> Result<(), NoMemory>
    ensures { OnOk result (held.new.items ≡ held.old.items ++ all_held_in (plains values.now)) }
{
    for x in values {
        collect(x, held)?;
    }
    Ok(())
}

/// Adds what is held in keys and values, from the first entry on.
#[cycle(collect)]
fn collect_entries(entries: &[Entry], held: &mut Vec<Value>) -> Result<(), NoMemory>
    ensures { OnOk result (held.new.items
        ≡ held.old.items ++ all_pairs_held_in (pairs (map key_and_value entries.now))) }
{
    for e in entries {
        collect(&e.key, held)?;
        collect(&e.value, held)?;
    }
    Ok(())
}
