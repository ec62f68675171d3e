//! References as values.
ghost use Rattle.std.specs.Prelude.{◌≡◌, IfOk};
ghost use Rattle.ds_space.specs.References.{reference_of, reference_value, names_observer};

use pv_value::{Items, NoMemory, Node, Value};
use pv_words::{number, number_in};
use std::alloc::Global;

/// An object of an actor.
#[derive(Clone, Copy, Debug, PartialEq, Eq)]
pub struct Reference {
    pub actor: u32,
    pub entity: u64,
}

/// Only objects of the actors from this one on are told: those of watchers and connections.
const FIRST_OBSERVER: u32 = 9;

/// The object that a reference names, by its value `[actor entity caveat ..]`. What stands behind
/// the two numbers isn't looked at.
pub fn reference_of(value: &Value) -> Option<Reference>
    ensures { result ≡ reference_of value.now }
{
    let Node::Seq(items) = &value.node else {
        return None;
    };
    let items = items.as_slice();
    if items.len() < 2 {
        return None;
    }
    let actor = number_in(&items[0])?;
    let entity = number_in(&items[1])?;
    if actor >= 1 << 32 {
        return None;
    }
    Some(Reference {
        actor: actor as u32,
        entity,
    })
}

/// The value of the reference to an object that has no caveats.
pub fn reference_value(alloc: Global, reference: Reference) -> Result<Value, NoMemory>
    ensures { IfOk result (λ v. v ≡ reference_value reference) }
{
    let mut items = Vec::new(alloc);
    items.push(number(u64::from(reference.actor)))?;
    items.push(number(reference.entity))?;
    Ok(Value::sequence(Items::from_vec(alloc, items)?))
}

/// Whether it names an object of a watcher or of a connection.
pub(crate) fn names_observer(value: &Value) -> bool
    ensures { result ≡ names_observer value.now }
{
    match reference_of(value) {
        Some(reference) => reference.actor >= FIRST_OBSERVER,
        None => false,
    }
}
