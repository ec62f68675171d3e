//! The values that the tests are made of.

use ds_space::{Reference, reference_value};
use pv_value::{Items, Value};
use rl_ports::Ports;
use std::alloc::Global;
use std::test::Fail;

/// How deep the deep values nest.
pub(crate) const LEVELS: u32 = 10_000;

/// The reference to an object of the actor, without caveats.
fn object(alloc: Global, actor: u32, entity: u64) -> Result<Value, Fail> {
    Ok(reference_value(alloc, Reference { actor, entity })?)
}

/// The ports of a connection that knows object 0 of actor 1.
pub(crate) fn ports(alloc: Global) -> Result<Ports, Fail> {
    Ok(Ports::new(alloc, object(alloc, 1, 0)?)?)
}

/// The embedded reference to object `entity` of actor 18.
pub(crate) fn embedded(alloc: Global, entity: u64) -> Result<Value, Fail> {
    Ok(Value::embedded(alloc, object(alloc, 18, entity)?)?)
}

/// The value `#:[1 n]`.
pub(crate) fn wire(alloc: Global, n: i64) -> Result<Value, Fail> {
    let mut items = Vec::new(alloc);
    items.push(Value::integer(1))?;
    items.push(Value::integer(i128::from(n)))?;
    let inside = Value::sequence(Items::from_vec(alloc, items)?);
    Ok(Value::embedded(alloc, inside)?)
}

/// The sequence of these two.
pub(crate) fn both(alloc: Global, first: Value, second: Value) -> Result<Value, Fail> {
    let mut items = Vec::new(alloc);
    items.push(first)?;
    items.push(second)?;
    Ok(Value::sequence(Items::from_vec(alloc, items)?))
}

/// The sequence of this value alone.
fn around(alloc: Global, value: Value) -> Result<Value, Fail> {
    let mut items = Vec::new(alloc);
    items.push(value)?;
    Ok(Value::sequence(Items::from_vec(alloc, items)?))
}

/// The embedded reference to an object of the actor, inside so many sequences.
pub(crate) fn deep(alloc: Global, at: u32) -> Result<Value, Fail> {
    let mut value = Value::embedded(alloc, object(alloc, at, 0)?)?;
    for _ in 0..LEVELS {
        value = around(alloc, value)?;
    }
    Ok(value)
}
