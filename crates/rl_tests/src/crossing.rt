//! The crossing of values that nest ten thousand levels deep, since the server makes such values.
//! A deep value is its sequences, the embedded value, and the sequence inside it.

use crate::making::{LEVELS, deep, ports};
use pv_value::{Value, depth};
use rl_wire::{WireFault, wire_in, wire_out};
use std::alloc::Global;
use std::test::Fail;

/// What connection 1 is told of the value.
fn told(alloc: Global, value: &Value) -> Result<Value, Fail> {
    let mut ports = ports(alloc)?;
    let (told, _) = wire_out(alloc, &mut ports, 1, value)?;
    Ok(told)
}

/// Whether a deep value that holds a reference to another's object is told as one that nests so
/// deep.
fn goes_out(alloc: Global, levels: u32) -> Result<bool, Fail> {
    let told = told(alloc, &deep(alloc, 18)?)?;
    Ok(depth(&told) == levels)
}

/// Whether the value can't come in from connection 1 for this reason.
fn cant_come(alloc: Global, value: &Value, why: WireFault) -> Result<bool, Fail> {
    let ports = ports(alloc)?;
    match wire_in(alloc, &ports, 1, value) {
        Ok(_) => Ok(false),
        Err(fault) => Ok(fault == why),
    }
}

/// Whether a deep value that holds a reference can't come in for this reason.
fn is_refused(alloc: Global, why: WireFault) -> Result<bool, Fail> {
    let value = deep(alloc, 1)?;
    cant_come(alloc, &value, why)
}

#[test]
fn a_deep_value_goes_out(rt: HostRuntime) -> Result<(), Fail> {
    assert!(rt; goes_out(rt.alloc(), LEVELS + 2)?);
    Ok(())
}

#[test]
fn a_deep_value_is_refused(rt: HostRuntime) -> Result<(), Fail> {
    let why = WireFault::Limit(7, u64::from(LEVELS) + 2);
    assert!(rt; is_refused(rt.alloc(), why)?);
    Ok(())
}
