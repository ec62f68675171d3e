//! Exports that are released: connection 1 is told of objects of actor 18 by rows and messages.
ghost use Rattle.std.specs.Prelude.{IfOk};
ghost use Rattle.rl_ports.specs.Ports.{AreGiven};

use crate::making::{both, embedded, ports, wire};
use pv_value::Value;
use rl_ports::{Exported, Oids, Ports};
use rl_wire::{Crossed, WireFault, references_in, wire_in, wire_out};
use std::alloc::Global;
use std::test::Fail;

/// Tells of an object, and answers the numbers by which it is told.
fn tell(alloc: Global, ports: &mut Ports, entity: u64) -> Result<Oids, Fail>
    ensures { IfOk result (λ oids. AreGiven ports.new.exports.next oids) }
{
    let value = embedded(alloc, entity)?;
    let (_, oids) = wire_out(alloc, ports, 1, &value)?;
    Ok(oids)
}

/// Tells of an object by a row of this handle, and answers whether it has this number.
fn row(
    alloc: Global,
    ports: &mut Ports,
    handle: u64,
    entity: u64,
    number: u64,
) -> Result<bool, Fail> {
    let oids = tell(alloc, ports, entity)?;
    let right = oids.as_slice() == [number].as_slice();
    ports.hold(handle, oids)?;
    ports.sweep();
    Ok(right)
}

/// Tells of an object by a message, and answers whether it has this number.
fn message(alloc: Global, ports: &mut Ports, entity: u64, number: u64) -> Result<bool, Fail> {
    let oids = tell(alloc, ports, entity)?;
    ports.pin(&oids);
    ports.sweep();
    Ok(oids.as_slice() == [number].as_slice())
}

/// The row of a handle is taken back.
fn take_back(ports: &mut Ports, handle: u64) {
    ports.let_go(handle);
    ports.sweep();
}

fn is_in_force(ports: &Ports, number: u64) -> bool {
    match ports.cap_of(number) {
        Exported::InForce(_) => true,
        Exported::Released | Exported::Never => false,
    }
}

fn is_released(ports: &Ports, number: u64) -> bool {
    match ports.cap_of(number) {
        Exported::Released => true,
        Exported::InForce(_) | Exported::Never => false,
    }
}

fn never_was(ports: &Ports, number: u64) -> bool {
    match ports.cap_of(number) {
        Exported::Never => true,
        Exported::InForce(_) | Exported::Released => false,
    }
}

/// A number lives while a row mentions it, and isn't given again.
fn number_lives(alloc: Global) -> Result<bool, Fail> {
    let mut ports = ports(alloc)?;
    let mut right = row(alloc, &mut ports, 3, 5, 1)? && row(alloc, &mut ports, 4, 5, 1)?;
    take_back(&mut ports, 3);
    right = right && is_in_force(&ports, 1) && ports.exports() == 2;
    take_back(&mut ports, 4);
    right = right && is_released(&ports, 1) && never_was(&ports, 2) && ports.exports() == 1;
    right = right && row(alloc, &mut ports, 5, 5, 2)? && is_in_force(&ports, 2);
    Ok(right && is_released(&ports, 1) && is_in_force(&ports, 0))
}

/// What a message mentioned stays, though the row that mentioned it goes.
fn message_stays(alloc: Global) -> Result<bool, Fail> {
    let mut ports = ports(alloc)?;
    let right = row(alloc, &mut ports, 3, 5, 1)? && message(alloc, &mut ports, 5, 1)?;
    take_back(&mut ports, 3);
    Ok(right && is_in_force(&ports, 1))
}

/// A row told anew in the turn in which another goes keeps the number.
fn told_anew(alloc: Global) -> Result<bool, Fail> {
    let mut ports = ports(alloc)?;
    let mut right = row(alloc, &mut ports, 3, 5, 1)?;
    ports.let_go(3);
    let oids = tell(alloc, &mut ports, 5)?;
    right = right && oids.as_slice() == [1].as_slice();
    ports.hold(4, oids)?;
    ports.sweep();
    Ok(right && is_in_force(&ports, 1))
}

/// Ports in which 1 is released and 2 in force.
fn one_released(alloc: Global) -> Result<Ports, Fail> {
    let mut ports = ports(alloc)?;
    row(alloc, &mut ports, 3, 5, 1)?;
    row(alloc, &mut ports, 4, 6, 2)?;
    take_back(&mut ports, 3);
    Ok(ports)
}

/// Whether `[#:[1 first] #:[1 second]]` is stale.
fn is_stale(alloc: Global, first: i64, second: i64) -> Result<bool, Fail> {
    let ports = one_released(alloc)?;
    let value = both(alloc, wire(alloc, first)?, wire(alloc, second)?)?;
    let stale = references_in(alloc, &ports, &value)?;
    match wire_in(alloc, &ports, 1, &value)? {
        Crossed::Stale => Ok(stale),
        Crossed::Whole(_) => Ok(false),
    }
}

/// Whether the value comes in as these two objects.
fn is_whole(alloc: Global, value: &Value, entities: [u64; 2]) -> Result<bool, Fail> {
    let ports = one_released(alloc)?;
    let [first, second] = entities;
    let objects = both(alloc, embedded(alloc, first)?, embedded(alloc, second)?)?;
    match wire_in(alloc, &ports, 1, value)? {
        Crossed::Whole(kept) => Ok(kept == objects),
        Crossed::Stale => Ok(false),
    }
}

/// Whether `[#:[1 first] #:[1 second]]` can't come in, since there never was a third.
fn is_unknown(alloc: Global, first: i64, second: i64) -> Result<bool, Fail> {
    let ports = one_released(alloc)?;
    let value = both(alloc, wire(alloc, first)?, wire(alloc, second)?)?;
    match wire_in(alloc, &ports, 1, &value) {
        Ok(_) => Ok(false),
        Err(fault) => Ok(fault == WireFault::UnknownOid(3)),
    }
}

#[test]
fn a_number_lives_while_a_row_mentions_it(rt: HostRuntime) -> Result<(), Fail> {
    let alloc = rt.alloc();
    assert!(rt; number_lives(alloc)?);
    assert!(rt; message_stays(alloc)?);
    assert!(rt; told_anew(alloc)?);
    Ok(())
}

#[test]
fn stale_and_in_force_beside_one_another(rt: HostRuntime) -> Result<(), Fail> {
    let alloc = rt.alloc();
    assert!(rt; is_stale(alloc, 1, 2)?);
    assert!(rt; is_stale(alloc, 2, 1)?);
    assert!(rt; is_unknown(alloc, 1, 3)?);
    assert!(rt; is_unknown(alloc, 3, 1)?);
    let value = both(alloc, wire(alloc, 2)?, wire(alloc, 2)?)?;
    assert!(rt; is_whole(alloc, &value, [6, 6])?);
    Ok(())
}
