//! Values that go out.
ghost use Rattle.std.specs.Prelude.{◌≡◌, ◌≤◌, ◌<◌, ◌^◌, ◌++◌, ◌∷◌, [], true, None};
ghost use Rattle.std.specs.Prelude.{IfOk, IfErr, OnOk, OnErr, map, if◌then◌else◌};
ghost use Rattle.std.specs.Prelude.{vec_len, vec_capacity};
ghost use Rattle.std.specs.Ordering.{nat_cmp};
ghost use Rattle.pv_value.specs.Sets.{ascending_by};
ghost use Rattle.ds_space.specs.References.{reference_of};
ghost use Rattle.rl_ports.specs.Ports.{with_exports, number_of, IsWhy, AreGiven};
ghost use Rattle.rl_wire.specs.Crossing.{crossed_out, exports_with, foreign_in, numbers_out};
ghost use Rattle.rl_wire.specs.Crossing.{fault_out, foreign_of, reference_out, all_exported};
ghost use Rattle.rl_wire.specs.Crossing.{wire_value, crossed, held_in, is_own};
ghost use Rattle.rl_wire.specs.Changes.{others_in, HasGrown};

use crate::BEFORE_CONNECTIONS;
use crate::held::held_in;
use crate::rebuilding::{Way, crossed};
use crate::wires::{caveats_in, wire_value};
use ds_space::{Reference, reference_of};
use pv_value::{NoMemory, Value};
use rl_ports::{Oids, Ports, PortsFault};
use std::alloc::Global;

/// The way out to an actor's connection.
#[derive(Drop)]
struct Outward<'a> {
    ports: &'a Ports,
    actor: u32,
}

impl Way for Outward<'_> {
    ghost way = { λ w x. reference_out w.ports.now.exports w.actor x (reference_of x) };

    fn cross(&self, alloc: Global, inside: &Value) -> Result<Option<Value>, NoMemory> {
        match reference_of(inside) {
            Some(object) => Ok(Some(self.wire(alloc, inside, object)?)),
            None => Ok(None),
        }
    }
}

impl Outward<'_> {
    /// What a reference to an object is called there.
    fn wire(&self, alloc: Global, inside: &Value, object: Reference) -> Result<Value, NoMemory>
        ensures { IfOk result (λ v. v ≡ if is_own self.now.actor inside.now object
            then wire_value 1 object.entity
            else wire_value 0 (number_of inside.now self.now.ports.now.exports)) }
    {
        if is_own(self.actor, inside, object) {
            return wire_value(alloc, 1, object.entity);
        }
        let next = self.ports.next_oid();
        wire_value(alloc, 0, self.ports.oid_of(inside).unwrap_or(next))
    }
}

/// Whether a reference is to an object of the actor's own, without caveats.
fn is_own(actor: u32, inside: &Value, object: Reference) -> bool
    ensures { result ≡ is_own actor inside.now object }
{
    object.actor == actor && caveats_in(inside).is_empty()
}

/// A value of the server's as connection `connection` is told of it: its own objects without
/// caveats as `[1 e]`, and every other reference as `[0 n]` by the number of its export, which is
/// told too. Those that aren't exported yet are, in order of first use. After a fault no export has
/// come.
pub fn wire_out(
    alloc: Global,
    ports: &mut Ports,
    connection: u32,
    value: &Value,
) -> Result<(Value, Oids), PortsFault>
    requires { connection ≤ 2 ^ 31 }
    ensures crossed { IfOk result (λ told. told.0
        ≡ crossed_out (exports_with ports.old.exports connection value.now) connection value.now) }
    ensures numbers { IfOk result (λ told. told.1
        ≡ numbers_out (exports_with ports.old.exports connection value.now) connection value.now) }
    ensures given { IfOk result (λ told. AreGiven ports.new.exports.next told.1) }
    ensures fits { OnOk result
        (fault_out ports.old.exports (foreign_in connection value.now) ≡ None) }
    ensures exports { OnOk result (ports.new
        ≡ with_exports (exports_with ports.old.exports connection value.now) ports.old) }
    ensures fault { IfErr result
        (IsWhy (fault_out ports.old.exports (foreign_in connection value.now))) }
    ensures undone { OnErr result (ports.new ≡ ports.old) }
{
    let next = ports.next_oid();
    match exported_and_crossed(alloc, ports, BEFORE_CONNECTIONS + connection, value) {
        Ok(told) => Ok(told),
        Err(fault) => {
            ports.forget(next);
            Err(fault)
        }
    }
}

/// Exports the references of others, and then lets the value cross. After a fault some may be
/// exported.
fn exported_and_crossed(
    alloc: Global,
    ports: &mut Ports,
    actor: u32,
    value: &Value,
) -> Result<(Value, Oids), PortsFault>
    ensures crossed { IfOk result
        (λ told. told.0 ≡ crossed (λ x. reference_out ports.new.exports actor x (reference_of x))
        value.now) }
    ensures numbers { IfOk result (λ told. told.1 ≡ ascending_by nat_cmp
        (map (λ r. number_of r ports.new.exports) (others_in actor (held_in value.now)))) }
    ensures given { IfOk result (λ told. AreGiven ports.new.exports.next told.1) }
    ensures exports { OnOk result (ports.new ≡ with_exports
        (all_exported ports.old.exports (others_in actor (held_in value.now))) ports.old) }
    ensures fits { OnOk result
        (fault_out ports.old.exports (others_in actor (held_in value.now)) ≡ None) }
    ensures fault { IfErr result
        (IsWhy (fault_out ports.old.exports (others_in actor (held_in value.now)))) }
    ensures kept { OnErr result (HasGrown ports.old ports.new) }
{
    let _ = ports.next_oid();
    let held = held_in(alloc, value)?;
    let numbers = export_foreign(alloc, ports, actor, &held)?;
    let _ = ports.next_oid();
    let oids = Oids::of(alloc, &numbers)?;
    let way = Outward { ports, actor };
    Ok((crossed(alloc, &way, value)?, oids))
}

/// Exports the references of others among these, from the first one on, and answers their numbers.
/// After a fault those before it are exported.
fn export_foreign(
    alloc: Global,
    ports: &mut Ports,
    actor: u32,
    held: &[Value],
) -> Result<Vec<u64>, PortsFault>
    ensures numbers { IfOk result (λ ns. ns.items
        ≡ map (λ r. number_of r ports.new.exports) (others_in actor held.now)) }
    ensures exports { OnOk result (ports.new ≡ with_exports
        (all_exported ports.old.exports (others_in actor held.now)) ports.old) }
    ensures fits { OnOk result (fault_out ports.old.exports (others_in actor held.now) ≡ None) }
    ensures fault { IfErr result
        (IsWhy (fault_out ports.old.exports (others_in actor held.now))) }
    ensures kept { HasGrown ports.old ports.new }
{
    let _ = ports.next_oid();
    let mut numbers = Vec::new(alloc);
    for x in held {
        export_if_foreign(alloc, ports, actor, x, &mut numbers)?;
    }
    Ok(numbers)
}

/// Exports the reference, and adds its number, where it isn't one to the actor's own object without
/// caveats.
fn export_if_foreign(
    alloc: Global,
    ports: &mut Ports,
    actor: u32,
    inside: &Value,
    numbers: &mut Vec<u64>,
) -> Result<(), PortsFault>
    ensures numbers { OnOk result (numbers.new.items
        ≡ numbers.old.items ++ map (λ r. number_of r ports.old.exports)
        (foreign_of actor inside.now (reference_of inside.now))) }
    ensures exports { OnOk result (ports.new ≡ with_exports (all_exported ports.old.exports
        (foreign_of actor inside.now (reference_of inside.now))) ports.old) }
    ensures fits { OnOk result (fault_out ports.old.exports
        (foreign_of actor inside.now (reference_of inside.now)) ≡ None) }
    ensures fault { IfErr result (IsWhy (fault_out ports.old.exports
        (foreign_of actor inside.now (reference_of inside.now)))) }
    ensures undone { OnErr result (ports.new ≡ ports.old) }
{
    match reference_of(inside) {
        Some(object) if !is_own(actor, inside, object) => {
            let Ok(()) = numbers.reserve(1) else {
                return Err(PortsFault::NoMemory);
            };
            append(numbers, ports.oid_for(alloc, inside)?);
            Ok(())
        }
        _ => Ok(()),
    }
}

/// One number more, where there is room for it.
fn append(numbers: &mut Vec<u64>, number: u64)
    requires { vec_len numbers.old < vec_capacity numbers.old }
    ensures { numbers.new.items ≡ numbers.old.items ++ number ∷ [] }
{
    let _ = numbers.push(number);
}
