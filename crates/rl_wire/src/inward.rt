//! Values that come in.
ghost use Rattle.std.specs.Prelude.{◌≡◌, ◌≤◌, ◌^◌, true, None, Some, IfOk, IfErr, OnOk};
ghost use Rattle.rl_wire.specs.Crossing.{whole_in, fault_in, IsWhyNotIn, references_fault};
ghost use Rattle.rl_wire.specs.Crossing.{wire_of, named_by, reference_in, wire_fault, first_fault};
ghost use Rattle.rl_wire.specs.Crossing.{reference_fault, size_fault, names_released, any_stale};
ghost use Rattle.rl_wire.specs.Crossing.{is_stale};
ghost use Rattle.rl_wire.specs.Changes.{whole_of};

use crate::BEFORE_CONNECTIONS;
use crate::faults::WireFault;
use crate::held::held_in;
use crate::rebuilding::{Way, crossed};
use crate::wires::{Wire, caveats_in, wire_of, with_caveats};
use ds_space::{Reference, reference_value};
use pv_value::{NoMemory, Value, depth, weight};
use rl_ports::{Exported, Ports};
use sr_caveat::{REFERENCE_CAVEATS, REFERENCE_WEIGHT, VALUE_DEPTH, VALUE_WEIGHT};
use std::alloc::Global;

/// The way in of what an actor's connection sent.
#[derive(Drop)]
struct Inward<'a> {
    ports: &'a Ports,
    actor: u32,
}

impl Way for Inward<'_> {
    ghost way = { λ w x. reference_in w.ports.now.exports w.actor x (wire_of x) };

    fn cross(&self, alloc: Global, inside: &Value) -> Result<Option<Value>, NoMemory> {
        match wire_of(inside) {
            Some(wire) => self.named_by(alloc, caveats_in(inside), wire),
            None => Ok(None),
        }
    }
}

impl Inward<'_> {
    /// The reference that a wire reference with these caveats names, where there is one.
    fn named_by(
        &self,
        alloc: Global,
        caveats: &[Value],
        wire: Wire,
    ) -> Result<Option<Value>, NoMemory>
        ensures { IfOk result (λ v. v
            ≡ named_by self.now.ports.now.exports self.now.actor caveats.now wire) }
    {
        match wire {
            Wire::Own(entity) => {
                let actor = self.actor;
                Ok(Some(reference_value(alloc, Reference { actor, entity })?))
            }
            Wire::ExportedAs(oid) => match self.ports.cap_of(oid) {
                Exported::InForce(export) => {
                    Ok(Some(with_caveats(alloc, export.value(), caveats)?))
                }
                Exported::Released | Exported::Never => Ok(None),
            },
        }
    }
}

/// What stands for a value that came in.
#[derive(Drop)]
pub enum Crossed {
    /// The value, as the server keeps it.
    Whole(Value),
    /// Nothing: a reference in it names an export that was released.
    Stale,
}

/// A value that connection `connection` sent, as the server keeps it: its own objects as
/// references, and its exports with the caveats that it wrote behind theirs. The references in the
/// whole value are looked at first, and then the weight and the depth of what is kept.
pub fn wire_in(
    alloc: Global,
    ports: &Ports,
    connection: u32,
    value: &Value,
) -> Result<Crossed, WireFault>
    requires { connection ≤ 2 ^ 31 }
    ensures crossed { IfOk result
        (λ c. whole_of c ≡ whole_in ports.now.exports connection value.now) }
    ensures fits { OnOk result (fault_in ports.now.exports connection value.now ≡ None) }
    ensures fault { IfErr result (IsWhyNotIn (fault_in ports.now.exports connection value.now)) }
{
    if references_in(alloc, ports, value)? {
        return Ok(Crossed::Stale);
    }
    let way = Inward {
        ports,
        actor: BEFORE_CONNECTIONS + connection,
    };
    let kept = crossed(alloc, &way, value)?;
    check_size(&kept)?;
    Ok(Crossed::Whole(kept))
}

/// Whether a reference in a value that came in names an export that was released. The references
/// alone are looked at.
pub fn references_in(alloc: Global, ports: &Ports, value: &Value) -> Result<bool, WireFault>
    ensures stale { IfOk result (λ b. b ≡ is_stale ports.now.exports value.now) }
    ensures fits { OnOk result (references_fault ports.now.exports value.now ≡ None) }
    ensures fault { IfErr result (IsWhyNotIn (references_fault ports.now.exports value.now)) }
{
    let held = held_in(alloc, value)?;
    look_at_all(alloc, ports, &held)
}

/// Whether one of the references names an export that was released; or the first fault of one.
fn look_at_all(alloc: Global, ports: &Ports, held: &[Value]) -> Result<bool, WireFault>
    ensures stale { IfOk result (λ b. b ≡ any_stale ports.now.exports held.now) }
    ensures fits { OnOk result (first_fault ports.now.exports held.now ≡ None) }
    ensures fault { IfErr result (IsWhyNotIn (first_fault ports.now.exports held.now)) }
{
    let mut stale = false;
    for x in held {
        stale = look_at(alloc, ports, x)? || stale;
    }
    Ok(stale)
}

/// Whether what an embedded value holds names an export that was released; or why it can't come in.
fn look_at(alloc: Global, ports: &Ports, inside: &Value) -> Result<bool, WireFault>
    ensures stale { IfOk result
        (λ b. b ≡ names_released ports.now.exports (wire_of inside.now)) }
    ensures fits { OnOk result
        (wire_fault ports.now.exports inside.now (wire_of inside.now) ≡ None) }
    ensures fault { IfErr result
        (IsWhyNotIn (wire_fault ports.now.exports inside.now (wire_of inside.now))) }
{
    let Some(Wire::ExportedAs(oid)) = wire_of(inside) else {
        return Ok(false);
    };
    match ports.cap_of(oid) {
        Exported::InForce(export) => {
            let reference = with_caveats(alloc, export.value(), caveats_in(inside))?;
            check_reference(&reference)?;
            Ok(false)
        }
        Exported::Released => Ok(true),
        Exported::Never => Err(WireFault::UnknownOid(oid)),
    }
}

/// Whether a reference has neither too many caveats nor is too heavy.
fn check_reference(reference: &Value) -> Result<(), WireFault>
    ensures fits { OnOk result (reference_fault reference.now ≡ None) }
    ensures fault { IfErr result (λ f. reference_fault reference.now ≡ Some f) }
{
    let count = caveats_in(reference).len();
    if count > REFERENCE_CAVEATS {
        return Err(WireFault::Limit(8, count as u64));
    }
    let weight = weight(reference);
    if weight > REFERENCE_WEIGHT {
        return Err(WireFault::Limit(9, weight));
    }
    Ok(())
}

/// Whether a value is neither too heavy nor too deep.
fn check_size(value: &Value) -> Result<(), WireFault>
    ensures fits { OnOk result (size_fault value.now ≡ None) }
    ensures fault { IfErr result (λ f. size_fault value.now ≡ Some f) }
{
    let weight = weight(value);
    if weight > VALUE_WEIGHT {
        return Err(WireFault::Limit(6, weight));
    }
    let depth = depth(value);
    if depth > VALUE_DEPTH {
        return Err(WireFault::Limit(7, u64::from(depth)));
    }
    Ok(())
}
