//! The bindings of records, and the values that show them.
ghost use Rattle.std.specs.Prelude.{◌≡◌, ◌≢◌, ℕ, false, IfOk, IfErr, IfSome, IfNone, map};
ghost use Rattle.sr_caveat.specs.Written.{caveat_of};
ghost use Rattle.kp_keeper.specs.Records.{Ascend};
ghost use Rattle.kp_bound.specs.Spelled.{HasParts, IsFirstBad};
ghost use Rattle.kp_bound.specs.Bound.{cap_to, binding_with, shown_with, IsBindingOf, IsShownOf};
ghost use Rattle.kp_bound.specs.Bound.{AreBindingsOf, AreShownOf};
ghost use Rattle.kp_bound.specs.declared.faults.RecordFault.TheVariants as fault;

use crate::faults::RecordFault;
use crate::spelled::{Parts, parts_of};
use gk_sturdy::{Binding, Bindings};
use kp_keeper::{Record, Records};
use pv_value::{NoMemory, Value};
use pv_words::{labelled, number};
use sr_caveat::{Cap, Caveat, Caveats, parse_caveat};
use std::alloc::Global;

/// The caveats that these values write. A guard is unknown.
fn caveats_in(alloc: Global, values: &[Value]) -> Result<Vec<Caveat>, NoMemory>
    ensures { IfOk result (λ cs. cs.items ≡ map (caveat_of false) values.now) }
{
    let mut caveats = Vec::new(alloc);
    for value in values {
        caveats.push(parse_caveat(alloc, value, false)?)?;
    }
    Ok(caveats)
}

/// The reference to a dataspace itself with these caveats, of which a guard is unknown.
fn cap_to(alloc: Global, space: u8, caveats: &[Value]) -> Result<Cap, NoMemory>
    ensures { IfOk result (λ c. c ≡ cap_to space caveats.now) }
{
    let caveats = caveats_in(alloc, caveats)?;
    Ok(Cap {
        actor: u32::from(space),
        entity: 0,
        caveats: Caveats::from_vec(alloc, caveats)?,
    })
}

/// The binding of a record of these parts.
fn binding_with(alloc: Global, one: &Record, parts: &Parts) -> Result<Binding, NoMemory>
    ensures { IfOk result (λ b. b ≡ binding_with one.now parts.now) }
{
    Ok(Binding {
        oid: parts.oid.copy()?,
        key: one.key.copy()?,
        cap: cap_to(alloc, one.space, parts.caveats.as_slice())?,
    })
}

/// The binding of a record, where it has one.
pub fn binding_of(alloc: Global, one: &Record) -> Result<Option<Binding>, NoMemory>
    ensures some { IfOk result (λ o. IfSome o (IsBindingOf one.now)) }
    ensures none { IfOk result (λ o. IfNone o (HasParts one.now → ⊥)) }
{
    let read = parts_of(alloc, one)?;
    match read {
        Some(parts) => {
            let binding = binding_with(alloc, one, &parts)?;
            Ok(Some(binding))
        }
        None => Ok(None),
    }
}

/// One binding for each record, in order; or the first record that has none.
pub fn bindings_of(records: &Records) -> Result<Bindings, RecordFault>
    ensures bound { IfOk result (AreBindingsOf records.now) }
    ensures stop { IfErr result (λ f. f ≢ fault.NoMemory
        → (n : ℕ) × (f ≡ fault.Bad n) × IsFirstBad records.now n) }
{
    bind_all(records.allocator(), records.as_slice())
}

fn bind_all(alloc: Global, records: &[Record]) -> Result<Bindings, RecordFault>
    requires { Ascend records.now }
    ensures bound { IfOk result (AreBindingsOf records.now) }
    ensures stop { IfErr result (λ f. f ≢ fault.NoMemory
        → (n : ℕ) × (f ≡ fault.Bad n) × IsFirstBad records.now n) }
{
    let mut bindings = Bindings::new(alloc);
    let mut place = 0;
    for one in records {
        let read = binding_of(alloc, one)?;
        let Some(binding) = read else {
            return Err(RecordFault::Bad(place));
        };
        bindings.add(binding)?;
        place += 1;
    }
    Ok(bindings)
}

/// `<binding oid space [caveat ..]>` for a record of these parts.
fn shown_with(alloc: Global, one: &Record, parts: &Parts) -> Result<Value, NoMemory>
    ensures { IfOk result (λ v. v ≡ shown_with one.now parts.now) }
{
    let mut fields = Vec::new(alloc);
    fields.push(parts.oid.copy()?)?;
    fields.push(number(u64::from(one.space)))?;
    fields.push(Value::sequence(parts.caveats.copy()?))?;
    labelled(alloc, "binding", fields)
}

/// The value that shows a record, all of it but its key, where it has a binding.
pub fn shown(alloc: Global, one: &Record) -> Result<Option<Value>, NoMemory>
    ensures some { IfOk result (λ o. IfSome o (IsShownOf one.now)) }
    ensures none { IfOk result (λ o. IfNone o (HasParts one.now → ⊥)) }
{
    let read = parts_of(alloc, one)?;
    match read {
        Some(parts) => {
            let value = shown_with(alloc, one, &parts)?;
            Ok(Some(value))
        }
        None => Ok(None),
    }
}

/// One value for each record, in order, that shows it; or the first record that has no binding.
pub fn shown_of(records: &Records) -> Result<Vec<Value>, RecordFault>
    ensures shown { IfOk result (λ vs. AreShownOf records.now vs.items) }
    ensures stop { IfErr result (λ f. f ≢ fault.NoMemory
        → (n : ℕ) × (f ≡ fault.Bad n) × IsFirstBad records.now n) }
{
    show_all(records.allocator(), records.as_slice())
}

fn show_all(alloc: Global, records: &[Record]) -> Result<Vec<Value>, RecordFault>
    ensures shown { IfOk result (λ vs. AreShownOf records.now vs.items) }
    ensures stop { IfErr result (λ f. f ≢ fault.NoMemory
        → (n : ℕ) × (f ≡ fault.Bad n) × IsFirstBad records.now n) }
{
    let mut values = Vec::new(alloc);
    let mut place = 0;
    for one in records {
        let read = shown(alloc, one)?;
        let Some(value) = read else {
            return Err(RecordFault::Bad(place));
        };
        values.push(value)?;
        place += 1;
    }
    Ok(values)
}
