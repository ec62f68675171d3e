//! What records are of.
ghost use Rattle.std.specs.Prelude.{◌≡◌, ◌↔◌, true, IfOk, IfSome, IfNone};
ghost use Rattle.kp_bound.specs.Spelled.{IsWithin, IsRecordOf, HasParts, parts_with};

use crate::forms::{bare_items_of, bare_value_of};
use kp_keeper::Record;
use pv_value::{Items, NoMemory, Value};
use std::alloc::Global;

/// The most bytes of a binding's key.
pub const KEY_BYTES: usize = 64;

/// What a record is of: its binding's oid, and the values of the caveats.
#[derive(Drop)]
pub struct Parts {
    pub oid: Value,
    pub caveats: Items,
}

/// Whether the key is short enough, and there is such a dataspace.
fn is_within(one: &Record) -> bool
    ensures { (result ≡ true) ↔ IsWithin one.now }
{
    one.key.len() <= KEY_BYTES && one.space >= 1 && one.space <= 8
}

/// The parts, where both are there.
fn parts_with(oid: Option<Value>, caveats: Option<Items>) -> Option<Parts>
    ensures { result ≡ parts_with oid caveats }
{
    match (oid, caveats) {
        (Some(oid), Some(caveats)) => Some(Parts { oid, caveats }),
        _ => None,
    }
}

/// The parts that a record is of which has such a key and such a space.
fn parts_within(alloc: Global, one: &Record) -> Result<Option<Parts>, NoMemory>
    requires { IsWithin one.now }
    ensures some { IfOk result (λ o. IfSome o (IsRecordOf one.now)) }
    ensures none { IfOk result (λ o. IfNone o (HasParts one.now → ⊥)) }
{
    let oid = bare_value_of(alloc, one.oid.as_slice())?;
    let caveats = bare_items_of(alloc, one.caveats.as_slice())?;
    Ok(parts_with(oid, caveats))
}

/// The parts that a record is of.
pub fn parts_of(alloc: Global, one: &Record) -> Result<Option<Parts>, NoMemory>
    ensures some { IfOk result (λ o. IfSome o (IsRecordOf one.now)) }
    ensures none { IfOk result (λ o. IfNone o (HasParts one.now → ⊥)) }
{
    if is_within(one) {
        parts_within(alloc, one)
    } else {
        Ok(None)
    }
}
