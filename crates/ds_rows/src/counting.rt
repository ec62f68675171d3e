//! Counts under values. A count of 0 isn't kept.
ghost use Rattle.std.specs.Prelude.{◌≡◌, ◌<◌, ◌+◌, ◌-◌, not, is_some, unwrap_or, Some};
ghost use Rattle.std.specs.Prelude.{IfOk, OnOk, OnErr, if◌then◌else◌};
ghost use Rattle.std.specs.BTreeMap as tree;
ghost use Rattle.pv_value.specs.Plain.{Plain};
ghost use Rattle.pv_value.specs.Order.{order};
ghost use Rattle.pv_words.specs.Parts.{same};
ghost use Rattle.ds_rows.specs.Counts.{kept};

use pv_value::{NoMemory, Value};
use std::collections::BTreeMap;

/// How many rows have each value.
pub(crate) type Counts = BTreeMap<Value, u64>;

/// How many rows have the value.
fn count_of(counts: &Counts, value: &Value) -> u64
    ensures { result ≡ unwrap_or (tree.get order counts.now value.now) 0 }
{
    match counts.get(value) {
        Some(count) => *count,
        None => 0,
    }
}

/// One row more has the value. The answer is whether it is the first. For want of memory, and at
/// the end of the numbers, nothing has changed.
pub(crate) fn count_in(counts: &mut Counts, value: Value) -> Result<bool, NoMemory>
    ensures counts { OnOk result ((q : Plain) → tree.get order counts.new q
        ≡ (if same value q then Some (unwrap_or (tree.get order counts.old value) 0 + 1)
        else tree.get order counts.old q)) }
    ensures first { IfOk result
        (λ first. first ≡ not (is_some (tree.get order counts.old value))) }
    ensures undone { OnErr result (counts.new.entries ≡ counts.old.entries) }
{
    let Some(more) = count_of(counts, &value).checked_add(1) else {
        return Err(NoMemory);
    };
    let before = counts.insert(value, more)?;
    Ok(before.is_none())
}

/// One row fewer has the value. The answer is whether it was the last.
pub(crate) fn count_out(counts: &mut Counts, value: &Value) -> bool
    ensures counts { (q : Plain) → tree.get order counts.new q
        ≡ (if same value.now q then kept (unwrap_or (tree.get order counts.old value.now) 0 - 1)
        else tree.get order counts.old q) }
    ensures last { result ≡ not (is_some (tree.get order counts.new value.now)) }
{
    if count_of(counts, value) > 1 {
        lower(counts, value);
        return false;
    }
    let _ = counts.remove(value);
    true
}

/// One row fewer has the value, which more than one row has.
fn lower(counts: &mut Counts, value: &Value)
    requires { 1 < unwrap_or (tree.get order counts.old value.now) 0 }
    ensures { (q : Plain) → tree.get order counts.new q
        ≡ (if same value.now q then Some (unwrap_or (tree.get order counts.old value.now) 0 - 1)
        else tree.get order counts.old q) }
{
    if let Some(count) = counts.get_mut(value) {
        *count -= 1;
    }
}
