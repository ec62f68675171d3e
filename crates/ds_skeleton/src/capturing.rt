//! What the values that have given constants are captured in, counted for a new leaf.
ghost use Rattle.std.specs.Prelude.{◌≡◌, ◌+◌, Some, OnOk, IfOk, if◌then◌else◌};
ghost use Rattle.std.specs.BTreeMap as tree;
ghost use Rattle.std.specs.BTreeSet as sorted;
ghost use Rattle.pv_value.specs.Plain.{Plain};
ghost use Rattle.pv_value.specs.Order.{order};
ghost use Rattle.ds_facts.specs.Keeping.{AreFacts};
ghost use Rattle.ds_skeleton.specs.Places.{is_found, stands, count};
ghost use Rattle.ds_skeleton.specs.Leaves.{number};

use crate::counting::{Counts, count_up};
use crate::index::Values;
use crate::standing::{Parts, stand};
use ds_facts::{Facts, Near};
use ds_shape::Outline;
use ds_small::{Held, SmallSet};
use pv_value::{NoMemory, Value};
use std::alloc::Global;
use std::collections::{BTreeMap, BTreeSet};

/// What one value more has at the outline, where it has the constants.
fn count_parts(counts: &mut Counts, parts: Parts, wanted: &Value) -> Result<(), NoMemory>
    ensures { OnOk result ((c : Plain) → number (tree.get order counts.new c)
        ≡ number (tree.get order counts.old c)
        + (if is_found (Some parts) wanted.now c then 1 else 0)) }
{
    let Parts {
        constants,
        captures,
    } = parts;
    if constants == *wanted {
        return count_up(counts, captures);
    }
    Ok(())
}

/// The captures of one value more, where it has the constants.
fn count_captures(
    alloc: Global,
    counts: &mut Counts,
    outline: &Outline,
    constants: &Value,
    value: &Value,
) -> Result<(), NoMemory>
    ensures { OnOk result ((c : Plain) → number (tree.get order counts.new c)
        ≡ number (tree.get order counts.old c)
        + (if stands outline.now constants.now c value.now then 1 else 0)) }
{
    match stand(alloc, outline, value)? {
        Some(parts) => count_parts(counts, parts, constants),
        None => Ok(()),
    }
}

/// The captures of all values that have the constants.
fn captures_anywhere(
    alloc: Global,
    values: &Values,
    outline: &Outline,
    constants: &Value,
) -> Result<Counts, NoMemory>
    ensures { IfOk result (λ counts. (c : Plain) → number (tree.get order counts c)
        ≡ count (stands outline.now constants.now c) (tree.keys values.now)) }
{
    let mut counts = BTreeMap::new(alloc);
    for value in values.keys() {
        count_captures(alloc, &mut counts, outline, constants, value)?;
    }
    Ok(counts)
}

/// The captures of those of the values of a tree that have the constants.
fn captures_in(
    alloc: Global,
    few: &BTreeSet<Value>,
    outline: &Outline,
    constants: &Value,
) -> Result<Counts, NoMemory>
    ensures { IfOk result (λ counts. (c : Plain) → number (tree.get order counts c)
        ≡ count (stands outline.now constants.now c) (sorted.keys few.now)) }
{
    let mut counts = BTreeMap::new(alloc);
    for value in few.iter() {
        count_captures(alloc, &mut counts, outline, constants, value)?;
    }
    Ok(counts)
}

/// The captures of one value, where it has the constants.
fn captures_alone(
    alloc: Global,
    value: &Value,
    outline: &Outline,
    constants: &Value,
) -> Result<Counts, NoMemory>
    ensures { IfOk result (λ counts. (c : Plain) → number (tree.get order counts c)
        ≡ (if stands outline.now constants.now c value.now then 1 else 0)) }
{
    let mut counts = BTreeMap::new(alloc);
    count_captures(alloc, &mut counts, outline, constants, value)?;
    Ok(counts)
}

/// The captures of those of a few values that have the constants.
fn captures_among(
    alloc: Global,
    few: &SmallSet,
    outline: &Outline,
    constants: &Value,
) -> Result<Counts, NoMemory>
    ensures { IfOk result (λ counts. (c : Plain) → number (tree.get order counts c)
        ≡ count (stands outline.now constants.now c) (sorted.keys few.now)) }
{
    match few.held() {
        Held::Nothing => Ok(BTreeMap::new(alloc)),
        Held::One(value) => captures_alone(alloc, value, outline, constants),
        Held::Many(tree) => captures_in(alloc, tree, outline, constants),
    }
}

/// The captures of the values that have the constants, each with how many were captured so.
pub(crate) fn captures_of(
    alloc: Global,
    values: &Values,
    facts: &Facts,
    outline: &Outline,
    constants: &Value,
) -> Result<Counts, NoMemory>
    ensures { IfOk result (λ counts. AreFacts (tree.keys values.now) facts.now → (c : Plain)
        → number (tree.get order counts c)
        ≡ count (stands outline.now constants.now c) (tree.keys values.now)) }
{
    match facts.near(alloc, outline, constants)? {
        Near::Anywhere => captures_anywhere(alloc, values, outline, constants),
        Near::Nowhere => Ok(BTreeMap::new(alloc)),
        Near::Among(few) => {
            if few.len() < values.len() {
                return captures_among(alloc, few, outline, constants);
            }
            captures_anywhere(alloc, values, outline, constants)
        }
    }
}
