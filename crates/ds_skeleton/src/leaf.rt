//! Leaves of one outline: who observes with these constants, and how many values were captured so.
//!
//! A leaf stands only while somebody observes there, and values are counted at those that stand.
ghost use Rattle.std.specs.Prelude.{◌≡◌, ◌+◌, ◌-◌, ◌&&◌, ◌||◌, true, false, OnOk, IfOk};
ghost use Rattle.std.specs.Prelude.{if◌then◌else◌};
ghost use Rattle.std.specs.BTreeMap as tree;
ghost use Rattle.pv_value.specs.Plain.{Plain};
ghost use Rattle.pv_value.specs.Order.{order};
ghost use Rattle.pv_words.specs.Parts.{same};
ghost use Rattle.ds_skeleton.specs.Leaves.{number, captured_at, observed_at, leaf_at, has_leaf_at};
ghost use Rattle.ds_skeleton.specs.Leaves.{others_observe};

use crate::counting::{Counts, count_down, count_up};
use pv_value::{NoMemory, Value};
use std::alloc::Global;
use std::collections::{BTreeMap, BTreeSet};

/// The observations of one outline and constants, and how many of the distinct values that have
/// these were captured in each way.
#[derive(Drop)]
pub(crate) struct Leaf {
    pub(crate) observers: BTreeSet<Value>,
    pub(crate) captured: Counts,
}

/// The leaves of one outline by the constants.
pub(crate) type Leaves = BTreeMap<Value, Leaf>;

/// One more value of these constants, with these captures.
pub(crate) fn bump(leaves: &mut Leaves, constants: &Value, captures: Value) -> Result<(), NoMemory>
    ensures leaves { OnOk result ((k : Plain)
        → has_leaf_at leaves.new k ≡ has_leaf_at leaves.old k) }
    ensures counts { OnOk result ((k c : Plain) → captured_at (leaf_at leaves.new k) c
        ≡ captured_at (leaf_at leaves.old k) c
        + (if has_leaf_at leaves.old k && (same constants.now k && same captures c)
        then 1 else 0)) }
    ensures observers { OnOk result ((k o : Plain) → observed_at (leaf_at leaves.new k) o
        ≡ observed_at (leaf_at leaves.old k) o) }
{
    let Some(leaf) = leaves.get_mut(constants) else {
        return Ok(());
    };
    count_up(&mut leaf.captured, captures)?;
    Ok(())
}

/// One value fewer of these constants, with these captures.
pub(crate) fn drop_one(
    leaves: &mut Leaves,
    constants: &Value,
    captures: Value,
) -> Result<(), NoMemory>
    ensures leaves { OnOk result ((k : Plain)
        → has_leaf_at leaves.new k ≡ has_leaf_at leaves.old k) }
    ensures counts { OnOk result ((k c : Plain) → captured_at (leaf_at leaves.new k) c
        ≡ captured_at (leaf_at leaves.old k) c
        - (if has_leaf_at leaves.old k && (same constants.now k && same captures c)
        then 1 else 0)) }
    ensures observers { OnOk result ((k o : Plain) → observed_at (leaf_at leaves.new k) o
        ≡ observed_at (leaf_at leaves.old k) o) }
{
    let Some(leaf) = leaves.get_mut(constants) else {
        return Ok(());
    };
    count_down(&mut leaf.captured, captures)?;
    Ok(())
}

/// One more observation at a leaf that stands. The answer is whether one does.
pub(crate) fn join(
    leaves: &mut Leaves,
    constants: &Value,
    observer: &Value,
) -> Result<bool, NoMemory>
    ensures stands { IfOk result (λ stands. stands ≡ has_leaf_at leaves.old constants.now) }
    ensures leaves { OnOk result ((k : Plain)
        → has_leaf_at leaves.new k ≡ has_leaf_at leaves.old k) }
    ensures counts { OnOk result ((k c : Plain) → captured_at (leaf_at leaves.new k) c
        ≡ captured_at (leaf_at leaves.old k) c) }
    ensures observers { IfOk result (λ stands. (k o : Plain)
        → observed_at (leaf_at leaves.new k) o
        ≡ (if stands && (same constants.now k && same observer.now o) then true
        else observed_at (leaf_at leaves.old k) o)) }
{
    let another = observer.copy()?;
    let Some(leaf) = leaves.get_mut(constants) else {
        return Ok(false);
    };
    leaf.observers.insert(another)?;
    Ok(true)
}

/// A leaf with its first observation, put where none stands.
pub(crate) fn begin(
    alloc: Global,
    leaves: &mut Leaves,
    constants: Value,
    captured: Counts,
    observer: &Value,
) -> Result<(), NoMemory>
    requires { has_leaf_at leaves.old constants ≡ false }
    ensures leaves { OnOk result ((k : Plain)
        → has_leaf_at leaves.new k ≡ (same constants k || has_leaf_at leaves.old k)) }
    ensures counts { OnOk result ((k c : Plain) → captured_at (leaf_at leaves.new k) c
        ≡ (if same constants k then number (tree.get order captured c)
        else captured_at (leaf_at leaves.old k) c)) }
    ensures observers { OnOk result ((k o : Plain) → observed_at (leaf_at leaves.new k) o
        ≡ (if same constants k && same observer.now o then true
        else observed_at (leaf_at leaves.old k) o)) }
{
    let mut observers = BTreeSet::new(alloc);
    observers.insert(observer.copy()?)?;
    let leaf = Leaf {
        observers,
        captured,
    };
    leaves.insert(constants, leaf)?;
    Ok(())
}

/// One observation fewer of these constants. The leaf goes with the last.
pub(crate) fn unwatch(leaves: &mut Leaves, constants: &Value, observer: &Value)
    ensures leaves { (k : Plain) → has_leaf_at leaves.new k
        ≡ (if same constants.now k then others_observe observer.now (leaf_at leaves.old k)
        else has_leaf_at leaves.old k) }
    ensures counts { (k c : Plain) → captured_at (leaf_at leaves.new k) c
        ≡ (if has_leaf_at leaves.new k then captured_at (leaf_at leaves.old k) c else 0) }
    ensures observers { (k o : Plain) → observed_at (leaf_at leaves.new k) o
        ≡ (if same constants.now k && same observer.now o then false
        else observed_at (leaf_at leaves.old k) o) }
{
    let Some(leaf) = leaves.get_mut(constants) else {
        return;
    };
    let _ = leaf.observers.remove(observer);
    if leaf.observers.is_empty() {
        let _ = leaves.remove(constants);
    }
}
