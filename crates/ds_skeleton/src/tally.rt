//! Rows are counted by their values, and the index has each value once.
ghost use Rattle.std.specs.Prelude.{◌≡◌, ◌∷◌, ◌+◌, true, false, Some, None, OnOk, IfOk, IsSome};
ghost use Rattle.std.specs.Prelude.{is_some, List};
ghost use Rattle.std.specs.Prelude.{if◌then◌else◌};
ghost use Rattle.std.specs.BTreeMap as tree;
ghost use Rattle.std.specs.BTreeMap.{insert_entry};
ghost use Rattle.std.specs.List.Sorted.{IsStrictlySortedBy};
ghost use Rattle.pv_value.specs.Plain.{Plain};
ghost use Rattle.pv_value.specs.Order.{order};
ghost use Rattle.pv_value.specs.EntryOrder.{entry_order};
ghost use Rattle.pv_value.specs.declared.Entry.{Entry};
ghost use Rattle.pv_words.specs.Parts.{same};
ghost use Rattle.ds_skeleton.specs.Leaves.{number};
ghost use Rattle.ds_skeleton.specs.Keys.{has_key};
ghost use Rattle.ds_skeleton.specs.Indexes.{IsWhole, AreCounts, only_in};

use crate::counting::{count_down, is_last};
use crate::entering::{enter, leave};
use crate::index::{Index, Values};
use crate::touching::Keys;
use pv_value::{NoMemory, Value};
use std::alloc::Global;

/// One more row of the value. The answer is whether it is the first.
fn count_value(values: &mut Values, value: &Value) -> Result<bool, NoMemory>
    ensures counts { OnOk result ((q : Plain) → tree.get order values.new q
        ≡ (if same value.now q then Some (number (tree.get order values.old value.now) + 1)
        else tree.get order values.old q)) }
    ensures first { IfOk result (λ first. first ≡ true
        → tree.get order values.old value.now ≡ None) }
    ensures entries { IfOk result (λ first. first ≡ true
        → values.new.entries ≡ insert_entry order values.old.entries value.now 1) }
    ensures again { IfOk result (λ first. first ≡ false
        → is_some (tree.get order values.old value.now) ≡ true) }
    ensures keys { IfOk result (λ first. first ≡ false
        → tree.keys values.new ≡ tree.keys values.old) }
{
    let Some(count) = values.insert(value.copy()?, 1)? else {
        return Ok(true);
    };
    let Some(more) = count.checked_add(1) else {
        return Err(NoMemory);
    };
    values.insert(value.copy()?, more)?;
    Ok(false)
}

/// One more row of the value. The answer is the keys that come.
pub(crate) fn count_in(alloc: Global, index: &mut Index, value: &Value) -> Result<Keys, NoMemory>
    requires { IsWhole index.old }
    ensures whole { OnOk result (IsWhole index.new) }
    ensures values { OnOk result ((vs : List Plain) → AreCounts index.old.values vs
        → AreCounts index.new.values (value.now ∷ vs)) }
    ensures keys { IfOk result (λ keys. (vs : List Plain) → AreCounts index.old.values vs
        → (q : Entry) → has_key keys.items q ≡ only_in (value.now ∷ vs) vs q) }
    ensures ascending { IfOk result (λ keys. IsStrictlySortedBy entry_order keys.items) }
{
    let first = count_value(&mut index.values, value)?;
    if first {
        let keys = enter(alloc, index, value)?;
        return Ok(keys);
    }
    Ok(Vec::new(alloc))
}

/// One row fewer of the value. The answer is the keys that go.
pub(crate) fn count_out(alloc: Global, index: &mut Index, value: &Value) -> Result<Keys, NoMemory>
    requires whole { IsWhole index.old }
    requires present { IsSome (tree.get order index.old.values value.now) }
    ensures whole { OnOk result (IsWhole index.new) }
    ensures values { OnOk result ((vs : List Plain) → AreCounts index.old.values (value.now ∷ vs)
        → AreCounts index.new.values vs) }
    ensures keys { IfOk result (λ keys. (vs : List Plain)
        → AreCounts index.old.values (value.now ∷ vs)
        → (q : Entry) → has_key keys.items q ≡ only_in (value.now ∷ vs) vs q) }
    ensures ascending { IfOk result (λ keys. IsStrictlySortedBy entry_order keys.items) }
{
    if is_last(&index.values, value) {
        let keys = leave(alloc, index, value)?;
        return Ok(keys);
    }
    let again = value.copy()?;
    count_down(&mut index.values, again)?;
    Ok(Vec::new(alloc))
}

/// A row that was counted is taken back.
pub(crate) fn take_back(alloc: Global, index: &mut Index, value: &Value) -> Result<(), NoMemory>
    requires whole { IsWhole index.old }
    requires present { IsSome (tree.get order index.old.values value.now) }
    ensures whole { OnOk result (IsWhole index.new) }
    ensures values { OnOk result ((vs : List Plain) → AreCounts index.old.values (value.now ∷ vs)
        → AreCounts index.new.values vs) }
{
    let _keys = count_out(alloc, index, value)?;
    Ok(())
}
