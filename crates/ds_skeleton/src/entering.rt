//! A value enters the index, or leaves it, and the keys that come or go with it.
ghost use Rattle.std.specs.Prelude.{◌≡◌, None, List, OnOk, IfOk, IsSome, if◌then◌else◌};
ghost use Rattle.std.specs.BTreeMap as tree;
ghost use Rattle.std.specs.List.Sorted.{IsStrictlySortedBy};
ghost use Rattle.pv_value.specs.Plain.{Plain};
ghost use Rattle.pv_value.specs.Order.{order};
ghost use Rattle.pv_value.specs.EntryOrder.{entry_order};
ghost use Rattle.pv_value.specs.declared.Entry.{Entry};
ghost use Rattle.pv_words.specs.Parts.{same};
ghost use Rattle.ds_skeleton.specs.Keys.{has_key};
ghost use Rattle.ds_skeleton.specs.Shapes.{AreInOrder};
ghost use Rattle.ds_skeleton.specs.Entering.{Awaits};
ghost use Rattle.ds_skeleton.specs.Indexes.{IsWhole, only_in};

use crate::index::{Index, bump_all, drop_all};
use crate::outlines::{observe, unobserve};
use crate::touching::{Keys, keys_with};
use pv_value::{NoMemory, Value};
use std::alloc::Global;

/// A value enters that was counted for the first time. The answer is the keys that come.
pub(crate) fn enter(alloc: Global, index: &mut Index, value: &Value) -> Result<Keys, NoMemory>
    requires { AreInOrder index.old.shapes.items }
    ensures whole { OnOk result ((others : List Plain) → Awaits value.now others index.old
        → IsWhole index.new) }
    ensures values { OnOk result (index.new.values ≡ index.old.values) }
    ensures keys { IfOk result (λ keys. (others : List Plain) → Awaits value.now others index.old
        → (q : Entry) → has_key keys.items q ≡ only_in (tree.keys index.old.values) others q) }
    ensures ascending { IfOk result (λ keys. IsStrictlySortedBy entry_order keys.items) }
{
    bump_all(alloc, &mut index.shapes, value)?;
    index.facts.add(alloc, value)?;
    observe(alloc, &mut index.shapes, &index.values, &index.facts, value)?;
    let keys = keys_with(alloc, &index.shapes, value)?;
    Ok(keys)
}

/// A value leaves. The answer is the keys that go.
pub(crate) fn leave(alloc: Global, index: &mut Index, value: &Value) -> Result<Keys, NoMemory>
    requires whole { IsWhole index.old }
    requires present { IsSome (tree.get order index.old.values value.now) }
    ensures whole { OnOk result (IsWhole index.new) }
    ensures values { OnOk result ((q : Plain) → tree.get order index.new.values q
        ≡ (if same value.now q then None else tree.get order index.old.values q)) }
    ensures keys { IfOk result (λ keys. (q : Entry) → has_key keys.items q
        ≡ only_in (tree.keys index.old.values) (tree.keys index.new.values) q) }
    ensures ascending { IfOk result (λ keys. IsStrictlySortedBy entry_order keys.items) }
{
    let keys = keys_with(alloc, &index.shapes, value)?;
    drop_all(alloc, &mut index.shapes, value)?;
    let _ = index.values.remove(value);
    index.facts.remove(alloc, value)?;
    unobserve(alloc, &mut index.shapes, &index.values, value)?;
    Ok(keys)
}
