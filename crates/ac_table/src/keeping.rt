//! Changes of the rows and of an actor's handles together, and of an inbox, the busy actors and the
//! number of batches.
ghost use Rattle.std.specs.Prelude.{◌≡◌, ◌<◌, ◌≤◌, [], ◌∷◌, ◌++◌, map, OnOk, OnErr, IfOk, vec_len};
ghost use Rattle.std.specs.Prelude.{vec_capacity, ◌+◌, ◌&&◌, slice_get, drop, length, true};
ghost use Rattle.std.specs.Prelude.{false, not, ℕ};
ghost use Rattle.std.specs.List.{AllByRecursion};
ghost use Rattle.std.specs.BTreeMap.{values, IsOrdered};
ghost use Rattle.std.specs.BTreeSet.{IsOrdered as IsOrderedSet};
ghost use Rattle.std.specs.Ordering.{nat_cmp};
ghost use Rattle.std.specs.BTreeSet.{btree_set_len};
ghost use Rattle.ac_table.specs.Inboxes.{is_busy, CountsOn};
ghost use Rattle.ac_table.specs.Facets.{is_facet};
ghost use Rattle.ac_table.specs.Kept.{by_handle, Takes, sum_of_rows};
ghost use Rattle.ac_table.specs.Placed.{tree_in, has_at, HasRow, SameRows, SameTree};
ghost use Rattle.ac_table.specs.Maps.{is_key, SetChangesAt};

use crate::batches::{Batch, Row};
use crate::facets::Facets;
use crate::inbox::Inbox;
use crate::sets::keeps_its_order;
use crate::sum::Sum;
use pv_value::{NoMemory, weight};
use std::alloc::Global;
use std::collections::{BTreeMap, BTreeSet};

/// One more row, under a handle above all others.
fn put_owned(
    rows: &mut BTreeMap<u64, Row>,
    own: &mut BTreeSet<u64>,
    row: Row,
) -> Result<(), NoMemory>
    requires above { AllByRecursion (λ e. e.0 < row.handle) rows.old.entries }
    requires above_own { AllByRecursion (λ h. h < row.handle) own.old.keys }
    ensures rows { OnOk result (rows.new.entries ≡ rows.old.entries ++ by_handle row ∷ []) }
    ensures own { OnOk result (own.new.keys ≡ own.old.keys ++ row.handle ∷ []) }
    ensures ordered { OnOk result (IsOrdered nat_cmp rows.new) }
    ensures same_rows { OnErr result (rows.new.entries ≡ rows.old.entries) }
    ensures same_own { OnErr result (own.new.keys ≡ own.old.keys) }
{
    let handle = row.handle;
    own.insert(handle)?;
    if rows.insert(handle, row).is_err() {
        own.remove(&handle);
        return Err(NoMemory);
    }
    Ok(())
}

/// One more row in a facet that is there, under a handle above all others.
pub(crate) fn put_row(
    rows: &mut BTreeMap<u64, Row>,
    own: &mut BTreeSet<u64>,
    facets: &mut Facets,
    row: Row,
) -> Result<(), NoMemory>
    requires above { AllByRecursion (λ e. e.0 < row.handle) rows.old.entries }
    requires above_own { AllByRecursion (λ h. h < row.handle) own.old.keys }
    requires facet { is_facet row.facet (tree_in facets.old) ≡ true }
    requires absent { has_at row.facet row.handle facets.old ≡ false }
    ensures rows { OnOk result (rows.new.entries ≡ rows.old.entries ++ by_handle row ∷ []) }
    ensures own { OnOk result (own.new.keys ≡ own.old.keys ++ row.handle ∷ []) }
    ensures ordered { OnOk result (IsOrdered nat_cmp rows.new) }
    ensures same_rows { OnErr result (rows.new.entries ≡ rows.old.entries) }
    ensures same_own { OnErr result (own.new.keys ≡ own.old.keys) }
    ensures tree { SameTree facets.old facets.new }
    ensures placed { OnOk result (HasRow row.facet row.handle true facets.old facets.new) }
    ensures same_facets { OnErr result (SameRows facets.old facets.new) }
{
    let handle = row.handle;
    let facet = row.facet;
    facets.put(facet, handle)?;
    if put_owned(rows, own, row).is_err() {
        facets.remove_row(facet, handle);
        return Err(NoMemory);
    }
    Ok(())
}

/// One more row, where there is room for it.
fn append(taken: &mut Vec<Row>, row: Row)
    requires { vec_len taken.old < vec_capacity taken.old }
    ensures row { taken.new.items ≡ taken.old.items ++ row ∷ [] }
    ensures len { vec_len taken.new ≡ vec_len taken.old + 1 }
    ensures capacity { vec_capacity taken.old ≤ vec_capacity taken.new }
{
    let _ = taken.push(row);
}

/// Takes rows out, into a list that has room for them.
pub(crate) fn take_rows(
    rows: &mut BTreeMap<u64, Row>,
    handles: BTreeSet<u64>,
    room: Vec<Row>,
) -> Vec<Row>
    requires keyed { rows.old.entries ≡ map by_handle (values rows.old) }
    requires ordered { IsOrdered nat_cmp rows.old }
    requires room { btree_set_len handles ≤ vec_capacity room }
    requires empty { room.items ≡ [] }
    ensures taken { Takes handles.keys (values rows.old) (values rows.new) result.items }
    ensures keyed { rows.new.entries ≡ map by_handle (values rows.new) }
    ensures ordered { IsOrdered nat_cmp rows.new }
{
    let mut taken = room;
    let mut left = handles;
    while let Some(handle) = left.pop_first() {
        if let Some(row) = rows.remove(&handle) {
            append(&mut taken, row);
        }
    }
    taken
}

/// Handles, ascending.
pub(crate) fn list(alloc: Global, handles: &BTreeSet<u64>) -> Result<Vec<u64>, NoMemory>
    ensures { IfOk result (λ list. list.items ≡ handles.now.keys) }
{
    let mut list = Vec::with_capacity(alloc, handles.len())?;
    for handle in handles.iter() {
        list.push(*handle)?;
    }
    Ok(list)
}

/// Handles are no more among an actor's own.
pub(crate) fn disown(own: &mut BTreeSet<u64>, handles: &BTreeSet<u64>)
    ensures own { (h : ℕ) → is_key h own.new.keys
        ≡ (is_key h own.old.keys && not (is_key h handles.now.keys)) }
    ensures ordered { IsOrderedSet nat_cmp own.new }
{
    keeps_its_order(own);
    for handle in handles.iter() {
        own.remove(handle);
    }
}

/// Rows that went weigh no more.
pub(crate) fn take_off_all(row_weight: &mut Sum, rows: &[Row])
    requires { sum_of_rows rows.now ≤ row_weight.old }
    ensures { row_weight.new + sum_of_rows rows.now ≡ row_weight.old }
{
    for row in rows {
        row_weight.take_off(weight(&row.value));
    }
}

/// An actor for which no batch waits is busy no more.
fn settle(busy: &mut BTreeSet<u32>, actor: u32, inbox: &Inbox)
    ensures { SetChangesAt actor (is_busy inbox.now && is_key actor busy.old.keys)
        busy.old.keys busy.new.keys }
{
    if inbox.is_empty() {
        busy.remove(&actor);
    }
}

/// One more batch for an actor, who is busy then. For want of memory none waits more, and where
/// their number would go beyond its type memory is said to be wanting.
pub(crate) fn push_busy(
    busy: &mut BTreeSet<u32>,
    waiting: &mut u64,
    actor: u32,
    inbox: &mut Inbox,
    batch: Batch,
) -> Result<(), NoMemory>
    requires { is_key actor busy.old.keys ≡ is_busy inbox.old }
    ensures pushed { OnOk result (inbox.new ≡ inbox.old ++ batch ∷ []) }
    ensures same { OnErr result (inbox.new ≡ inbox.old) }
    ensures counted { CountsOn inbox.old inbox.new waiting.old waiting.new }
    ensures busy { SetChangesAt actor (is_busy inbox.new) busy.old.keys busy.new.keys }
{
    let Some(more) = waiting.checked_add(1) else {
        return Err(NoMemory);
    };
    busy.insert(actor)?;
    match inbox.push(batch) {
        Ok(()) => {
            *waiting = more;
            Ok(())
        }
        Err(fault) => {
            settle(busy, actor, inbox);
            Err(fault)
        }
    }
}

/// The first batch for an actor, who is busy no more where it was the last.
pub(crate) fn pop_busy(
    busy: &mut BTreeSet<u32>,
    waiting: &mut u64,
    actor: u32,
    inbox: &mut Inbox,
) -> Option<Batch>
    requires busy { is_key actor busy.old.keys ≡ is_busy inbox.old }
    requires counted { length inbox.old ≤ waiting.old }
    ensures batch { result ≡ slice_get inbox.old 0 }
    ensures rest { inbox.new ≡ drop 1 inbox.old }
    ensures counted { CountsOn inbox.old inbox.new waiting.old waiting.new }
    ensures busy { SetChangesAt actor (is_busy inbox.new) busy.old.keys busy.new.keys }
{
    if !inbox.is_empty() {
        *waiting -= 1;
    }
    let batch = inbox.pop();
    settle(busy, actor, inbox);
    batch
}
