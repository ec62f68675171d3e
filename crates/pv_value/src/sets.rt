//! Sets and dictionaries, made of lists in any order. What ascends is taken as it is; else it is
//! sorted and neighbours are compared, and the place that repeats an earlier one is looked for only
//! where two are equal.
ghost use Rattle.std.specs.Prelude.{◌≡◌, true, None, map, IfOk, IfErr, IfSome, MatchOption};
ghost use Rattle.std.specs.List.Sorted.{IsPermutation};
ghost use Rattle.pv_value.specs.Plain.{plains, pairs};
ghost use Rattle.pv_value.specs.View.{key_and_value};
ghost use Rattle.pv_value.specs.WellFormed.{Ascend, KeysAscend};
ghost use Rattle.pv_value.specs.Sets.{set_from, dictionary_from, IsSetOf, IsDictionaryOf};
ghost use Rattle.pv_value.specs.Sets.{AreDistinct};
ghost use Rattle.pv_value.specs.Sets.{IsFirstRepeat, IsSetFault, IsMade};

use crate::lists::{fitted, see_all, see_all_entries};
use crate::sorting::by_fronts;
use crate::{Entries, Entry, NoMemory, Node, SetItems, Value};
use std::alloc::{AllocError, AllocFailed, Global};
use std::collections::BTreeSet;
use std::sync::Arc;
use thiserror::Error;

/// Why a list makes no set or dictionary.
#[derive(Debug, Drop, Error)]
pub enum SetFault {
    #[error("out of memory")]
    NoMemory,
    /// The first place whose element, or key, is equal to an earlier one.
    #[error("the element or key at {0} repeats an earlier one")]
    Duplicate(usize),
}

impl From<NoMemory> for SetFault {
    ghost use Rattle.pv_value.specs.declared.sets.SetFault.TheVariants.{NoMemory};

    ghost from_gives = { λ _ e. e ≡ NoMemory };

    fn from(_: NoMemory) -> SetFault {
        SetFault::NoMemory
    }
}

impl From<AllocError> for SetFault {
    ghost use Rattle.pv_value.specs.declared.sets.SetFault.TheVariants.{NoMemory};

    ghost from_gives = { λ _ e. e ≡ NoMemory };

    fn from(_: AllocError) -> SetFault {
        SetFault::NoMemory
    }
}

impl<T: Drop> From<AllocFailed<T>> for SetFault {
    ghost use Rattle.pv_value.specs.declared.sets.SetFault.TheVariants.{NoMemory};

    ghost from_gives = { λ _ e. e ≡ NoMemory };

    fn from(_: AllocFailed<T>) -> SetFault {
        SetFault::NoMemory
    }
}

impl Value {
    /// The set of these elements.
    pub fn set(alloc: Global, items: Vec<Value>) -> Result<Value, SetFault>
        ensures ok { IfOk result (IsSetOf items.items) }
        ensures err { IfErr result (IsSetFault items.items) }
        ensures made { IsMade result (set_from items.items) }
    {
        see_all(&items);
        let list = ascending(alloc, items)?;
        let list = Arc::new(alloc, fitted(list))?;
        Ok(Value {
            node: Node::Set(SetItems { list }),
        })
    }

    /// The dictionary of these entries.
    pub fn dict(alloc: Global, entries: Vec<Entry>) -> Result<Value, SetFault>
        ensures ok { IfOk result (IsDictionaryOf (map key_and_value entries.items)) }
        ensures err { IfErr result (IsSetFault (map (λ e. e.key) entries.items)) }
        ensures made { IsMade result (dictionary_from (map key_and_value entries.items)) }
    {
        see_all_entries(&entries);
        let list = ascending_by_key(alloc, entries)?;
        let list = Arc::new(alloc, fitted(list))?;
        Ok(Value {
            node: Node::Dict(Entries { list }),
        })
    }
}

/// The same elements in ascending order.
fn ascending(alloc: Global, items: Vec<Value>) -> Result<Vec<Value>, SetFault>
    ensures ok { IfOk result (λ list. IsPermutation items.items list.items × Ascend list.items) }
    ensures err { IfErr result (IsSetFault items.items) }
{
    if do_ascend(&items) {
        return Ok(items);
    }
    match in_order(by_fronts(alloc, &items)?) {
        Some(list) => Ok(list),
        None => Err(repeat_in(alloc, &items)),
    }
}

/// The same elements in ascending order; none where two are equal.
fn in_order(mut list: Vec<Value>) -> Option<Vec<Value>>
    ensures some { IfSome result (λ new. IsPermutation list.items new.items × Ascend new.items) }
    ensures none { result ≡ None → AreDistinct list.items → ⊥ }
{
    if do_ascend(&list) {
        return Some(list);
    }
    list.sort_unstable();
    if do_ascend(&list) {
        return Some(list);
    }
    None
}

/// The same entries in ascending order of their keys.
fn ascending_by_key(alloc: Global, entries: Vec<Entry>) -> Result<Vec<Entry>, SetFault>
    ensures ok { IfOk result (λ list. IsPermutation entries.items list.items
        × Ascend (map (λ e. e.key) list.items)) }
    ensures err { IfErr result (IsSetFault (map (λ e. e.key) entries.items)) }
{
    if do_keys_ascend(&entries) {
        return Ok(entries);
    }
    match in_order_of_keys(by_fronts(alloc, &entries)?) {
        Some(list) => Ok(list),
        None => Err(repeated_key_in(alloc, &entries)),
    }
}

/// The same entries in ascending order of their keys; none where two have equal keys.
fn in_order_of_keys(mut list: Vec<Entry>) -> Option<Vec<Entry>>
    ensures some { IfSome result (λ new. IsPermutation list.items new.items
        × Ascend (map (λ e. e.key) new.items)) }
    ensures none { result ≡ None → AreDistinct (map (λ e. e.key) list.items) → ⊥ }
{
    if do_keys_ascend(&list) {
        return Some(list);
    }
    list.sort_unstable();
    if do_keys_ascend(&list) {
        return Some(list);
    }
    None
}

/// Whether each element comes before the next one.
fn do_ascend(items: &[Value]) -> bool
    ensures yes { result ≡ true → Ascend items.now }
    ensures no { Ascend items.now → result ≡ true }
{
    for i in 1..items.len() {
        let (last, next) = (&items[i - 1], &items[i]);
        if last >= next {
            return false;
        }
    }
    true
}

/// Whether each key comes before the next one.
fn do_keys_ascend(entries: &[Entry]) -> bool
    ensures yes { result ≡ true → Ascend (map (λ e. e.key) entries.now) }
    ensures no { Ascend (map (λ e. e.key) entries.now) → result ≡ true }
{
    for i in 1..entries.len() {
        let (last, next) = (&entries[i - 1], &entries[i]);
        if last.key >= next.key {
            return false;
        }
    }
    true
}

/// The fault of elements of which two are equal.
fn repeat_in(alloc: Global, items: &[Value]) -> SetFault
    requires { AreDistinct items.now → ⊥ }
    ensures { IsSetFault items.now result }
{
    match first_repeat(alloc, items) {
        Ok(Some(place)) => SetFault::Duplicate(place),
        Ok(None) => unreachable!(),
        Err(_) => SetFault::NoMemory,
    }
}

/// The fault of entries of which two have equal keys.
fn repeated_key_in(alloc: Global, entries: &[Entry]) -> SetFault
    requires { AreDistinct (map (λ e. e.key) entries.now) → ⊥ }
    ensures { IsSetFault (map (λ e. e.key) entries.now) result }
{
    match first_repeated_key(alloc, entries) {
        Ok(Some(place)) => SetFault::Duplicate(place),
        Ok(None) => unreachable!(),
        Err(_) => SetFault::NoMemory,
    }
}

/// The first place whose element is equal to an earlier one.
fn first_repeat(alloc: Global, items: &[Value]) -> Result<Option<usize>, AllocError>
    ensures { IfOk result (λ found. MatchOption found (AreDistinct items.now)
        (λ p. IsFirstRepeat items.now p)) }
{
    let mut seen = BTreeSet::new(alloc);
    for (i, x) in items.iter().enumerate() {
        if !seen.insert(x)? {
            return Ok(Some(i));
        }
    }
    Ok(None)
}

/// The first place whose key is equal to an earlier one.
fn first_repeated_key(alloc: Global, entries: &[Entry]) -> Result<Option<usize>, AllocError>
    ensures { IfOk result (λ found. MatchOption found (AreDistinct (map (λ e. e.key) entries.now))
        (λ p. IsFirstRepeat (map (λ e. e.key) entries.now) p)) }
{
    let mut seen = BTreeSet::new(alloc);
    for (i, e) in entries.iter().enumerate() {
        if !seen.insert(&e.key)? {
            return Ok(Some(i));
        }
    }
    Ok(None)
}
