//! Sets and maps of numbers: in what order they are, and what comes and goes all at once.
ghost use Rattle.std.specs.Prelude.{◌≡◌, ◌<◌, ◌≤◌, ◌+◌, ◌^◌, ◌&&◌, ◌||◌, ◌==◌, not, filter};
ghost use Rattle.std.specs.Prelude.{true, false, OnOk, OnErr, ℕ, length};
ghost use Rattle.std.specs.Ordering.{nat_cmp};
ghost use Rattle.std.specs.BTreeMap.{IsOrdered as IsOrderedMap};
ghost use Rattle.std.specs.BTreeSet.{IsOrdered, btree_set_len};
ghost use Rattle.ac_table.specs.Maps.{is_key};

use pv_value::NoMemory;
use std::collections::{BTreeMap, BTreeSet};

/// The numbers in a set ascend, and are fewer than 2^63. This holds of every set and is called
/// where a proof rests on it.
pub(crate) fn keeps_its_order<K: Ord>(set: &BTreeSet<K>)
    ensures ordered { IsOrdered K.cmp set.now }
    ensures few { btree_set_len set.now < 2 ^ 63 }
{
    let _ = set.len();
}

/// The numbers of a map's entries ascend. This holds of every map and is called where a proof
/// rests on it.
pub(crate) fn keeps_map_order<X>(map: &BTreeMap<u32, X>)
    ensures { IsOrderedMap nat_cmp map.now }
{
    let _ = map.len();
}

/// A number is found; where it wasn't found before it is left to look at.
pub(crate) fn find(
    number: u32,
    found: &mut BTreeSet<u32>,
    left: &mut BTreeSet<u32>,
) -> Result<(), NoMemory>
    ensures found { OnOk result ((g : ℕ) → is_key g found.new.keys
        ≡ (is_key g found.old.keys || g == number)) }
    ensures left { OnOk result ((g : ℕ) → is_key g left.new.keys
        ≡ (is_key g left.old.keys || (not (is_key number found.old.keys) && g == number))) }
    ensures count { OnOk result (length left.new.keys + length found.old.keys
        ≤ length left.old.keys + length found.new.keys) }
    ensures ordered { IsOrdered nat_cmp found.new }
{
    let added = found.insert(number)?;
    if !added {
        return Ok(());
    }
    left.insert(number)?;
    Ok(())
}

/// These numbers too.
pub(crate) fn insert_all(numbers: &mut BTreeSet<u64>, more: &BTreeSet<u64>) -> Result<(), NoMemory>
    ensures ordered { OnOk result (IsOrdered nat_cmp numbers.new) }
    ensures all { OnOk result ((h : ℕ) → is_key h numbers.new.keys
        ≡ (is_key h numbers.old.keys || is_key h more.now.keys)) }
{
    keeps_its_order(numbers);
    for number in more.iter() {
        numbers.insert(*number)?;
    }
    Ok(())
}

/// These numbers too, none of which was there. For want of memory none of them is.
pub(crate) fn free_all(free: &mut BTreeSet<u32>, numbers: &BTreeSet<u32>) -> Result<(), NoMemory>
    requires { (n : ℕ) → is_key n numbers.now.keys ≡ true → is_key n free.old.keys ≡ false }
    ensures freed { OnOk result ((n : ℕ) → is_key n free.new.keys
        ≡ (is_key n free.old.keys || is_key n numbers.now.keys)) }
    ensures same { OnErr result ((n : ℕ) → is_key n free.new.keys ≡ is_key n free.old.keys) }
{
    for number in numbers.iter() {
        if free.insert(*number).is_err() {
            take_all(free, numbers);
            return Err(NoMemory);
        }
    }
    Ok(())
}

/// None of these numbers is there any more.
fn take_all(free: &mut BTreeSet<u32>, numbers: &BTreeSet<u32>)
    ensures { (n : ℕ) → is_key n free.new.keys
        ≡ (is_key n free.old.keys && not (is_key n numbers.now.keys)) }
{
    for number in numbers.iter() {
        free.remove(number);
    }
}

/// The entries at these numbers go.
pub(crate) fn remove_all<X: Drop>(all: &mut BTreeMap<u32, X>, numbers: &BTreeSet<u32>)
    requires { IsOrderedMap nat_cmp all.old }
    ensures gone { all.new.entries
        ≡ filter (λ e. not (is_key e.0 numbers.now.keys)) all.old.entries }
    ensures ordered { IsOrderedMap nat_cmp all.new }
{
    for number in numbers.iter() {
        all.remove(number);
    }
}
