//! Counts under keys. A count of 0 isn't kept.
ghost use Rattle.std.specs.Prelude.{◌≡◌, ◌<◌, ◌+◌, ◌-◌, not, nat_lt, Some, IsSome, OnOk};
ghost use Rattle.std.specs.Prelude.{if◌then◌else◌};
ghost use Rattle.std.specs.BTreeMap as tree;
ghost use Rattle.std.specs.BTreeMap.{is_at};
ghost use Rattle.ds_skeleton.specs.Leaves.{number, kept};

use pv_value::{NoMemory, Value};
use std::collections::BTreeMap;

/// How many were captured in each way.
pub(crate) type Counts = BTreeMap<Value, u64>;

/// How often the key was counted.
pub(crate) fn count_of<K: Ord>(counts: &BTreeMap<K, u64>, key: &K) -> u64
    ensures { result ≡ number (tree.get K.cmp counts.now key.now) }
{
    match counts.get(key) {
        Some(count) => *count,
        None => 0,
    }
}

/// Whether the key was counted once at most.
pub(crate) fn is_last<K: Ord>(counts: &BTreeMap<K, u64>, key: &K) -> bool
    ensures { result ≡ not (nat_lt 1 (number (tree.get K.cmp counts.now key.now))) }
{
    count_of(counts, key) <= 1
}

/// One more of the key. At the end of the numbers memory is wanting.
pub(crate) fn count_up<K: Ord + Drop>(counts: &mut BTreeMap<K, u64>, key: K) -> Result<(), NoMemory>
    ensures counts { OnOk result ((q : K) → tree.get K.cmp counts.new q
        ≡ (if is_at (K.cmp key) q then Some (number (tree.get K.cmp counts.old key) + 1)
        else tree.get K.cmp counts.old q)) }
    ensures keys { OnOk result (IsSome (tree.get K.cmp counts.old key)
        → tree.keys counts.new ≡ tree.keys counts.old) }
{
    let count = count_of(counts, &key);
    let Some(more) = count.checked_add(1) else {
        return Err(NoMemory);
    };
    counts.insert(key, more)?;
    Ok(())
}

/// One fewer of the key.
pub(crate) fn count_down<K: Ord + Drop>(
    counts: &mut BTreeMap<K, u64>,
    key: K,
) -> Result<(), NoMemory>
    ensures counts { OnOk result ((q : K) → tree.get K.cmp counts.new q
        ≡ (if is_at (K.cmp key) q then kept (number (tree.get K.cmp counts.old key) - 1)
        else tree.get K.cmp counts.old q)) }
    ensures keys { OnOk result (1 < number (tree.get K.cmp counts.old key)
        → tree.keys counts.new ≡ tree.keys counts.old) }
{
    let count = count_of(counts, &key);
    if count <= 1 {
        let _ = counts.remove(&key);
    } else {
        counts.insert(key, count - 1)?;
    }
    Ok(())
}
