//! Two ascending lists of keys, compared by one walk.
ghost use Rattle.std.specs.Prelude.{◌≡◌, ◌++◌, map, IfOk, OnOk};
ghost use Rattle.ds_space.specs.Changes.{lacking, skipped, begins_with};
ghost use Rattle.ds_space.specs.declared.space.Change.TheVariants.{Left, Came};

use crate::space::{Change, Changes};
use pv_value::{NoMemory, Value, compare};
use std::alloc::Global;
use std::cmp::Ordering;

/// The rest of the list from the first key on that doesn't come before this one.
fn skipped<'a>(keys: &'a [Value], key: &Value) -> &'a [Value]
    ensures { result.now ≡ skipped key.now keys.now }
{
    for (i, k) in keys.iter().enumerate() {
        if compare(k, key) != Ordering::Less {
            return &keys[i..];
        }
    }
    &keys[keys.len()..]
}

/// Whether the list begins with the key.
fn begins_with(keys: &[Value], key: &Value) -> bool
    ensures { result ≡ begins_with key.now keys.now }
{
    match keys.first() {
        Some(first) => first == key,
        None => false,
    }
}

/// The keys of the first list that the second lacks, where both ascend.
pub(crate) fn lacking(
    alloc: Global,
    these: &[Value],
    those: &[Value],
) -> Result<Vec<Value>, NoMemory>
    ensures { IfOk result (λ keys. keys.items ≡ lacking these.now those.now) }
{
    let mut found = Vec::new(alloc);
    let mut rest = those;
    for key in these {
        rest = skipped(rest, key);
        if !begins_with(rest, key) {
            found.push(key.copy()?)?;
        }
    }
    Ok(found)
}

fn push_left(changes: &mut Changes, keys: Vec<Value>) -> Result<(), NoMemory>
    ensures { OnOk result (changes.new.items ≡ changes.old.items ++ map Left keys.items) }
{
    for key in keys {
        changes.push(Change::Left(key))?;
    }
    Ok(())
}

fn push_came(changes: &mut Changes, keys: Vec<Value>) -> Result<(), NoMemory>
    ensures { OnOk result (changes.new.items ≡ changes.old.items ++ map Came keys.items) }
{
    for key in keys {
        changes.push(Change::Came(key))?;
    }
    Ok(())
}

/// How the keys changed.
pub(crate) fn changes(alloc: Global, before: &[Value], after: &[Value]) -> Result<Changes, NoMemory>
    ensures { IfOk result (λ cs. cs.items
        ≡ map Left (lacking before.now after.now) ++ map Came (lacking after.now before.now)) }
{
    let mut changes = Vec::new(alloc);
    push_left(&mut changes, lacking(alloc, before, after)?)?;
    push_came(&mut changes, lacking(alloc, after, before)?)?;
    Ok(changes)
}
