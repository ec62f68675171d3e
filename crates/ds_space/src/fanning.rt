//! To whom a message goes.
ghost use Rattle.std.specs.Prelude.{◌≡◌, ◌||◌, ◌++◌, OnOk, IfOk};
ghost use Rattle.std.specs.List.{list_any};
ghost use Rattle.std.specs.BTreeMap as tree;
ghost use Rattle.std.specs.BTreeSet as sorted;
ghost use Rattle.pv_value.specs.Plain.{Plain};
ghost use Rattle.pv_value.specs.Order.{order};
ghost use Rattle.pv_value.specs.Sets.{ascending_by};
ghost use Rattle.pv_words.specs.Parts.{same};
ghost use Rattle.ds_space.specs.Changes.{among};
ghost use Rattle.ds_space.specs.Wants.{captured};
ghost use Rattle.ds_space.specs.Fans.{fan_for, fan_of};

use crate::collecting::listed;
use crate::space::{FanList, Fanned};
use crate::standing::Standing;
use dp_pattern::captures;
use pv_value::{Items, NoMemory, Value};
use std::alloc::Global;
use std::collections::{BTreeMap, BTreeSet};

fn put_standing(set: &mut BTreeSet<Standing>, standing: Standing) -> Result<(), NoMemory>
    ensures { OnOk result
        ((q : Plain) → sorted.contains order set.new q
        ≡ (sorted.contains order set.old q || same q standing)) }
{
    set.insert(standing)?;
    Ok(())
}

fn standing_set(
    alloc: Global,
    rows: &BTreeMap<u64, Standing>,
) -> Result<BTreeSet<Standing>, NoMemory>
    ensures { IfOk result
        (λ set. (q : Plain) → sorted.contains order set q ≡ among q (tree.values rows.now)) }
{
    let mut set = BTreeSet::new(alloc);
    for value in rows.values() {
        put_standing(&mut set, value.copy()?)?;
    }
    Ok(set)
}

/// The values, ascending, each once.
fn distinct(alloc: Global, rows: &BTreeMap<u64, Standing>) -> Result<Vec<Standing>, NoMemory>
    ensures { IfOk result (λ list. list.items ≡ ascending_by order (tree.values rows.now)) }
{
    let set = standing_set(alloc, rows)?;
    listed(alloc, set)
}

/// What a value captures of the message, where it is an observation that the message matches.
fn captured(alloc: Global, observe: &Standing, message: &Value) -> Result<Option<Items>, NoMemory>
    ensures { IfOk result (λ found. found ≡ captured observe.now message.now) }
{
    match observe.pattern() {
        Some(pattern) => captures(alloc, pattern, message),
        None => Ok(None),
    }
}

/// One observation more, where it captures something.
fn push_fanned(list: &mut FanList, observe: Value, captures: Option<Items>) -> Result<(), NoMemory>
    ensures { OnOk result (list.new.items ≡ list.old.items ++ fan_for observe captures) }
{
    if let Some(captures) = captures {
        list.push(Fanned { observe, captures })?;
    }
    Ok(())
}

pub(crate) fn fan_list(
    alloc: Global,
    rows: &BTreeMap<u64, Standing>,
    message: &Value,
) -> Result<FanList, NoMemory>
    ensures { IfOk result (λ list. list.items ≡ fan_of (tree.values rows.now) message.now) }
{
    let mut list = Vec::new(alloc);
    for observe in distinct(alloc, rows)? {
        let captures = captured(alloc, &observe, message)?;
        push_fanned(&mut list, observe.into_value(), captures)?;
    }
    Ok(list)
}
