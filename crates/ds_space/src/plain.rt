//! The plain space: it scans its rows at each event. An observation is read when its row comes.
ghost use Rattle.std.specs.Prelude.{◌≡◌, IfOk, OnOk, None};
ghost use Rattle.std.specs.Ordering.{nat_cmp};
ghost use Rattle.std.specs.Map.{lookup};
ghost use Rattle.std.specs.BTreeMap.{is_at, insert_entry};
ghost use Rattle.std.specs.BTreeMap as tree;
ghost use Rattle.ds_space.specs.Spaces.{IsApplied, IsFan};
ghost use Rattle.ds_space.specs.declared.space.SpaceEvent.TheVariants.{Add, Gone};

use crate::collecting::all_wanted;
use crate::comparing::changes;
use crate::fanning::fan_list;
use crate::limits::is_over;
use crate::space::{Applied, Fan, Space, SpaceEvent};
use crate::standing::Standing;
use crate::weighing::{weigh_fanned, weigh_keys};
use pv_value::{NoMemory, Value};
use std::alloc::Global;
use std::collections::BTreeMap;
use std::marker::Model;

/// The rows, and what is wanted over them.
#[derive(Drop)]
pub struct PlainSpace {
    rows: BTreeMap<u64, Standing>,
    wanted: Vec<Value>,
}

impl Model for PlainSpace {
    ghost use Rattle.std.specs.Prelude.{List, ℕ, ◌≡◌};
    ghost use Rattle.std.specs.Coded.{coded_list, coded×, coded_ℕ};
    ghost use Rattle.std.specs.Map.{values_of};
    ghost use Rattle.pv_value.specs.Plain.{Plain};
    ghost use Rattle.pv_value.specs.Lemmas.Coded.{plain_code};
    ghost use Rattle.ds_space.specs.Wants.{wants};

    ghost Value = { List (ℕ × Plain) };

    ghost coded = { coded_list (coded× coded_ℕ plain_code) };

    ghost view = { λ a. a.rows.entries };

    ghost invariant = { λ a. a.wanted.items ≡ wants (values_of a.rows.entries) };
}

/// A row more, of a number that none has, or in the place of the one that has it.
fn put_row(
    alloc: Global,
    rows: &mut BTreeMap<u64, Standing>,
    number: u64,
    value: Value,
) -> Result<(), NoMemory>
    ensures { OnOk result
        (rows.new.entries ≡ insert_entry nat_cmp rows.old.entries number value) }
{
    let standing = Standing::new(alloc, value)?;
    rows.insert(number, standing)?;
    Ok(())
}

impl PlainSpace {
    fn add(self, alloc: Global, number: u64, value: Value) -> Result<Applied<PlainSpace>, NoMemory>
        requires { lookup (is_at (nat_cmp number)) self ≡ None }
        ensures { IfOk result (IsApplied (λ s. s) self (Add number value)) }
    {
        let PlainSpace { mut rows, wanted } = self;
        put_row(alloc, &mut rows, number, value)?;
        let after = all_wanted(alloc, &rows)?;
        let weight = weigh_keys(&after);
        if is_over(weight) {
            let _ = rows.remove(&number);
            return Ok(Applied::Over(PlainSpace { rows, wanted }, weight));
        }
        let changes = changes(alloc, &wanted, &after)?;
        let space = PlainSpace {
            rows,
            wanted: after,
        };
        Ok(Applied::Done(space, changes))
    }

    fn gone(self, alloc: Global, number: u64) -> Result<Applied<PlainSpace>, NoMemory>
        ensures { IfOk result (IsApplied (λ s. s) self (Gone number)) }
    {
        let PlainSpace { mut rows, wanted } = self;
        let _gone = rows.remove(&number);
        let after = all_wanted(alloc, &rows)?;
        let changes = changes(alloc, &wanted, &after)?;
        let space = PlainSpace {
            rows,
            wanted: after,
        };
        Ok(Applied::Done(space, changes))
    }
}

impl Space for PlainSpace {
    ghost rows = { λ s. s };

    fn fresh(alloc: Global) -> Self {
        PlainSpace {
            rows: BTreeMap::new(alloc),
            wanted: Vec::new(alloc),
        }
    }

    fn apply(self, alloc: Global, event: SpaceEvent) -> Result<Applied<Self>, NoMemory> {
        match event {
            SpaceEvent::Add(number, value) => self.add(alloc, number, value),
            SpaceEvent::Gone(number) => self.gone(alloc, number),
        }
    }

    fn has(&self, number: u64) -> bool {
        self.rows.contains_key(&number)
    }

    fn fan(&self, alloc: Global, message: &Value) -> Result<Fan, NoMemory> {
        fan(alloc, &self.rows, message)
    }
}

/// The observations among the values that a message matches.
fn fan(alloc: Global, rows: &BTreeMap<u64, Standing>, message: &Value) -> Result<Fan, NoMemory>
    ensures { IfOk result (IsFan (tree.values rows.now) message.now) }
{
    let list = fan_list(alloc, rows, message)?;
    let weight = weigh_fanned(&list)?;
    if is_over(weight) {
        return Ok(Fan::Over(weight));
    }
    Ok(Fan::Each(list))
}
