//! The space over the index.
ghost use Rattle.std.specs.Prelude.{◌≡◌, IfOk, None};
ghost use Rattle.std.specs.Ordering.{nat_cmp};
ghost use Rattle.std.specs.Map.{lookup};
ghost use Rattle.std.specs.BTreeMap.{is_at};
ghost use Rattle.ds_space.specs.Spaces.{IsApplied};
ghost use Rattle.ds_space.specs.declared.space.SpaceEvent.TheVariants.{Add, Gone};

use crate::fanning::fan;
use crate::index::Index;
use crate::listing::{came, left, weight_with, weight_without};
use crate::tally::{count_in, count_out, take_back};
use ds_space::{Applied, Fan, Space, SpaceEvent, is_over};
use pv_value::{NoMemory, Value};
use std::alloc::Global;
use std::collections::BTreeMap;
use std::marker::Model;

/// The rows, the index of their distinct values, and the weight of what is wanted over them.
#[derive(Drop)]
pub struct Skeleton {
    rows: BTreeMap<u64, Value>,
    index: Index,
    weight: u64,
}

impl Model for Skeleton {
    ghost use Rattle.std.specs.Prelude.{List, ℕ};
    ghost use Rattle.std.specs.Coded.{coded_list, coded×, coded_ℕ};
    ghost use Rattle.pv_value.specs.Plain.{Plain};
    ghost use Rattle.pv_value.specs.Lemmas.Coded.{plain_code};
    ghost use Rattle.ds_skeleton.specs.Indexes.{IsSkeleton};

    ghost Value = { List (ℕ × Plain) };

    ghost coded = { coded_list (coded× coded_ℕ plain_code) };

    ghost view = { λ a. a.rows.entries };

    ghost invariant = { λ a. IsSkeleton a.rows.entries a.index a.weight };
}

impl Skeleton {
    fn add(self, alloc: Global, number: u64, value: Value) -> Result<Applied<Skeleton>, NoMemory>
        requires { lookup (is_at (nat_cmp number)) self ≡ None }
        ensures { IfOk result (IsApplied (λ s. s) self (Add number value)) }
    {
        let Skeleton {
            mut rows,
            mut index,
            weight,
        } = self;
        let keys = count_in(alloc, &mut index, &value)?;
        let after = weight_with(weight, &keys);
        if is_over(after) {
            take_back(alloc, &mut index, &value)?;
            let space = Skeleton {
                rows,
                index,
                weight,
            };
            return Ok(Applied::Over(space, after));
        }
        rows.insert(number, value)?;
        let changes = came(alloc, keys)?;
        let space = Skeleton {
            rows,
            index,
            weight: after,
        };
        Ok(Applied::Done(space, changes))
    }

    fn gone(self, alloc: Global, number: u64) -> Result<Applied<Skeleton>, NoMemory>
        ensures { IfOk result (IsApplied (λ s. s) self (Gone number)) }
    {
        let Skeleton {
            mut rows,
            mut index,
            weight,
        } = self;
        let Some(value) = rows.remove(&number) else {
            let space = Skeleton {
                rows,
                index,
                weight,
            };
            return Ok(Applied::Done(space, Vec::new(alloc)));
        };
        let keys = count_out(alloc, &mut index, &value)?;
        let after = weight_without(weight, &keys);
        let changes = left(alloc, keys)?;
        let space = Skeleton {
            rows,
            index,
            weight: after,
        };
        Ok(Applied::Done(space, changes))
    }
}

impl Space for Skeleton {
    ghost rows = { λ s. s };

    fn fresh(alloc: Global) -> Self {
        Skeleton {
            rows: BTreeMap::new(alloc),
            index: Index::new(alloc),
            weight: 0,
        }
    }

    fn apply(self, alloc: Global, event: SpaceEvent) -> Result<Applied<Self>, NoMemory> {
        match event {
            SpaceEvent::Add(number, value) => self.add(alloc, number, value),
            SpaceEvent::Gone(number) => self.gone(alloc, number),
        }
    }

    fn has(&self, number: u64) -> bool {
        self.rows.contains_key(&number)
    }

    fn fan(&self, alloc: Global, message: &Value) -> Result<Fan, NoMemory> {
        fan(alloc, &self.index, message)
    }
}
