//! Lists of export numbers.
ghost use Rattle.std.specs.Prelude.{◌≡◌, IfOk};
ghost use Rattle.std.specs.Ordering.{nat_cmp};
ghost use Rattle.pv_value.specs.Sets.{ascending_by};
ghost use Rattle.rl_ports.specs.Oids.{Ascend};

use pv_value::NoMemory;
use std::alloc::Global;
use std::collections::BTreeSet;
use std::marker::Model;

/// Export numbers, ascending, each once.
#[derive(Drop)]
pub struct Oids {
    list: Vec<u64>,
}

impl Model for Oids {
    ghost use Rattle.std.specs.Prelude.{List, ℕ};
    ghost use Rattle.std.specs.Coded.{coded_list, coded_ℕ};

    ghost Value = { List ℕ };

    ghost coded = { coded_list coded_ℕ };

    ghost use Rattle.rl_ports.specs.Oids.{Ascend};

    ghost view = { λ o. o.list.items };

    ghost invariant = { λ o. Ascend o.list.items };
}

impl Oids {
    /// These numbers, in order, each once.
    pub fn of(alloc: Global, numbers: &[u64]) -> Result<Oids, NoMemory>
        ensures { IfOk result (λ o. o ≡ ascending_by nat_cmp numbers.now) }
    {
        let gathered = gathered(alloc, numbers)?;
        Ok(Oids {
            list: gathered.into_iter().collect(alloc)?,
        })
    }

    /// The numbers.
    pub fn as_slice(&self) -> &[u64]
        ensures same { result.now ≡ self.now }
        ensures ascending { Ascend self.now }
    {
        self.list.as_slice()
    }
}

/// These numbers, from the last one to the first.
fn gathered(alloc: Global, numbers: &[u64]) -> Result<BTreeSet<u64>, NoMemory>
    ensures { IfOk result (λ set. set.keys ≡ ascending_by nat_cmp numbers.now) }
{
    let mut gathered = BTreeSet::new(alloc);
    let mut left = numbers.len();
    while left > 0 {
        left -= 1;
        gathered.insert(numbers[left])?;
    }
    Ok(gathered)
}
