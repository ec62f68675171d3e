//! References that were read, each kept by its value.
ghost use Rattle.std.specs.Prelude.{◌≡◌, IfOk, OnOk};
ghost use Rattle.sr_caveat.specs.Caps.{cap_of};
ghost use Rattle.ac_world.specs.Aims.{aim_at, aim_for, aim_of};
ghost use Rattle.ac_world.specs.Limits.{most_readings};
ghost use Rattle.ac_world.specs.Readings.{AreRead, HaveRoom};

use crate::aims::{Aim, aim_bare, aim_through, has_caveats, observer_in};
use pv_value::{NoMemory, Node, Value};
use sr_caveat::Cap;
use sr_pass::Judge;
use std::alloc::Global;
use std::collections::BTreeMap;
use std::marker::Model;

/// So many references are kept at most. Where one more is read, all are forgotten.
const READINGS: usize = 64;

/// The limit is the one that the definitions have.
pub fn limit_is_as_defined()
    ensures { READINGS ≡ most_readings }
{}

/// Values with caveats that a system actor has sent through, and of each the reference that it
/// writes, where it is the value of one.
///
/// Contracts see nothing of it.
#[derive(Drop)]
pub struct Readings {
    by_value: BTreeMap<Value, Option<Cap>>,
}

impl Model for Readings {
    ghost use Rattle.std.specs.Prelude.{◌≤◌};
    ghost use Rattle.std.specs.BTreeMap.{btree_map_len};
    ghost use Rattle.ac_world.specs.Limits.{most_readings};
    ghost use Rattle.ac_world.specs.Readings.{AreRead};

    ghost Value = { Unit {0} };

    ghost view = { λ r. tt };

    ghost invariant = { λ r.
        (btree_map_len r.by_value ≤ most_readings) × AreRead r.by_value.entries };
}

impl Readings {
    /// Nothing was read.
    pub fn new(alloc: Global) -> Readings {
        Readings {
            by_value: BTreeMap::new(alloc),
        }
    }

    /// One more, of a value that isn't among them.
    fn keep(&mut self, value: Value, cap: Option<Cap>) -> Result<(), NoMemory>
        requires { cap ≡ cap_of value }
    {
        make_room(&mut self.by_value);
        self.by_value.insert(value, cap)?;
        Ok(())
    }

    /// What arrives of a value that is sent through the reference that another value writes. The
    /// actor may be gone.
    pub fn aim_at<J: Judge>(
        &mut self,
        alloc: Global,
        judge: &J,
        value: &Value,
        reference: &Value,
    ) -> Result<Option<Aim>, NoMemory>
        ensures { IfOk result (λ aim. aim ≡ aim_at (J.schema judge.now) value.now reference.now) }
    {
        // Most have none: to read one takes no more than to look for it.
        if !has_caveats(reference) {
            return aim_bare(value, reference);
        }
        if let Some(cap) = self.by_value.get(reference) {
            return aim_through(alloc, judge, value, cap);
        }
        let cap = Cap::of_value(alloc, reference)?;
        let aim = aim_through(alloc, judge, value, &cap)?;
        self.keep(reference.copy()?, cap)?;
        Ok(aim)
    }

    /// What arrives of a value that is sent to the one that observes.
    pub fn aim_for<J: Judge>(
        &mut self,
        alloc: Global,
        judge: &J,
        value: &Value,
        observation: &Value,
    ) -> Result<Option<Aim>, NoMemory>
        ensures { IfOk result
            (λ aim. aim ≡ aim_for (J.schema judge.now) value.now observation.now) }
    {
        match observer_in(observation) {
            Some(observer) => self.aim_at(alloc, judge, value, observer),
            None => Ok(None),
        }
    }

    /// What arrives of what a key `[o c]` wants, c, at the object that o names.
    pub fn aim_of<J: Judge>(
        &mut self,
        alloc: Global,
        judge: &J,
        key: &Value,
    ) -> Result<Option<Aim>, NoMemory>
        ensures { IfOk result (λ aim. aim ≡ aim_of (J.schema judge.now) key.now) }
    {
        let Node::Seq(items) = &key.node else {
            return Ok(None);
        };
        let [observation, captures] = items.as_slice() else {
            return Ok(None);
        };
        self.aim_for(alloc, judge, captures, observation)
    }
}

/// Where there is no room for one more, all are forgotten.
fn make_room(by_value: &mut BTreeMap<Value, Option<Cap>>)
    requires { AreRead by_value.old.entries }
    ensures { HaveRoom by_value.new.entries }
{
    if by_value.len() >= READINGS {
        by_value.clear();
    }
}
