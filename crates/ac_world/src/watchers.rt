//! A watcher among the system actors.
ghost use Rattle.std.specs.Prelude.{◌≡◌, [], Some, None, IfOk, option_map, refl};
ghost use Rattle.ac_watch.specs.Watching.{value_at};
ghost use Rattle.ac_world.specs.Aims.{observation_of};
ghost use Rattle.ac_world.specs.Behaviours.{aim_in, watcher};

use crate::aims::{Aim, observation_of};
use crate::context::Context;
use crate::readings::Readings;
use crate::systems::{Outcome, System};
use ac_watch::Watching;
use ds_space::{Applied, Fan, Reference, SpaceEvent};
use lc_watch::Behaves;
use pv_value::{NoMemory, Text, Value};
use sr_pass::Judge;
use std::alloc::Global;
use std::marker::Model;
use std::mem::replace;

/// A watcher: what it has got, and the dataspace at which it asserts.
#[derive(Drop)]
pub struct Watcher {
    watching: Watching,
    to: u8,
}

impl Model for Watcher {
    ghost use Rattle.std.specs.Coded.{codes};
    ghost use Rattle.pv_value.specs.Lemmas.Coded.{plain_code};
    ghost use Rattle.ac_world.specs.Watchers.{Post};

    ghost Value = { Post };

    ghost coded = { Prim.hlevel (codes, plain_code) };

    ghost view = { λ w. record {
      task = record { to = w.to; name = w.watching.name };
      got = w.watching.got;
    } };
}

impl Watcher {
    /// It has got nothing. This takes no memory.
    pub(crate) fn new(alloc: Global, to: u8, name: Text) -> Watcher
        ensures { result ≡ record { task = record { to = to; name = name }; got = [] } }
    {
        Watcher {
            watching: Watching::new(alloc, name),
            to,
        }
    }
}

impl System for Watcher {
    ghost rows = { λ w. w.got };

    ghost behaviour = { λ ds w. watcher ds w.task };

    ghost judged = { λ ds w. refl };

    ghost lasting = { λ w. record { bound = []; task = Some w.task } };

    ghost grouping = { observation_of };

    ghost grouped = { λ ds w. refl };

    ghost first = { λ k g e. e };

    fn apply<B: Behaves>(
        &mut self,
        alloc: Global,
        behaves: &B,
        event: SpaceEvent,
    ) -> Result<Outcome, NoMemory> {
        // What it watches goes by value, and for want of memory it is gone.
        let nothing = Watching::new(alloc, Text::from_str(alloc, "")?);
        let watching = replace(&mut self.watching, nothing);
        match watching.apply(alloc, behaves, event)? {
            Applied::Done(watching, changes) => {
                self.watching = watching;
                Ok(Outcome::Done(changes))
            }
            Applied::Over(watching, weight) => {
                self.watching = watching;
                Ok(Outcome::Over(weight))
            }
        }
    }

    fn has(&self, handle: u64) -> bool {
        self.watching.has(handle)
    }

    fn group(key: &Value) -> Option<&Value> {
        observation_of(key)
    }

    fn aim<J: Judge, B: Behaves>(
        &self,
        cx: &Context<J, B>,
        _readings: &mut Readings,
        key: &Value,
    ) -> Result<Option<Aim>, NoMemory> {
        let Some(value) = self.watching.value_at(cx.alloc, cx.behaves, key)? else {
            return Ok(None);
        };
        let at = Reference {
            actor: self.to as u32,
            entity: 0,
        };
        Ok(Some(Aim { at, value }))
    }

    fn fan(&self, alloc: Global, _message: &Value) -> Result<Fan, NoMemory> {
        Ok(Fan::Each(Vec::new(alloc)))
    }
}
