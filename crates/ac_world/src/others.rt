//! The system actors but the gatekeeper: dataspaces and watchers.
ghost use Rattle.std.specs.Prelude.{◌≡◌, [], None, IfOk, option_copied};
ghost use Rattle.ac_world.specs.Aims.{observation_of};
ghost use Rattle.ac_world.specs.Behaviours.{other};
ghost use Rattle.ac_world.specs.Lemmas.Watchers.{other_schema, other_group};
ghost use Rattle.ac_world.specs.Others.{task_in, rows_in};
ghost use Rattle.ac_world.specs.Watchers.{task_at};

use crate::aims::{Aim, observation_of};
use crate::context::Context;
use crate::dataspaces::Dataspace;
use crate::readings::Readings;
use crate::systems::{Outcome, System};
use crate::watched::{Watched, watcher_of};
use crate::watchers::Watcher;
use ds_space::{Fan, Space, SpaceEvent};
use lc_watch::Behaves;
use pv_value::{NoMemory, Value};
use sr_pass::Judge;
use std::alloc::Global;

/// A dataspace, or a watcher.
#[derive(Drop)]
pub enum Other<D: Drop> {
    Space(D),
    Watcher(Watcher),
}

impl<S: Space + Drop> Other<Dataspace<S>> {
    /// The actor of this number, where these watchers were made. It has got nothing.
    pub(crate) fn new(
        alloc: Global,
        watches: &[Watched],
        actor: u32,
    ) -> Result<Other<Dataspace<S>>, NoMemory>
        ensures task { IfOk result (λ o. task_in o ≡ task_at actor watches.now) }
        ensures got { IfOk result (λ o. rows_in o ≡ []) }
    {
        match watcher_of(watches, actor) {
            Some(Watched { to, name, .. }) => {
                Ok(Other::Watcher(Watcher::new(alloc, *to, name.copy()?)))
            }
            None => Ok(Other::Space(Dataspace::new(alloc))),
        }
    }
}

impl<S: Space + Drop> System for Other<Dataspace<S>> {
    ghost rows = { rows_in };

    ghost behaviour = { λ ds o. other ds (task_in o) };

    ghost judged = { λ ds o. other_schema ds (task_in o) };

    ghost lasting = { λ o. record { bound = []; task = task_in o } };

    ghost grouping = { observation_of };

    ghost grouped = { λ ds o. other_group ds (task_in o) };

    ghost first = { λ k g e. e };

    fn apply<B: Behaves>(
        &mut self,
        alloc: Global,
        behaves: &B,
        event: SpaceEvent,
    ) -> Result<Outcome, NoMemory> {
        match self {
            Other::Space(space) => space.apply(alloc, behaves, event),
            Other::Watcher(watcher) => watcher.apply(alloc, behaves, event),
        }
    }

    fn has(&self, handle: u64) -> bool {
        match self {
            Other::Space(space) => space.has(handle),
            Other::Watcher(watcher) => watcher.has(handle),
        }
    }

    fn group(key: &Value) -> Option<&Value> {
        observation_of(key)
    }

    fn aim<J: Judge, B: Behaves>(
        &self,
        cx: &Context<J, B>,
        readings: &mut Readings,
        key: &Value,
    ) -> Result<Option<Aim>, NoMemory> {
        match self {
            Other::Space(space) => space.aim(cx, readings, key),
            Other::Watcher(watcher) => watcher.aim(cx, readings, key),
        }
    }

    fn fan(&self, alloc: Global, message: &Value) -> Result<Fan, NoMemory> {
        match self {
            Other::Space(space) => space.fan(alloc, message),
            Other::Watcher(watcher) => watcher.fan(alloc, message),
        }
    }
}
