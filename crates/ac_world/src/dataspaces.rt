//! A dataspace among the system actors, over any body of [`Space`].
ghost use Rattle.std.specs.Prelude.{◌≡◌, [], None, IfOk, refl};
ghost use Rattle.ac_world.specs.Aims.{observation_of};
ghost use Rattle.ac_world.specs.Behaviours.{dataspace};

use crate::aims::{Aim, observation_of};
use crate::context::Context;
use crate::readings::Readings;
use crate::systems::{Outcome, System};
use ds_space::{Applied, Fan, Space, SpaceEvent};
use lc_watch::Behaves;
use pv_value::{NoMemory, Value};
use sr_pass::Judge;
use std::alloc::Global;
use std::marker::Model;
use std::mem::replace;

/// A dataspace. Contracts see its rows.
#[derive(Drop)]
pub struct Dataspace<S: Space + Drop> {
    space: S,
}

impl<S: Space + Drop> Model for Dataspace<S> {
    ghost use Rattle.std.specs.Coded.{coded_list, coded×, coded_ℕ};
    ghost use Rattle.pv_value.specs.Lemmas.Coded.{plain_code};
    ghost use Rattle.ds_space.specs.Spaces.{Rows};

    ghost Value = { Rows };

    ghost coded = { coded_list (coded× coded_ℕ plain_code) };

    ghost view = { λ d. S.rows d.space };
}

impl<S: Space + Drop> Dataspace<S> {
    /// It has got nothing.
    pub(crate) fn new(alloc: Global) -> Dataspace<S>
        ensures { result ≡ [] }
    {
        Dataspace {
            space: S::fresh(alloc),
        }
    }
}

impl<S: Space + Drop> System for Dataspace<S> {
    ghost rows = { λ s. s };

    ghost behaviour = { λ ds s. dataspace ds };

    ghost judged = { λ ds s. refl };

    ghost lasting = { λ s. record { bound = []; task = None } };

    ghost grouping = { observation_of };

    ghost grouped = { λ ds s. refl };

    ghost first = { λ k g e. e };

    fn apply<B: Behaves>(
        &mut self,
        alloc: Global,
        _behaves: &B,
        event: SpaceEvent,
    ) -> Result<Outcome, NoMemory> {
        // A space goes by value, and for want of memory it is gone.
        let space = replace(&mut self.space, S::fresh(alloc));
        match space.apply(alloc, event)? {
            Applied::Done(space, changes) => {
                self.space = space;
                Ok(Outcome::Done(changes))
            }
            Applied::Over(space, weight) => {
                self.space = space;
                Ok(Outcome::Over(weight))
            }
        }
    }

    fn has(&self, handle: u64) -> bool {
        self.space.has(handle)
    }

    fn group(key: &Value) -> Option<&Value> {
        observation_of(key)
    }

    fn aim<J: Judge, B: Behaves>(
        &self,
        cx: &Context<J, B>,
        readings: &mut Readings,
        key: &Value,
    ) -> Result<Option<Aim>, NoMemory> {
        readings.aim_of(cx.alloc, cx.judge, key)
    }

    fn fan(&self, alloc: Global, message: &Value) -> Result<Fan, NoMemory> {
        self.space.fan(alloc, message)
    }
}
