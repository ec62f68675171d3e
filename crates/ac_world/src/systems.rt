//! System actors: what they do by what they have got.
ghost use Rattle.std.specs.Prelude.{◌≡◌, ℕ, List, IfOk, OnOk, Option, Some, option_copied};
ghost use Rattle.std.specs.Map.{values_of};
ghost use Rattle.pv_value.specs.Plain.{Plain};
ghost use Rattle.ds_space.specs.Spaces.{IsNew, has_row};
ghost use Rattle.ps_schema.specs.declared.Definition.{Definition};
ghost use Rattle.ac_world.specs.Aims.{observation_of};
ghost use Rattle.ac_world.specs.Behaviours.{Behaviour};
ghost use Rattle.ac_world.specs.Outcomes.{outcome_at};
ghost use Rattle.ac_world.specs.Staying.{Lasting};
ghost use Rattle.ac_world.specs.Systems.{IsAppliedBy, IsFanBy};

use crate::aims::Aim;
use crate::context::Context;
use crate::readings::Readings;
use ds_space::{Changes, Fan, SpaceEvent};
use lc_watch::Behaves;
use pv_value::{NoMemory, Value};
use sr_pass::Judge;
use std::alloc::Global;

/// What became of an event.
#[derive(Drop)]
pub enum Outcome {
    /// It is done, and so what is wanted changed.
    Done(Changes),
    /// More would be wanted than may be: so much. The actor is the same as before.
    Over(u64),
}

/// What a system actor has got, as rows under handles, and what it does by that.
pub trait System {
    /// The rows, ascending by handle.
    ghost rows: { Self → List (ℕ × Plain) };

    /// What it wants, and to whom messages go, where guards judge by a schema.
    ghost behaviour: { List Definition → Self → Behaviour };

    /// The references that are bound, where it is the gatekeeper, and its task, where it is a
    /// watcher. No turn changes them.
    ghost lasting: { Self → Lasting };

    /// The groups of keys.
    ghost grouping: { Plain → Option Plain };

    /// A row comes or goes. For want of memory the actor is gone.
    fn apply<B: Behaves>(
        &mut self,
        alloc: Global,
        behaves: &B,
        event: SpaceEvent,
    ) -> Result<Outcome, NoMemory>
        requires { IsNew (rows self.old) event }
        ensures applied { IfOk result (λ outcome. (ds : List Definition)
            → IsAppliedBy rows (behaviour ds) (behaviour ds self.old) (rows self.old) event
            (outcome_at self.new outcome)) }
        ensures lasting { OnOk result (lasting self.new ≡ lasting self.old) };

    /// Whether a row has this handle.
    fn has(&self, handle: u64) -> bool
        ensures { result ≡ has_row handle (rows self.now) };

    /// The group of a key, for which its row has a facet of its own.
    fn group(key: &Value) -> Option<&Value>
        ensures { option_copied result ≡ grouping key.now };

    /// What arrives of what a key wants.
    fn aim<J: Judge, B: Behaves>(
        &self,
        cx: &Context<J, B>,
        readings: &mut Readings,
        key: &Value,
    ) -> Result<Option<Aim>, NoMemory>
        ensures { IfOk result
            (λ aim. aim ≡ (behaviour (J.schema cx.now.judge.now) self.now).aim key.now) };

    /// To whom a message goes.
    fn fan(&self, alloc: Global, message: &Value) -> Result<Fan, NoMemory>
        ensures { IfOk result (λ fan. (ds : List Definition)
            → IsFanBy (behaviour ds self.now) (values_of (rows self.now)) message.now fan) };

    /// Its guards judge by the schema.
    ghost judged: { (ds : List Definition) (s : Self) → (behaviour ds s).schema ≡ ds };

    /// Its rows stand by these groups.
    ghost grouped: { (ds : List Definition) (s : Self) → (behaviour ds s).group ≡ grouping };

    /// Each begins with what its keys begin with.
    ghost first: { (k g : Plain) → grouping k ≡ Some g → observation_of k ≡ Some g };
}
