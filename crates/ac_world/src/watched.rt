//! Watchers as they were made.
ghost use Rattle.std.specs.Prelude.{◌≡◌, IfOk, option_copied};
ghost use Rattle.ac_world.specs.Watchers.{observation_by, watcher_of};

use crate::actors::FIRST_OTHER;
use ds_space::{Reference, reference_value};
use pv_value::{NoMemory, Text, Value};
use pv_words::labelled;
use std::alloc::Global;

/// A watcher: it observes the pattern at the dataspace `from`, and asserts at the dataspace `to`
/// what the behaviour of this name makes of each list of captures.
#[derive(Drop)]
pub struct Watched {
    pub from: u8,
    pub pattern: Value,
    pub to: u8,
    pub name: Text,
}

/// The watcher that has this number among those that were made.
pub(crate) fn watcher_of(watches: &[Watched], actor: u32) -> Option<&Watched>
    ensures { option_copied result ≡ watcher_of actor watches.now }
{
    if actor < FIRST_OTHER {
        return None;
    }
    watches.get((actor - FIRST_OTHER) as usize)
}

/// The observation `<Observe p #:[actor 0]>`, of the pattern p.
pub(crate) fn observation_by(alloc: Global, actor: u32, pattern: Value) -> Result<Value, NoMemory>
    ensures { IfOk result (λ o. o ≡ observation_by actor pattern) }
{
    let mut fields = Vec::with_capacity(alloc, 2)?;
    fields.push(pattern)?;
    let observer = reference_value(alloc, Reference { actor, entity: 0 })?;
    fields.push(Value::embedded(alloc, observer)?)?;
    labelled(alloc, "Observe", fields)
}
