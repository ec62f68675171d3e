//! Configurations: what a text sets.
ghost use Rattle.std.specs.Prelude.{◌≡◌, ◌≢◌, ◌<◌, ℕ, List, [], Some, None, false, IfOk, IfErr};
ghost use Rattle.std.specs.Prelude.{IfSome};
ghost use Rattle.pv_value.specs.Plain.{Plain};
ghost use Rattle.ps_schema.specs.declared.Definition.{Definition};
ghost use Rattle.hub_machine.specs.State.{opening};
ghost use Rattle.sc_events.specs.declared.inputs.Form.{Form};
ghost use Rattle.sc_events.specs.Readings.{AreReadAs};
ghost use Rattle.sc_events.specs.SoFar.{AreSoFar, GoOn, left};
ghost use Rattle.sc_events.specs.Events.{event_of};
ghost use Rattle.sc_schema.specs.Firsts.{text_in, IsVerdict};
ghost use Rattle.sc_config.specs.declared.faults.ConfigFault.TheVariants as fault;
ghost use Rattle.sc_config.specs.Configs.{IsConfigured, IsRefusedAs};

use crate::events::{let_go, with_value};
use crate::faults::ConfigFault;
use ds_space::Space;
use hub_core::Hub;
use lc_guard::{Guards, Predicate};
use lc_watch::{Behaviour, Watcher};
use ps_read::SchemaFault;
use ps_schema::Schema;
use pv_value::{NoMemory, Value};
use sc_events::{Form, NextFault, Values, one_reading};
use sc_schema::{first_schema, no_schema};
use std::alloc::Global;

/// The schema that the first value gives, or else the one without definitions.
fn schema_of(alloc: Global, first: &Value) -> Result<Schema, ConfigFault>
    ensures schema { IfOk result (λ ds. IsVerdict (text_in (event_of first.now)) (Some ds)) }
    ensures refused { IfErr result (λ f. f ≢ fault.NoMemory
        → (f ≡ fault.Bad 0) × IsVerdict (text_in (event_of first.now)) None) }
{
    match first_schema(alloc, first) {
        Ok(schema) => Ok(schema),
        Err(SchemaFault::NoMemory) => Err(ConfigFault::NoMemory),
        Err(_) => Err(ConfigFault::Bad(0)),
    }
}

/// The next value of a text, which is value `place`; none at its end.
fn next_value(alloc: Global, values: &mut Values, place: u64) -> Result<Option<Value>, ConfigFault>
    ensures next { IfOk result (λ o. (form : Form) (bytes : List ℕ) (vs : List Plain)
        → AreSoFar form bytes vs values.old → GoOn form bytes vs o values.new) }
    ensures stop { IfErr result (λ f. f ≢ fault.NoMemory → (f ≡ fault.Bad place)
        × ((form : Form) (bytes : List ℕ) (vs : List Plain)
        → AreSoFar form bytes vs values.old → AreReadAs form bytes vs false)) }
    ensures shorter { IfOk result (λ o. IfSome o (λ v. left values.new < left values.old)) }
{
    match values.next(alloc) {
        Ok(value) => Ok(value),
        Err(NextFault::Bad) => Err(ConfigFault::Bad(place)),
        Err(NextFault::NoMemory) => Err(ConfigFault::NoMemory),
    }
}

/// The hub of a text without values.
fn begun_without<S: Space + Drop, F: Predicate + Drop, G: Behaviour + Drop>(
    alloc: Global,
    predicate: F,
    behaviour: G,
) -> Result<Hub<S, Guards<F>, Watcher<G>>, NoMemory>
    ensures { IfOk result (λ hub. hub ≡ opening []) }
{
    let guards = Guards::new(no_schema(alloc)?, predicate);
    Hub::begin(alloc, guards, Watcher::new(behaviour))
}

/// The hub before the first value of a text is done, which may give the schema by which guards
/// judge.
fn begun_by<S: Space + Drop, F: Predicate + Drop, G: Behaviour + Drop>(
    alloc: Global,
    first: &Value,
    predicate: F,
    behaviour: G,
) -> Result<Hub<S, Guards<F>, Watcher<G>>, ConfigFault>
    ensures hub { IfOk result (λ hub. (ds : List Definition)
        × IsVerdict (text_in (event_of first.now)) (Some ds) × (hub ≡ opening ds)) }
    ensures stop { IfErr result (λ f. f ≢ fault.NoMemory
        → (f ≡ fault.Bad 0) × IsVerdict (text_in (event_of first.now)) None) }
{
    let guards = Guards::new(schema_of(alloc, first)?, predicate);
    Ok(Hub::begin(alloc, guards, Watcher::new(behaviour))?)
}

/// A hub over any body of a dataspace, once the text's events are done; or the first cause for
/// which the text is refused. A text that isn't UTF-8 is bad from its first value on. The values
/// are judged in order, each one done before the next is read. Guards judge by the schema that the
/// first value gives, through the one function, and watchers act through the other.
pub fn configured<S: Space + Drop, F: Predicate + Drop, G: Behaviour + Drop>(
    alloc: Global,
    text: &[u8],
    predicate: F,
    behaviour: G,
) -> Result<Hub<S, Guards<F>, Watcher<G>>, ConfigFault>
    ensures hub { IfOk result (IsConfigured text.now) }
    ensures stop { IfErr result (IsRefusedAs text.now) }
{
    // the proof learns here that the text is read on in some way behind a value that stops it
    one_reading();
    let mut values = Values::of(text, Form::Text);
    let first = match next_value(alloc, &mut values, 0) {
        Ok(Some(value)) => value,
        Ok(None) => return Ok(begun_without(alloc, predicate, behaviour)?),
        Err(fault) => return Err(fault),
    };
    let begun = begun_by(alloc, &first, predicate, behaviour)?;
    let mut hub = with_value(alloc, begun, 0, &first)?;
    let mut place = 1;
    loop {
        match next_value(alloc, &mut values, place) {
            Ok(Some(value)) => hub = with_value(alloc, hub, place, &value)?,
            Ok(None) => return Ok(hub),
            Err(fault) => {
                let_go(hub);
                return Err(fault);
            }
        }
        place += 1;
    }
}
