//! Scripts, in the binary form or in text: the run of an input.
ghost use Rattle.std.specs.Prelude.{◌≡◌, ◌≢◌, ◌<◌, ℕ, List, [], Some, None, false, IfOk, IfErr};
ghost use Rattle.std.specs.Prelude.{IfSome};
ghost use Rattle.pv_value.specs.Plain.{Plain};
ghost use Rattle.ps_schema.specs.declared.Definition.{Definition};
ghost use Rattle.sc_events.specs.declared.inputs.Form.{Form};
ghost use Rattle.sc_events.specs.Readings.{AreReadAs};
ghost use Rattle.sc_events.specs.SoFar.{AreSoFar, GoOn, left};
ghost use Rattle.sc_events.specs.Events.{event_of};
ghost use Rattle.sc_script.specs.declared.faults.ScriptFault.TheVariants as fault;
ghost use Rattle.sc_script.specs.Runs.{beginning};
ghost use Rattle.sc_script.specs.Keeping.{RanAs, IsAt};
ghost use Rattle.sc_schema.specs.Firsts.{text_in, IsVerdict};
ghost use Rattle.sc_script.specs.Scripts.{StopsAt};

use crate::faults::ScriptFault;
use crate::runs::Run;
use ds_space::Space;
use lc_guard::{Guards, Predicate};
use lc_watch::{Behaviour, Watcher};
use ps_read::SchemaFault;
use ps_schema::Schema;
use pv_value::{NoMemory, Value};
use sc_events::{Form, INPUT_BYTES, NextFault, Values, one_reading};
use sc_schema::{first_schema, no_schema};
use std::alloc::Global;

/// The schema that the first value of a script gives, or else the one without definitions.
fn schema_of(alloc: Global, first: &Value) -> Result<Schema, ScriptFault>
    ensures schema { IfOk result (λ ds. IsVerdict (text_in (event_of first.now)) (Some ds)) }
    ensures refused { IfErr result (λ f. f ≢ fault.NoMemory
        → (f ≡ fault.Schema 0) × IsVerdict (text_in (event_of first.now)) None) }
{
    match first_schema(alloc, first) {
        Ok(schema) => Ok(schema),
        Err(SchemaFault::NoMemory) => Err(ScriptFault::NoMemory),
        Err(_) => Err(ScriptFault::Schema(0)),
    }
}

/// The next value of an input, which is value `place`; none at its end.
fn next_value(alloc: Global, values: &mut Values, place: u64) -> Result<Option<Value>, ScriptFault>
    ensures next { IfOk result (λ o. (form : Form) (bytes : List ℕ) (vs : List Plain)
        → AreSoFar form bytes vs values.old → GoOn form bytes vs o values.new) }
    ensures stop { IfErr result (λ f. f ≢ fault.NoMemory → (f ≡ fault.Bad place)
        × ((form : Form) (bytes : List ℕ) (vs : List Plain)
        → AreSoFar form bytes vs values.old → AreReadAs form bytes vs false)) }
    ensures shorter { IfOk result (λ o. IfSome o (λ v. left values.new < left values.old)) }
{
    match values.next(alloc) {
        Ok(value) => Ok(value),
        Err(NextFault::Bad) => Err(ScriptFault::Bad(place)),
        Err(NextFault::NoMemory) => Err(ScriptFault::NoMemory),
    }
}

/// The run of an input without values.
fn begun_without<S: Space + Drop, F: Predicate + Drop, G: Behaviour + Drop>(
    alloc: Global,
    predicate: F,
    behaviour: G,
) -> Result<Run<S, Guards<F>, Watcher<G>>, NoMemory>
    ensures { IfOk result (IsAt (beginning [])) }
{
    let guards = Guards::new(no_schema(alloc)?, predicate);
    Run::begin(alloc, guards, Watcher::new(behaviour))
}

/// The run before the first value of a script is done, which may give the schema by which guards
/// judge.
fn begun_by<S: Space + Drop, F: Predicate + Drop, G: Behaviour + Drop>(
    alloc: Global,
    first: &Value,
    predicate: F,
    behaviour: G,
) -> Result<Run<S, Guards<F>, Watcher<G>>, ScriptFault>
    ensures run { IfOk result (λ run. (ds : List Definition)
        × IsVerdict (text_in (event_of first.now)) (Some ds) × IsAt (beginning ds) run) }
    ensures stop { IfErr result (λ f. f ≢ fault.NoMemory
        → (f ≡ fault.Schema 0) × IsVerdict (text_in (event_of first.now)) None) }
{
    let guards = Guards::new(schema_of(alloc, first)?, predicate);
    Ok(Run::begin(alloc, guards, Watcher::new(behaviour))?)
}

/// The run of the script that an input is. Its length is looked at first, and whether a text is
/// UTF-8; then its values in order, each read and done before the next is read. The first one may
/// give the schema by which guards judge.
pub(crate) fn run_of<S: Space + Drop, F: Predicate + Drop, G: Behaviour + Drop>(
    alloc: Global,
    bytes: &[u8],
    form: Form,
    predicate: F,
    behaviour: G,
) -> Result<Run<S, Guards<F>, Watcher<G>>, ScriptFault>
    ensures run { IfOk result (RanAs form bytes.now) }
    ensures stop { IfErr result (StopsAt form bytes.now) }
{
    if bytes.len() > INPUT_BYTES {
        return Err(ScriptFault::Limit(1));
    }
    // the proof learns here that the input is read on in some way behind a value that stops it
    one_reading();
    let mut values = Values::of(bytes, form);
    let first = match next_value(alloc, &mut values, 0) {
        Ok(Some(value)) => value,
        Ok(None) => return Ok(begun_without(alloc, predicate, behaviour)?),
        Err(fault) => return Err(fault),
    };
    let mut run = begun_by(alloc, &first, predicate, behaviour)?.value(alloc, 0, &first)?;
    let mut place = 1;
    loop {
        match next_value(alloc, &mut values, place) {
            Ok(Some(value)) => run = run.value(alloc, place, &value)?,
            Ok(None) => return Ok(run),
            Err(fault) => {
                run.let_go();
                return Err(fault);
            }
        }
        place += 1;
    }
}
