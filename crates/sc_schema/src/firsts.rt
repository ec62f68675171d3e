//! The schema that a first value gives, and the one without definitions.
ghost use Rattle.std.specs.Prelude.{◌≡◌, ◌≢◌, [], Some, None, IfOk, IfErr};
ghost use Rattle.ps_read.specs.declared.faults.SchemaFault.TheVariants as fault;
ghost use Rattle.sc_events.specs.Events.{event_of};
ghost use Rattle.sc_schema.specs.Firsts.{text_in, IsVerdict};

use ps_read::{SchemaFault, read_schema};
use ps_schema::{Defs, Schema};
use pv_value::{NoMemory, Value};
use sc_events::{ScriptEvent, event_of};
use std::alloc::Global;

/// The schema without definitions.
pub fn no_schema(alloc: Global) -> Result<Schema, NoMemory>
    ensures { IfOk result (λ ds. ds ≡ []) }
{
    match Schema::new(alloc, Defs::from_vec(Vec::new(alloc))) {
        Ok(schema) => Ok(schema),
        Err(_) => Err(NoMemory),
    }
}

/// The schema that the first value gives, or else the one without definitions.
pub fn first_schema(alloc: Global, value: &Value) -> Result<Schema, SchemaFault>
    ensures schema { IfOk result (λ ds. IsVerdict (text_in (event_of value.now)) (Some ds)) }
    ensures refused { IfErr result (λ f. f ≢ fault.NoMemory
        → IsVerdict (text_in (event_of value.now)) None) }
{
    match event_of(alloc, value)? {
        Some(ScriptEvent::Schema(text)) => read_schema(alloc, text.as_bytes()),
        _ => Ok(no_schema(alloc)?),
    }
}
