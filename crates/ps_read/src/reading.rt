//! Schemas, read from their text.
ghost use Rattle.std.specs.Prelude.{◌≡◌, IfOk, IfErr};
ghost use Rattle.ps_read.specs.Answers.{IsSchemaOf, IsSchemaFault, IsWrittenFault, WriteSchema};

use crate::clauses::definitions_of;
use crate::faults::{Misfit, SchemaFault, Stop};
use ps_schema::{Defs, Schema, SchemaFault as MadeFault};
use pv_text::{TextFault, read_all};
use pv_value::Value;
use std::alloc::Global;

/// The schema that the text writes. A fault of the text comes first, then the first value that
/// can't stand where it stands, then what is wrong with the definitions. It goes into values as
/// deep as they nest, and takes the time that `Schema::new` says behind reading.
pub fn read_schema(alloc: Global, text: &[u8]) -> Result<Schema, SchemaFault>
    ensures ok { IfOk result (IsSchemaOf text.now) }
    ensures err { IfErr result (IsSchemaFault text.now) }
{
    match read_all(alloc, text) {
        Ok(values) => schema_of(alloc, values.as_slice()),
        Err(TextFault::Bad(kind, place)) => Err(SchemaFault::Text(kind, place)),
        Err(TextFault::NoMemory) => Err(SchemaFault::NoMemory),
    }
}

/// The schema that values write.
fn schema_of(alloc: Global, values: &[Value]) -> Result<Schema, SchemaFault>
    ensures ok { IfOk result (WriteSchema values.now) }
    ensures err { IfErr result (IsWrittenFault values.now) }
{
    let list = match definitions_of(alloc, values) {
        Ok(list) => list,
        Err(Stop::NoMemory) => return Err(SchemaFault::NoMemory),
        Err(Stop::At(Misfit::BadSchema(n))) => return Err(SchemaFault::BadSchema(n)),
        Err(Stop::At(Misfit::NotSupported(n))) => return Err(SchemaFault::NotSupported(n)),
    };
    match Schema::new(alloc, Defs::from_vec(list)) {
        Ok(schema) => Ok(schema),
        Err(MadeFault::NoMemory) => Err(SchemaFault::NoMemory),
        Err(MadeFault::Unguarded(name)) => Err(SchemaFault::Unguarded(name)),
        Err(MadeFault::NoSuchName(name)) => Err(SchemaFault::NoSuchName(name)),
        Err(MadeFault::NameTwice(name)) => Err(SchemaFault::NameTwice(name)),
    }
}
