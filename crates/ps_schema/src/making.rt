//! Schemas, made of definitions.
ghost use Rattle.std.specs.Prelude.{◌≡◌, None, IfOk, IfErr, OnOk};
ghost use Rattle.ps_schema.specs.Names.{named_twice};
ghost use Rattle.ps_schema.specs.Schemas.{IsSchema, IsRefused};

use crate::asked::asked_again;
use crate::indexed::Indexed;
use crate::missing::first_missing;
use crate::ways::first_back;
use crate::{Defs, Schema, SchemaFault};
use std::alloc::Global;

impl Schema {
    /// The schema of these definitions. It goes into patterns as deep as they nest, and over names
    /// without recursion. The time is that of looking up, by halves, each name that stands in them
    /// a few times. To refuse a name that leads back to itself takes one walk more, over all names
    /// to which it leads, in time that grows with the square of their number.
    pub fn new(alloc: Global, defs: Defs) -> Result<Schema, SchemaFault>
        ensures ok { IfOk result (λ s. s ≡ defs) }
        ensures schema { IfOk result IsSchema }
        ensures err { IfErr result (IsRefused defs) }
    {
        let defs = Indexed::new(alloc, defs.list)?;
        check(alloc, &defs)?;
        let asked_again = asked_again(alloc, defs.all())?;
        Ok(Schema {
            alloc,
            defs,
            asked_again,
        })
    }
}

/// Whether definitions, of which each name has one, are a schema.
fn check(alloc: Global, defs: &Indexed) -> Result<(), SchemaFault>
    requires { named_twice defs.now ≡ None }
    ensures ok { OnOk result (IsSchema defs.now) }
    ensures err { IfErr result (IsRefused defs.now) }
{
    if let Some(name) = first_missing(defs) {
        return Err(SchemaFault::NoSuchName(String::from_str(alloc, name.as_str())?));
    }
    match first_back(alloc, defs)? {
        Some(name) => Err(SchemaFault::Unguarded(String::from_str(alloc, name.as_str())?)),
        None => Ok(()),
    }
}
