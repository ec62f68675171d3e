//! The definition of a name.
ghost use Rattle.std.specs.Prelude.{◌≡◌, MatchOption, None, Some};
ghost use Rattle.ps_schema.specs.Names.{pattern_under};
ghost use Rattle.ps_schema.specs.Places.{IsPlace};

use ps_schema::{Pattern, Schema};

/// The place of the name's definition, and the pattern that it stands for.
pub(crate) fn place_of<'a>(schema: &'a Schema, name: &[u8]) -> Option<(usize, &'a Pattern)>
    ensures { MatchOption result (pattern_under schema.now name.now ≡ None)
        (λ r. IsPlace schema.now name.now r.0
        × (pattern_under schema.now name.now ≡ Some r.1.now)) }
{
    let at = schema.place(name)?;
    Some((at, &schema.definitions()[at].pattern))
}
