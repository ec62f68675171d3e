//! Whether patterns ask for names of other schemas.
ghost use Rattle.std.specs.Prelude.{◌≡◌, not};
ghost use Rattle.ps_schema.specs.Patterns.{patterns};
ghost use Rattle.ps_schema.specs.View.{listed_fields};
ghost use Rattle.ps_read.specs.Written.{is_supported, are_supported, fields_supported, has_point};

use ps_schema::{Field, Form, Pattern};

/// Whether no name in the pattern is of another schema.
#[cycle(support)]
pub(crate) fn is_supported(pattern: &Pattern) -> bool
    ensures { result ≡ is_supported pattern.now }
{
    match &pattern.form {
        Form::Name(name) => !has_point(name.as_bytes()),
        Form::Embedded(inside) => is_supported(inside),
        Form::Record(_, fields) => are_supported(fields),
        Form::RecordOf(label, fields) => is_supported(label) && is_supported(fields),
        Form::Tuple(items) => are_supported(items),
        Form::TupleWithRest(items, rest) => are_supported(items) && is_supported(rest),
        Form::SetOf(element) => is_supported(element),
        Form::DictOf(key, value) => is_supported(key) && is_supported(value),
        Form::Dict(fields) => fields_supported(fields),
        Form::OneOf(all) => are_supported(all),
        Form::AllOf(all) => are_supported(all),
        _ => true,
    }
}

#[cycle(support)]
fn are_supported(all: &[Pattern]) -> bool
    ensures { result ≡ are_supported (patterns all.now) }
{
    for pattern in all {
        if !is_supported(pattern) {
            return false;
        }
    }
    true
}

#[cycle(support)]
fn fields_supported(fields: &[Field]) -> bool
    ensures { result ≡ fields_supported (listed_fields fields.now) }
{
    for field in fields {
        if !is_supported(&field.pattern) {
            return false;
        }
    }
    true
}

fn has_point(name: &[u8]) -> bool
    ensures { result ≡ has_point name.now }
{
    for byte in name {
        if *byte == b'.' {
            return true;
        }
    }
    false
}
