//! The first name that has no definition.
ghost use Rattle.std.specs.Prelude.{◌≡◌, option_copied, if◌then◌else◌};
ghost use Rattle.ps_schema.specs.Patterns.{patterns};
ghost use Rattle.ps_schema.specs.View.{listed_fields};
ghost use Rattle.ps_schema.specs.Names.{missing, missing_in_all, missing_in_fields, missing_from};
ghost use Rattle.ps_schema.specs.Names.{first_of, knows};

use crate::indexed::Indexed;
use crate::{Field, Form, Pattern};
use pv_value::Text;

/// The first name in the patterns of definitions that has no definition among all.
pub(crate) fn first_missing(defs: &Indexed) -> Option<&Text>
    ensures { option_copied result ≡ missing_from defs.now defs.now }
{
    for definition in defs.all() {
        if let Some(name) = missing(defs, &definition.pattern) {
            return Some(name);
        }
    }
    None
}

#[cycle(missing)]
fn missing<'a>(defs: &Indexed, pattern: &'a Pattern) -> Option<&'a Text>
    ensures { option_copied result ≡ missing defs.now pattern.now }
{
    match &pattern.form {
        Form::Name(name) => unless_known(defs, name),
        Form::Embedded(inside) => missing(defs, inside),
        Form::Record(_, fields) => missing_in_all(defs, fields),
        Form::RecordOf(label, fields) => missing_in_both(defs, label, fields),
        Form::Tuple(items) => missing_in_all(defs, items),
        Form::TupleWithRest(items, rest) => missing_in_items(defs, items, rest),
        Form::SetOf(element) => missing(defs, element),
        Form::DictOf(key, value) => missing_in_both(defs, key, value),
        Form::Dict(fields) => missing_in_fields(defs, fields),
        Form::OneOf(patterns) => missing_in_all(defs, patterns),
        Form::AllOf(patterns) => missing_in_all(defs, patterns),
        _ => None,
    }
}

fn unless_known<'a>(defs: &Indexed, name: &'a Text) -> Option<&'a Text>
    ensures { option_copied result ≡ (if knows defs.now name.now then None else Some name.now) }
{
    if defs.knows(name.as_bytes()) {
        None
    } else {
        Some(name)
    }
}

#[cycle(missing)]
fn missing_in_both<'a>(defs: &Indexed, first: &'a Pattern, second: &'a Pattern) -> Option<&'a Text>
    ensures { option_copied result
        ≡ first_of (missing defs.now first.now) (missing defs.now second.now) }
{
    match missing(defs, first) {
        Some(name) => Some(name),
        None => missing(defs, second),
    }
}

#[cycle(missing)]
fn missing_in_items<'a>(defs: &Indexed, items: &'a [Pattern], rest: &'a Pattern) -> Option<&'a Text>
    ensures { option_copied result
        ≡ first_of (missing_in_all defs.now (patterns items.now)) (missing defs.now rest.now) }
{
    match missing_in_all(defs, items) {
        Some(name) => Some(name),
        None => missing(defs, rest),
    }
}

#[cycle(missing)]
fn missing_in_all<'a>(defs: &Indexed, all: &'a [Pattern]) -> Option<&'a Text>
    ensures { option_copied result ≡ missing_in_all defs.now (patterns all.now) }
{
    for pattern in all {
        if let Some(name) = missing(defs, pattern) {
            return Some(name);
        }
    }
    None
}

#[cycle(missing)]
fn missing_in_fields<'a>(defs: &Indexed, fields: &'a [Field]) -> Option<&'a Text>
    ensures { option_copied result ≡ missing_in_fields defs.now (listed_fields fields.now) }
{
    for field in fields {
        if let Some(name) = missing(defs, &field.pattern) {
            return Some(name);
        }
    }
    None
}
