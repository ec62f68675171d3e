//! Which values patterns match, and what they capture of them.
ghost use Rattle.std.specs.Prelude.{◌≡◌, ◌++◌, IfOk, OnOk, is_some};
ghost use Rattle.dp_pattern.specs.Matching.{matched, matched_fields};
ghost use Rattle.dp_pattern.specs.Gathered.{gathered, gathered_fields};
ghost use Rattle.dp_pattern.specs.View.{listed_fields};

use crate::parts::{is_of, part_of};
use crate::{DPat, Field, Form, Group};
use pv_value::{Items, NoMemory, Value};
use std::alloc::Global;

/// Whether the value matches the pattern.
#[cycle(matching)]
pub fn matches(pattern: &DPat, value: &Value) -> bool
    ensures { result ≡ is_some (matched pattern.now value.now) }
{
    match &pattern.form {
        Form::Discard => true,
        Form::Bind(inside) => matches(inside, value),
        Form::Lit(literal) => literal == value,
        Form::Group(group, fields) => is_of(group, value) && all_match(group, fields, value),
    }
}

/// Whether each field's part is there and matches.
#[cycle(matching)]
fn all_match(group: &Group, fields: &[Field], value: &Value) -> bool
    ensures { result ≡ is_some (matched_fields group.now (listed_fields fields.now) value.now) }
{
    for field in fields {
        let Some(part) = part_of(group, value, &field.key) else {
            return false;
        };
        if !matches(&field.pattern, part) {
            return false;
        }
    }
    true
}

/// The captures of the pattern in the value, in order, where it matches. Where it doesn't, nothing
/// was copied.
pub fn captures(alloc: Global, pattern: &DPat, value: &Value) -> Result<Option<Items>, NoMemory>
    ensures { IfOk result (λ found. found ≡ matched pattern.now value.now) }
{
    if !matches(pattern, value) {
        return Ok(None);
    }
    let mut found = Vec::new(alloc);
    gather(&mut found, pattern, value)?;
    Ok(Some(Items::from_vec(alloc, found)?))
}

/// The captures of a value that matches, at the end of a list.
#[cycle(gather)]
fn gather(found: &mut Vec<Value>, pattern: &DPat, value: &Value) -> Result<(), NoMemory>
    ensures { OnOk result (found.new.items ≡ found.old.items ++ gathered pattern.now value.now) }
{
    match &pattern.form {
        Form::Discard => Ok(()),
        Form::Bind(inside) => {
            found.push(value.copy()?)?;
            gather(found, inside, value)
        }
        Form::Lit(_) => Ok(()),
        Form::Group(group, fields) => gather_all(found, group, fields, value),
    }
}

#[cycle(gather)]
fn gather_all(
    found: &mut Vec<Value>,
    group: &Group,
    fields: &[Field],
    value: &Value,
) -> Result<(), NoMemory>
    ensures { OnOk result (found.new.items
        ≡ found.old.items ++ gathered_fields group.now (listed_fields fields.now) value.now) }
{
    for field in fields {
        if let Some(part) = part_of(group, value, &field.key) {
            gather(found, &field.pattern, part)?;
        }
    }
    Ok(())
}
