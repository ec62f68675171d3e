//! What values have at the paths of an outline.
ghost use Rattle.std.specs.Prelude.{◌≡◌, IfOk};
ghost use Rattle.std.specs.List.{list_all};
ghost use Rattle.ds_shape.specs.Outlines.{is_kind, passes};
ghost use Rattle.ds_shape.specs.Paths.{sequence_at};

use crate::outlines::{Kind, Outline, Test};
use crate::paths::{Path, part_at};
use dp_pattern::is_of;
use pv_value::{Items, NoMemory, Value};
use std::alloc::Global;

/// Whether the value passes the tests of the outline.
pub fn passes(outline: &Outline, value: &Value) -> bool
    ensures { result ≡ list_all (passes value.now) outline.now.tests }
{
    for test in &outline.tests {
        if !passes_one(test, value) {
            return false;
        }
    }
    true
}

/// The sequence of what stands in the value at the constant paths of the outline, none where
/// nothing stands at one of them.
pub fn constants_at(
    alloc: Global,
    outline: &Outline,
    value: &Value,
) -> Result<Option<Value>, NoMemory>
    ensures { IfOk result (λ found. found ≡ sequence_at outline.now.constants value.now) }
{
    sequence_at(alloc, &outline.constants, value)
}

/// The sequence of what stands in the value at the capture paths of the outline, none where
/// nothing stands at one of them.
pub fn captures_at(
    alloc: Global,
    outline: &Outline,
    value: &Value,
) -> Result<Option<Value>, NoMemory>
    ensures { IfOk result (λ found. found ≡ sequence_at outline.now.captures value.now) }
{
    sequence_at(alloc, &outline.captures, value)
}

fn passes_one(test: &Test, value: &Value) -> bool
    ensures { result ≡ passes value.now test.now }
{
    match part_at(&test.path, value) {
        Some(part) => is_kind(&test.kind, part),
        None => false,
    }
}

fn is_kind(kind: &Kind, value: &Value) -> bool
    ensures { result ≡ is_kind kind.now value.now }
{
    match kind {
        Kind::Any => true,
        Kind::Of(group) => is_of(group, value),
    }
}

fn sequence_at(alloc: Global, paths: &[Path], value: &Value) -> Result<Option<Value>, NoMemory>
    ensures { IfOk result (λ found. found ≡ sequence_at paths.now value.now) }
{
    let mut found = Vec::new(alloc);
    for path in paths {
        let Some(part) = part_at(path, value) else {
            return Ok(None);
        };
        found.push(part.copy()?)?;
    }
    Ok(Some(Value::sequence(Items::from_vec(alloc, found)?)))
}
