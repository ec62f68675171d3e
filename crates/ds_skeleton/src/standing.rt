//! What values have at an outline.
ghost use Rattle.std.specs.Prelude.{◌≡◌, Some, IfOk};
ghost use Rattle.ds_shape.specs.Paths.{sequence_at};
ghost use Rattle.ds_skeleton.specs.Places.{stand, constants_in, found};

use ds_shape::{Outline, captures_at, constants_at, passes};
use pv_value::{NoMemory, Value};
use std::alloc::Global;

/// What stands in a value at the constant paths and at the capture paths of an outline.
#[derive(Drop)]
pub(crate) struct Parts {
    pub(crate) constants: Value,
    pub(crate) captures: Value,
}

/// The parts of a value that passes the tests of the outline and has all its paths.
pub(crate) fn stand(
    alloc: Global,
    outline: &Outline,
    value: &Value,
) -> Result<Option<Parts>, NoMemory>
    ensures { IfOk result (λ parts. parts ≡ stand outline.now value.now) }
{
    match constants_in(alloc, outline, value)? {
        Some(constants) => with_captures(alloc, outline, value, constants),
        None => Ok(None),
    }
}

/// The constants of a value that passes the tests of the outline.
pub(crate) fn constants_in(
    alloc: Global,
    outline: &Outline,
    value: &Value,
) -> Result<Option<Value>, NoMemory>
    ensures { IfOk result (λ constants. constants ≡ constants_in outline.now value.now) }
{
    if !passes(outline, value) {
        return Ok(None);
    }
    constants_at(alloc, outline, value)
}

/// The parts, where nothing of the captures is missing.
pub(crate) fn with_captures(
    alloc: Global,
    outline: &Outline,
    value: &Value,
    constants: Value,
) -> Result<Option<Parts>, NoMemory>
    ensures { IfOk result (λ parts. parts
        ≡ found (Some constants) (sequence_at outline.now.captures value.now)) }
{
    match captures_at(alloc, outline, value)? {
        Some(captures) => Ok(Some(Parts {
            constants,
            captures,
        })),
        None => Ok(None),
    }
}
