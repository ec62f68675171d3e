//! Observations, and their places in the index.
ghost use Rattle.std.specs.Prelude.{◌≡◌, IfOk};
ghost use Rattle.ds_shape.specs.Splitting.{outline_of, constants_of};
ghost use Rattle.ds_skeleton.specs.Places.{place_of};

use dp_pattern::DPat;
use ds_shape::{Outline, Shape, split};
use ds_space::observer_of;
use pv_value::{NoMemory, Value};
use std::alloc::Global;

/// Where an observation has its place: the outline and the constants of its pattern.
#[derive(Drop)]
pub(crate) struct Place {
    pub(crate) outline: Outline,
    pub(crate) constants: Value,
}

/// The place of an observation, where the value is one.
#[tactic(auto, unfolding(crate::specs::Places::place_of))]
pub(crate) fn place_of(alloc: Global, value: &Value) -> Result<Option<Place>, NoMemory>
    ensures { IfOk result (λ p. p ≡ place_of value.now) }
{
    match observer_of(alloc, value)? {
        Some(pattern) => Ok(Some(placed(alloc, &pattern)?)),
        None => Ok(None),
    }
}

fn placed(alloc: Global, pattern: &DPat) -> Result<Place, NoMemory>
    ensures outline { IfOk result (λ p. p.outline ≡ outline_of pattern.now) }
    ensures constants { IfOk result (λ p. p.constants ≡ constants_of pattern.now) }
{
    let Shape { outline, constants } = split(alloc, pattern)?;
    Ok(Place { outline, constants })
}
