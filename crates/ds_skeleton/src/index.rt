//! The index of the distinct values, and the passes over its shapes.
ghost use Rattle.std.specs.Prelude.{◌≡◌, [], OnOk};
ghost use Rattle.std.specs.List.{AllZip};
ghost use Rattle.ds_skeleton.specs.Shapes.{IsBumped, IsDropped};
ghost use Rattle.ds_skeleton.specs.Indexes.{IsWhole};

use crate::shape::Shape;
use ds_facts::Facts;
use pv_value::{NoMemory, Value};
use std::alloc::Global;
use std::collections::BTreeMap;

/// The distinct values, each with how many rows have it.
pub(crate) type Values = BTreeMap<Value, u64>;

/// What is kept of each outline of which there is an observation, in the order of the outlines.
pub(crate) type Shapes = Vec<Shape>;

/// The index.
#[derive(Drop)]
pub(crate) struct Index {
    pub(crate) values: Values,
    pub(crate) facts: Facts,
    pub(crate) shapes: Shapes,
}

impl Index {
    /// The index of no values.
    pub(crate) fn new(alloc: Global) -> Index
        ensures none { result.values.entries ≡ [] }
        ensures whole { IsWhole result }
    {
        Index {
            values: BTreeMap::new(alloc),
            facts: Facts::new(alloc),
            shapes: Vec::new(alloc),
        }
    }
}

/// One more value, at each outline, where somebody observes its constants.
pub(crate) fn bump_all(alloc: Global, shapes: &mut Shapes, value: &Value) -> Result<(), NoMemory>
    ensures { OnOk result (AllZip (IsBumped value.now) shapes.old.items shapes.new.items) }
{
    for shape in shapes.iter_mut() {
        shape.bump(alloc, value)?;
    }
    Ok(())
}

/// One value fewer, at each outline.
pub(crate) fn drop_all(alloc: Global, shapes: &mut Shapes, value: &Value) -> Result<(), NoMemory>
    ensures { OnOk result (AllZip (IsDropped value.now) shapes.old.items shapes.new.items) }
{
    for shape in shapes.iter_mut() {
        shape.drop_one(alloc, value)?;
    }
    Ok(())
}
