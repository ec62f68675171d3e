//! An observation comes to its place, or goes from it.
ghost use Rattle.std.specs.Prelude.{◌≡◌, ◌∷◌, Some, false, List, OnOk};
ghost use Rattle.std.specs.BTreeMap as tree;
ghost use Rattle.pv_value.specs.Plain.{Plain};
ghost use Rattle.ds_space.specs.Changes.{among};
ghost use Rattle.ds_facts.specs.Keeping.{AreFacts};
ghost use Rattle.ds_skeleton.specs.Places.{place_of};
ghost use Rattle.ds_skeleton.specs.Shapes.{AreInOrder};
ghost use Rattle.ds_skeleton.specs.Indexes.{IsIndex, IsIndexOf};

use crate::finding::position;
use crate::index::{Shapes, Values};
use crate::observing::{Place, place_of};
use crate::shape::Shape;
use ds_facts::Facts;
use pv_value::{NoMemory, Value};
use std::alloc::Global;

/// The value is among the observers, where it is an observation.
pub(crate) fn observe(
    alloc: Global,
    shapes: &mut Shapes,
    values: &Values,
    facts: &Facts,
    value: &Value,
) -> Result<(), NoMemory>
    requires { AreInOrder shapes.old.items }
    ensures in_order { OnOk result (AreInOrder shapes.new.items) }
    ensures index { OnOk result ((seen : List Plain) → AreFacts (tree.keys values.now) facts.now
        → IsIndexOf (tree.keys values.now) seen shapes.old.items
        → IsIndexOf (tree.keys values.now) (value.now ∷ seen) shapes.new.items) }
{
    match place_of(alloc, value)? {
        Some(place) => observe_at(alloc, shapes, values, facts, place, value),
        None => Ok(()),
    }
}

fn observe_at(
    alloc: Global,
    shapes: &mut Shapes,
    values: &Values,
    facts: &Facts,
    place: Place,
    value: &Value,
) -> Result<(), NoMemory>
    requires in_order { AreInOrder shapes.old.items }
    requires place { place_of value.now ≡ Some place }
    ensures in_order { OnOk result (AreInOrder shapes.new.items) }
    ensures index { OnOk result ((seen : List Plain) → AreFacts (tree.keys values.now) facts.now
        → IsIndexOf (tree.keys values.now) seen shapes.old.items
        → IsIndexOf (tree.keys values.now) (value.now ∷ seen) shapes.new.items) }
{
    match position(shapes, &place.outline) {
        Ok(at) => shapes[at].watch(alloc, values, facts, place.constants, value),
        Err(at) => {
            let mut shape = Shape::new(alloc, place.outline);
            shape.watch(alloc, values, facts, place.constants, value)?;
            shapes.insert(at, shape)?;
            Ok(())
        }
    }
}

/// The value is no longer among the observers. It isn't among the values either.
pub(crate) fn unobserve(
    alloc: Global,
    shapes: &mut Shapes,
    values: &Values,
    value: &Value,
) -> Result<(), NoMemory>
    requires in_order { AreInOrder shapes.old.items }
    requires index { IsIndexOf (tree.keys values.now) (value.now ∷ tree.keys values.now)
        shapes.old.items }
    requires gone { among value.now (tree.keys values.now) ≡ false }
    ensures in_order { OnOk result (AreInOrder shapes.new.items) }
    ensures index { OnOk result (IsIndex (tree.keys values.now) shapes.new.items) }
{
    let Some(place) = place_of(alloc, value)? else {
        return Ok(());
    };
    unobserve_at(shapes, values, &place, value);
    Ok(())
}

fn unobserve_at(shapes: &mut Shapes, values: &Values, place: &Place, value: &Value)
    requires in_order { AreInOrder shapes.old.items }
    requires index { IsIndexOf (tree.keys values.now) (value.now ∷ tree.keys values.now)
        shapes.old.items }
    requires gone { among value.now (tree.keys values.now) ≡ false }
    requires place { place_of value.now ≡ Some place.now }
    ensures in_order { AreInOrder shapes.new.items }
    ensures index { IsIndex (tree.keys values.now) shapes.new.items }
{
    let Ok(at) = position(shapes, &place.outline) else {
        return;
    };
    if shapes[at].observations <= 1 {
        let _ = shapes.remove(at);
        return;
    }
    shapes[at].unwatch(&place.constants, value);
}
