//! Where values with given constants are to be looked for.
ghost use Rattle.std.specs.Prelude.{◌≡◌, ◌⊎◌, min, true, Some, List, IfOk};
ghost use Rattle.pv_value.specs.Plain.{Plain};
ghost use Rattle.ds_shape.specs.Paths.{part_at, parts_at};
ghost use Rattle.ds_facts.specs.Atoms.{has_entry};
ghost use Rattle.ds_facts.specs.Keeping.{AreFacts};
ghost use Rattle.ds_facts.specs.Nearness.{IsNear, IsNearTo, place_of, constant_entry};
ghost use Rattle.ds_facts.specs.Nearness.{size, told, fewest, fewest_at};

use crate::atoms::{entry_of, is_atom};
use crate::facts::Facts;
use ds_shape::{Outline, Path, Step};
use ds_small::SmallSet;
use pv_value::{Entry, NoMemory, Node, Value};
use std::alloc::Global;

/// Where values with given constants are to be looked for.
#[derive(Clone, Copy)]
pub enum Near<'a> {
    /// No list tells: among all values.
    Anywhere,
    /// No value has them.
    Nowhere,
    /// Among these.
    Among(&'a SmallSet),
}

/// The place to which a step leads.
fn place_of(step: &Step) -> &Value
    ensures { result.now ≡ place_of step.now }
{
    match step {
        Step::Field(place) => place,
        Step::Item(place) => place,
        Step::Under(key) => key,
    }
}

/// The entry of a constant, where it is an atom and stands at a root place.
fn constant_entry(path: &Path, constant: &Value) -> Result<Option<Entry>, NoMemory>
    ensures { IfOk result (λ e. e ≡ constant_entry path.now constant.now) }
{
    let [step] = path.as_slice() else {
        return Ok(None);
    };
    if !is_atom(constant) {
        return Ok(None);
    }
    let entry = entry_of(place_of(step), constant)?;
    Ok(Some(entry))
}

/// How many values are there; more than any list has, where no list tells.
fn size(near: &Near<'_>) -> usize
    ensures { result ≡ size near.now }
{
    match near {
        Near::Anywhere => usize::MAX,
        Near::Nowhere => 0,
        Near::Among(list) => list.len(),
    }
}

/// The one with the fewer values.
fn nearer<'a>(one: Near<'a>, other: Near<'a>) -> Near<'a>
    ensures either { (result ≡ one.entry) ⊎ (result ≡ other.entry) }
    ensures least { size result ≡ min (size one.entry) (size other.entry) }
{
    if size(&other) < size(&one) {
        return other;
    }
    one
}

impl Facts {
    /// Values among which all stand that have these constants at the outline: the shortest list of
    /// a constant that is an atom at a root place.
    pub fn near(
        &self,
        alloc: Global,
        outline: &Outline,
        constants: &Value,
    ) -> Result<Near<'_>, NoMemory>
        ensures near { IfOk result (λ near. (vs : List Plain) → AreFacts vs self.now
            → IsNear vs outline.now constants.now near) }
        ensures size { IfOk result
            (λ near. size near ≡ fewest_at self.now outline.now constants.now) }
    {
        match &constants.node {
            Node::Seq(items) => self.near_all(&outline.constants, items.as_slice()),
            _ => Ok(Near::Anywhere),
        }
    }

    /// The same, where the constants are items of a sequence.
    fn near_all(&self, paths: &[Path], constants: &[Value]) -> Result<Near<'_>, NoMemory>
        ensures near { IfOk result (λ near. (vs : List Plain) → AreFacts vs self.now
            → IsNearTo vs (λ v. parts_at paths.now v ≡ Some constants.now) near) }
        ensures size { IfOk result (λ near. size near ≡ fewest self.now paths.now constants.now) }
    {
        let mut best = Near::Anywhere;
        for i in 0..paths.len().min(constants.len()) {
            let near = self.near_one(&paths[i], &constants[i])?;
            best = nearer(best, near);
        }
        Ok(best)
    }

    /// Values among which all stand that have this constant.
    fn near_one(&self, path: &Path, constant: &Value) -> Result<Near<'_>, NoMemory>
        ensures near { IfOk result (λ near. (vs : List Plain) → AreFacts vs self.now
            → IsNearTo vs (λ v. part_at path.now v ≡ Some constant.now) near) }
        ensures size { IfOk result (λ near. size near
            ≡ told self.now (constant_entry path.now constant.now)) }
    {
        let Some(entry) = constant_entry(path, constant)? else {
            return Ok(Near::Anywhere);
        };
        Ok(self.near_entry(&entry))
    }

    /// The values that have the entry.
    fn near_entry(&self, entry: &Entry) -> Near<'_>
        ensures near { (vs : List Plain) → AreFacts vs self.now
            → IsNearTo vs (λ v. has_entry entry.now v ≡ true) result }
        ensures size { size result ≡ told self.now (Some entry.now) }
    {
        let Some(list) = self.places.get(entry) else {
            return Near::Nowhere;
        };
        Near::Among(list)
    }
}
