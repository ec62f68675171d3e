//! Outlines as values, by which they are told apart.
ghost use Rattle.std.specs.Prelude.{◌≡◌, ◌∷◌, [], map, IfOk};
ghost use Rattle.pv_words.specs.Words.{labelled};
ghost use Rattle.ds_shape.specs.Keys.{list_value, step_value, path_value, extent_value};
ghost use Rattle.ds_shape.specs.Keys.{group_value, kind_value, test_value, outline_value};

use crate::outlines::{Kind, Outline, Test};
use crate::paths::{Path, Step};
use dp_pattern::{Extent, Group};
use pv_value::{Items, NoMemory, Value};
use pv_words::{labelled, number};
use std::alloc::Global;

impl Outline {
    /// The outline as a value, which no other outline has: so what is kept by outline may be kept
    /// by it.
    pub fn key(&self, alloc: Global) -> Result<Value, NoMemory>
        ensures { IfOk result (λ v. v ≡ outline_value self.now) }
    {
        let mut parts = Vec::new(alloc);
        parts.push(tests_value(alloc, &self.tests)?)?;
        parts.push(paths_value(alloc, &self.constants)?)?;
        parts.push(paths_value(alloc, &self.captures)?)?;
        list_value(alloc, parts)
    }
}

/// `[test ..]`.
fn tests_value(alloc: Global, tests: &[Test]) -> Result<Value, NoMemory>
    ensures { IfOk result (λ v. v ≡ list_value (map test_value tests.now)) }
{
    let mut values = Vec::new(alloc);
    for test in tests {
        values.push(test_value(alloc, test)?)?;
    }
    list_value(alloc, values)
}

/// `[path kind]`.
fn test_value(alloc: Global, test: &Test) -> Result<Value, NoMemory>
    ensures { IfOk result (λ v. v ≡ test_value test.now) }
{
    let mut parts = Vec::new(alloc);
    parts.push(path_value(alloc, &test.path)?)?;
    parts.push(kind_value(alloc, &test.kind)?)?;
    list_value(alloc, parts)
}

/// `[path ..]`.
fn paths_value(alloc: Global, paths: &[Path]) -> Result<Value, NoMemory>
    ensures { IfOk result (λ v. v ≡ list_value (map path_value paths.now)) }
{
    let mut values = Vec::new(alloc);
    for path in paths {
        values.push(path_value(alloc, path)?)?;
    }
    list_value(alloc, values)
}

/// `[step ..]`.
fn path_value(alloc: Global, path: &Path) -> Result<Value, NoMemory>
    ensures { IfOk result (λ v. v ≡ path_value path.now) }
{
    let mut values = Vec::new(alloc);
    for step in path.as_slice() {
        values.push(step_value(alloc, step)?)?;
    }
    list_value(alloc, values)
}

/// `<field place>`, `<item place>` or `<under key>`.
fn step_value(alloc: Global, step: &Step) -> Result<Value, NoMemory>
    ensures { IfOk result (λ v. v ≡ step_value step.now) }
{
    match step {
        Step::Field(place) => word_with(alloc, "field", place),
        Step::Item(place) => word_with(alloc, "item", place),
        Step::Under(key) => word_with(alloc, "under", key),
    }
}

/// `<any>`, or the value of the group.
fn kind_value(alloc: Global, kind: &Kind) -> Result<Value, NoMemory>
    ensures { IfOk result (λ v. v ≡ kind_value kind.now) }
{
    match kind {
        Kind::Any => labelled(alloc, "any", Vec::new(alloc)),
        Kind::Of(group) => group_value(alloc, group),
    }
}

/// `<rec label extent>`, `<arr extent>` or `<dict>`.
fn group_value(alloc: Global, group: &Group) -> Result<Value, NoMemory>
    ensures { IfOk result (λ v. v ≡ group_value group.now) }
{
    match group {
        Group::InRecord(label, extent) => {
            let mut fields = Vec::new(alloc);
            fields.push(label.copy()?)?;
            fields.push(extent_value(*extent))?;
            labelled(alloc, "rec", fields)
        }
        Group::InSequence(extent) => word_with(alloc, "arr", &extent_value(*extent)),
        Group::InDictionary => labelled(alloc, "dict", Vec::new(alloc)),
    }
}

/// The number of fields or items, or false where there may be any.
fn extent_value(extent: Extent) -> Value
    ensures { result ≡ extent_value extent }
{
    match extent {
        Extent::Open => Value::boolean(false),
        Extent::Exactly(count) => number(count as u64),
    }
}

/// `<word x>`.
fn word_with(alloc: Global, word: &str, x: &Value) -> Result<Value, NoMemory>
    ensures { IfOk result (λ v. v ≡ labelled word.now (x.now ∷ [])) }
{
    let mut fields = Vec::new(alloc);
    fields.push(x.copy()?)?;
    labelled(alloc, word, fields)
}

/// `[x ..]`.
fn list_value(alloc: Global, values: Vec<Value>) -> Result<Value, NoMemory>
    ensures { IfOk result (λ v. v ≡ list_value values.items) }
{
    Ok(Value::sequence(Items::from_vec(alloc, values)?))
}
