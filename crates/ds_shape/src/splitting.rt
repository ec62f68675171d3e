//! Patterns taken apart.
ghost use Rattle.std.specs.Prelude.{◌≡◌, ◌↔◌, ◌++◌, ◌∷◌, [], map, List, Some, OnOk, IfOk};
ghost use Rattle.pv_value.specs.Plain.{Plain, sequence, plains};
ghost use Rattle.dp_pattern.specs.Matching.{matched};
ghost use Rattle.dp_pattern.specs.View.{listed_fields};
ghost use Rattle.ds_shape.specs.Splitting.{tests, field_tests, constants, field_constants};
ghost use Rattle.ds_shape.specs.Splitting.{captures, field_captures, step_of};
ghost use Rattle.ds_shape.specs.Splitting.{test_under, constant_under, outline_of, constants_of};
ghost use Rattle.ds_shape.specs.Standing.{captured_by, Says};

use crate::outlines::{Kind, Outline, Shape, Test};
use crate::paths::{Path, Step};
use dp_pattern::{DPat, Field, Form, Group};
use pv_value::{Items, NoMemory, Value};
use std::alloc::Global;

/// What is to stand at a path.
#[derive(Drop)]
struct Constant {
    path: Path,
    value: Value,
}

/// What was found of a pattern so far.
#[derive(Drop)]
struct Found {
    tests: Vec<Test>,
    constants: Vec<Constant>,
    captures: Vec<Path>,
}

/// The tests, the constants and the capture paths of a pattern. Together they say what the pattern
/// says: it captures exactly what stands at the capture paths, of values that pass the tests and
/// have the constants.
pub fn split(alloc: Global, pattern: &DPat) -> Result<Shape, NoMemory>
    ensures outline { IfOk result (λ s. s.outline ≡ outline_of pattern.now) }
    ensures constants { IfOk result (λ s. s.constants ≡ constants_of pattern.now) }
    ensures says { IfOk result
        (λ s. (v : Plain) → matched pattern.now v ≡ captured_by s.outline s.constants v) }
    ensures exactly { IfOk result
        (λ s. (v : Plain) (cs : List Plain) → (matched pattern.now v ≡ Some cs)
        ↔ Says s.outline s.constants v cs) }
{
    let mut found = Found {
        tests: Vec::new(alloc),
        constants: Vec::new(alloc),
        captures: Vec::new(alloc),
    };
    gather(alloc, &mut found, &Path::root(alloc), pattern)?;
    shape_of(alloc, found)
}

/// The parts of a pattern that stands at a path, behind those that were found.
#[cycle(gather)]
fn gather(alloc: Global, found: &mut Found, path: &Path, pattern: &DPat) -> Result<(), NoMemory>
    ensures tests { OnOk result (found.new.tests.items
        ≡ found.old.tests.items ++ map (test_under path.now) (tests pattern.now)) }
    ensures constants { OnOk result (found.new.constants.items
        ≡ found.old.constants.items ++ map (constant_under path.now) (constants pattern.now)) }
    ensures captures { OnOk result (found.new.captures.items
        ≡ found.old.captures.items ++ map (λ p. path.now ++ p) (captures pattern.now)) }
{
    match &pattern.form {
        Form::Discard => push_test(found, path.copy(alloc)?, Kind::Any),
        Form::Bind(inside) => {
            found.captures.push(path.copy(alloc)?)?;
            gather(alloc, found, path, inside)
        }
        Form::Lit(literal) => push_constant(found, path.copy(alloc)?, literal.copy()?),
        Form::Group(group, fields) => {
            push_test(found, path.copy(alloc)?, Kind::Of(group.copy()?))?;
            gather_fields(alloc, found, path, group, fields)
        }
    }
}

#[cycle(gather)]
fn gather_fields(
    alloc: Global,
    found: &mut Found,
    path: &Path,
    group: &Group,
    fields: &[Field],
) -> Result<(), NoMemory>
    ensures tests { OnOk result (found.new.tests.items
        ≡ found.old.tests.items
        ++ map (test_under path.now) (field_tests group.now (listed_fields fields.now))) }
    ensures constants { OnOk result (found.new.constants.items
        ≡ found.old.constants.items
        ++ map (constant_under path.now) (field_constants group.now (listed_fields fields.now))) }
    ensures captures { OnOk result (found.new.captures.items
        ≡ found.old.captures.items
        ++ map (λ p. path.now ++ p) (field_captures group.now (listed_fields fields.now))) }
{
    for field in fields {
        let part = path.then(alloc, step_of(group, &field.key)?)?;
        gather(alloc, found, &part, &field.pattern)?;
    }
    Ok(())
}

fn push_test(found: &mut Found, path: Path, kind: Kind) -> Result<(), NoMemory>
    ensures tests { OnOk result (found.new.tests.items
        ≡ found.old.tests.items ++ record { path = path; kind = kind } ∷ []) }
    ensures constants { OnOk result (found.new.constants.items ≡ found.old.constants.items) }
    ensures captures { OnOk result (found.new.captures.items ≡ found.old.captures.items) }
{
    found.tests.push(Test { path, kind })?;
    Ok(())
}

fn push_constant(found: &mut Found, path: Path, value: Value) -> Result<(), NoMemory>
    ensures tests { OnOk result (found.new.tests.items ≡ found.old.tests.items) }
    ensures constants { OnOk result (found.new.constants.items
        ≡ found.old.constants.items ++ record { path = path; value = value } ∷ []) }
    ensures captures { OnOk result (found.new.captures.items ≡ found.old.captures.items) }
{
    found.constants.push(Constant { path, value })?;
    Ok(())
}

/// The step to the part that a key of the group names.
fn step_of(group: &Group, key: &Value) -> Result<Step, NoMemory>
    ensures { IfOk result (λ s. s ≡ step_of group.now key.now) }
{
    let key = key.copy()?;
    match group {
        Group::InRecord(_, _) => Ok(Step::Field(key)),
        Group::InSequence(_) => Ok(Step::Item(key)),
        Group::InDictionary => Ok(Step::Under(key)),
    }
}

/// The shape of what was found: the constants apart from their paths.
fn shape_of(alloc: Global, found: Found) -> Result<Shape, NoMemory>
    ensures tests { IfOk result (λ s. s.outline.tests ≡ found.tests.items) }
    ensures paths { IfOk result
        (λ s. s.outline.constants ≡ map (λ c. c.path) found.constants.items) }
    ensures constants { IfOk result
        (λ s. s.constants ≡ sequence (plains (map (λ c. c.value) found.constants.items))) }
    ensures captures { IfOk result (λ s. s.outline.captures ≡ found.captures.items) }
{
    let mut constants = Vec::new(alloc);
    let mut values = Vec::new(alloc);
    for constant in found.constants {
        constants.push(constant.path)?;
        values.push(constant.value)?;
    }
    Ok(Shape {
        outline: Outline {
            tests: found.tests,
            constants,
            captures: found.captures,
        },
        constants: Value::sequence(Items::from_vec(alloc, values)?),
    })
}
