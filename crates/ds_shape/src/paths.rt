//! Paths from a value to its parts.
ghost use Rattle.std.specs.Prelude.{◌≡◌, ◌++◌, ◌∷◌, [], IfOk, option_copied};
ghost use Rattle.ds_shape.specs.Paths.{part_by, part_at};

use pv_value::{NoMemory, Node, Value};
use pv_words::{item_under, value_under};
use std::alloc::Global;
use std::marker::Model;

/// A step from a value to one of its parts.
#[derive(Drop)]
pub enum Step {
    /// To the field of a record at the place that the value tells.
    Field(Value),
    /// To the item of a sequence at the place that the value tells.
    Item(Value),
    /// To the value of a dictionary under the key.
    Under(Value),
}

impl Step {
    /// An equal step.
    pub fn copy(&self) -> Result<Step, NoMemory>
        ensures { IfOk result (λ s. s ≡ self.now) }
    {
        match self {
            Step::Field(place) => Ok(Step::Field(place.copy()?)),
            Step::Item(place) => Ok(Step::Item(place.copy()?)),
            Step::Under(key) => Ok(Step::Under(key.copy()?)),
        }
    }
}

/// The steps from a value to one of its parts, the outermost first.
#[derive(Drop)]
pub struct Path {
    steps: Vec<Step>,
}

impl Model for Path {
    ghost use Rattle.std.specs.Prelude.{List};
    ghost use Rattle.std.specs.Coded.{codes};
    ghost use Rattle.pv_value.specs.Lemmas.Coded.{plain_code};
    ghost use Rattle.ds_shape.specs.Paths.{Step};

    ghost Value = { List Step };

    ghost coded = { Prim.hlevel (codes, plain_code) };

    ghost view = { λ p. p.steps.items };
}

impl Path {
    /// The path to the value itself.
    pub fn root(alloc: Global) -> Path
        ensures { result ≡ [] }
    {
        Path {
            steps: Vec::new(alloc),
        }
    }

    /// The steps, the outermost first.
    pub fn as_slice(&self) -> &[Step]
        ensures { result.now ≡ self.now }
    {
        self.steps.as_slice()
    }

    /// An equal path.
    pub fn copy(&self, alloc: Global) -> Result<Path, NoMemory>
        ensures { IfOk result (λ p. p ≡ self.now) }
    {
        let steps = copies(alloc, self.as_slice())?;
        Ok(Path { steps })
    }

    /// The path that goes one step further.
    pub fn then(&self, alloc: Global, step: Step) -> Result<Path, NoMemory>
        ensures { IfOk result (λ p. p ≡ self.now ++ step ∷ []) }
    {
        let mut steps = copies(alloc, self.as_slice())?;
        steps.push(step)?;
        Ok(Path { steps })
    }
}

fn copies(alloc: Global, steps: &[Step]) -> Result<Vec<Step>, NoMemory>
    ensures { IfOk result (λ list. list.items ≡ steps.now) }
{
    let mut list = Vec::new(alloc);
    for step in steps {
        list.push(step.copy()?)?;
    }
    Ok(list)
}

/// The part to which a step leads.
fn part_by<'a>(step: &Step, value: &'a Value) -> Option<&'a Value>
    ensures { option_copied result ≡ part_by step.now value.now }
{
    match (step, &value.node) {
        (Step::Field(place), Node::Rec(rec)) => item_under(rec.fields.as_slice(), place),
        (Step::Item(place), Node::Seq(items)) => item_under(items.as_slice(), place),
        (Step::Under(key), Node::Dict(entries)) => value_under(entries, key),
        _ => None,
    }
}

/// What stands at a path in a value, where something does.
pub fn part_at<'a>(path: &Path, value: &'a Value) -> Option<&'a Value>
    ensures { option_copied result ≡ part_at path.now value.now }
{
    let mut part = value;
    for step in path.as_slice() {
        let Some(next) = part_by(step, part) else {
            return None;
        };
        part = next;
    }
    Some(part)
}
