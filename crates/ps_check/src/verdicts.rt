//! What was found of the names of a schema, at values.
ghost use Rattle.std.specs.Prelude.{◌≡◌, ℕ, Bool, List, IfSome};
ghost use Rattle.pv_value.specs.Plain.{Plain};
ghost use Rattle.ps_schema.specs.Conforms.{conforms};
ghost use Rattle.ps_schema.specs.declared.Definition.{Definition};
ghost use Rattle.ps_check.specs.Subjects.{seen};
ghost use Rattle.ps_schema.specs.Places.{name_of};
ghost use Rattle.ps_check.specs.Verdicts.{Tells, AreRight};

use crate::subjects::Subject;
use pv_value::Value;
use std::alloc::Global;
use std::collections::BTreeMap;

/// By the place of a name's definition and by a value: equal values share a verdict.
type Table = BTreeMap<(usize, Value), bool>;

/// Whether values, and whether fields of records, conform to names, where that was found.
#[derive(Drop)]
pub(crate) struct Verdicts {
    wholes: Table,
    /// By the record whose fields they are.
    fields: Table,
}

impl Verdicts {
    /// Nothing was found yet.
    pub(crate) fn new(alloc: Global) -> Verdicts
        ensures { (ds : List Definition) → AreRight ds result }
    {
        Verdicts {
            wholes: BTreeMap::new(alloc),
            fields: BTreeMap::new(alloc),
        }
    }

    /// What was found of the name at this place.
    pub(crate) fn of(&self, at: usize, subject: Subject) -> Option<bool>
        ensures { (ds : List Definition) → AreRight ds self.now
            → IfSome result (λ b. b ≡ conforms ds (name_of ds at) (seen subject.entry)) }
    {
        match subject {
            Subject::Whole(value) => told(&self.wholes, at, value),
            Subject::Fields(record) => told(&self.fields, at, record),
        }
    }

    /// Notes what was found of the name at this place. Where memory is wanting nothing is noted.
    pub(crate) fn note(&mut self, at: usize, subject: Subject, verdict: bool)
        ensures { (ds : List Definition) → AreRight ds self.old
            → verdict ≡ conforms ds (name_of ds at) (seen subject.entry) → AreRight ds self.new }
    {
        match subject {
            Subject::Whole(value) => keep(&mut self.wholes, at, value, verdict),
            Subject::Fields(record) => keep(&mut self.fields, at, record, verdict),
        }
    }
}

fn told(table: &Table, at: usize, value: &Value) -> Option<bool>
    ensures { (found : ℕ → Plain → Bool) → Tells found table.now
        → IfSome result (λ b. b ≡ found at value.now) }
{
    let Ok(value) = value.copy() else {
        return None;
    };
    match table.get(&(at, value)) {
        Some(verdict) => Some(*verdict),
        None => None,
    }
}

fn keep(table: &mut Table, at: usize, value: &Value, verdict: bool)
    ensures { (found : ℕ → Plain → Bool) → Tells found table.old → verdict ≡ found at value.now
        → Tells found table.new }
{
    let Ok(value) = value.copy() else {
        return;
    };
    let _ = table.insert((at, value), verdict);
}
