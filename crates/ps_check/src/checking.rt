//! Whether values match patterns.
ghost use Rattle.std.specs.Prelude.{◌≡◌, ◌≤◌, ℕ, Bool, true, List, option_map};
ghost use Rattle.pv_value.specs.Plain.{Plain, Plains, plains, pairs};
ghost use Rattle.ps_schema.specs.Patterns.{patterns};
ghost use Rattle.ps_schema.specs.View.{listed_fields};
ghost use Rattle.ps_schema.specs.Names.{knows};
ghost use Rattle.ps_schema.specs.Schemas.{IsSchema};
ghost use Rattle.ps_schema.specs.Conforms.{conforms, matches, begin_with, have_all, matches_one};
ghost use Rattle.ps_schema.specs.Conforms.{matches_each, are_all, are_all_pairs, are_none};
ghost use Rattle.ps_schema.specs.Conforms.{IsMeaning};
ghost use Rattle.ps_check.specs.Subjects.{seen, held, items_counted};
ghost use Rattle.ps_check.specs.Verdicts.{AreRight};

use crate::finding::place_of;
use crate::subjects::Subject;
use crate::verdicts::Verdicts;
use ps_schema::{Field, Form, Pattern, Schema};
use pv_value::{Entries, Value};
use pv_words::value_under;

/// Whether the value conforms to what the name stands for.
///
/// Each value inside and each name are judged at most once, however many patterns ask and in how
/// many ways they lead there: what was found is kept for the whole call, and equal values share it.
/// Nothing is kept of a name for which patterns ask at one place alone, since that place leads to
/// each value inside but once, nor of one that stands for `any` or for a kind of atoms. Finding
/// what was kept takes comparisons by the logarithm of how much was kept, each of values to their
/// first difference, and equal ones to their end.
///
/// Memory is taken where the schema takes its own, for each verdict that is kept. Where there is
/// none, the answer is the same, and what couldn't be kept is judged each time that it is asked
/// for.
///
/// It goes as deep as the value nests and, at each value, over as many names as lead to one another
/// there and into patterns as deep as they nest.
pub fn conforms(schema: &Schema, name: &[u8], value: &Value) -> bool
    requires { knows schema.now name.now ≡ true }
    ensures same { result ≡ conforms schema.now name.now value.now }
    ensures meaning { (named : List ℕ → Plain → Bool) → IsMeaning schema.now named
        → result ≡ named name.now value.now }
{
    let _ = schema.definitions();
    let mut found = Verdicts::new(schema.alloc());
    judge_name(schema, name, Subject::Whole(value), &mut found)
}

/// Whether something is there, and matches the pattern.
#[cycle(judge)]
fn meets(schema: &Schema, pattern: &Pattern, subject: Option<Subject>, found: &mut Verdicts) -> bool
    requires schema { IsSchema schema.now }
    requires right { AreRight schema.now found.old }
    ensures same { result
        ≡ held (matches (conforms schema.now) pattern.now) (option_map seen subject.entry) }
    ensures right { AreRight schema.now found.new }
{
    let Some(subject) = subject else {
        return false;
    };
    judge(schema, pattern, subject, found)
}

/// Whether the value matches the pattern. What is found of names is noted.
#[cycle(judge)]
fn judge(schema: &Schema, pattern: &Pattern, subject: Subject, found: &mut Verdicts) -> bool
    requires schema { IsSchema schema.now }
    requires right { AreRight schema.now found.old }
    ensures same { result ≡ matches (conforms schema.now) pattern.now (seen subject.entry) }
    ensures right { AreRight schema.now found.new }
{
    match &pattern.form {
        Form::Any => true,
        Form::OfKind(kind) => subject.is_of_kind(*kind),
        Form::Literal(value) => subject.is(value),
        Form::Name(name) => judge_name(schema, name.as_bytes(), subject, found),
        Form::Embedded(inside) => meets(schema, inside, subject.inside(), found),
        Form::Record(label, fields) => is_empty(behind(
            schema,
            fields,
            subject.fields_under(label),
            found,
        )),
        Form::RecordOf(label, fields) => {
            meets(schema, label, subject.label(), found)
                && meets(schema, fields, subject.fields(), found)
        }
        Form::Tuple(items) => is_empty(behind(schema, items, subject.items(), found)),
        Form::TupleWithRest(items, rest) => {
            let others = behind(schema, items, subject.items(), found);
            all_meet(schema, rest, others, found)
        }
        Form::SetOf(element) => all_meet(schema, element, subject.elements(), found),
        Form::DictOf(key, value) => entries_meet(schema, key, value, subject.entries(), found),
        Form::Dict(fields) => fields_meet(schema, fields, subject.entries(), found),
        Form::OneOf(patterns) => judge_one(schema, patterns, subject, found),
        Form::AllOf(patterns) => judge_each(schema, patterns, subject, found),
    }
}

#[cycle(judge)]
fn judge_name(schema: &Schema, name: &[u8], subject: Subject, found: &mut Verdicts) -> bool
    requires schema { IsSchema schema.now }
    requires right { AreRight schema.now found.old }
    ensures same { result ≡ conforms schema.now name.now (seen subject.entry) }
    ensures right { AreRight schema.now found.new }
{
    let Some((at, pattern)) = place_of(schema, name) else {
        return false;
    };
    if !schema.is_asked_again(at) {
        return judge(schema, pattern, subject, found);
    }
    if let Some(verdict) = found.of(at, subject) {
        return verdict;
    }
    let verdict = judge(schema, pattern, subject, found);
    found.note(at, subject, verdict);
    verdict
}

#[cycle(judge)]
fn judge_one(schema: &Schema, all: &[Pattern], subject: Subject, found: &mut Verdicts) -> bool
    requires schema { IsSchema schema.now }
    requires right { AreRight schema.now found.old }
    ensures same { result
        ≡ matches_one (conforms schema.now) (patterns all.now) (seen subject.entry) }
    ensures right { AreRight schema.now found.new }
{
    for pattern in all {
        if judge(schema, pattern, subject, found) {
            return true;
        }
    }
    false
}

#[cycle(judge)]
fn judge_each(schema: &Schema, all: &[Pattern], subject: Subject, found: &mut Verdicts) -> bool
    requires schema { IsSchema schema.now }
    requires right { AreRight schema.now found.old }
    ensures same { result
        ≡ matches_each (conforms schema.now) (patterns all.now) (seen subject.entry) }
    ensures right { AreRight schema.now found.new }
{
    for pattern in all {
        if !judge(schema, pattern, subject, found) {
            return false;
        }
    }
    true
}

/// The values behind the first ones, where there are so many and they match in turn.
#[cycle(judge)]
fn behind<'a>(
    schema: &Schema,
    firsts: &[Pattern],
    values: Option<&'a [Value]>,
    found: &mut Verdicts,
) -> Option<&'a [Value]>
    requires schema { IsSchema schema.now }
    requires right { AreRight schema.now found.old }
    ensures rest { (others : Plains → Bool) → held others (option_map (λ xs. plains xs.now) result)
        ≡ held (begin_with (conforms schema.now) (patterns firsts.now) others)
        (option_map (λ xs. plains xs.now) values.entry) }
    ensures fewer { items_counted (option_map (λ xs. plains xs.now) result)
        ≤ items_counted (option_map (λ xs. plains xs.now) values.entry) }
    ensures right { AreRight schema.now found.new }
{
    let mut left = values?;
    for pattern in firsts {
        let (value, rest) = left.split_first()?;
        if !meets(schema, pattern, Some(Subject::Whole(value)), found) {
            return None;
        }
        left = rest;
    }
    Some(left)
}

/// Whether the values are there and match all.
#[cycle(judge)]
fn all_meet(
    schema: &Schema,
    pattern: &Pattern,
    values: Option<&[Value]>,
    found: &mut Verdicts,
) -> bool
    requires schema { IsSchema schema.now }
    requires right { AreRight schema.now found.old }
    ensures same { result ≡ held (are_all (matches (conforms schema.now) pattern.now))
        (option_map (λ xs. plains xs.now) values.entry) }
    ensures right { AreRight schema.now found.new }
{
    let Some(values) = values else {
        return false;
    };
    for value in values {
        if !meets(schema, pattern, Some(Subject::Whole(value)), found) {
            return false;
        }
    }
    true
}

/// Whether the entries are there, and all their keys and their values match.
#[cycle(judge)]
fn entries_meet(
    schema: &Schema,
    key: &Pattern,
    value: &Pattern,
    entries: Option<&Entries>,
    found: &mut Verdicts,
) -> bool
    requires schema { IsSchema schema.now }
    requires right { AreRight schema.now found.old }
    ensures same { result ≡ held (are_all_pairs (matches (conforms schema.now) key.now)
        (matches (conforms schema.now) value.now)) (option_map (λ es. pairs es.now) entries.entry) }
    ensures right { AreRight schema.now found.new }
{
    let Some(entries) = entries else {
        return false;
    };
    for entry in entries.as_slice() {
        if !meets(schema, key, Some(Subject::Whole(&entry.key)), found) {
            return false;
        }
        if !meets(schema, value, Some(Subject::Whole(&entry.value)), found) {
            return false;
        }
    }
    true
}

/// Whether the entries are there, and each of these keys with a value that matches.
#[cycle(judge)]
fn fields_meet(
    schema: &Schema,
    fields: &[Field],
    entries: Option<&Entries>,
    found: &mut Verdicts,
) -> bool
    requires schema { IsSchema schema.now }
    requires right { AreRight schema.now found.old }
    ensures same { result ≡ held (have_all (conforms schema.now) (listed_fields fields.now))
        (option_map (λ es. pairs es.now) entries.entry) }
    ensures right { AreRight schema.now found.new }
{
    let Some(entries) = entries else {
        return false;
    };
    for field in fields {
        let Some(value) = value_under(entries, &field.key) else {
            return false;
        };
        if !meets(schema, &field.pattern, Some(Subject::Whole(value)), found) {
            return false;
        }
    }
    true
}

/// Whether the values are there, and there are none.
fn is_empty(values: Option<&[Value]>) -> bool
    ensures { result ≡ held are_none (option_map (λ xs. plains xs.now) values.entry) }
{
    match values {
        Some(values) => values.is_empty(),
        None => false,
    }
}
