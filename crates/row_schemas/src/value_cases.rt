//! A table of schemas and of values that conform to one of their names or don't.
ghost use Rattle.std.specs.Prelude.{◌≡◌, ◌++◌, None, true, false, codes, option_copied, IfOk};
ghost use Rattle.std.specs.Prelude.{MatchOption};
ghost use Rattle.row_cases.specs.Cases.{lines_of, is_case};
ghost use Rattle.row_cases.specs.Findings.{AreJudged, IsNoted};
ghost use Rattle.row_schemas.specs.ValueCases.{IsValueIn, Judges, ValuePasses, IsInHand};
ghost use Rattle.row_schemas.specs.ValueCases.{LineHolds, ValuesHold, says_schema};

use crate::lines::{is_case, sides_of, told, unlike};
use crate::told::fault_told;
use ps_check::conforms;
use ps_read::read_schema;
use ps_schema::Schema;
use pv_text::read_all;
use pv_value::Value;
use row_cases::{Fault, Findings, Form, bytes_in};
use std::alloc::{AllocError, Global};

/// What came of the lines of a table.
pub fn judge_values(alloc: Global, text: &str) -> Result<Findings, AllocError>
    ensures { IfOk result (AreJudged is_case (lines_of text.now) (ValuesHold text.now)) }
{
    let mut findings = Findings::new(alloc);
    let mut schema = None;
    let mut place = 0usize;
    for line in text.split('\n') {
        place = place.saturating_add(1);
        schema = judge_line(alloc, schema, place, line, &mut findings)?;
    }
    Ok(findings)
}

/// The schema in hand after a line: the one that the line says, or the one of which it judges a
/// value. What came of the line is noted.
fn judge_line(
    alloc: Global,
    schema: Option<Schema>,
    place: usize,
    line: &str,
    findings: &mut Findings,
) -> Result<Option<Schema>, AllocError>
    ensures { IfOk result (λ after. IsNoted (is_case line.now) (LineHolds schema line.now after)
        findings.old findings.new) }
{
    if !is_case(line) {
        return Ok(schema);
    }
    match schema_text(line) {
        Some(text) => judge_schema(alloc, place, line, text, findings),
        None => {
            let found = told(alloc, place, line, difference(alloc, schema.as_ref(), line))?;
            findings.note(found)?;
            Ok(schema)
        }
    }
}

/// The text of a line that says a schema.
fn schema_text(line: &str) -> Option<&str>
    ensures { MatchOption result (says_schema line.now ≡ false)
        (λ text. line.now ≡ codes "schema " ++ text.now) }
{
    line.strip_prefix("schema ")
}

/// The schema of a line's text, none where that is no schema. What came of the line is noted.
fn judge_schema(
    alloc: Global,
    place: usize,
    line: &str,
    text: &str,
    findings: &mut Findings,
) -> Result<Option<Schema>, AllocError>
    ensures { IfOk result (λ after. IsNoted true (IsInHand text.now after)
        findings.old findings.new) }
{
    match schema_in(alloc, text) {
        Ok((schema, difference)) => {
            findings.note(told(alloc, place, line, Ok(difference))?)?;
            Ok(schema)
        }
        Err(fault) => {
            findings.note(told(alloc, place, line, Err(fault))?)?;
            Ok(None)
        }
    }
}

/// The schema that a text is, or why it is none.
fn schema_in(alloc: Global, text: &str) -> Result<(Option<Schema>, Option<String>), Fault>
    ensures { IfOk result (λ found. found.1 ≡ None → IsInHand text.now found.0) }
{
    let bytes = bytes_in(alloc, Form::Text, text)?;
    match read_schema(alloc, &bytes) {
        Ok(schema) => Ok((Some(schema), None)),
        Err(fault) => Ok((None, Some(fault_told(alloc, &fault)?))),
    }
}

/// What differs in a case of the schema in hand, none where nothing does.
fn difference(alloc: Global, schema: Option<&Schema>, line: &str) -> Result<Option<String>, Fault>
    ensures { IfOk result (λ found. found ≡ None
        → ValuePasses (option_copied schema.entry) line.now) }
{
    let Some(schema) = schema else {
        return Err(Fault::Form("a value before the first schema"));
    };
    let (given, wanted) = sides_of(line)?;
    let Some((name, text)) = given.split_once(' ') else {
        return Err(Fault::Form("no value behind a name"));
    };
    let verdict = verdict_on(alloc, schema, name, text)?;
    Ok(unlike(alloc, wanted, verdict)?)
}

/// Whether the value of a text conforms to what the name stands for, as `yes` or `no`.
fn verdict_on(alloc: Global, schema: &Schema, name: &str, text: &str) -> Result<&'static str, Fault>
    ensures { IfOk result (λ s. Judges schema.now name.now text.now s.now) }
{
    let value = value_in(alloc, text)?;
    if !schema.knows(name.as_bytes()) {
        return Err(Fault::Form("no definition of this name"));
    }
    if conforms(schema, name.as_bytes(), &value) {
        Ok("yes")
    } else {
        Ok("no")
    }
}

/// The value that a text is, once its repetitions and escapes are read.
fn value_in(alloc: Global, text: &str) -> Result<Value, Fault>
    ensures { IfOk result (λ v. IsValueIn text.now v) }
{
    let bytes = bytes_in(alloc, Form::Text, text)?;
    let values = match read_all(alloc, &bytes) {
        Ok(values) => values,
        Err(fault) => return Err(Fault::NoValues(format!(in alloc; "{fault}")?)),
    };
    match values.as_slice() {
        [value] => Ok(value.copy()?),
        _ => Err(Fault::Form("not one value")),
    }
}
