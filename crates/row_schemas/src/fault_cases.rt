//! A table of texts and the fault that each has as a schema.
ghost use Rattle.std.specs.Prelude.{◌≡◌, None, IfOk, OnOk, string_bytes};
ghost use Rattle.row_cases.specs.Cases.{lines_of, is_case};
ghost use Rattle.row_cases.specs.Findings.{AreJudged, IsNoted};
ghost use Rattle.row_schemas.specs.Told.{TellsVerdict};
ghost use Rattle.row_schemas.specs.FaultCases.{FaultPasses, FaultLineHolds, FaultsHold};

use crate::lines::{is_case, sides_of, told, unlike};
use crate::told::fault_told;
use ps_read::read_schema;
use row_cases::{Fault, Findings, Form, bytes_in};
use std::alloc::{AllocError, Global};

/// What came of the cases of a table.
pub fn judge_faults(alloc: Global, text: &str) -> Result<Findings, AllocError>
    ensures { IfOk result (AreJudged is_case (lines_of text.now) (FaultsHold text.now)) }
{
    let mut findings = Findings::new(alloc);
    let mut place = 0usize;
    for line in text.split('\n') {
        place = place.saturating_add(1);
        judge_line(alloc, place, line, &mut findings)?;
    }
    Ok(findings)
}

/// Notes what came of a line at its place: nothing, where it is no case.
fn judge_line(
    alloc: Global,
    place: usize,
    line: &str,
    findings: &mut Findings,
) -> Result<(), AllocError>
    ensures { OnOk result (IsNoted (is_case line.now) (FaultLineHolds line.now)
        findings.old findings.new) }
{
    if is_case(line) {
        let found = told(alloc, place, line, difference(alloc, line))?;
        findings.note(found)?;
    }
    Ok(())
}

/// What differs in a case, none where nothing does.
fn difference(alloc: Global, line: &str) -> Result<Option<String>, Fault>
    ensures { IfOk result (λ found. found ≡ None → FaultPasses line.now) }
{
    let (given, wanted) = sides_of(line)?;
    let text = bytes_in(alloc, Form::Text, given)?;
    let given = verdict_told(alloc, &text)?;
    Ok(unlike(alloc, wanted, given.as_str())?)
}

/// The fault that the text has as a schema, or `none`.
fn verdict_told(alloc: Global, text: &[u8]) -> Result<String, Fault>
    ensures { IfOk result (λ s. TellsVerdict text.now (string_bytes s)) }
{
    match read_schema(alloc, text) {
        Ok(_schema) => Ok(String::from_str(alloc, "none")?),
        Err(fault) => fault_told(alloc, &fault),
    }
}
