//! What came of the rows of a file.
ghost use Rattle.std.specs.Prelude.{◌≡◌, ◌↔◌, [], map, All, IfOk, None, IsNone};
ghost use Rattle.row_cases.specs.Findings.{AreJudged};
ghost use Rattle.row_cases.specs.Outcomes.{IsSameOutcome};
ghost use Rattle.row_files.specs.Rows.{row_told};
ghost use Rattle.row_runs.specs.Outcomes.{FileHolds, RowHolds, is_row};

use crate::outcomes::outcome_of;
use row_cases::{Findings, Outcome, one_difference, outcomes_differ};
use row_files::{Row, rows_of};
use std::alloc::{AllocError, Global};

/// What came of the rows of a file. One that isn't written as it must be is one difference; else
/// where nothing differs each row holds, and is counted.
pub fn judge_file(alloc: Global, text: &str) -> Result<Findings, AllocError>
    ensures { IfOk result (λ found. found.differences.items ≡ []
        → FileHolds text.now found.passed) }
{
    match rows_of(alloc, text) {
        Ok(rows) => judge_rows(alloc, &rows),
        Err(fault) => {
            let why = format!(in alloc; "{fault}")?;
            one_difference(alloc, why.as_str())
        }
    }
}

/// What came of rows: each is counted, and where nothing differs each holds.
fn judge_rows(alloc: Global, rows: &[Row]) -> Result<Findings, AllocError>
    ensures { IfOk result (AreJudged is_row (map row_told rows.now)
        (All RowHolds (map row_told rows.now))) }
{
    let mut findings = Findings::new(alloc);
    for row in rows {
        findings.note(judge_row(alloc, row)?)?;
    }
    Ok(findings)
}

/// What differs in a row, none where nothing does.
fn judge_row(alloc: Global, row: &Row) -> Result<Option<String>, AllocError>
    ensures { IfOk result (λ found. found ≡ None → RowHolds (row_told row.now)) }
{
    match outcome_of(alloc, row) {
        Ok(given) => judge_outcome(alloc, row, &given),
        Err(fault) => {
            let why = format!(in alloc; "{fault}")?;
            Ok(Some(named(alloc, row, why.as_str())?))
        }
    }
}

/// What differs between what a row wants and what came, none exactly where nothing does.
fn judge_outcome(alloc: Global, row: &Row, given: &Outcome) -> Result<Option<String>, AllocError>
    ensures { IfOk result (λ found. IsNone found ↔ IsSameOutcome row.now.wanted given.now) }
{
    match outcomes_differ(alloc, &row.wanted, given)? {
        Some(what) => Ok(Some(named(alloc, row, what.as_str())?)),
        None => Ok(None),
    }
}

fn named(alloc: Global, row: &Row, what: &str) -> Result<String, AllocError> {
    let place = row.place;
    let name = row.name.as_str();
    format!(in alloc; "{place}: {name}: {what}")
}
