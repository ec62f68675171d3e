//! What differs between what was to come and what came.
ghost use Rattle.std.specs.Prelude.{◌↔◌, IsNone, IfOk, IsTrue};
ghost use Rattle.row_cases.specs.Answers.{IsSameAnswer};
ghost use Rattle.row_cases.specs.Outcomes.{IsSameOutcome};

use crate::codecs::Answer;
use crate::shown::{push_answer, push_shown};
use std::alloc::{AllocError, Global};

/// What comes of a run.
#[derive(Drop)]
pub struct Outcome {
    pub status: u8,
    /// What is written to standard error.
    pub line: Vec<u8>,
    pub output: Vec<u8>,
}

/// What differs between two outcomes, none exactly where nothing does.
pub fn outcomes_differ(
    alloc: Global,
    wanted: &Outcome,
    given: &Outcome,
) -> Result<Option<String>, AllocError>
    ensures { IfOk result (λ found. IsNone found ↔ IsSameOutcome wanted.now given.now) }
{
    if wanted.status != given.status {
        return Ok(Some(other_status(alloc, wanted.status, given)?));
    }
    if wanted.line != given.line {
        return Ok(Some(unlike(alloc, "line", &wanted.line, &given.line)?));
    }
    if wanted.output != given.output {
        return Ok(Some(unlike(alloc, "output", &wanted.output, &given.output)?));
    }
    Ok(None)
}

/// The statuses, and the line on standard error, which mostly says why.
fn other_status(alloc: Global, wanted: u8, given: &Outcome) -> Result<String, AllocError> {
    let status = given.status;
    let mut line = format!(in alloc; "status: expected {wanted}, given {status} ")?;
    push_shown(&mut line, &given.line)?;
    Ok(line)
}

fn unlike(alloc: Global, what: &str, wanted: &[u8], given: &[u8]) -> Result<String, AllocError> {
    let mut line = String::from_str(alloc, what)?;
    line.push_str(": expected `")?;
    push_shown(&mut line, wanted)?;
    line.push_str("`, given `")?;
    push_shown(&mut line, given)?;
    line.push('`')?;
    Ok(line)
}

/// What differs between two answers, none exactly where they are the same.
pub fn answers_differ(
    alloc: Global,
    wanted: &Answer,
    given: &Answer,
) -> Result<Option<String>, AllocError>
    ensures { IfOk result (λ found. IsNone found ↔ IsSameAnswer wanted.now given.now) }
{
    if is_same(wanted, given) {
        return Ok(None);
    }
    let mut line = String::from_str(alloc, "expected ")?;
    push_answer(&mut line, wanted)?;
    line.push_str(", given ")?;
    push_answer(&mut line, given)?;
    Ok(Some(line))
}

fn is_same(a: &Answer, b: &Answer) -> bool
    ensures { IsTrue result ↔ IsSameAnswer a.now b.now }
{
    match (a, b) {
        (Answer::Bytes(a), Answer::Bytes(b)) => a == b,
        (Answer::Text(a), Answer::Text(b)) => a == b,
        (Answer::Stops(a), Answer::Stops(b)) => a == b,
        _ => false,
    }
}
