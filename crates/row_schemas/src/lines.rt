//! The lines of a table: what is a case, what stands at its two sides, and what is told of one that
//! differs.
ghost use Rattle.std.specs.Prelude.{◌≡◌, ℕ, List, None, Ok, IfOk, IfSome, string_bytes};
ghost use Rattle.row_cases.specs.Cases.{is_case, AreSides, case_told};

use row_cases::Fault;
use std::alloc::{AllocError, Global};

/// Whether a line is neither empty nor a comment.
pub fn is_case(line: &str) -> bool
    ensures { result ≡ is_case line.now }
{
    !line.is_empty() && !line.starts_with("# ") && line != "#"
}

/// What stands before and behind the arrow, without the blanks round them.
pub fn sides_of(line: &str) -> Result<(&str, &str), Fault>
    ensures { IfOk result (λ sides. AreSides line.now sides.0.now sides.1.now) }
{
    let Some((given, wanted)) = line.split_once("=>") else {
        return Err(Fault::Form("no => in the line"));
    };
    Ok((given.trim_matches(' '), wanted.trim_matches(' ')))
}

/// What differs between what is wanted and what is given, none where nothing does.
pub fn unlike(alloc: Global, wanted: &str, given: &str) -> Result<Option<String>, AllocError>
    ensures { IfOk result (λ found. found ≡ None → wanted.now ≡ given.now) }
{
    if wanted == given {
        return Ok(None);
    }
    Ok(Some(format!(in alloc; "expected {wanted}, given {given}")?))
}

/// What is told of a case at its place, by what differs in it or why it isn't judged: nothing,
/// where nothing differs.
pub fn told(
    alloc: Global,
    place: usize,
    line: &str,
    difference: Result<Option<String>, Fault>,
) -> Result<Option<String>, AllocError>
    ensures passing { IfOk result (λ found. found ≡ None → difference ≡ Ok None) }
    ensures told { IfOk result (λ found. IfSome found (λ s.
        (why : List ℕ) × (string_bytes s ≡ case_told place line.now why))) }
{
    match difference {
        Ok(None) => Ok(None),
        Ok(Some(what)) => Ok(Some(named(alloc, place, line, what.as_str())?)),
        Err(fault) => {
            let why = format!(in alloc; "{fault}")?;
            Ok(Some(named(alloc, place, line, why.as_str())?))
        }
    }
}

fn named(alloc: Global, place: usize, line: &str, what: &str) -> Result<String, AllocError>
    ensures { IfOk result (λ s. string_bytes s ≡ case_told place line.now what.now) }
{
    format!(in alloc; "{place}: {line}: {what}")
}
