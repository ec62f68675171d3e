//! The words of a query.
ghost use Rattle.std.specs.Prelude.{◌≡◌};
ghost use Rattle.dsd_top.specs.Asked.{texts};
ghost use Rattle.dsd_top.specs.Minting.{IsFound};
ghost use Rattle.dsd_query.specs.Queries.{is_query, IsReferenceIn, IsPatternIn};
ghost use Rattle.dsd_query.specs.Queries.{IsQuestion, IsQuery};

use dp_pattern::parse;
use dq_link::Question;
use dsd_top::{WordsFault, number_within, plain_value};
use gk_sturdy::read_ref;
use pv_value::{NoMemory, Value};
use std::alloc::Global;

/// The most lines.
const LINES: u64 = 1_000_000;

/// Whether the first word is `query`.
pub fn is_query(words: &[String]) -> bool
    ensures { result ≡ is_query (texts words.now) }
{
    match words.first() {
        Some(word) => word.as_str() == "query",
        None => false,
    }
}

/// The signed reference that a word is in text.
fn reference_in(alloc: Global, word: &str) -> Result<Value, WordsFault>
    ensures { IsFound (λ v. v) (IsReferenceIn word.now) result }
{
    let value = plain_value(alloc, word)?;
    match read_ref(alloc, &value) {
        Ok(Some(_)) => Ok(value),
        Ok(None) => Err(WordsFault::Bad),
        Err(NoMemory) => Err(WordsFault::NoMemory),
    }
}

/// The pattern that a word is in text.
fn pattern_in(alloc: Global, word: &str) -> Result<Value, WordsFault>
    ensures { IsFound (λ v. v) (IsPatternIn word.now) result }
{
    let value = plain_value(alloc, word)?;
    match parse(alloc, &value) {
        Ok(Some(_)) => Ok(value),
        Ok(None) => Err(WordsFault::Bad),
        Err(NoMemory) => Err(WordsFault::NoMemory),
    }
}

/// What is asked by these words.
fn question_in(
    alloc: Global,
    reference: &str,
    pattern: &str,
    lines: &str,
) -> Result<Question, WordsFault>
    ensures { IsFound (λ q. q) (IsQuestion reference.now pattern.now lines.now) result }
{
    let Some(lines) = number_within(lines, 1, LINES) else {
        return Err(WordsFault::Bad);
    };
    let reference = reference_in(alloc, reference)?;
    let pattern = pattern_in(alloc, pattern)?;
    Ok(Question {
        reference,
        pattern,
        lines,
    })
}

/// Where the words ask, and what.
pub(crate) fn find_query(alloc: Global, words: &[String]) -> Result<(&str, Question), WordsFault>
    ensures { IsFound (λ x. record { address = x.0.now; question = x.1 })
        (IsQuery (texts words.now)) result }
{
    if words.len() != 5 || words[0].as_str() != "query" {
        return Err(WordsFault::Bad);
    }
    let (address, reference) = (words[1].as_str(), words[2].as_str());
    let (pattern, lines) = (words[3].as_str(), words[4].as_str());
    let question = question_in(alloc, reference, pattern, lines)?;
    Ok((address, question))
}
