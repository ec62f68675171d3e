//! Values of whole texts.
ghost use Rattle.std.specs.Prelude.{◌≡◌, ◌<◌, ◌++◌, ◌∷◌, [], ℕ, List, length, false};
ghost use Rattle.std.specs.Prelude.{Option, option_map, IfOk, IfSome, Some, None};
ghost use Rattle.pv_value.specs.Plain.{Plain};
ghost use Rattle.pv_read.specs.Results.{Fault};
ghost use Rattle.pv_read.specs.Answers.{Gives, IsAnswer, IsFault, IsExact};
ghost use Rattle.pv_lex.specs.declared.faults.TextKind.{TextKind};
ghost use Rattle.pv_text.specs.Ends.{end_fault};
ghost use Rattle.pv_lex.specs.Gaps.{IsLastGap};
ghost use Rattle.pv_text.specs.Reading.{no_value, next_at, values_in, text_value, text_values};
ghost use Rattle.pv_text.specs.Stops.{TextStands};
ghost use Rattle.pv_text.specs.Reads.{LeadsTo, NextStops, BeginsWith, AreValuesOf};
ghost use Rattle.pv_text.specs.Reads.{ValuesStand, IsNext};

use crate::reading::{End, read_value};
use pv_lex::{TextFault, TextKind, skip_blank};
use pv_read::READ_DEPTH;
use pv_value::{Items, Value};
use simdutf8::compat::from_utf8;
use std::alloc::Global;

/// The first value of a text, and how many bytes it ends behind. White space, comments and
/// annotations may stand before it; anything may follow, so long as the text is UTF-8.
pub fn read_text(alloc: Global, text: &[u8]) -> Result<(Value, usize), TextFault>
    // What is read is spelled so, and what is spelled so is read.
    ensures found { IfOk result (λ x. BeginsWith text.now x.1 x.0) }
    ensures only { (n : ℕ) (v : Plain) → BeginsWith text.now n v
        → IsAnswer {Y = Plain × ℕ} (λ x. (x.0, x.1)) result (v, n) }

    // A fault that is answered stands, and one that stands is answered.
    ensures exact { IsExact result (TextStands text.now) }
    ensures only_fault { (f : Fault TextKind) → TextStands text.now f → IsFault result f }
{
    let (value, rest) = first_value(alloc, text)?;
    Ok((value, text.len() - rest.len()))
}

/// The first value, and the bytes after it.
#[tactic(auto, unfolding(crate::specs::Reading::text_value))]
fn first_value(alloc: Global, text: &[u8]) -> Result<(Value, &[u8]), TextFault>
    ensures { Gives (λ x. (x.0, x.1.now)) result (text_value text.now) }
{
    let Ok(_) = from_utf8(text) else {
        return Err(TextFault::Bad(TextKind::BadUtf8, 0));
    };
    let at_end = no_value(text.len());
    read_value(alloc, text.len(), READ_DEPTH, false, at_end, text)
}

/// The end of a text of so many bytes, where no value was begun.
fn no_value(total: usize) -> End
    ensures { end_fault result ≡ no_value total }
{
    End {
        kind: TextKind::Unexpected,
        place: total,
    }
}

/// The next value of a text of `total` bytes, of which these are the last, and the bytes after it;
/// none where only a gap is left. Whether the text as a whole is UTF-8 is for the caller to ask;
/// here a fault of that kind stands at the token that isn't.
pub fn next_value(
    alloc: Global,
    bytes: &[u8],
    total: usize,
) -> Result<Option<(Value, &[u8])>, TextFault>
    // What is read is spelled so, and what is spelled so is read.
    ensures next { IfOk result (λ o. IsNext bytes.now (option_map (λ x. (x.0, x.1.now)) o)) }
    ensures shorter { IfOk result (λ o. IfSome o (λ x. length x.1.now < length bytes.now)) }
    ensures only { (v : Plain) (rest : List ℕ) → LeadsTo bytes.now v rest
        → IsAnswer {Y = Option (Plain × List ℕ)} (option_map (λ x. (x.0, x.1.now))) result
        (Some (v, rest)) }
    ensures only_end { IsLastGap false bytes.now
        → IsAnswer {Y = Option (Plain × List ℕ)} (option_map (λ x. (x.0, x.1.now))) result None }

    // A fault that is answered stands, and one that stands is answered.
    ensures exact { IsExact result (NextStops total bytes.now) }
    ensures only_fault { (f : Fault TextKind) → NextStops total bytes.now f → IsFault result f }
{
    next_of(alloc, bytes, total)
}

/// The same, as reading gives it.
#[tactic(auto, unfolding(crate::specs::Reading::next_at))]
fn next_of(alloc: Global, bytes: &[u8], total: usize) -> Result<Option<(Value, &[u8])>, TextFault>
    ensures { Gives (option_map (λ x. (x.0, x.1.now))) result (next_at total bytes.now) }
{
    if skip_blank(false, bytes).is_empty() {
        return Ok(None);
    }
    let (value, rest) = read_value(alloc, total, READ_DEPTH, false, no_value(total), bytes)?;
    Ok(Some((value, rest)))
}

/// All values of a text, to its end.
pub fn read_all(alloc: Global, text: &[u8]) -> Result<Items, TextFault>
    // What is read is spelled so, and what is spelled so is read.
    ensures found { IfOk result (λ vs. AreValuesOf text.now vs) }
    ensures only { (vs : List Plain) → AreValuesOf text.now vs → IsAnswer (λ ws. ws) result vs }

    // A fault that is answered stands, and one that stands is answered.
    ensures exact { IsExact result (ValuesStand text.now) }
    ensures only_fault { (f : Fault TextKind) → ValuesStand text.now f → IsFault result f }
{
    checked_values(alloc, text)
}

/// The same, as reading gives it.
#[tactic(auto, unfolding(crate::specs::Reading::text_values))]
fn checked_values(alloc: Global, text: &[u8]) -> Result<Items, TextFault>
    ensures { Gives (λ vs. vs) result (text_values text.now) }
{
    let Ok(_) = from_utf8(text) else {
        return Err(TextFault::Bad(TextKind::BadUtf8, 0));
    };
    all_values(alloc, text)
}

/// All values to the end of a text that is UTF-8.
fn all_values(alloc: Global, text: &[u8]) -> Result<Items, TextFault>
    ensures { Gives (λ vs. vs) result (values_in (length text.now) (length text.now) text.now) }
{
    let mut values = Vec::new(alloc);
    let mut rest = text;
    for _ in 0..text.len() {
        let Some((value, after)) = next_of(alloc, rest, text.len())? else {
            return Ok(Items::from_vec(alloc, values)?);
        };
        values.push(value)?;
        rest = after;
    }
    Ok(Items::from_vec(alloc, values)?)
}
