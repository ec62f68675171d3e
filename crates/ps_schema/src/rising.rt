//! Names that can't lead back to themselves, since ranks rise behind them and never fall.
ghost use Rattle.std.specs.Prelude.{◌≡◌, ◌≤◌, ℕ, true, List};
ghost use Rattle.std.specs.Str.{bytes_eq};
ghost use Rattle.ps_schema.specs.Patterns.{patterns};
ghost use Rattle.ps_schema.specs.Rising.{rank, AreAbove, Rises};
ghost use Rattle.ps_schema.specs.Schemas.{asks, one_asks};

use crate::indexed::Indexed;
use crate::{Form, Pattern};
use pv_value::Text;

/// Whether no name asks at the same value for one of lower rank.
pub(crate) fn never_fall(defs: &Indexed, ranks: &[usize]) -> bool
    ensures { result ≡ true → (a : List ℕ) → Rises defs.now ranks.now 0 a }
{
    for definition in defs.all() {
        if !rises(defs, ranks, &definition.name, 0) {
            return false;
        }
    }
    true
}

/// Whether all for which the name asks at the same value are higher by so much.
pub(crate) fn rises(defs: &Indexed, ranks: &[usize], name: &Text, by: usize) -> bool
    ensures { result ≡ true → Rises defs.now ranks.now by name.now }
{
    let Some(pattern) = defs.pattern(name.as_bytes()) else {
        return false;
    };
    match rank(defs, ranks, name).checked_add(by) {
        Some(least) => are_above(defs, ranks, pattern, least),
        None => false,
    }
}

/// Whether all for which the pattern asks at the same value have at least this rank.
#[cycle(are_above)]
fn are_above(defs: &Indexed, ranks: &[usize], pattern: &Pattern, least: usize) -> bool
    ensures { result ≡ true → AreAbove defs.now ranks.now least (asks pattern.now) }
{
    match &pattern.form {
        Form::Name(name) => is_above(defs, ranks, name, least),
        Form::OneOf(patterns) => all_are_above(defs, ranks, patterns, least),
        Form::AllOf(patterns) => all_are_above(defs, ranks, patterns, least),
        _ => true,
    }
}

#[cycle(are_above)]
fn all_are_above(defs: &Indexed, ranks: &[usize], all: &[Pattern], least: usize) -> bool
    ensures { result ≡ true → AreAbove defs.now ranks.now least (one_asks (patterns all.now)) }
{
    for pattern in all {
        if !are_above(defs, ranks, pattern, least) {
            return false;
        }
    }
    true
}

fn is_above(defs: &Indexed, ranks: &[usize], name: &Text, least: usize) -> bool
    ensures { result ≡ true → AreAbove defs.now ranks.now least (bytes_eq name.now) }
{
    least <= rank(defs, ranks, name)
}

fn rank(defs: &Indexed, ranks: &[usize], name: &Text) -> usize
    ensures { result ≡ rank defs.now ranks.now name.now }
{
    let Some(place) = defs.place(name.as_bytes()) else {
        return 0;
    };
    match ranks.get(place) {
        Some(rank) => *rank,
        None => 0,
    }
}
