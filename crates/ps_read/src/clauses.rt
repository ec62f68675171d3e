//! The definitions that a list of values writes, clause by clause.
ghost use Rattle.std.specs.Prelude.{◌≡◌, ◌+◌, ◌<◌, ◌∷◌, [], ◌^◌, length, codes, pos};
ghost use Rattle.std.specs.Prelude.{MatchOption, OnOk, option_copied, option_to_list, ◌++◌};
ghost use Rattle.pv_words.specs.Parts.{same};
ghost use Rattle.pv_value.specs.Plain.{integer};
ghost use Rattle.ps_read.specs.Answers.{Gives};
ghost use Rattle.ps_read.specs.Pieces.{pieces};
ghost use Rattle.ps_read.specs.Written.{is_sign};
ghost use Rattle.ps_read.specs.Clauses.{definitions_of, clauses, clause_of, unended};
ghost use Rattle.ps_read.specs.Clauses.{header, number_at, definition, at_end};
ghost use Rattle.ps_read.specs.Clauses.{name_in, undefined, unfit, meaning, with_signs};
ghost use Rattle.ps_read.specs.Clauses.{pattern_at};

use crate::faults::{Misfit, Stop};
use crate::names::{is_name, pattern};
use crate::parsing::{is_sign, parse};
use crate::support::is_supported;
use ps_schema::{Definition, Form, Pattern};
use pv_value::{NoMemory, Node, Text, Value};
use std::alloc::Global;

/// The definitions that the values write.
pub(crate) fn definitions_of(alloc: Global, values: &[Value]) -> Result<Vec<Definition>, Stop>
    ensures { Gives (λ v. v.items) result (definitions_of values.now) }
{
    let (head, behind) = first_clause(values);
    if let Some(misfit) = header(head) {
        return Err(Stop::At(misfit));
    }
    match behind {
        Some(rest) => clauses(alloc, head.len() + 1, rest),
        None => Err(Stop::At(Misfit::BadSchema(head.len()))),
    }
}

/// The definitions of clauses, of which the first begins at this place.
fn clauses(alloc: Global, place: usize, values: &[Value]) -> Result<Vec<Definition>, Stop>
    requires { place + length values.now < 2 ^ 63 }
    ensures { Gives (λ v. v.items) result
        (clauses place (pieces (is_sign (codes ".")) values.now)) }
{
    let mut defs = Vec::new(alloc);
    let mut at = place;
    let mut rest = values;
    'clauses: loop {
        let (clause, behind) = first_clause(rest);
        let Some(after) = behind else {
            unended(alloc, at, clause)?;
            return Ok(defs);
        };
        let definition = clause_of(alloc, at, clause)?;
        add(&mut defs, definition)?;
        at += clause.len() + 1;
        rest = after;
    }
}

/// Adds what a clause defines.
fn add(defs: &mut Vec<Definition>, definition: Option<Definition>) -> Result<(), NoMemory>
    ensures { OnOk result (defs.new.items ≡ defs.old.items ++ option_to_list definition) }
{
    match definition {
        Some(definition) => Ok(defs.push(definition)?),
        None => Ok(()),
    }
}

/// The values before the first `.`, and those behind it, where there is one.
fn first_clause(values: &[Value]) -> (&[Value], Option<&[Value]>)
    ensures clauses { MatchOption result.1
        (pieces (is_sign (codes ".")) values.now ≡ result.0.now ∷ [])
        (λ rest. (pieces (is_sign (codes ".")) values.now
        ≡ result.0.now ∷ pieces (is_sign (codes ".")) rest.now)) }
    ensures lengths { MatchOption result.1
        (length result.0.now ≡ length values.now)
        (λ rest. length result.0.now + 1 + length rest.now ≡ length values.now) }
{
    for i in 0..values.len() {
        if is_sign(&values[i], b".") {
            return (&values[..i], Some(&values[i + 1..]));
        }
    }
    (values, None)
}

/// What the clause at this place defines: nothing, where it is `embeddedType v`.
fn clause_of(alloc: Global, at: usize, clause: &[Value]) -> Result<Option<Definition>, Stop>
    requires { at + length clause.now < 2 ^ 63 }
    ensures { Gives (λ d. d) result (clause_of at clause.now) }
{
    let Some((first, behind)) = clause.split_first() else {
        return Err(Stop::At(Misfit::BadSchema(at)));
    };
    let Some((second, rest)) = behind.split_first() else {
        return Err(Stop::At(undefined(at, first)));
    };
    if is_sign(second, b"=") {
        return definition(alloc, at, first, rest);
    }
    if is_sign(first, b"embeddedType") {
        return at_end(at + 2, rest);
    }
    Err(Stop::At(unfit(at, first)))
}

/// Nothing more may stand.
fn at_end(at: usize, values: &[Value]) -> Result<Option<Definition>, Stop>
    ensures { Gives (λ d. d) result (at_end at values.now) }
{
    if values.is_empty() {
        Ok(None)
    } else {
        Err(Stop::At(Misfit::BadSchema(at)))
    }
}

/// A clause whose `.` is missing: nothing, or what can't stand.
fn unended(alloc: Global, at: usize, clause: &[Value]) -> Result<(), Stop>
    requires { at + length clause.now < 2 ^ 63 }
    ensures { Gives (λ _. []) result (unended at clause.now) }
{
    if clause.is_empty() {
        return Ok(());
    }
    clause_of(alloc, at, clause)?;
    Err(Stop::At(Misfit::BadSchema(at + clause.len())))
}

/// What can't stand in the first clause.
fn header(clause: &[Value]) -> Option<Misfit>
    ensures { result ≡ header clause.now }
{
    match clause.split_first() {
        Some((first, rest)) => {
            if is_sign(first, b"version") {
                number_at(rest)
            } else {
                Some(Misfit::BadSchema(0))
            }
        }
        None => Some(Misfit::BadSchema(0)),
    }
}

fn number_at(values: &[Value]) -> Option<Misfit>
    ensures { result ≡ number_at values.now }
{
    match values.split_first() {
        Some((first, rest)) => {
            if !is_one(first) {
                Some(Misfit::BadSchema(1))
            } else if rest.is_empty() {
                None
            } else {
                Some(Misfit::BadSchema(2))
            }
        }
        None => Some(Misfit::BadSchema(1)),
    }
}

fn is_one(value: &Value) -> bool
    ensures { result ≡ same value.now (integer (pos 1)) }
{
    *value == Value::integer(1)
}

/// Why the value at this place, with another one behind it, begins no clause.
fn unfit(at: usize, value: &Value) -> Misfit
    requires { at + 1 < 2 ^ 63 }
    ensures { result ≡ unfit at value.now }
{
    if is_sign(value, b"include") {
        Misfit::NotSupported(at)
    } else {
        undefined(at, value)
    }
}

/// Why the value at this place begins no clause, where no `=` stands behind it.
fn undefined(at: usize, value: &Value) -> Misfit
    requires { at + 1 < 2 ^ 63 }
    ensures { result ≡ undefined at value.now }
{
    match name_in(value) {
        Some(_) => Misfit::BadSchema(at + 1),
        None => Misfit::BadSchema(at),
    }
}

fn name_in(value: &Value) -> Option<&Text>
    ensures { option_copied result ≡ name_in value.now }
{
    match &value.node {
        Node::Sym(text) => {
            if is_name(text.as_bytes()) {
                Some(text)
            } else {
                None
            }
        }
        _ => None,
    }
}

/// `Name = P`, `Name = P / Q ..` or `Name = P & Q ..`, of which these are the patterns.
fn definition(
    alloc: Global,
    at: usize,
    name: &Value,
    values: &[Value],
) -> Result<Option<Definition>, Stop>
    requires { at + 2 + length values.now < 2 ^ 63 }
    ensures { Gives (λ d. d) result
        (definition at (name_in name.now) (meaning (at + 2) values.now)) }
{
    let Some(name) = name_in(name) else {
        return Err(Stop::At(Misfit::BadSchema(at)));
    };
    let pattern = meaning(alloc, at + 2, values)?;
    let name = name.copy()?;
    Ok(Some(Definition { name, pattern }))
}

fn meaning(alloc: Global, at: usize, values: &[Value]) -> Result<Pattern, Stop>
    requires { at + length values.now < 2 ^ 63 }
    ensures { Gives (λ p. p) result (meaning at values.now) }
{
    let Some((first, behind)) = values.split_first() else {
        return Err(Stop::At(Misfit::BadSchema(at)));
    };
    let Some((sign, _)) = behind.split_first() else {
        return pattern_at(alloc, at, first);
    };
    if is_sign(sign, b"/") {
        let all = with_signs(alloc, b"/", at, values)?;
        Ok(pattern(Form::OneOf(all)))
    } else {
        let all = with_signs(alloc, b"&", at, values)?;
        Ok(pattern(Form::AllOf(all)))
    }
}

/// Patterns with this sign between each two.
fn with_signs(
    alloc: Global,
    sign: &[u8],
    place: usize,
    values: &[Value],
) -> Result<Vec<Pattern>, Stop>
    requires { place + length values.now < 2 ^ 63 }
    ensures { Gives (λ v. v.items) result (with_signs sign.now place values.now) }
{
    let mut all = Vec::new(alloc);
    let mut at = place;
    let mut rest = values;
    'signs: while let Some((first, behind)) = rest.split_first() {
        all.push(pattern_at(alloc, at, first)?)?;
        let Some((second, after)) = behind.split_first() else {
            return Ok(all);
        };
        if !is_sign(second, sign) {
            return Err(Stop::At(Misfit::BadSchema(at + 1)));
        }
        at += 2;
        rest = after;
    }
    Err(Stop::At(Misfit::BadSchema(at)))
}

/// The pattern that must stand at this place.
fn pattern_at(alloc: Global, at: usize, value: &Value) -> Result<Pattern, Stop>
    ensures { Gives (λ p. p) result (pattern_at at value.now) }
{
    let Some(pattern) = parse(alloc, value)? else {
        return Err(Stop::At(Misfit::BadSchema(at)));
    };
    if is_supported(&pattern) {
        Ok(pattern)
    } else {
        Err(Stop::At(Misfit::NotSupported(at)))
    }
}
