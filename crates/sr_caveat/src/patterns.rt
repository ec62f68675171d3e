//! The patterns that values write.
ghost use Rattle.std.specs.Prelude.{◌≡◌, IfOk, map, option_map};
ghost use Rattle.pv_words.specs.Words.{labelled};
ghost use Rattle.pv_value.specs.Plain.{plains, pairs};
ghost use Rattle.pv_value.specs.View.{key_and_value};
ghost use Rattle.sr_caveat.specs.Patterns.{bind, none_of, all_of, sequence_with, dictionary_with};
ghost use Rattle.sr_caveat.specs.Patterns.{record_with, of_kind};
ghost use Rattle.sr_caveat.specs.Written.{pattern_of, patterns_of, patterns_in, kind_named};
ghost use Rattle.sr_caveat.specs.Written.{patterns_under_keys, patterns_in_pairs, keys_of_value};
ghost use Rattle.sr_caveat.specs.Written.{bare_pattern, short_pattern, record_pattern};
ghost use Rattle.sr_caveat.specs.View.{listed_patterns, view_pattern, keys_of};

use crate::{CPat, Kind, PatternForm};
use pv_value::{Entries, Entry, NoMemory, Node, Text, Value};
use pv_words::{AtomKind, is_word};
use std::alloc::Global;

/// The pattern that a value writes, where it is of the grammar.
#[cycle(parse_pattern)]
pub(crate) fn parse_pattern(alloc: Global, value: &Value) -> Result<Option<CPat>, NoMemory>
    ensures { IfOk result (λ p. p ≡ pattern_of value.now) }
{
    match &value.node {
        Node::Sym(name) => Ok(parse_kind(name)),
        Node::Rec(rec) => match &rec.label.node {
            Node::Sym(word) => parse_worded(alloc, word, rec.fields.as_slice()),
            _ => Ok(None),
        },
        _ => Ok(None),
    }
}

/// The pattern that a record with a word as its label writes.
#[cycle(parse_pattern)]
fn parse_worded(alloc: Global, word: &Text, parts: &[Value]) -> Result<Option<CPat>, NoMemory>
    ensures { IfOk result (λ p. p ≡ pattern_of (labelled word.now parts.now)) }
{
    match parts {
        [] => Ok(parse_bare(word)),
        [x] => parse_short(alloc, word, x),
        [label, x] => parse_record(alloc, word, label, x),
        _ => Ok(None),
    }
}

fn form(form: PatternForm) -> CPat
    ensures { result ≡ view_pattern form }
{
    CPat { form }
}

/// The kind of this name.
fn kind_named(name: &Text) -> Option<Kind>
    ensures { result ≡ kind_named name.now }
{
    if is_word(name, b"Boolean") {
        return Some(Kind::Atom(AtomKind::Boolean));
    }
    if is_word(name, b"Double") {
        return Some(Kind::Atom(AtomKind::Double));
    }
    if is_word(name, b"SignedInteger") {
        return Some(Kind::Atom(AtomKind::SignedInteger));
    }
    if is_word(name, b"String") {
        return Some(Kind::Atom(AtomKind::String));
    }
    if is_word(name, b"ByteString") {
        return Some(Kind::Atom(AtomKind::ByteString));
    }
    if is_word(name, b"Symbol") {
        return Some(Kind::Atom(AtomKind::Symbol));
    }
    if is_word(name, b"Embedded") {
        return Some(Kind::Embedded);
    }
    None
}

/// `Boolean`, `Double` and so on.
fn parse_kind(name: &Text) -> Option<CPat>
    ensures { result ≡ option_map of_kind (kind_named name.now) }
{
    match kind_named(name) {
        Some(kind) => Some(form(PatternForm::OfKind(kind))),
        None => None,
    }
}

/// `<_>`.
fn parse_bare(word: &Text) -> Option<CPat>
    ensures { result ≡ bare_pattern word.now }
{
    if is_word(word, b"_") {
        Some(form(PatternForm::Discard))
    } else {
        None
    }
}

/// `<bind p>`, `<and [p ..]>`, `<not p>`, `<lit v>`, `<arr [p ..]>`, `<dict {k: p ..}>`.
#[cycle(parse_pattern)]
fn parse_short(alloc: Global, word: &Text, x: &Value) -> Result<Option<CPat>, NoMemory>
    ensures { IfOk result (λ p. p ≡ short_pattern word.now x.now (pattern_of x.now)
        (patterns_of x.now) (patterns_under_keys x.now)) }
{
    if is_word(word, b"bind") {
        return new_bind(alloc, parse_pattern(alloc, x)?);
    }
    if is_word(word, b"and") {
        return Ok(new_and(parse_list(alloc, x)?));
    }
    if is_word(word, b"not") {
        return new_not(alloc, parse_pattern(alloc, x)?);
    }
    if is_word(word, b"lit") {
        return Ok(Some(form(PatternForm::Lit(x.copy()?))));
    }
    if is_word(word, b"arr") {
        return Ok(new_sequence(parse_list(alloc, x)?));
    }
    if is_word(word, b"dict") {
        return parse_dictionary(alloc, x);
    }
    Ok(None)
}

/// `<rec label [p ..]>`.
#[cycle(parse_pattern)]
fn parse_record(
    alloc: Global,
    word: &Text,
    label: &Value,
    x: &Value,
) -> Result<Option<CPat>, NoMemory>
    ensures { IfOk result (λ p. p ≡ record_pattern word.now label.now (patterns_of x.now)) }
{
    if !is_word(word, b"rec") {
        return Ok(None);
    }
    new_record(label, parse_list(alloc, x)?)
}

/// `[p ..]`.
#[cycle(parse_pattern)]
fn parse_list(alloc: Global, x: &Value) -> Result<Option<Vec<CPat>>, NoMemory>
    ensures { IfOk result (λ ps. option_map (λ v. listed_patterns v.items) ps
        ≡ patterns_of x.now) }
{
    match &x.node {
        Node::Seq(items) => parse_each(alloc, items.as_slice()),
        _ => Ok(None),
    }
}

#[cycle(parse_pattern)]
fn parse_each(alloc: Global, items: &[Value]) -> Result<Option<Vec<CPat>>, NoMemory>
    ensures { IfOk result (λ ps. option_map (λ v. listed_patterns v.items) ps
        ≡ patterns_in (plains items.now)) }
{
    let mut patterns = Vec::new(alloc);
    for x in items {
        let Some(pattern) = parse_pattern(alloc, x)? else {
            return Ok(None);
        };
        patterns.push(pattern)?;
    }
    Ok(Some(patterns))
}

/// `<dict {k: p ..}>`.
#[cycle(parse_pattern)]
fn parse_dictionary(alloc: Global, x: &Value) -> Result<Option<CPat>, NoMemory>
    ensures { IfOk result (λ p. p
        ≡ option_map (dictionary_with (keys_of_value x.now)) (patterns_under_keys x.now)) }
{
    match &x.node {
        Node::Dict(entries) => new_dictionary(entries, parse_values(alloc, entries.as_slice())?),
        _ => Ok(None),
    }
}

#[cycle(parse_pattern)]
fn parse_values(alloc: Global, entries: &[Entry]) -> Result<Option<Vec<CPat>>, NoMemory>
    ensures { IfOk result (λ ps. option_map (λ v. listed_patterns v.items) ps
        ≡ patterns_in_pairs (pairs (map key_and_value entries.now))) }
{
    let mut patterns = Vec::new(alloc);
    for e in entries {
        let Some(pattern) = parse_pattern(alloc, &e.value)? else {
            return Ok(None);
        };
        patterns.push(pattern)?;
    }
    Ok(Some(patterns))
}

#[inline(never)]
fn new_bind(alloc: Global, inside: Option<CPat>) -> Result<Option<CPat>, NoMemory>
    ensures { IfOk result (λ p. p ≡ option_map bind inside) }
{
    match inside {
        Some(inside) => Ok(Some(form(PatternForm::Bind(Box::new(alloc, inside)?)))),
        None => Ok(None),
    }
}

#[inline(never)]
fn new_not(alloc: Global, inside: Option<CPat>) -> Result<Option<CPat>, NoMemory>
    ensures { IfOk result (λ p. p ≡ option_map none_of inside) }
{
    match inside {
        Some(inside) => Ok(Some(form(PatternForm::Not(Box::new(alloc, inside)?)))),
        None => Ok(None),
    }
}

fn new_and(patterns: Option<Vec<CPat>>) -> Option<CPat>
    ensures { result ≡ option_map (λ ps. all_of (listed_patterns ps.items)) patterns }
{
    match patterns {
        Some(patterns) => Some(form(PatternForm::And(patterns))),
        None => None,
    }
}

fn new_sequence(patterns: Option<Vec<CPat>>) -> Option<CPat>
    ensures { result ≡ option_map (λ ps. sequence_with (listed_patterns ps.items)) patterns }
{
    match patterns {
        Some(patterns) => Some(form(PatternForm::Arr(patterns))),
        None => None,
    }
}

#[inline(never)]
fn new_record(label: &Value, patterns: Option<Vec<CPat>>) -> Result<Option<CPat>, NoMemory>
    ensures { IfOk result (λ p. p
        ≡ option_map (λ ps. record_with label.now (listed_patterns ps.items)) patterns) }
{
    match patterns {
        Some(patterns) => Ok(Some(form(PatternForm::Rec(label.copy()?, patterns)))),
        None => Ok(None),
    }
}

#[inline(never)]
fn new_dictionary(keys: &Entries, patterns: Option<Vec<CPat>>) -> Result<Option<CPat>, NoMemory>
    ensures { IfOk result (λ p. p ≡ option_map
        (λ ps. dictionary_with (keys_of keys.now) (listed_patterns ps.items)) patterns) }
{
    match patterns {
        Some(patterns) => Ok(Some(form(PatternForm::Dict(keys.copy()?, patterns)))),
        None => Ok(None),
    }
}
