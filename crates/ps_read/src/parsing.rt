//! The patterns that values write.
ghost use Rattle.std.specs.Prelude.{◌≡◌, IfOk, map, option_map, Some};
ghost use Rattle.pv_value.specs.Plain.{plains, pairs, set_of, dictionary};
ghost use Rattle.pv_value.specs.View.{key_and_value};
ghost use Rattle.ps_schema.specs.Patterns.{patterns, literal, embedded_as, record_with};
ghost use Rattle.ps_schema.specs.Patterns.{record_of_both, set_of_all, dictionary_of_all};
ghost use Rattle.ps_schema.specs.Patterns.{dictionary_with, tuple};
ghost use Rattle.ps_schema.specs.View.{listed_fields};
ghost use Rattle.ps_read.specs.Written.{pattern_of, patterns_of, items_of, fields_of, is_sign};
ghost use Rattle.ps_read.specs.Written.{is_bare, pair_of, record_pattern, open_items};
ghost use Rattle.ps_read.specs.Written.{with_rest, is_and_so_on};

use crate::names::{pattern, symbol_pattern};
use ps_schema::{Field, Form, Pattern};
use pv_value::{Entry, NoMemory, Node, Value};
use pv_words::is_word;
use std::alloc::Global;

/// The pattern that a value writes, where it is of the grammar.
#[cycle(parse)]
pub(crate) fn parse(alloc: Global, value: &Value) -> Result<Option<Pattern>, NoMemory>
    ensures { IfOk result (λ p. p ≡ pattern_of value.now) }
{
    match &value.node {
        Node::Sym(text) => symbol_pattern(alloc, text),
        Node::Emb(inside) => embedded(alloc, parse(alloc, inside)?),
        Node::Rec(rec) => parse_record(alloc, &rec.label, &rec.fields),
        Node::Seq(items) => parse_items(alloc, items.as_slice()),
        Node::Set(elements) => parse_set(alloc, elements.as_slice()),
        Node::Dict(entries) => parse_dictionary(alloc, entries.as_slice()),
        _ => literal(value),
    }
}

/// `<<lit> v>`, `<<rec> L F>` or `<label P ..>`.
#[cycle(parse)]
fn parse_record(alloc: Global, label: &Value, fields: &[Value]) -> Result<Option<Pattern>, NoMemory>
    ensures { IfOk result (λ p. p
        ≡ record_pattern label.now (plains fields.now) (patterns_of (plains fields.now))) }
{
    match fields {
        [] => labelled(label, parse_all(alloc, fields)?),
        [value] => {
            if is_bare(label, b"lit") {
                literal(value)
            } else {
                labelled(label, parse_all(alloc, fields)?)
            }
        }
        [first, second] => {
            if is_bare(label, b"rec") {
                record_of_both(alloc, parse_pair(alloc, first, second)?)
            } else {
                labelled(label, parse_all(alloc, fields)?)
            }
        }
        _ => labelled(label, parse_all(alloc, fields)?),
    }
}

/// The patterns of two values, where both are of the grammar.
#[cycle(parse)]
fn parse_pair(
    alloc: Global,
    first: &Value,
    second: &Value,
) -> Result<Option<(Pattern, Pattern)>, NoMemory>
    ensures { IfOk result (λ p. option_map (λ x. (x.0, x.1)) p
        ≡ pair_of (pattern_of first.now) (pattern_of second.now)) }
{
    let Some(first) = parse(alloc, first)? else {
        return Ok(None);
    };
    match parse(alloc, second)? {
        Some(second) => Ok(Some((first, second))),
        None => Ok(None),
    }
}

/// `[P ..]`, `[P .. Q ...]`.
#[cycle(parse)]
fn parse_items(alloc: Global, items: &[Value]) -> Result<Option<Pattern>, NoMemory>
    ensures { IfOk result (λ p. p ≡ items_of (plains items.now)) }
{
    match items.split_last() {
        Some((dots, others)) => {
            if is_sign(dots, b"...") {
                parse_open(alloc, others)
            } else {
                Ok(tuple(parse_all(alloc, items)?))
            }
        }
        None => Ok(tuple(parse_all(alloc, items)?)),
    }
}

/// `[P .. Q ...]`, of which these are the items before `...`.
#[cycle(parse)]
fn parse_open(alloc: Global, items: &[Value]) -> Result<Option<Pattern>, NoMemory>
    ensures { IfOk result (λ p. p ≡ open_items (plains items.now)) }
{
    match items.split_last() {
        Some((rest, firsts)) => {
            let firsts = parse_all(alloc, firsts)?;
            with_rest(alloc, firsts, parse(alloc, rest)?)
        }
        None => Ok(None),
    }
}

#[cycle(parse)]
fn parse_all(alloc: Global, values: &[Value]) -> Result<Option<Vec<Pattern>>, NoMemory>
    ensures { IfOk result (λ ps. option_map (λ v. patterns v.items) ps
        ≡ patterns_of (plains values.now)) }
{
    let mut all = Vec::new(alloc);
    for value in values {
        let Some(pattern) = parse(alloc, value)? else {
            return Ok(None);
        };
        all.push(pattern)?;
    }
    Ok(Some(all))
}

/// `#{P}`.
#[cycle(parse)]
fn parse_set(alloc: Global, elements: &[Value]) -> Result<Option<Pattern>, NoMemory>
    ensures { IfOk result (λ p. p ≡ pattern_of (set_of (plains elements.now))) }
{
    match elements {
        [] => Ok(None),
        [element] => set_of_all(alloc, parse(alloc, element)?),
        _ => Ok(None),
    }
}

/// `{K: V ...:...}` or `{key: P ..}`.
#[cycle(parse)]
fn parse_dictionary(alloc: Global, entries: &[Entry]) -> Result<Option<Pattern>, NoMemory>
    ensures { IfOk result (λ p. p ≡ pattern_of
        (dictionary (pairs (map key_and_value entries.now)))) }
{
    match entries {
        [] => Ok(by_keys(parse_fields(alloc, entries)?)),
        [_] => Ok(by_keys(parse_fields(alloc, entries)?)),
        [first, second] => {
            if is_and_so_on(first) {
                dictionary_of_all(alloc, parse_pair(alloc, &second.key, &second.value)?)
            } else if is_and_so_on(second) {
                dictionary_of_all(alloc, parse_pair(alloc, &first.key, &first.value)?)
            } else {
                Ok(by_keys(parse_fields(alloc, entries)?))
            }
        }
        _ => Ok(by_keys(parse_fields(alloc, entries)?)),
    }
}

#[cycle(parse)]
fn parse_fields(alloc: Global, entries: &[Entry]) -> Result<Option<Vec<Field>>, NoMemory>
    ensures { IfOk result (λ fs. option_map (λ v. listed_fields v.items) fs
        ≡ fields_of (pairs (map key_and_value entries.now))) }
{
    let mut fields = Vec::new(alloc);
    for e in entries {
        let Some(pattern) = parse(alloc, &e.value)? else {
            return Ok(None);
        };
        let key = e.key.copy()?;
        fields.push(Field { key, pattern })?;
    }
    Ok(Some(fields))
}

// ---- patterns of patterns that were read

fn literal(value: &Value) -> Result<Option<Pattern>, NoMemory>
    ensures { IfOk result (λ p. p ≡ Some (literal value.now)) }
{
    Ok(Some(pattern(Form::Literal(value.copy()?))))
}

/// `#:P`.
fn embedded(alloc: Global, inside: Option<Pattern>) -> Result<Option<Pattern>, NoMemory>
    ensures { IfOk result (λ p. p ≡ option_map embedded_as inside) }
{
    match inside {
        Some(inside) => Ok(Some(pattern(Form::Embedded(Box::new(alloc, inside)?)))),
        None => Ok(None),
    }
}

/// `<label P ..>`.
fn labelled(label: &Value, fields: Option<Vec<Pattern>>) -> Result<Option<Pattern>, NoMemory>
    ensures { IfOk result (λ p. p
        ≡ option_map (λ v. record_with label.now (patterns v.items)) fields) }
{
    match fields {
        Some(fields) => Ok(Some(pattern(Form::Record(label.copy()?, fields)))),
        None => Ok(None),
    }
}

/// `<<rec> L F>`.
fn record_of_both(
    alloc: Global,
    both: Option<(Pattern, Pattern)>,
) -> Result<Option<Pattern>, NoMemory>
    ensures { IfOk result (λ p. p ≡ option_map (λ x. record_of_both x.0 x.1) both) }
{
    match both {
        Some((label, fields)) => {
            let label = Box::new(alloc, label)?;
            let fields = Box::new(alloc, fields)?;
            Ok(Some(pattern(Form::RecordOf(label, fields))))
        }
        None => Ok(None),
    }
}

/// `{K: V ...:...}`.
fn dictionary_of_all(
    alloc: Global,
    both: Option<(Pattern, Pattern)>,
) -> Result<Option<Pattern>, NoMemory>
    ensures { IfOk result (λ p. p ≡ option_map (λ x. dictionary_of_all x.0 x.1) both) }
{
    match both {
        Some((key, value)) => {
            let key = Box::new(alloc, key)?;
            let value = Box::new(alloc, value)?;
            Ok(Some(pattern(Form::DictOf(key, value))))
        }
        None => Ok(None),
    }
}

/// `[P ..]`.
fn tuple(items: Option<Vec<Pattern>>) -> Option<Pattern>
    ensures { result ≡ option_map (λ v. tuple (patterns v.items)) items }
{
    match items {
        Some(items) => Some(pattern(Form::Tuple(items))),
        None => None,
    }
}

/// `[P .. Q ...]`.
fn with_rest(
    alloc: Global,
    firsts: Option<Vec<Pattern>>,
    rest: Option<Pattern>,
) -> Result<Option<Pattern>, NoMemory>
    ensures { IfOk result (λ p. p
        ≡ with_rest (option_map (λ v. patterns v.items) firsts) rest) }
{
    let Some(firsts) = firsts else {
        return Ok(None);
    };
    match rest {
        Some(rest) => {
            let rest = Box::new(alloc, rest)?;
            Ok(Some(pattern(Form::TupleWithRest(firsts, rest))))
        }
        None => Ok(None),
    }
}

/// `#{P}`.
fn set_of_all(alloc: Global, element: Option<Pattern>) -> Result<Option<Pattern>, NoMemory>
    ensures { IfOk result (λ p. p ≡ option_map set_of_all element) }
{
    match element {
        Some(element) => Ok(Some(pattern(Form::SetOf(Box::new(alloc, element)?)))),
        None => Ok(None),
    }
}

/// `{key: P ..}`.
fn by_keys(fields: Option<Vec<Field>>) -> Option<Pattern>
    ensures { result ≡ option_map (λ v. dictionary_with (listed_fields v.items)) fields }
{
    match fields {
        Some(fields) => Some(pattern(Form::Dict(fields))),
        None => None,
    }
}

/// Whether the value is the symbol of this word.
pub(crate) fn is_sign(value: &Value, word: &[u8]) -> bool
    ensures { result ≡ is_sign word.now value.now }
{
    match &value.node {
        Node::Sym(text) => is_word(text, word),
        _ => false,
    }
}

/// Whether the value is a record without fields, labelled by this word.
fn is_bare(value: &Value, word: &[u8]) -> bool
    ensures { result ≡ is_bare word.now value.now }
{
    match &value.node {
        Node::Rec(rec) => match rec.fields.as_slice() {
            [] => is_sign(&rec.label, word),
            _ => false,
        },
        _ => false,
    }
}

/// Whether the entry is `...:...`.
fn is_and_so_on(entry: &Entry) -> bool
    ensures { result ≡ is_and_so_on entry.now.key entry.now.value }
{
    is_sign(&entry.key, b"...") && is_sign(&entry.value, b"...")
}
