//! The patterns that values write.
ghost use Rattle.std.specs.Prelude.{◌≡◌, IfOk, Some, None, map, option_map, IsTrue};
ghost use Rattle.std.specs.Prelude.{if◌then◌else◌};
ghost use Rattle.pv_value.specs.Plain.{pairs, plains};
ghost use Rattle.pv_value.specs.View.{key_and_value};
ghost use Rattle.dp_pattern.specs.Written.{pattern_of, no_field, one_field, two_fields, is_literal};
ghost use Rattle.dp_pattern.specs.Written.{is_place};
ghost use Rattle.dp_pattern.specs.Written.{group_of, bare_group, labelled_group, grouped};
ghost use Rattle.dp_pattern.specs.Written.{older_field, exact_record, exact_sequence};
ghost use Rattle.dp_pattern.specs.Written.{fields_of, fields_in, items_of, items_from};
ghost use Rattle.dp_pattern.specs.Written.{places_in, keys_fit};
ghost use Rattle.dp_pattern.specs.Patterns.{literal};
ghost use Rattle.dp_pattern.specs.View.{listed_fields, view_form};

use crate::{DPat, Extent, Field, Form, Group};
use pv_value::{Entry, NoMemory, Node, Text, Value};
use pv_words::{is_word, number, worded};
use std::alloc::Global;

/// The pattern that a value writes, where it is of the grammar.
#[cycle(parse)]
pub fn parse(alloc: Global, value: &Value) -> Result<Option<DPat>, NoMemory>
    ensures { IfOk result (λ p. p ≡ pattern_of value.now) }
{
    let Some((word, parts)) = worded(value) else {
        return Ok(None);
    };
    match parts {
        [] => Ok(parse_bare(word)),
        [x] => parse_one(alloc, word, x),
        [group, entries] => parse_two(alloc, word, group, entries),
        _ => Ok(None),
    }
}

fn form(form: Form) -> DPat
    ensures { result ≡ view_form form }
{
    DPat { form }
}

/// `<_>`.
fn parse_bare(word: &Text) -> Option<DPat>
    ensures { result ≡ no_field word.now }
{
    if is_word(word, b"_") {
        Some(form(Form::Discard))
    } else {
        None
    }
}

/// `<bind p>` or `<lit v>`, or what has one field in the older grammar.
#[cycle(parse)]
fn parse_one(alloc: Global, word: &Text, x: &Value) -> Result<Option<DPat>, NoMemory>
    ensures { IfOk result (λ p. p ≡ one_field word.now x.now (pattern_of x.now)
        (items_of x.now) (fields_of x.now)) }
{
    if is_word(word, b"bind") {
        return match parse(alloc, x)? {
            Some(pattern) => Ok(Some(form(Form::Bind(Box::new(alloc, pattern)?)))),
            None => Ok(None),
        };
    }
    if is_word(word, b"lit") {
        return parse_literal(x);
    }
    parse_older(alloc, word, x)
}

/// `<lit v>`.
fn parse_literal(x: &Value) -> Result<Option<DPat>, NoMemory>
    ensures { IfOk result (λ p. p ≡ (if is_literal x.now then Some (literal x.now) else None)) }
{
    if is_literal(x) {
        Ok(Some(form(Form::Lit(x.copy()?))))
    } else {
        Ok(None)
    }
}

/// `<arr [p ..]>` or `<dict {key: p ..}>`.
#[cycle(parse)]
fn parse_older(alloc: Global, word: &Text, x: &Value) -> Result<Option<DPat>, NoMemory>
    ensures { IfOk result (λ p. p ≡ older_field word.now (items_of x.now) (fields_of x.now)) }
{
    if is_word(word, b"arr") {
        return match parse_items(alloc, x)? {
            Some(fields) => Ok(Some(exact_sequence(fields))),
            None => Ok(None),
        };
    }
    if is_word(word, b"dict") {
        return match parse_fields(alloc, x)? {
            Some(fields) => Ok(Some(form(Form::Group(Group::InDictionary, fields)))),
            None => Ok(None),
        };
    }
    Ok(None)
}

/// `<group g {key: p ..}>` or `<rec label [p ..]>`.
#[cycle(parse)]
fn parse_two(
    alloc: Global,
    word: &Text,
    group: &Value,
    fields: &Value,
) -> Result<Option<DPat>, NoMemory>
    ensures { IfOk result (λ p. p
        ≡ two_fields word.now group.now (items_of fields.now) (fields_of fields.now)) }
{
    if is_word(word, b"group") {
        return parse_group(alloc, group, fields);
    }
    if is_word(word, b"rec") {
        return match parse_items(alloc, fields)? {
            Some(fields) => Ok(Some(exact_record(group, fields)?)),
            None => Ok(None),
        };
    }
    Ok(None)
}

/// `<rec label [p ..]>`, by its label and what its items write.
fn exact_record(label: &Value, fields: Vec<Field>) -> Result<DPat, NoMemory>
    ensures { IfOk result (λ p. p ≡ exact_record label.now (listed_fields fields.items)) }
{
    let extent = Extent::Exactly(fields.as_slice().len());
    Ok(form(Form::Group(Group::InRecord(label.copy()?, extent), fields)))
}

/// `<arr [p ..]>`, by what its items write.
fn exact_sequence(fields: Vec<Field>) -> DPat
    ensures { result ≡ exact_sequence (listed_fields fields.items) }
{
    let extent = Extent::Exactly(fields.as_slice().len());
    form(Form::Group(Group::InSequence(extent), fields))
}

#[cycle(parse)]
fn parse_group(alloc: Global, group: &Value, fields: &Value) -> Result<Option<DPat>, NoMemory>
    ensures { IfOk result (λ p. p ≡ grouped (group_of group.now) (fields_of fields.now)) }
{
    let Node::Dict(entries) = &fields.node else {
        return Ok(None);
    };
    let Some(group) = group_of(group)? else {
        return Ok(None);
    };
    if !keys_fit(&group, entries.as_slice()) {
        return Ok(None);
    }
    match parse_entries(alloc, entries.as_slice())? {
        Some(fields) => Ok(Some(form(Form::Group(group, fields)))),
        None => Ok(None),
    }
}

/// The patterns of the values of a dictionary, under their keys.
#[cycle(parse)]
fn parse_fields(alloc: Global, value: &Value) -> Result<Option<Vec<Field>>, NoMemory>
    ensures { IfOk result (λ fs. option_map (λ v. listed_fields v.items) fs ≡ fields_of value.now) }
{
    match &value.node {
        Node::Dict(entries) => parse_entries(alloc, entries.as_slice()),
        _ => Ok(None),
    }
}

/// The patterns of the entries' values, under their keys.
#[cycle(parse)]
fn parse_entries(alloc: Global, entries: &[Entry]) -> Result<Option<Vec<Field>>, NoMemory>
    ensures { IfOk result (λ fs. option_map (λ v. listed_fields v.items) fs
        ≡ fields_in (pairs (map key_and_value entries.now))) }
{
    let mut fields = Vec::new(alloc);
    for e in entries {
        let Some(pattern) = parse(alloc, &e.value)? else {
            return Ok(None);
        };
        let key = e.key.copy()?;
        fields.push(Field { key, pattern })?;
    }
    Ok(Some(fields))
}

/// The patterns of the items of a sequence, under their places.
#[cycle(parse)]
fn parse_items(alloc: Global, value: &Value) -> Result<Option<Vec<Field>>, NoMemory>
    ensures { IfOk result (λ fs. option_map (λ v. listed_fields v.items) fs ≡ items_of value.now) }
{
    match &value.node {
        Node::Seq(items) => parse_places(alloc, items.as_slice()),
        _ => Ok(None),
    }
}

/// The patterns of values, under their places from 0 on.
#[cycle(parse)]
fn parse_places(alloc: Global, values: &[Value]) -> Result<Option<Vec<Field>>, NoMemory>
    ensures { IfOk result (λ fs. option_map (λ v. listed_fields v.items) fs
        ≡ items_from 0 (plains values.now)) }
{
    let mut fields = Vec::new(alloc);
    for x in values {
        let Some(pattern) = parse(alloc, x)? else {
            return Ok(None);
        };
        let key = number(fields.as_slice().len() as u64);
        fields.push(Field { key, pattern })?;
    }
    Ok(Some(fields))
}

/// Whether the value is an atom or an embedded value.
fn is_literal(value: &Value) -> bool
    ensures { result ≡ is_literal value.now }
{
    !matches!(
        &value.node,
        Node::Rec(_) | Node::Seq(_) | Node::Set(_) | Node::Dict(_)
    )
}

/// Whether the value is the place of a field or of an item.
fn is_place(value: &Value) -> bool
    ensures { result ≡ is_place value.now }
{
    match &value.node {
        Node::Int(n) => *n >= 0 && *n < 1 << 31,
        _ => false,
    }
}

fn are_places(entries: &[Entry]) -> bool
    ensures { result ≡ places_in (pairs (map key_and_value entries.now)) }
{
    for e in entries {
        if !is_place(&e.key) {
            return false;
        }
    }
    true
}

/// Whether the keys are of the group's kind.
fn keys_fit(group: &Group, entries: &[Entry]) -> bool
    ensures { result ≡ keys_fit group.now (pairs (map key_and_value entries.now)) }
{
    match group {
        Group::InDictionary => true,
        _ => are_places(entries),
    }
}

/// The group `<rec label>`, `<arr>` or `<dict>`.
fn group_of(value: &Value) -> Result<Option<Group>, NoMemory>
    ensures { IfOk result (λ g. g ≡ group_of value.now) }
{
    let Some((word, fields)) = worded(value) else {
        return Ok(None);
    };
    match fields {
        [] => Ok(bare_group(word)),
        [label] => labelled_group(word, label),
        _ => Ok(None),
    }
}

/// `<arr>` or `<dict>`.
fn bare_group(word: &Text) -> Option<Group>
    ensures { result ≡ bare_group word.now }
{
    if is_word(word, b"arr") {
        return Some(Group::InSequence(Extent::Open));
    }
    if is_word(word, b"dict") {
        return Some(Group::InDictionary);
    }
    None
}

/// `<rec label>`.
fn labelled_group(word: &Text, label: &Value) -> Result<Option<Group>, NoMemory>
    ensures { IfOk result (λ g. g ≡ labelled_group word.now label.now) }
{
    if is_word(word, b"rec") {
        Ok(Some(Group::InRecord(label.copy()?, Extent::Open)))
    } else {
        Ok(None)
    }
}
