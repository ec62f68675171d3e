//! Which values match a pattern, and what it binds of them.
ghost use Rattle.std.specs.Prelude.{◌≡◌, ◌++◌, IfOk, OnOk, is_some, map, option_map, option_copied};
ghost use Rattle.std.specs.Prelude.{vec_items, option_and_then, unwrap_or, []};
ghost use Rattle.pv_value.specs.Plain.{plains, pairs};
ghost use Rattle.pv_value.specs.View.{key_and_value};
ghost use Rattle.sr_caveat.specs.View.{listed_patterns, keys_of};
ghost use Rattle.sr_pass.specs.Binding.{is_kind, bound, all_bound, each_bound, under_keys};
ghost use Rattle.sr_pass.specs.Binding.{fields_of, items_of, pairs_of, values_under};
ghost use Rattle.sr_pass.specs.Gathered.{gathered, all_gathered, each_gathered};
ghost use Rattle.sr_pass.specs.Gathered.{gathered_under};

use pv_value::{Entries, Entry, NoMemory, Node, Value};
use pv_words::value_under;
use sr_caveat::{CPat, Kind, PatternForm};
use std::alloc::Global;

/// Whether the value matches the pattern.
#[cycle(matching)]
pub fn matches(pattern: &CPat, value: &Value) -> bool
    ensures { result ≡ is_some (bound pattern.now value.now) }
{
    match &pattern.form {
        PatternForm::Discard => true,
        PatternForm::OfKind(kind) => is_kind(*kind, value),
        PatternForm::Bind(inside) => matches(inside, value),
        PatternForm::And(patterns) => all_match(patterns, value),
        PatternForm::Not(inside) => !matches(inside, value),
        PatternForm::Lit(literal) => literal == value,
        PatternForm::Rec(label, patterns) => is_record(label, patterns, value),
        PatternForm::Arr(patterns) => is_sequence(patterns, value),
        PatternForm::Dict(keys, patterns) => is_dictionary(keys.as_slice(), patterns, value),
    }
}

/// Whether it is a record of this label whose fields match.
#[cycle(matching)]
fn is_record(label: &Value, patterns: &[CPat], value: &Value) -> bool
    ensures { result ≡ is_some (option_and_then (each_bound (listed_patterns patterns.now))
        (fields_of label.now value.now)) }
{
    match &value.node {
        Node::Rec(rec) => { rec.label == *label && each_matches(patterns, rec.fields.as_slice()) }
        _ => false,
    }
}

/// Whether it is a sequence whose items match.
#[cycle(matching)]
fn is_sequence(patterns: &[CPat], value: &Value) -> bool
    ensures { result ≡ is_some (option_and_then (each_bound (listed_patterns patterns.now))
        (items_of value.now)) }
{
    match &value.node {
        Node::Seq(items) => each_matches(patterns, items.as_slice()),
        _ => false,
    }
}

/// Whether it is a dictionary whose values under the keys match.
#[cycle(matching)]
fn is_dictionary(keys: &[Entry], patterns: &[CPat], value: &Value) -> bool
    ensures { result ≡ is_some (option_and_then (each_bound (listed_patterns patterns.now))
        (values_under (keys_of (map key_and_value keys.now)) value.now)) }
{
    match &value.node {
        Node::Dict(entries) => each_matches_under(keys, patterns, entries),
        _ => false,
    }
}

/// Whether the value matches all patterns.
#[cycle(matching)]
fn all_match(patterns: &[CPat], value: &Value) -> bool
    ensures { result ≡ is_some (all_bound (listed_patterns patterns.now) value.now) }
{
    for pattern in patterns {
        if !matches(pattern, value) {
            return false;
        }
    }
    true
}

/// Whether each value matches its pattern, and there are as many.
#[cycle(matching)]
fn each_matches(patterns: &[CPat], values: &[Value]) -> bool
    ensures { result ≡ is_some (each_bound (listed_patterns patterns.now) (plains values.now)) }
{
    if patterns.len() != values.len() {
        return false;
    }
    for i in 0..patterns.len() {
        if !matches(&patterns[i], &values[i]) {
            return false;
        }
    }
    true
}

/// Whether each value under a key matches the key's pattern, and there are as many patterns as
/// keys.
#[cycle(matching)]
fn each_matches_under(keys: &[Entry], patterns: &[CPat], entries: &Entries) -> bool
    ensures { result ≡ is_some (option_and_then (each_bound (listed_patterns patterns.now))
        (under_keys (keys_of (map key_and_value keys.now))
        (pairs entries.now))) }
{
    if patterns.len() != keys.len() {
        return false;
    }
    for i in 0..patterns.len() {
        let Some(value) = value_under(entries, &keys[i].key) else {
            return false;
        };
        if !matches(&patterns[i], value) {
            return false;
        }
    }
    true
}

/// Whether the value is of the kind.
fn is_kind(kind: Kind, value: &Value) -> bool
    ensures { result ≡ is_kind kind value.now }
{
    match (kind, &value.node) {
        (Kind::Atom(kind), _) => kind.has(value),
        (Kind::Embedded, Node::Emb(_)) => true,
        (Kind::Embedded, _) => false,
    }
}

/// What the pattern binds of the value, in order, where it matches. Where it doesn't, nothing was
/// copied.
pub fn bindings(
    alloc: Global,
    pattern: &CPat,
    value: &Value,
) -> Result<Option<Vec<Value>>, NoMemory>
    ensures { IfOk result (λ found. option_map vec_items found ≡ bound pattern.now value.now) }
{
    if !matches(pattern, value) {
        return Ok(None);
    }
    let mut found = Vec::new(alloc);
    gather(&mut found, pattern, value)?;
    Ok(Some(found))
}

/// What the pattern binds of a value that matches, at the end of a list.
#[cycle(gather)]
fn gather(found: &mut Vec<Value>, pattern: &CPat, value: &Value) -> Result<(), NoMemory>
    ensures { OnOk result (found.new.items ≡ found.old.items ++ gathered pattern.now value.now) }
{
    match &pattern.form {
        PatternForm::Bind(inside) => {
            found.push(value.copy()?)?;
            gather(found, inside, value)
        }
        PatternForm::And(patterns) => gather_all(found, patterns, value),
        PatternForm::Rec(label, patterns) => gather_fields(found, label, patterns, value),
        PatternForm::Arr(patterns) => gather_items(found, patterns, value),
        PatternForm::Dict(keys, patterns) => {
            gather_values(found, keys.as_slice(), patterns, value)
        }
        _ => Ok(()),
    }
}

/// What the patterns bind of the fields of a record of this label.
#[cycle(gather)]
fn gather_fields(
    found: &mut Vec<Value>,
    label: &Value,
    patterns: &[CPat],
    value: &Value,
) -> Result<(), NoMemory>
    ensures { OnOk result (found.new.items ≡ found.old.items ++ unwrap_or
        (option_map (each_gathered (listed_patterns patterns.now)) (fields_of label.now value.now))
        []) }
{
    match &value.node {
        Node::Rec(rec) if rec.label == *label => {
            gather_each(found, patterns, rec.fields.as_slice())
        }
        _ => Ok(()),
    }
}

/// What the patterns bind of the items of a sequence.
#[cycle(gather)]
fn gather_items(found: &mut Vec<Value>, patterns: &[CPat], value: &Value) -> Result<(), NoMemory>
    ensures { OnOk result (found.new.items ≡ found.old.items ++ unwrap_or
        (option_map (each_gathered (listed_patterns patterns.now)) (items_of value.now)) []) }
{
    match &value.node {
        Node::Seq(items) => gather_each(found, patterns, items.as_slice()),
        _ => Ok(()),
    }
}

/// What the patterns bind of the values under the keys.
#[cycle(gather)]
fn gather_values(
    found: &mut Vec<Value>,
    keys: &[Entry],
    patterns: &[CPat],
    value: &Value,
) -> Result<(), NoMemory>
    ensures { OnOk result (found.new.items ≡ found.old.items ++ unwrap_or
        (option_map (gathered_under (listed_patterns patterns.now)
        (keys_of (map key_and_value keys.now))) (pairs_of value.now)) []) }
{
    match &value.node {
        Node::Dict(entries) => gather_under(found, keys, patterns, entries),
        _ => Ok(()),
    }
}

#[cycle(gather)]
fn gather_all(found: &mut Vec<Value>, patterns: &[CPat], value: &Value) -> Result<(), NoMemory>
    ensures { OnOk result (found.new.items
        ≡ found.old.items ++ all_gathered (listed_patterns patterns.now) value.now) }
{
    for pattern in patterns {
        gather(found, pattern, value)?;
    }
    Ok(())
}

#[cycle(gather)]
fn gather_each(found: &mut Vec<Value>, patterns: &[CPat], values: &[Value]) -> Result<(), NoMemory>
    ensures { OnOk result (found.new.items ≡ found.old.items
        ++ each_gathered (listed_patterns patterns.now) (plains values.now)) }
{
    for i in 0..patterns.len().min(values.len()) {
        gather(found, &patterns[i], &values[i])?;
    }
    Ok(())
}

#[cycle(gather)]
fn gather_under(
    found: &mut Vec<Value>,
    keys: &[Entry],
    patterns: &[CPat],
    entries: &Entries,
) -> Result<(), NoMemory>
    ensures { OnOk result (found.new.items ≡ found.old.items
        ++ gathered_under (listed_patterns patterns.now) (keys_of (map key_and_value keys.now))
        (pairs entries.now)) }
{
    for i in 0..patterns.len().min(keys.len()) {
        gather_part(found, &patterns[i], value_under(entries, &keys[i].key))?;
    }
    Ok(())
}

/// What the pattern binds of a value that may be there.
#[cycle(gather)]
fn gather_part(found: &mut Vec<Value>, pattern: &CPat, part: Option<&Value>) -> Result<(), NoMemory>
    ensures { OnOk result (found.new.items ≡ found.old.items
        ++ unwrap_or (option_map (gathered pattern.now) (option_copied part.entry)) []) }
{
    match part {
        Some(value) => gather(found, pattern, value),
        None => Ok(()),
    }
}
