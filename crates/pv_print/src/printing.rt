//! Printing values.
ghost use Rattle.std.specs.Prelude.{◌≡◌, ◌++◌, ◌∷◌, [], map, length, ◌≤◌, IfOk, OnOk};
ghost use Rattle.pv_value.specs.Plain.{plains, pairs};
ghost use Rattle.pv_value.specs.View.{key_and_value};
ghost use Rattle.pv_value.specs.Depth.{depth};
ghost use Rattle.pv_read.specs.Limits.{read_depth};
ghost use Rattle.pv_text.specs.Spells.{TextSpells};
ghost use Rattle.pv_text.specs.Reads.{BeginsWith};
ghost use Rattle.std.specs.Io.{StartsWith};
ghost use Rattle.pv_print.specs.Printed.{printed, printed_all, printed_behind};
ghost use Rattle.pv_print.specs.Printed.{printed_entries, entries_behind};

use crate::atoms::{push_double, push_int, push_quoted};
use crate::bytes::push_base64;
use crate::symbols::push_symbol;
use pv_value::{Entry, NoMemory, Node, Text, Value, push_byte, push_bytes};
use std::alloc::Global;

/// The one compact text of a value: sets and dictionaries in ascending order, one space where white
/// space is due.
pub fn print(alloc: Global, v: &Value) -> Result<Text, NoMemory>
    ensures exact { IfOk result (λ t. t ≡ printed v.now) }
    ensures spells { IfOk result (λ t. TextSpells t v.now) }
    // Read back, it is the value, where this nests no deeper than is read.
    ensures reads_back { IfOk result
        (λ t. depth v.now ≤ read_depth → BeginsWith t (length t) v.now) }
{
    let _ = &v.node;
    let mut out = Vec::new(alloc);
    print_into(&mut out, v)?;
    let text = Text::from_string(String::from_utf8(out).unwrap())?;
    Ok(text)
}

/// The same text behind what stands there; where memory runs out, some front of it may stand there.
pub fn print_into(out: &mut Vec<u8>, v: &Value) -> Result<(), NoMemory>
    ensures exact { OnOk result (out.new.items ≡ out.old.items ++ printed v.now) }
    ensures front { StartsWith out.new.items out.old.items }
{
    push_value(out, v)
}

#[cycle(push)]
fn push_value(out: &mut Vec<u8>, v: &Value) -> Result<(), NoMemory>
    ensures exact { OnOk result (out.new.items ≡ out.old.items ++ printed v.now) }
    ensures front { StartsWith out.new.items out.old.items }
{
    match &v.node {
        Node::Bool(false) => push_bytes(out, b"#f"),
        Node::Bool(true) => push_bytes(out, b"#t"),
        Node::Double(bits) => push_double(out, *bits),
        Node::Int(n) => push_int(out, *n),
        Node::Str(text) => push_quoted(out, b'"', text.as_bytes()),
        Node::Bytes(bytes) => {
            push_bytes(out, b"#[")?;
            push_base64(out, bytes.as_slice())?;
            push_byte(out, b']')
        }
        Node::Sym(text) => push_symbol(out, text.as_bytes()),
        Node::Rec(rec) => {
            push_byte(out, b'<')?;
            push_value(out, &rec.label)?;
            push_behind(out, &rec.fields, b'>')
        }
        Node::Seq(items) => {
            push_byte(out, b'[')?;
            push_all(out, items.as_slice(), b']')
        }
        Node::Set(set) => {
            push_bytes(out, b"#{")?;
            push_all(out, set.as_slice(), b'}')
        }
        Node::Dict(entries) => {
            push_byte(out, b'{')?;
            push_entries(out, entries.as_slice())
        }
        Node::Emb(inside) => {
            push_bytes(out, b"#:")?;
            push_value(out, inside)
        }
    }
}

/// Values with a space between two, and the close.
#[cycle(push)]
fn push_all(out: &mut Vec<u8>, items: &[Value], close: u8) -> Result<(), NoMemory>
    ensures exact { OnOk result (out.new.items ≡ out.old.items
        ++ (printed_all (plains items.now) ++ close ∷ [])) }
    ensures front { StartsWith out.new.items out.old.items }
{
    match items.split_first() {
        None => push_byte(out, close),
        Some((first, rest)) => {
            push_value(out, first)?;
            push_behind(out, rest, close)
        }
    }
}

/// Values each behind a space, and the close.
#[cycle(push)]
fn push_behind(out: &mut Vec<u8>, items: &[Value], close: u8) -> Result<(), NoMemory>
    ensures exact { OnOk result (out.new.items ≡ out.old.items
        ++ (printed_behind (plains items.now) ++ close ∷ [])) }
    ensures front { StartsWith out.new.items out.old.items }
{
    for x in items {
        push_byte(out, b' ')?;
        push_value(out, x)?;
    }
    push_byte(out, close)
}

/// Entries with a space between two, and the close.
#[cycle(push)]
fn push_entries(out: &mut Vec<u8>, entries: &[Entry]) -> Result<(), NoMemory>
    ensures exact { OnOk result (out.new.items ≡ out.old.items
        ++ (printed_entries (pairs (map key_and_value entries.now)) ++ 125 ∷ [])) }
    ensures front { StartsWith out.new.items out.old.items }
{
    match entries.split_first() {
        None => push_byte(out, b'}'),
        Some((first, rest)) => {
            push_entry(out, first)?;
            push_entries_behind(out, rest)
        }
    }
}

/// Entries each behind a space, and the close.
#[cycle(push)]
fn push_entries_behind(out: &mut Vec<u8>, entries: &[Entry]) -> Result<(), NoMemory>
    ensures exact { OnOk result (out.new.items ≡ out.old.items
        ++ (entries_behind (pairs (map key_and_value entries.now)) ++ 125 ∷ [])) }
    ensures front { StartsWith out.new.items out.old.items }
{
    for e in entries {
        push_byte(out, b' ')?;
        push_entry(out, e)?;
    }
    push_byte(out, b'}')
}

/// A key, a colon, a space and a value.
#[cycle(push)]
fn push_entry(out: &mut Vec<u8>, entry: &Entry) -> Result<(), NoMemory>
    ensures exact { OnOk result (out.new.items ≡ out.old.items
        ++ (printed entry.now.key ++ 58 ∷ 32 ∷ printed entry.now.value)) }
    ensures front { StartsWith out.new.items out.old.items }
{
    push_value(out, &entry.key)?;
    push_bytes(out, b": ")?;
    push_value(out, &entry.value)
}
