//! Writing values.
ghost use Rattle.std.specs.Prelude.{◌≡◌, ◌++◌, ◌∷◌, [], map, IfOk, OnOk};
ghost use Rattle.std.specs.Int.{w64, to_be_bytes};
ghost use Rattle.std.specs.Io.{StartsWith};
ghost use Rattle.pv_value.specs.Plain.{integer, plains, pairs};
ghost use Rattle.pv_value.specs.View.{key_and_value};
ghost use Rattle.pv_binary.specs.Numbers.{varint, repeats_sign, minimal, int_bytes, counted};
ghost use Rattle.pv_binary.specs.Written.{written, written_all, written_pairs};
ghost use Rattle.pv_binary.specs.Spells.{Spells};

use crate::tags;
use pv_value::{Blob, Entry, NoMemory, Node, Value, push_byte, push_bytes};
use std::alloc::Global;

/// How many bytes spell a double.
const DOUBLE_SIZE: usize = 10;

/// The most bytes of a tag and a count.
const MOST_BEFORE_BYTES: usize = 11;

/// The written spelling of a value: sets and dictionaries in ascending order.
pub fn write(alloc: Global, v: &Value) -> Result<Blob, NoMemory>
    ensures written { IfOk result (λ b. b ≡ written v.now) }
    ensures spells { IfOk result (λ b. Spells b v.now) }
{
    let _ = &v.node;
    let mut out = Vec::new(alloc);
    write_into(&mut out, v)?;
    let spelling = Blob::from_vec(out)?;
    Ok(spelling)
}

/// Appends the written spelling of a value. Where memory runs out, a part of it may stand there.
#[cycle(write)]
pub fn write_into(out: &mut Vec<u8>, v: &Value) -> Result<(), NoMemory>
    ensures written { OnOk result (out.new.items ≡ out.old.items ++ written v.now) }
    ensures front { StartsWith out.new.items out.old.items }
{
    match &v.node {
        Node::Bool(false) => push_byte(out, tags::FALSE),
        Node::Bool(true) => push_byte(out, tags::TRUE),
        Node::Double(bits) => push_double(out, *bits),
        Node::Int(n) => push_int(out, *n),
        Node::Str(text) => push_counted(out, tags::STRING, text.as_bytes()),
        Node::Bytes(bytes) => push_counted(out, tags::BYTE_STRING, bytes.as_slice()),
        Node::Sym(text) => push_counted(out, tags::SYMBOL, text.as_bytes()),
        Node::Rec(rec) => push_record(out, &rec.label, rec.fields.as_slice()),
        Node::Seq(items) => push_list(out, tags::SEQUENCE, items.as_slice()),
        Node::Set(set) => push_list(out, tags::SET, set.as_slice()),
        Node::Dict(entries) => push_dictionary(out, entries.as_slice()),
        Node::Emb(inside) => push_embedded(out, inside),
    }
}

// What is inside a compound is written by functions of their own, so that for an atom the kind is
// all that is looked at before its bytes are.

#[cycle(write)]
#[inline(never)]
fn push_record(out: &mut Vec<u8>, label: &Value, fields: &[Value]) -> Result<(), NoMemory>
    ensures all { OnOk result (out.new.items ≡ out.old.items
        ++ 0xb4 ∷ (written label.now ++ (written_all (plains fields.now) ++ 0x84 ∷ []))) }
    ensures front { StartsWith out.new.items out.old.items }
{
    push_byte(out, tags::RECORD)?;
    write_into(out, label)?;
    push_all(out, fields)
}

/// The tag, values, and the end.
#[cycle(write)]
#[inline(never)]
fn push_list(out: &mut Vec<u8>, tag: u8, items: &[Value]) -> Result<(), NoMemory>
    ensures all { OnOk result (out.new.items ≡ out.old.items
        ++ tag ∷ (written_all (plains items.now) ++ 0x84 ∷ [])) }
    ensures front { StartsWith out.new.items out.old.items }
{
    push_byte(out, tag)?;
    push_all(out, items)
}

#[cycle(write)]
#[inline(never)]
fn push_dictionary(out: &mut Vec<u8>, entries: &[Entry]) -> Result<(), NoMemory>
    ensures all { OnOk result (out.new.items ≡ out.old.items
        ++ 0xb7 ∷ (written_pairs (pairs (map key_and_value entries.now)) ++ 0x84 ∷ [])) }
    ensures front { StartsWith out.new.items out.old.items }
{
    push_byte(out, tags::DICTIONARY)?;
    push_entries(out, entries)
}

#[cycle(write)]
#[inline(never)]
fn push_embedded(out: &mut Vec<u8>, inside: &Value) -> Result<(), NoMemory>
    ensures all { OnOk result (out.new.items ≡ out.old.items ++ 0x86 ∷ written inside.now) }
    ensures front { StartsWith out.new.items out.old.items }
{
    push_byte(out, tags::EMBEDDED)?;
    write_into(out, inside)
}

/// Values, and the end.
#[cycle(write)]
fn push_all(out: &mut Vec<u8>, items: &[Value]) -> Result<(), NoMemory>
    ensures all { OnOk result
        (out.new.items ≡ out.old.items ++ (written_all (plains items.now) ++ 0x84 ∷ [])) }
    ensures front { StartsWith out.new.items out.old.items }
{
    for x in items {
        write_into(out, x)?;
    }
    push_byte(out, tags::END)
}

/// Keys and values by turns, and the end.
#[cycle(write)]
fn push_entries(out: &mut Vec<u8>, entries: &[Entry]) -> Result<(), NoMemory>
    ensures all { OnOk result (out.new.items ≡
        out.old.items ++ (written_pairs (pairs (map key_and_value entries.now)) ++ 0x84 ∷ [])) }
    ensures front { StartsWith out.new.items out.old.items }
{
    for e in entries {
        write_into(out, &e.key)?;
        write_into(out, &e.value)?;
    }
    push_byte(out, tags::END)
}

fn push_double(out: &mut Vec<u8>, bits: u64) -> Result<(), NoMemory>
    ensures all { OnOk result (out.new.items ≡ out.old.items ++ 0x87 ∷ 8 ∷ to_be_bytes w64 bits) }
    ensures front { StartsWith out.new.items out.old.items }
{
    out.reserve(DOUBLE_SIZE)?;
    push_byte(out, tags::DOUBLE)?;
    push_byte(out, tags::DOUBLE_BYTES)?;
    push_bytes(out, &bits.to_be_bytes())
}

/// Appends the written spelling of an integer. Where memory runs out, a part of it may stand there.
pub fn write_integer_into(out: &mut Vec<u8>, n: i128) -> Result<(), NoMemory>
    ensures written { OnOk result (out.new.items ≡ out.old.items ++ written (integer n)) }
    ensures front { StartsWith out.new.items out.old.items }
{
    push_int(out, n)
}

fn push_int(out: &mut Vec<u8>, n: i128) -> Result<(), NoMemory>
    ensures all { OnOk result (out.new.items ≡ out.old.items ++ 0xb0 ∷ counted (int_bytes n)) }
    ensures front { StartsWith out.new.items out.old.items }
{
    if n == 0 {
        return push_bytes(out, &[tags::INTEGER, 0]);
    }
    if -0x80 <= n && n < 0x80 {
        let [byte] = (n as i8).to_be_bytes();
        return push_bytes(out, &[tags::INTEGER, 1, byte]);
    }
    if -0x8000_0000 <= n && n < 0x8000_0000 {
        return push_narrow(out, (n as i32).to_be_bytes());
    }
    push_long_int(out, n)
}

/// The integer of these four bytes, without those that only repeat the sign.
#[tactic(auto, unfolding(crate::specs::Numbers::varint))]
fn push_narrow(out: &mut Vec<u8>, bytes: [u8; 4]) -> Result<(), NoMemory>
    ensures all { OnOk result (out.new.items ≡ out.old.items ++ 0xb0 ∷ counted (minimal bytes)) }
    ensures front { StartsWith out.new.items out.old.items }
{
    let [a, b, c, d] = bytes;
    if !repeats_sign(a, b) {
        return push_bytes(out, &[tags::INTEGER, 4, a, b, c, d]);
    }
    if !repeats_sign(b, c) {
        return push_bytes(out, &[tags::INTEGER, 3, b, c, d]);
    }
    if !repeats_sign(c, d) {
        return push_bytes(out, &[tags::INTEGER, 2, c, d]);
    }
    push_counted(out, tags::INTEGER, without_sign_bytes(&[d]))
}

/// The same, where four bytes don't do.
fn push_long_int(out: &mut Vec<u8>, n: i128) -> Result<(), NoMemory>
    ensures all { OnOk result (out.new.items ≡ out.old.items ++ 0xb0 ∷ counted (int_bytes n)) }
    ensures front { StartsWith out.new.items out.old.items }
{
    if -0x8000_0000_0000_0000 <= n && n < 0x8000_0000_0000_0000 {
        let bytes = (n as i64).to_be_bytes();
        return push_counted(out, tags::INTEGER, without_sign_bytes(&bytes));
    }
    let bytes = n.to_be_bytes();
    push_counted(out, tags::INTEGER, without_sign_bytes(&bytes))
}

/// Two's complement without bytes that only repeat the sign.
fn without_sign_bytes(bytes: &[u8]) -> &[u8]
    ensures { result.now ≡ minimal bytes.now }
{
    let mut rest = bytes;
    while let [b, c, ..] = rest {
        if !repeats_sign(*b, *c) {
            return rest;
        }
        rest = &rest[1..];
    }
    match rest {
        [0] => &[],
        _ => rest,
    }
}

/// Whether `b` only repeats the sign that the next byte has.
#[inline(always)]
pub(crate) fn repeats_sign(b: u8, next: u8) -> bool
    ensures { result ≡ repeats_sign b next }
{
    (b == 0 && next < 128) || (b == 255 && next >= 128)
}

/// Appends a tag, a count, and as many bytes. Where memory runs out, a part of it may stand there.
pub fn push_counted(out: &mut Vec<u8>, tag: u8, bytes: &[u8]) -> Result<(), NoMemory>
    ensures all { OnOk result (out.new.items ≡ out.old.items ++ tag ∷ counted bytes.now) }
    ensures front { StartsWith out.new.items out.old.items }
{
    let count = bytes.len();
    if count < 0x80 {
        push_bytes(out, &[tag, count as u8])?;
        return push_bytes(out, bytes);
    }
    out.reserve(count.saturating_add(MOST_BEFORE_BYTES))?;
    push_byte(out, tag)?;
    push_varint(out, count as u64)?;
    push_bytes(out, bytes)
}

/// A number in bytes of seven bits, the lowest first.
fn push_varint(out: &mut Vec<u8>, n: u64) -> Result<(), NoMemory>
    ensures all { OnOk result (out.new.items ≡ out.old.items ++ varint n) }
    ensures front { StartsWith out.new.items out.old.items }
{
    let mut rest = n;
    while rest >= 128 {
        push_byte(out, (rest % 128) as u8 + 128)?;
        rest /= 128;
    }
    push_byte(out, rest as u8)
}
