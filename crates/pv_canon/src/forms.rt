//! Making canonical forms.
ghost use Rattle.std.specs.Prelude.{◌≡◌, ◌≤◌, ◌++◌, ◌∷◌, [], ◌^◌, ◌-◌, min, length, map, take};
ghost use Rattle.std.specs.Prelude.{drop, true, ◌&&◌, IfOk, OnOk};
ghost use Rattle.std.specs.Io.{StartsWith};
ghost use Rattle.std.specs.List.{concat};
ghost use Rattle.std.specs.Ordering.{is_lt};
ghost use Rattle.pv_value.specs.Plain.{plains, pairs};
ghost use Rattle.pv_value.specs.View.{key_and_value};
ghost use Rattle.pv_canon.specs.Canonical.{canonical, forms, entry_forms, sorted_by, byte_order};
ghost use Rattle.pv_canon.specs.Canonical.{form_order, joined};

use pv_binary::{push_counted, tags, write_integer_into, write_into};
use pv_value::{Blob, Entry, NoMemory, Node, Value, canonical_size, push_byte, push_bytes};
use std::alloc::Global;

/// The canonical form of a value.
pub fn canon(alloc: Global, v: &Value) -> Result<Blob, NoMemory>
    ensures { IfOk result (λ b. b ≡ canonical v.now) }
{
    let mut out = Vec::new(alloc);
    canon_into(alloc, &mut out, v)?;
    let form = Blob::from_vec(out)?;
    Ok(form)
}

/// The length of the canonical form of a value, without making it. It stops at `u64::MAX`.
pub fn canon_len(v: &Value) -> u64
    ensures { result ≡ min (length (canonical v.now)) (2 ^ 64 - 1) }
{
    let _ = &v.node;
    canonical_size(v)
}

/// Appends the canonical form of a value. Where memory runs out, a part of it may stand there.
#[cycle(canon)]
pub fn canon_into(alloc: Global, out: &mut Vec<u8>, v: &Value) -> Result<(), NoMemory>
    ensures canonical { OnOk result (out.new.items ≡ out.old.items ++ canonical v.now) }
    ensures front { StartsWith out.new.items out.old.items }
{
    match &v.node {
        Node::Bool(_) | Node::Double(_) => write_into(out, v),
        Node::Int(n) => write_integer_into(out, *n),
        Node::Str(text) => push_counted(out, tags::STRING, text.as_bytes()),
        Node::Bytes(bytes) => push_counted(out, tags::BYTE_STRING, bytes.as_slice()),
        Node::Sym(text) => push_counted(out, tags::SYMBOL, text.as_bytes()),
        Node::Rec(rec) => push_record(alloc, out, &rec.label, rec.fields.as_slice()),
        Node::Seq(items) => push_sequence(alloc, out, items.as_slice()),
        Node::Set(set) => push_set(alloc, out, set.as_slice()),
        Node::Dict(entries) => push_dictionary(alloc, out, entries.as_slice()),
        Node::Emb(inside) => push_embedded(alloc, out, inside),
    }
}

// What is inside a compound is written by functions of their own, so that for an atom the kind is
// all that is looked at before its bytes are.

#[cycle(canon)]
#[inline(never)]
fn push_record(
    alloc: Global,
    out: &mut Vec<u8>,
    label: &Value,
    fields: &[Value],
) -> Result<(), NoMemory>
    ensures record { OnOk result (out.new.items ≡ out.old.items
        ++ 0xb4 ∷ (canonical label.now ++ (concat (forms (plains fields.now)) ++ 0x84 ∷ []))) }
    ensures front { StartsWith out.new.items out.old.items }
{
    push_byte(out, tags::RECORD)?;
    canon_into(alloc, out, label)?;
    push_list(alloc, out, fields)
}

#[cycle(canon)]
#[inline(never)]
fn push_sequence(alloc: Global, out: &mut Vec<u8>, items: &[Value]) -> Result<(), NoMemory>
    ensures sequence { OnOk result (out.new.items ≡ out.old.items
        ++ 0xb5 ∷ (concat (forms (plains items.now)) ++ 0x84 ∷ [])) }
    ensures front { StartsWith out.new.items out.old.items }
{
    push_byte(out, tags::SEQUENCE)?;
    push_list(alloc, out, items)
}

#[cycle(canon)]
#[inline(never)]
fn push_embedded(alloc: Global, out: &mut Vec<u8>, inside: &Value) -> Result<(), NoMemory>
    ensures embedded { OnOk result
        (out.new.items ≡ out.old.items ++ 0x86 ∷ canonical inside.now) }
    ensures front { StartsWith out.new.items out.old.items }
{
    push_byte(out, tags::EMBEDDED)?;
    canon_into(alloc, out, inside)
}

/// Values in the order of the list, and the end.
#[cycle(canon)]
fn push_list(alloc: Global, out: &mut Vec<u8>, items: &[Value]) -> Result<(), NoMemory>
    ensures list { OnOk result
        (out.new.items ≡ out.old.items ++ (concat (forms (plains items.now)) ++ 0x84 ∷ [])) }
    ensures front { StartsWith out.new.items out.old.items }
{
    for x in items {
        canon_into(alloc, out, x)?;
    }
    push_byte(out, tags::END)
}

/// The tag, values in the order of the bytes of their forms, and the end.
#[cycle(canon)]
#[inline(never)]
fn push_set(alloc: Global, out: &mut Vec<u8>, items: &[Value]) -> Result<(), NoMemory>
    ensures set { OnOk result (out.new.items ≡ out.old.items
        ++ 0xb6 ∷ (concat (sorted_by byte_order (forms (plains items.now))) ++ 0x84 ∷ [])) }
    ensures front { StartsWith out.new.items out.old.items }
{
    push_byte(out, tags::SET)?;
    let start = out.len();
    if !push_forms(alloc, out, items)? {
        sort_from(alloc, out, start, items)?;
    }
    push_byte(out, tags::END)
}

/// The tag, entries in the order of the bytes of their keys' forms, and the end.
#[cycle(canon)]
#[inline(never)]
fn push_dictionary(alloc: Global, out: &mut Vec<u8>, entries: &[Entry]) -> Result<(), NoMemory>
    ensures dictionary { OnOk result (out.new.items ≡ out.old.items ++ 0xb7 ∷ (concat (map joined
        (sorted_by form_order (entry_forms (pairs (map key_and_value entries.now)))))
        ++ 0x84 ∷ [])) }
    ensures front { StartsWith out.new.items out.old.items }
{
    push_byte(out, tags::DICTIONARY)?;
    let start = out.len();
    if !push_entry_forms(alloc, out, entries)? {
        sort_entries_from(alloc, out, start, entries)?;
    }
    push_byte(out, tags::END)
}

/// The forms of values in the order of the list, and whether they rise.
#[cycle(canon)]
fn push_forms(alloc: Global, out: &mut Vec<u8>, items: &[Value]) -> Result<bool, NoMemory>
    ensures forms { OnOk result
        (out.new.items ≡ out.old.items ++ concat (forms (plains items.now))) }
    ensures rising { IfOk result (λ rising. rising ≡ true
        → sorted_by byte_order (forms (plains items.now)) ≡ forms (plains items.now)) }
    ensures front { StartsWith out.new.items out.old.items }
{
    let mut from = out.len();
    let mut until = from;
    let mut rising = true;
    for x in items {
        let next = out.len();
        canon_into(alloc, out, x)?;
        rising = rises(rising, out.as_slice(), from, until, next);
        from = next;
        until = out.len();
    }
    Ok(rising)
}

/// The forms of keys and values by turns in the order of the list, and whether those of the keys
/// rise.
#[cycle(canon)]
fn push_entry_forms(alloc: Global, out: &mut Vec<u8>, entries: &[Entry]) -> Result<bool, NoMemory>
    ensures forms { OnOk result (out.new.items ≡ out.old.items
        ++ concat (map joined (entry_forms (pairs (map key_and_value entries.now))))) }
    ensures rising { IfOk result (λ rising. rising ≡ true
        → sorted_by form_order (entry_forms (pairs (map key_and_value entries.now)))
        ≡ entry_forms (pairs (map key_and_value entries.now))) }
    ensures front { StartsWith out.new.items out.old.items }
{
    let mut from = out.len();
    let mut until = from;
    let mut rising = true;
    for e in entries {
        let next = out.len();
        canon_into(alloc, out, &e.key)?;
        rising = rises(rising, out.as_slice(), from, until, next);
        from = next;
        until = out.len();
        canon_into(alloc, out, &e.value)?;
    }
    Ok(rising)
}

/// Whether all rose so far, and the bytes between two places come before those from `next` on.
fn rises(rising: bool, out: &[u8], from: usize, until: usize, next: usize) -> bool
    requires forward { from ≤ until }
    requires inside { until ≤ length out.now }
    requires behind { next ≤ length out.now }
    ensures { result ≡ (rising
        && is_lt (byte_order (take (until - from) (drop from out.now)) (drop next out.now))) }
{
    rising && out[from..until].cmp(&out[next..]).is_lt()
}

/// Puts the forms of these values, which stand from `start` on, in the order of their bytes.
fn sort_from(
    alloc: Global,
    out: &mut Vec<u8>,
    start: usize,
    items: &[Value],
) -> Result<(), NoMemory>
    requires inside { start ≤ length out.old.items }
    requires forms { drop start out.old.items ≡ concat (forms (plains items.now)) }
    ensures sorted { OnOk result (out.new.items ≡ take start out.old.items
        ++ concat (sorted_by byte_order (forms (plains items.now)))) }
    ensures front { StartsWith out.new.items (take start out.old.items) }
{
    let mut forms = cut_forms(alloc, &out[start..], items)?;
    sort_forms(&mut forms);
    out.truncate(start);
    for form in &forms {
        push_bytes(out, form)?;
    }
    Ok(())
}

/// Puts the forms of these entries, which stand from `start` on, in the order of their keys' bytes.
fn sort_entries_from(
    alloc: Global,
    out: &mut Vec<u8>,
    start: usize,
    entries: &[Entry],
) -> Result<(), NoMemory>
    requires inside { start ≤ length out.old.items }
    requires forms { drop start out.old.items
        ≡ concat (map joined (entry_forms (pairs (map key_and_value entries.now)))) }
    ensures sorted { OnOk result (out.new.items ≡ take start out.old.items ++ concat (map joined
        (sorted_by form_order (entry_forms (pairs (map key_and_value entries.now)))))) }
    ensures front { StartsWith out.new.items (take start out.old.items) }
{
    let mut forms = cut_entries(alloc, &out[start..], entries)?;
    sort_entries(&mut forms);
    out.truncate(start);
    for (key, value) in &forms {
        push_bytes(out, key)?;
        push_bytes(out, value)?;
    }
    Ok(())
}

/// The forms of these values one by one, which the bytes are.
fn cut_forms(alloc: Global, bytes: &[u8], items: &[Value]) -> Result<Vec<Vec<u8>>, NoMemory>
    requires { bytes.now ≡ concat (forms (plains items.now)) }
    ensures { IfOk result (λ cut. map (λ f. f.items) cut.items ≡ forms (plains items.now)) }
{
    let mut forms = Vec::new(alloc);
    let mut rest = bytes;
    for x in items {
        let (form, behind) = split_form(rest, x);
        forms.push(Vec::from_slice(alloc, form)?)?;
        rest = behind;
    }
    Ok(forms)
}

/// The forms of these entries one by one, which the bytes are.
fn cut_entries(
    alloc: Global,
    bytes: &[u8],
    entries: &[Entry],
) -> Result<Vec<(Vec<u8>, Vec<u8>)>, NoMemory>
    requires { bytes.now
        ≡ concat (map joined (entry_forms (pairs (map key_and_value entries.now)))) }
    ensures { IfOk result (λ cut. map (λ e. (e.0.items, e.1.items)) cut.items
        ≡ entry_forms (pairs (map key_and_value entries.now))) }
{
    let mut forms = Vec::new(alloc);
    let mut rest = bytes;
    for e in entries {
        let (key, behind) = split_form(rest, &e.key);
        let (value, behind) = split_form(behind, &e.value);
        let key = Vec::from_slice(alloc, key)?;
        let value = Vec::from_slice(alloc, value)?;
        forms.push((key, value))?;
        rest = behind;
    }
    Ok(forms)
}

/// The form of the value, which the bytes begin with, and the bytes behind it.
fn split_form<'a>(bytes: &'a [u8], v: &Value) -> (&'a [u8], &'a [u8])
    requires { StartsWith bytes.now (canonical v.now) }
    ensures form { result.0.now ≡ canonical v.now }
    ensures behind { bytes.now ≡ canonical v.now ++ result.1.now }
{
    bytes.split_at(canon_len(v) as usize)
}

fn sort_forms(forms: &mut Vec<Vec<u8>>)
    ensures { map (λ f. f.items) forms.new.items ≡
        sorted_by byte_order (map (λ f. f.items) forms.old.items) }
{
    forms.sort_unstable();
}

fn sort_entries(forms: &mut Vec<(Vec<u8>, Vec<u8>)>)
    ensures { map (λ e. (e.0.items, e.1.items)) forms.new.items ≡
        sorted_by form_order (map (λ e. (e.0.items, e.1.items)) forms.old.items) }
{
    forms.sort_unstable();
}
