//! Signed references as values.
ghost use Rattle.std.specs.Prelude.{◌≡◌, IfOk, MatchOption, None, Some, option_copied, codes};
ghost use Rattle.std.specs.Prelude.{[], ◌∷◌, option_and_then, map};
ghost use Rattle.pv_value.specs.Plain.{pairs, symbol, dictionary};
ghost use Rattle.pv_value.specs.View.{key_and_value};
ghost use Rattle.pv_words.specs.Words.{labelled};
ghost use Rattle.gk_sturdy.specs.Refs.{under, oid_in, sig_in, caveats_in, ref_in, ref_of};
ghost use Rattle.gk_sturdy.specs.Refs.{caveats_entry, ref_entries, ref_value, IsReadable};

use pv_value::{Blob, Entries, Entry, Items, NoMemory, Node, Text, Value};
use pv_words::{is_word, labelled, value_under, worded};
use sr_caveat::has_embedded;
use std::alloc::Global;

/// A signed reference: what it names, the caveats that were put behind it, the oldest first, and
/// the signature, of 16 bytes where it is a valid one.
#[derive(Drop)]
pub struct SturdyRef {
    pub oid: Value,
    pub sig: Blob,
    pub caveats: Items,
}

/// The reference that a value is: `<ref {oid: any, sig: bytes, caveats: [Caveat ..]}>`. Other keys
/// may stand beside these, and `caveats` may be absent. One in whose oid or caveats a value is
/// embedded is none.
pub fn read_ref(alloc: Global, value: &Value) -> Result<Option<SturdyRef>, NoMemory>
    ensures { IfOk result (λ r. r ≡ ref_of value.now) }
{
    match entries_in(value) {
        Some(entries) => ref_in(alloc, entries),
        None => Ok(None),
    }
}

impl SturdyRef {
    /// The value of the reference, from which an empty list of caveats is left out.
    pub fn to_value(&self, alloc: Global) -> Result<Value, NoMemory>
        ensures written { IfOk result (λ v. v ≡ ref_value self.now) }
        ensures read_back { IsReadable self.now → IfOk result (λ v. ref_of v ≡ Some self.now) }
    {
        let mut fields = Vec::new(alloc);
        fields.push(ref_dictionary(alloc, self)?)?;
        labelled(alloc, "ref", fields)
    }
}

/// The entries of a record `<ref {..}>`.
fn entries_in(value: &Value) -> Option<&Entries>
    ensures { MatchOption result (ref_of value.now ≡ None)
        (λ ps. ref_of value.now ≡ ref_in (pairs ps.now)) }
{
    let (word, fields) = worded(value)?;
    if !is_word(word, b"ref") || fields.len() != 1 {
        return None;
    }
    let field = &fields[0];
    match &field.node {
        Node::Dict(entries) => Some(entries),
        _ => None,
    }
}

/// The reference of these entries.
fn ref_in(alloc: Global, entries: &Entries) -> Result<Option<SturdyRef>, NoMemory>
    ensures { IfOk result (λ r. r ≡ ref_in (pairs entries.now)) }
{
    let Some(oid) = oid_in(alloc, entries)? else {
        return Ok(None);
    };
    let Some(sig) = sig_in(alloc, entries)? else {
        return Ok(None);
    };
    let Some(caveats) = caveats_in(alloc, entries)? else {
        return Ok(None);
    };
    let oid = oid.copy()?;
    let sig = sig.copy()?;
    Ok(Some(SturdyRef { oid, sig, caveats }))
}

/// What stands under a symbol.
fn under<'a>(alloc: Global, word: &str, entries: &'a Entries) -> Result<Option<&'a Value>, NoMemory>
    ensures { IfOk result (λ v. option_copied v ≡ under word.now (pairs entries.now)) }
{
    let key = Value::symbol(Text::from_str(alloc, word)?);
    Ok(value_under(entries, &key))
}

/// The oid, where nothing is embedded in it.
fn oid_in(alloc: Global, entries: &Entries) -> Result<Option<&Value>, NoMemory>
    ensures { IfOk result (λ v. option_copied v
        ≡ option_and_then oid_in (under (codes "oid") (pairs entries.now))) }
{
    match under(alloc, "oid", entries)? {
        Some(oid) if !has_embedded(oid) => Ok(Some(oid)),
        _ => Ok(None),
    }
}

/// The signature.
fn sig_in(alloc: Global, entries: &Entries) -> Result<Option<&Blob>, NoMemory>
    ensures { IfOk result (λ s. option_copied s
        ≡ option_and_then sig_in (under (codes "sig") (pairs entries.now))) }
{
    let Some(sig) = under(alloc, "sig", entries)? else {
        return Ok(None);
    };
    match &sig.node {
        Node::Bytes(sig) => Ok(Some(sig)),
        _ => Ok(None),
    }
}

/// The caveats, where nothing is embedded in them.
fn caveats_in(alloc: Global, entries: &Entries) -> Result<Option<Items>, NoMemory>
    ensures { IfOk result (λ cs. cs ≡ caveats_in (under (codes "caveats") (pairs entries.now))) }
{
    let Some(caveats) = under(alloc, "caveats", entries)? else {
        return Ok(Some(Items::from_vec(alloc, Vec::new(alloc))?));
    };
    if has_embedded(caveats) {
        return Ok(None);
    }
    match &caveats.node {
        Node::Seq(caveats) => Ok(Some(caveats.copy()?)),
        _ => Ok(None),
    }
}

/// The dictionary in a reference's value.
#[tactic(auto, using(crate::proofs::Reading::made))]
fn ref_dictionary(alloc: Global, r: &SturdyRef) -> Result<Value, NoMemory>
    ensures { IfOk result (λ v. v ≡ dictionary (pairs (ref_entries r.now))) }
{
    match Value::dict(alloc, ref_entries(alloc, r)?) {
        Ok(dictionary) => Ok(dictionary),
        Err(_) => Err(NoMemory),
    }
}

/// The entries of a reference's value, in the order of their keys.
#[tactic(auto, using(crate::proofs::Reading::two_more))]
fn ref_entries(alloc: Global, r: &SturdyRef) -> Result<Vec<Entry>, NoMemory>
    ensures { IfOk result (λ es. map key_and_value es.items ≡ ref_entries r.now) }
{
    let mut entries = caveats_entry(alloc, &r.caveats)?;
    entries.push(entry(alloc, "oid", r.oid.copy()?)?)?;
    entries.push(entry(alloc, "sig", Value::byte_string(r.sig.copy()?))?)?;
    Ok(entries)
}

/// The entry of the caveats, where there are any.
#[tactic(auto, using(crate::proofs::Reading::no_entry, crate::proofs::Reading::one_entry))]
fn caveats_entry(alloc: Global, caveats: &Items) -> Result<Vec<Entry>, NoMemory>
    ensures { IfOk result (λ es. map key_and_value es.items ≡ caveats_entry caveats.now) }
{
    let mut entries = Vec::new(alloc);
    if caveats.is_empty() {
        return Ok(entries);
    }
    entries.push(entry(alloc, "caveats", Value::sequence(caveats.copy()?))?)?;
    Ok(entries)
}

/// A value under a symbol.
fn entry(alloc: Global, word: &str, value: Value) -> Result<Entry, NoMemory>
    ensures { IfOk result (λ e. key_and_value e ≡ (symbol word.now, value)) }
{
    let key = Value::symbol(Text::from_str(alloc, word)?);
    Ok(Entry { key, value })
}
