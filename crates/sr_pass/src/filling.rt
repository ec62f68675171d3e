//! What templates make of the values that were bound.
//!
//! How large the value is that a template gives is reckoned first: only what is within the bounds
//! of a value is made.
ghost use Rattle.std.specs.Prelude.{◌≡◌, ◌++◌, IfOk, option_map, vec_items, slice_get};
ghost use Rattle.std.specs.Prelude.{option_and_then, length};
ghost use Rattle.pv_value.specs.Plain.{plains, sequence, record_of};
ghost use Rattle.sr_caveat.specs.Caps.{attenuated};
ghost use Rattle.sr_caveat.specs.View.{listed_templates, keys_of};
ghost use Rattle.sr_pass.specs.Filling.{filled, all_filled, reference_with, dictionary_under};
ghost use Rattle.sr_pass.specs.Filling.{if_reference};
ghost use Rattle.sr_pass.specs.Passing.{if_fits};

use crate::sizes::gives_small;
use pv_value::{Entries, Items, NoMemory, Node, Value, weight};
use sr_caveat::{
    Cap, Caveat, REFERENCE_CAVEATS, REFERENCE_WEIGHT, TemplateForm, Tmpl, dictionary_with,
};
use std::alloc::Global;

/// What the template makes of the bindings, where it is within the bounds.
pub(crate) fn made(
    alloc: Global,
    template: &Tmpl,
    bindings: &[Value],
) -> Result<Option<Value>, NoMemory>
    ensures { IfOk result (λ v. v
        ≡ option_and_then if_fits (filled template.now bindings.now)) }
{
    if !gives_small(template, bindings) {
        return Ok(None);
    }
    fill(alloc, template, bindings)
}

/// What the template makes of the bindings.
#[cycle(fill)]
fn fill(alloc: Global, template: &Tmpl, bindings: &[Value]) -> Result<Option<Value>, NoMemory>
    ensures { IfOk result (λ v. v ≡ filled template.now bindings.now) }
{
    match &template.form {
        TemplateForm::Attenuate(inside, caveats) => {
            reference_with(alloc, fill(alloc, inside, bindings)?, caveats)
        }
        TemplateForm::Ref(n) => binding_at(bindings, *n),
        TemplateForm::Lit(value) => Ok(Some(value.copy()?)),
        TemplateForm::Rec(label, templates) => {
            new_record(alloc, label, fill_all(alloc, templates, bindings)?)
        }
        TemplateForm::Arr(templates) => {
            new_sequence(alloc, fill_all(alloc, templates, bindings)?)
        }
        TemplateForm::Dict(keys, templates) => {
            new_dictionary(alloc, keys, fill_all(alloc, templates, bindings)?)
        }
    }
}

#[cycle(fill)]
fn fill_all(
    alloc: Global,
    templates: &[Tmpl],
    bindings: &[Value],
) -> Result<Option<Vec<Value>>, NoMemory>
    ensures { IfOk result (λ vs. option_map vec_items vs
        ≡ all_filled (listed_templates templates.now) bindings.now) }
{
    let mut values = Vec::new(alloc);
    for template in templates {
        let Some(value) = fill(alloc, template, bindings)? else {
            return Ok(None);
        };
        values.push(value)?;
    }
    Ok(Some(values))
}

fn binding_at(bindings: &[Value], place: u64) -> Result<Option<Value>, NoMemory>
    ensures { IfOk result (λ v. v ≡ slice_get bindings.now place) }
{
    match bindings.get(place as usize) {
        Some(value) => Ok(Some(value.copy()?)),
        None => Ok(None),
    }
}

#[inline(never)]
fn new_record(
    alloc: Global,
    label: &Value,
    fields: Option<Vec<Value>>,
) -> Result<Option<Value>, NoMemory>
    ensures { IfOk result (λ v. v
        ≡ option_map (λ xs. record_of label.now (plains xs.items)) fields) }
{
    match fields {
        Some(fields) => Ok(Some(Value::record(alloc, label.copy()?, fields)?)),
        None => Ok(None),
    }
}

#[inline(never)]
fn new_sequence(alloc: Global, items: Option<Vec<Value>>) -> Result<Option<Value>, NoMemory>
    ensures { IfOk result (λ v. v ≡ option_map (λ xs. sequence (plains xs.items)) items) }
{
    match items {
        Some(items) => Ok(Some(Value::sequence(Items::from_vec(alloc, items)?))),
        None => Ok(None),
    }
}

#[inline(never)]
fn new_dictionary(
    alloc: Global,
    keys: &Entries,
    values: Option<Vec<Value>>,
) -> Result<Option<Value>, NoMemory>
    ensures { IfOk result (λ v. v ≡ option_and_then (dictionary_under (keys_of keys.now))
        (option_map vec_items values)) }
{
    match values {
        Some(values) => dictionary_under(alloc, keys, &values),
        None => Ok(None),
    }
}

/// The dictionary of these values under the keys, where there are as many.
fn dictionary_under(
    alloc: Global,
    keys: &Entries,
    values: &[Value],
) -> Result<Option<Value>, NoMemory>
    ensures { IfOk result (λ v. v ≡ dictionary_under (keys_of keys.now) values.now) }
{
    if keys.len() != values.len() {
        return Ok(None);
    }
    Ok(Some(dictionary_with(alloc, keys, values)?))
}

/// The reference that a value is, with these caveats behind its own.
#[inline(never)]
fn reference_with(
    alloc: Global,
    value: Option<Value>,
    caveats: &[Caveat],
) -> Result<Option<Value>, NoMemory>
    ensures { IfOk result (λ v. v ≡ option_and_then (reference_with caveats.now) value) }
{
    let Some(value) = value else {
        return Ok(None);
    };
    let Node::Emb(inside) = &value.node else {
        return Ok(None);
    };
    let Some(cap) = Cap::of_value(alloc, inside)? else {
        return Ok(None);
    };
    if_reference(alloc, &cap, caveats)
}

/// How many caveats a reference has with these behind its own.
fn caveats_with(cap: &Cap, caveats: &[Caveat]) -> usize
    ensures { result ≡ length (cap.now.caveats ++ caveats.now) }
{
    cap.caveats.as_slice().len() + caveats.len()
}

/// The value that embeds a reference with these caveats behind its own, where it is within the
/// bounds of references.
fn if_reference(alloc: Global, cap: &Cap, caveats: &[Caveat]) -> Result<Option<Value>, NoMemory>
    ensures { IfOk result (λ v. v ≡ if_reference (attenuated caveats.now cap.now)) }
{
    if caveats_with(cap, caveats) > REFERENCE_CAVEATS {
        return Ok(None);
    }
    let value = cap.attenuated_value(alloc, caveats)?;
    if weight(&value) > REFERENCE_WEIGHT {
        return Ok(None);
    }
    Ok(Some(Value::embedded(alloc, value)?))
}
