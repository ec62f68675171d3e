//! How large what a template gives is, before any of it is made.
//!
//! The weight is reckoned no further than up to what is too heavy: so how much is walked over goes
//! by the bounds of a value, and not by how much was bound. How deep it nests is looked at only
//! where the weight is within the bounds.
ghost use Rattle.std.specs.Prelude.{◌≡◌, ◌-◌, ◌+◌, ◌^◌, min, max, nat_le, ◌&&◌};
ghost use Rattle.sr_caveat.specs.Limits.{value_weight, value_depth};
ghost use Rattle.sr_caveat.specs.View.{listed_templates};
ghost use Rattle.sr_pass.specs.Passing.{fits};
ghost use Rattle.sr_pass.specs.Sizes.{weight_at, depth_at, filled_weight, filled_weights};
ghost use Rattle.sr_pass.specs.Sizes.{filled_depth, filled_depths};

use pv_value::{Value, depth, weight};
use sr_caveat::{TemplateForm, Tmpl, VALUE_DEPTH, VALUE_WEIGHT};
use sr_weight::{depth_of_caveats, depth_of_keys, weight_of_caveats, weight_of_keys};

/// What a compound weighs beside what is in it.
const COMPOUND_WEIGHT: u64 = 50;

/// Whether the value is within the bounds of what passes a caveat.
pub(crate) fn fits(value: &Value) -> bool
    ensures { result ≡ fits value.now }
{
    weight(value) <= VALUE_WEIGHT && depth(value) <= VALUE_DEPTH
}

/// Whether what the template gives is within the bounds of a value, where it gives something.
pub(crate) fn gives_small(template: &Tmpl, bindings: &[Value]) -> bool
    ensures { result
        ≡ (nat_le (filled_weight template.now bindings.now) value_weight
        && nat_le (filled_depth template.now bindings.now) value_depth) }
{
    if filled_weight(template, bindings, VALUE_WEIGHT + 1) > VALUE_WEIGHT {
        return false;
    }
    filled_depth(template, bindings) <= VALUE_DEPTH
}

/// The weight of what the template gives, or `most` where it is no less.
#[cycle(filled_weight)]
fn filled_weight(template: &Tmpl, bindings: &[Value], most: u64) -> u64
    ensures { result ≡ min (filled_weight template.now bindings.now) most }
{
    let weight = match &template.form {
        TemplateForm::Attenuate(inside, caveats) => {
            let inside = filled_weight(inside, bindings, most);
            inside.saturating_add(weight_of_caveats(caveats))
        }
        TemplateForm::Ref(n) => weight_at(bindings, *n),
        TemplateForm::Lit(value) => weight(value),
        TemplateForm::Rec(label, templates) => {
            let own = weight(label).saturating_add(COMPOUND_WEIGHT);
            with_filled_weights(own, templates, bindings, most)
        }
        TemplateForm::Arr(templates) => {
            with_filled_weights(COMPOUND_WEIGHT, templates, bindings, most)
        }
        TemplateForm::Dict(keys, templates) => {
            let own = weight_of_keys(keys.as_slice()).saturating_add(COMPOUND_WEIGHT);
            with_filled_weights(own, templates, bindings, most)
        }
    };
    weight.min(most)
}

/// This much and the weights of what the templates give, or `most` where it is no less: then what
/// comes behind isn't looked at.
#[cycle(filled_weight)]
fn with_filled_weights(own: u64, templates: &[Tmpl], bindings: &[Value], most: u64) -> u64
    ensures { result
        ≡ min (own + filled_weights (listed_templates templates.now) bindings.now) most }
{
    let mut total = own;
    for template in templates {
        if total >= most {
            return most;
        }
        total += filled_weight(template, bindings, most - total);
    }
    total.min(most)
}

fn weight_at(bindings: &[Value], place: u64) -> u64
    ensures { result ≡ min (weight_at bindings.now place) (2 ^ 64 - 1) }
{
    match bindings.get(place as usize) {
        Some(value) => weight(value),
        None => 0,
    }
}

/// How deep what the template gives nests.
#[cycle(filled_depth)]
fn filled_depth(template: &Tmpl, bindings: &[Value]) -> u32
    ensures { result ≡ min (filled_depth template.now bindings.now) (2 ^ 32 - 1) }
{
    match &template.form {
        TemplateForm::Attenuate(inside, caveats) => {
            let inside = filled_depth(inside, bindings);
            let caveats = depth_of_caveats(caveats).saturating_add(2);
            inside.max(caveats)
        }
        TemplateForm::Ref(n) => depth_at(bindings, *n),
        TemplateForm::Lit(value) => depth(value),
        TemplateForm::Rec(label, templates) => {
            let fields = filled_depths(templates, bindings);
            depth(label).max(fields).saturating_add(1)
        }
        TemplateForm::Arr(templates) => filled_depths(templates, bindings).saturating_add(1),
        TemplateForm::Dict(keys, templates) => {
            let values = filled_depths(templates, bindings);
            depth_of_keys(keys.as_slice()).max(values).saturating_add(1)
        }
    }
}

#[cycle(filled_depth)]
fn filled_depths(templates: &[Tmpl], bindings: &[Value]) -> u32
    ensures { result
        ≡ min (filled_depths (listed_templates templates.now) bindings.now) (2 ^ 32 - 1) }
{
    let mut deepest: u32 = 0;
    for template in templates {
        deepest = deepest.max(filled_depth(template, bindings));
    }
    deepest
}

fn depth_at(bindings: &[Value], place: u64) -> u32
    ensures { result ≡ min (depth_at bindings.now place) (2 ^ 32 - 1) }
{
    match bindings.get(place as usize) {
        Some(value) => depth(value),
        None => 0,
    }
}
