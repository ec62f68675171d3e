//! How much the values weigh that write patterns, templates, caveats and references.
ghost use Rattle.std.specs.Prelude.{◌≡◌, ◌-◌, ◌^◌, min};
ghost use Rattle.pv_value.specs.Weight.{weight, size_with, sizes_with};
ghost use Rattle.sr_caveat.specs.Caps.{cap_value};
ghost use Rattle.sr_caveat.specs.Patterns.{caveats, rewrite};
ghost use Rattle.sr_caveat.specs.Spelled.{pattern_value, pattern_values, template_value};
ghost use Rattle.sr_caveat.specs.Spelled.{template_values, caveat_value, caveat_values};
ghost use Rattle.sr_caveat.specs.Spelled.{rewrite_values};
ghost use Rattle.sr_caveat.specs.View.{listed_patterns, listed_templates, listed_rewrites};

use crate::labels::{kind_weight, labelled_weight, list_weight, symbol_weight, weight_of_keys};
use pv_value::weight;
use pv_words::number;
use sr_caveat::{CPat, Cap, Caveat, PatternForm, Rewrite, Rule, TemplateForm, Tmpl};

/// The weight of the value that writes a reference. It stops at `u64::MAX`.
#[tactic(auto, unfolding(pv_value::specs::Weight::weight))]
pub fn cap_weight(cap: &Cap) -> u64
    ensures { result ≡ min (weight (cap_value cap.now)) (2 ^ 64 - 1) }
{
    let caveats = weight_of_caveats(cap.caveats.as_slice());
    let actor = weight(&number(u64::from(cap.actor)));
    let entity = weight(&number(cap.entity));
    list_weight(actor.saturating_add(entity).saturating_add(caveats))
}

/// The weight of the value that writes a pattern.
#[cycle(pattern_weight)]
#[tactic(auto, unfolding(pv_value::specs::Weight::weight))]
fn pattern_weight(pattern: &CPat) -> u64
    ensures { result ≡ min (size_with 48 (pattern_value pattern.now)) (2 ^ 64 - 1) }
{
    match &pattern.form {
        PatternForm::Discard => labelled_weight("_", 0),
        PatternForm::OfKind(kind) => kind_weight(*kind),
        PatternForm::Bind(inside) => labelled_weight("bind", pattern_weight(inside)),
        PatternForm::And(patterns) => {
            labelled_weight("and", list_weight(pattern_weights(patterns)))
        }
        PatternForm::Not(inside) => labelled_weight("not", pattern_weight(inside)),
        PatternForm::Lit(literal) => labelled_weight("lit", weight(literal)),
        PatternForm::Rec(label, patterns) => {
            let list = list_weight(pattern_weights(patterns));
            labelled_weight("rec", weight(label).saturating_add(list))
        }
        PatternForm::Arr(patterns) => {
            labelled_weight("arr", list_weight(pattern_weights(patterns)))
        }
        PatternForm::Dict(keys, patterns) => {
            let keys = keys.as_slice();
            let count = keys.len().min(patterns.len());
            let keys = weight_of_keys(&keys[..count]);
            let patterns = pattern_weights(&patterns[..count]);
            labelled_weight("dict", list_weight(keys.saturating_add(patterns)))
        }
    }
}

#[cycle(pattern_weight)]
fn pattern_weights(patterns: &[CPat]) -> u64
    ensures { result
        ≡ min (sizes_with 48 (pattern_values (listed_patterns patterns.now))) (2 ^ 64 - 1) }
{
    let mut total: u64 = 0;
    for pattern in patterns {
        total = total.saturating_add(pattern_weight(pattern));
    }
    total
}

/// The weight of the value that writes a template.
#[cycle(caveat_weight)]
#[tactic(auto, unfolding(pv_value::specs::Weight::weight))]
fn template_weight(template: &Tmpl) -> u64
    ensures { result ≡ min (size_with 48 (template_value template.now)) (2 ^ 64 - 1) }
{
    match &template.form {
        TemplateForm::Attenuate(inside, caveats) => {
            let list = list_weight(weight_of_caveats(caveats));
            labelled_weight("attenuate", template_weight(inside).saturating_add(list))
        }
        TemplateForm::Ref(n) => labelled_weight("ref", weight(&number(*n))),
        TemplateForm::Lit(literal) => labelled_weight("lit", weight(literal)),
        TemplateForm::Rec(label, templates) => {
            let list = list_weight(template_weights(templates));
            labelled_weight("rec", weight(label).saturating_add(list))
        }
        TemplateForm::Arr(templates) => {
            labelled_weight("arr", list_weight(template_weights(templates)))
        }
        TemplateForm::Dict(keys, templates) => {
            let keys = keys.as_slice();
            let count = keys.len().min(templates.len());
            let keys = weight_of_keys(&keys[..count]);
            let templates = template_weights(&templates[..count]);
            labelled_weight("dict", list_weight(keys.saturating_add(templates)))
        }
    }
}

#[cycle(caveat_weight)]
fn template_weights(templates: &[Tmpl]) -> u64
    ensures { result
        ≡ min (sizes_with 48 (template_values (listed_templates templates.now))) (2 ^ 64 - 1) }
{
    let mut total: u64 = 0;
    for template in templates {
        total = total.saturating_add(template_weight(template));
    }
    total
}

/// The weight of the value that writes a caveat.
#[cycle(caveat_weight)]
fn caveat_weight(caveat: &Caveat) -> u64
    ensures { result ≡ min (size_with 48 (caveat_value caveat.now)) (2 ^ 64 - 1) }
{
    match &*caveat.rule {
        Rule::Rewrite(rewrite) => rewrite_weight(rewrite),
        Rule::Or(rewrites) => labelled_weight("or", list_weight(rewrite_weights(rewrites))),
        Rule::Reject(pattern) => labelled_weight("reject", pattern_weight(pattern)),
        Rule::Guard(name) => labelled_weight("guard", symbol_weight(name.len() as u64)),
    }
}

/// The weight of the values that write caveats, all together. It stops at `u64::MAX`.
#[cycle(caveat_weight)]
pub fn weight_of_caveats(list: &[Caveat]) -> u64
    ensures { result ≡ min (sizes_with 48 (caveat_values (caveats list.now))) (2 ^ 64 - 1) }
{
    let mut total: u64 = 0;
    for caveat in list {
        total = total.saturating_add(caveat_weight(caveat));
    }
    total
}

#[cycle(caveat_weight)]
fn rewrite_weight(rule: &Rewrite) -> u64
    ensures { result ≡ min (size_with 48 (caveat_value
        (rewrite rule.now.pattern rule.now.template))) (2 ^ 64 - 1) }
{
    let pattern = pattern_weight(&rule.pattern);
    let template = template_weight(&rule.template);
    labelled_weight("rewrite", pattern.saturating_add(template))
}

#[cycle(caveat_weight)]
fn rewrite_weights(rewrites: &[Rewrite]) -> u64
    ensures { result
        ≡ min (sizes_with 48 (rewrite_values (listed_rewrites rewrites.now))) (2 ^ 64 - 1) }
{
    let mut total: u64 = 0;
    for rewrite in rewrites {
        total = total.saturating_add(rewrite_weight(rewrite));
    }
    total
}
