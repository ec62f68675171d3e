//! How deep the values nest that write patterns, templates and caveats.
ghost use Rattle.std.specs.Prelude.{◌≡◌, ◌-◌, ◌^◌, min};
ghost use Rattle.pv_value.specs.Depth.{depth, deepest};
ghost use Rattle.sr_caveat.specs.Patterns.{caveats, rewrite};
ghost use Rattle.sr_caveat.specs.Spelled.{pattern_value, pattern_values, template_value};
ghost use Rattle.sr_caveat.specs.Spelled.{template_values, caveat_value, caveat_values};
ghost use Rattle.sr_caveat.specs.Spelled.{rewrite_values};
ghost use Rattle.sr_caveat.specs.View.{listed_patterns, listed_templates, listed_rewrites};

use crate::labels::depth_of_keys;
use pv_value::depth;
use sr_caveat::{CPat, Caveat, PatternForm, Rewrite, Rule, TemplateForm, Tmpl};

/// How deep the value nests that writes a pattern.
#[cycle(pattern_depth)]
fn pattern_depth(pattern: &CPat) -> u32
    ensures { result ≡ min (depth (pattern_value pattern.now)) (2 ^ 32 - 1) }
{
    match &pattern.form {
        PatternForm::Discard => 1,
        PatternForm::OfKind(_) => 0,
        PatternForm::Bind(inside) => pattern_depth(inside).saturating_add(1),
        PatternForm::And(patterns) => pattern_depths(patterns).saturating_add(2),
        PatternForm::Not(inside) => pattern_depth(inside).saturating_add(1),
        PatternForm::Lit(literal) => depth(literal).saturating_add(1),
        PatternForm::Rec(label, patterns) => {
            let list = pattern_depths(patterns).saturating_add(1);
            depth(label).max(list).saturating_add(1)
        }
        PatternForm::Arr(patterns) => pattern_depths(patterns).saturating_add(2),
        PatternForm::Dict(keys, patterns) => {
            let keys = keys.as_slice();
            let count = keys.len().min(patterns.len());
            let keys = depth_of_keys(&keys[..count]);
            let patterns = pattern_depths(&patterns[..count]);
            keys.max(patterns).saturating_add(2)
        }
    }
}

#[cycle(pattern_depth)]
fn pattern_depths(patterns: &[CPat]) -> u32
    ensures { result
        ≡ min (deepest (pattern_values (listed_patterns patterns.now))) (2 ^ 32 - 1) }
{
    let mut deepest: u32 = 0;
    for pattern in patterns {
        deepest = deepest.max(pattern_depth(pattern));
    }
    deepest
}

/// How deep the value nests that writes a template.
#[cycle(caveat_depth)]
fn template_depth(template: &Tmpl) -> u32
    ensures { result ≡ min (depth (template_value template.now)) (2 ^ 32 - 1) }
{
    match &template.form {
        TemplateForm::Attenuate(inside, caveats) => {
            let list = depth_of_caveats(caveats).saturating_add(1);
            template_depth(inside).max(list).saturating_add(1)
        }
        TemplateForm::Ref(_) => 1,
        TemplateForm::Lit(literal) => depth(literal).saturating_add(1),
        TemplateForm::Rec(label, templates) => {
            let list = template_depths(templates).saturating_add(1);
            depth(label).max(list).saturating_add(1)
        }
        TemplateForm::Arr(templates) => template_depths(templates).saturating_add(2),
        TemplateForm::Dict(keys, templates) => {
            let keys = keys.as_slice();
            let count = keys.len().min(templates.len());
            let keys = depth_of_keys(&keys[..count]);
            let templates = template_depths(&templates[..count]);
            keys.max(templates).saturating_add(2)
        }
    }
}

#[cycle(caveat_depth)]
fn template_depths(templates: &[Tmpl]) -> u32
    ensures { result
        ≡ min (deepest (template_values (listed_templates templates.now))) (2 ^ 32 - 1) }
{
    let mut deepest: u32 = 0;
    for template in templates {
        deepest = deepest.max(template_depth(template));
    }
    deepest
}

/// How deep the value nests that writes a caveat.
#[cycle(caveat_depth)]
fn caveat_depth(caveat: &Caveat) -> u32
    ensures { result ≡ min (depth (caveat_value caveat.now)) (2 ^ 32 - 1) }
{
    match &*caveat.rule {
        Rule::Rewrite(rewrite) => rewrite_depth(rewrite),
        Rule::Or(rewrites) => rewrite_depths(rewrites).saturating_add(2),
        Rule::Reject(pattern) => pattern_depth(pattern).saturating_add(1),
        Rule::Guard(_) => 1,
    }
}

/// How deep the deepest of the values nests that write caveats. It stops at `u32::MAX`.
#[cycle(caveat_depth)]
pub fn depth_of_caveats(list: &[Caveat]) -> u32
    ensures { result ≡ min (deepest (caveat_values (caveats list.now))) (2 ^ 32 - 1) }
{
    let mut deepest: u32 = 0;
    for caveat in list {
        deepest = deepest.max(caveat_depth(caveat));
    }
    deepest
}

#[cycle(caveat_depth)]
fn rewrite_depth(rule: &Rewrite) -> u32
    ensures { result ≡ min (depth (caveat_value
        (rewrite rule.now.pattern rule.now.template))) (2 ^ 32 - 1) }
{
    let pattern = pattern_depth(&rule.pattern);
    let template = template_depth(&rule.template);
    pattern.max(template).saturating_add(1)
}

#[cycle(caveat_depth)]
fn rewrite_depths(rewrites: &[Rewrite]) -> u32
    ensures { result
        ≡ min (deepest (rewrite_values (listed_rewrites rewrites.now))) (2 ^ 32 - 1) }
{
    let mut deepest: u32 = 0;
    for rewrite in rewrites {
        deepest = deepest.max(rewrite_depth(rewrite));
    }
    deepest
}
