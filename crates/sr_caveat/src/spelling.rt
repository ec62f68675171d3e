//! The values that write patterns, templates and caveats.
ghost use Rattle.std.specs.Prelude.{◌≡◌, IfOk, map, [], codes};
ghost use Rattle.pv_value.specs.Plain.{sequence, dictionary, symbol, plains, pairs};
ghost use Rattle.pv_value.specs.View.{key_and_value};
ghost use Rattle.pv_value.specs.WellFormed.{KeysAscend};
ghost use Rattle.pv_words.specs.Words.{labelled};
ghost use Rattle.sr_caveat.specs.Patterns.{caveats, rewrite};
ghost use Rattle.sr_caveat.specs.Spelled.{with_one, with_two, paired_with, kind_name};
ghost use Rattle.sr_caveat.specs.Spelled.{pattern_value, pattern_values, template_value};
ghost use Rattle.sr_caveat.specs.Spelled.{template_values, caveat_value, caveat_values};
ghost use Rattle.sr_caveat.specs.Spelled.{rewrite_values};
ghost use Rattle.sr_caveat.specs.View.{listed_patterns, listed_templates, listed_rewrites, keys_of};

use crate::{CPat, Caveat, Kind, PatternForm, Rewrite, Rule, TemplateForm, Tmpl};
use pv_value::{Entries, Entry, Items, NoMemory, Text, Value};
use pv_words::{AtomKind, labelled, number};
use std::alloc::Global;

impl Caveat {
    /// The value that writes the caveat.
    pub fn to_value(&self, alloc: Global) -> Result<Value, NoMemory>
        ensures { IfOk result (λ v. v ≡ caveat_value self.now) }
    {
        caveat_value(alloc, self)
    }
}

/// `<word x>`.
#[inline(never)]
fn with_one(alloc: Global, word: &str, x: Value) -> Result<Value, NoMemory>
    ensures { IfOk result (λ v. v ≡ with_one word.now x) }
{
    let mut fields = Vec::new(alloc);
    fields.push(x)?;
    labelled(alloc, word, fields)
}

/// `<word x y>`.
#[inline(never)]
fn with_two(alloc: Global, word: &str, x: Value, y: Value) -> Result<Value, NoMemory>
    ensures { IfOk result (λ v. v ≡ with_two word.now x y) }
{
    let mut fields = Vec::new(alloc);
    fields.push(x)?;
    fields.push(y)?;
    labelled(alloc, word, fields)
}

#[inline(never)]
fn list_value(alloc: Global, values: Vec<Value>) -> Result<Value, NoMemory>
    ensures { IfOk result (λ v. v ≡ sequence (plains values.items)) }
{
    Ok(Value::sequence(Items::from_vec(alloc, values)?))
}

/// `<word [x ..]>`.
#[inline(never)]
fn with_list(alloc: Global, word: &str, values: Vec<Value>) -> Result<Value, NoMemory>
    ensures { IfOk result (λ v. v ≡ with_one word.now (sequence (plains values.items))) }
{
    with_one(alloc, word, list_value(alloc, values)?)
}

/// `<rec label [x ..]>`.
#[inline(never)]
fn record_value(alloc: Global, label: &Value, values: Vec<Value>) -> Result<Value, NoMemory>
    ensures { IfOk result (λ v. v
        ≡ with_two (codes "rec") label.now (sequence (plains values.items))) }
{
    let list = list_value(alloc, values)?;
    with_two(alloc, "rec", label.copy()?, list)
}

/// `<attenuate t [caveat ..]>`.
#[inline(never)]
fn attenuate_value(alloc: Global, inside: Value, behind: Vec<Value>) -> Result<Value, NoMemory>
    ensures { IfOk result (λ v. v
        ≡ with_two (codes "attenuate") inside (sequence (plains behind.items))) }
{
    let list = list_value(alloc, behind)?;
    with_two(alloc, "attenuate", inside, list)
}

/// `<dict {k: x ..}>`.
#[inline(never)]
fn dictionary_value(alloc: Global, keys: &Entries, values: Vec<Value>) -> Result<Value, NoMemory>
    ensures { IfOk result (λ v. v ≡ with_one (codes "dict")
        (dictionary (paired_with (keys_of keys.now) (plains values.items)))) }
{
    with_one(alloc, "dict", dictionary_with(alloc, keys, &values)?)
}

/// The dictionary of the keys with these values, as far as both go.
#[inline(never)]
pub fn dictionary_with(alloc: Global, keys: &Entries, values: &[Value]) -> Result<Value, NoMemory>
    ensures { IfOk result (λ v. v
        ≡ dictionary (paired_with (keys_of keys.now) (plains values.now))) }
{
    let entries = entries_with(alloc, keys, values)?;
    match Value::dict(alloc, entries) {
        Ok(dictionary) => Ok(dictionary),
        Err(_) => Err(NoMemory),
    }
}

fn entries_with(alloc: Global, keys: &Entries, values: &[Value]) -> Result<Vec<Entry>, NoMemory>
    ensures same { IfOk result (λ es. pairs (map key_and_value es.items)
        ≡ paired_with (keys_of keys.now) (plains values.now)) }
    ensures ascending { IfOk result (λ es. KeysAscend (map key_and_value es.items)) }
{
    let keys = keys.as_slice();
    let mut entries = Vec::new(alloc);
    for i in 0..keys.len().min(values.len()) {
        let key = keys[i].key.copy()?;
        let value = values[i].copy()?;
        entries.push(Entry { key, value })?;
    }
    Ok(entries)
}

#[inline(never)]
fn kind_value(alloc: Global, kind: Kind) -> Result<Value, NoMemory>
    ensures { IfOk result (λ v. v ≡ symbol (kind_name kind)) }
{
    let name = match kind {
        Kind::Atom(AtomKind::Boolean) => "Boolean",
        Kind::Atom(AtomKind::Double) => "Double",
        Kind::Atom(AtomKind::SignedInteger) => "SignedInteger",
        Kind::Atom(AtomKind::String) => "String",
        Kind::Atom(AtomKind::ByteString) => "ByteString",
        Kind::Atom(AtomKind::Symbol) => "Symbol",
        Kind::Embedded => "Embedded",
    };
    Ok(Value::symbol(Text::from_str(alloc, name)?))
}

#[inline(never)]
fn discard_value(alloc: Global) -> Result<Value, NoMemory>
    ensures { IfOk result (λ v. v ≡ labelled (codes "_") []) }
{
    labelled(alloc, "_", Vec::new(alloc))
}

/// The value that writes a pattern.
#[cycle(pattern_value)]
fn pattern_value(alloc: Global, pattern: &CPat) -> Result<Value, NoMemory>
    ensures { IfOk result (λ v. v ≡ pattern_value pattern.now) }
{
    match &pattern.form {
        PatternForm::Discard => discard_value(alloc),
        PatternForm::OfKind(kind) => kind_value(alloc, *kind),
        PatternForm::Bind(inside) => with_one(alloc, "bind", pattern_value(alloc, inside)?),
        PatternForm::And(patterns) => with_list(alloc, "and", pattern_values(alloc, patterns)?),
        PatternForm::Not(inside) => with_one(alloc, "not", pattern_value(alloc, inside)?),
        PatternForm::Lit(literal) => with_one(alloc, "lit", literal.copy()?),
        PatternForm::Rec(label, patterns) => {
            record_value(alloc, label, pattern_values(alloc, patterns)?)
        }
        PatternForm::Arr(patterns) => with_list(alloc, "arr", pattern_values(alloc, patterns)?),
        PatternForm::Dict(keys, patterns) => {
            dictionary_value(alloc, keys, pattern_values(alloc, patterns)?)
        }
    }
}

#[cycle(pattern_value)]
fn pattern_values(alloc: Global, patterns: &[CPat]) -> Result<Vec<Value>, NoMemory>
    ensures { IfOk result (λ vs. plains vs.items ≡ pattern_values (listed_patterns patterns.now)) }
{
    let mut values = Vec::new(alloc);
    for pattern in patterns {
        values.push(pattern_value(alloc, pattern)?)?;
    }
    Ok(values)
}

/// The value that writes a template.
#[cycle(caveat_value)]
fn template_value(alloc: Global, template: &Tmpl) -> Result<Value, NoMemory>
    ensures { IfOk result (λ v. v ≡ template_value template.now) }
{
    match &template.form {
        TemplateForm::Attenuate(inside, caveats) => {
            let inside = template_value(alloc, inside)?;
            attenuate_value(alloc, inside, caveat_values(alloc, caveats)?)
        }
        TemplateForm::Ref(n) => with_one(alloc, "ref", number(*n)),
        TemplateForm::Lit(literal) => with_one(alloc, "lit", literal.copy()?),
        TemplateForm::Rec(label, templates) => {
            record_value(alloc, label, template_values(alloc, templates)?)
        }
        TemplateForm::Arr(templates) => with_list(alloc, "arr", template_values(alloc, templates)?),
        TemplateForm::Dict(keys, templates) => {
            dictionary_value(alloc, keys, template_values(alloc, templates)?)
        }
    }
}

#[cycle(caveat_value)]
fn template_values(alloc: Global, templates: &[Tmpl]) -> Result<Vec<Value>, NoMemory>
    ensures { IfOk result (λ vs. plains vs.items
        ≡ template_values (listed_templates templates.now)) }
{
    let mut values = Vec::new(alloc);
    for template in templates {
        values.push(template_value(alloc, template)?)?;
    }
    Ok(values)
}

/// The value that writes a caveat.
#[cycle(caveat_value)]
fn caveat_value(alloc: Global, caveat: &Caveat) -> Result<Value, NoMemory>
    ensures { IfOk result (λ v. v ≡ caveat_value caveat.now) }
{
    match &*caveat.rule {
        Rule::Rewrite(rewrite) => rewrite_value(alloc, rewrite),
        Rule::Or(rewrites) => with_list(alloc, "or", rewrite_values(alloc, rewrites)?),
        Rule::Reject(pattern) => with_one(alloc, "reject", pattern_value(alloc, pattern)?),
        Rule::Guard(name) => with_one(alloc, "guard", Value::symbol(name.copy()?)),
    }
}

/// The values that write caveats.
#[cycle(caveat_value)]
pub fn caveat_values(alloc: Global, list: &[Caveat]) -> Result<Vec<Value>, NoMemory>
    ensures { IfOk result (λ vs. plains vs.items ≡ caveat_values (caveats list.now)) }
{
    let mut values = Vec::new(alloc);
    for caveat in list {
        values.push(caveat_value(alloc, caveat)?)?;
    }
    Ok(values)
}

#[cycle(caveat_value)]
fn rewrite_value(alloc: Global, rule: &Rewrite) -> Result<Value, NoMemory>
    ensures { IfOk result (λ v. v ≡ caveat_value
        (rewrite rule.now.pattern rule.now.template)) }
{
    let pattern = pattern_value(alloc, &rule.pattern)?;
    let template = template_value(alloc, &rule.template)?;
    with_two(alloc, "rewrite", pattern, template)
}

#[cycle(caveat_value)]
fn rewrite_values(alloc: Global, rewrites: &[Rewrite]) -> Result<Vec<Value>, NoMemory>
    ensures { IfOk result (λ vs. plains vs.items
        ≡ rewrite_values (listed_rewrites rewrites.now)) }
{
    let mut values = Vec::new(alloc);
    for rewrite in rewrites {
        values.push(rewrite_value(alloc, rewrite)?)?;
    }
    Ok(values)
}
