//! The caveats that values write, and the templates in them.
ghost use Rattle.std.specs.Prelude.{◌≡◌, IfOk, map, option_map, Some, None};
ghost use Rattle.pv_value.specs.Plain.{plains, pairs};
ghost use Rattle.pv_value.specs.View.{key_and_value};
ghost use Rattle.pv_words.specs.Words.{labelled};
ghost use Rattle.sr_caveat.specs.Patterns.{reject_all, record_from, sequence_from, dictionary_of};
ghost use Rattle.sr_caveat.specs.Patterns.{attenuate, one_of, reject, rewrite, caveats};
ghost use Rattle.sr_caveat.specs.Written.{names_of, pattern_of, template_of, templates_of};
ghost use Rattle.sr_caveat.specs.Written.{templates_in, templates_under_keys, templates_in_pairs};
ghost use Rattle.sr_caveat.specs.Written.{keys_of_value, caveats_of, caveats_in, caveat_in};
ghost use Rattle.sr_caveat.specs.Written.{rewrites_of, rewrites_in, short_template, long_template};
ghost use Rattle.sr_caveat.specs.Written.{bound_place, short_caveat, long_caveat, guard_named};
ghost use Rattle.sr_caveat.specs.Written.{rewrite_by, if_rewrite, standing, caveat_of};
ghost use Rattle.sr_caveat.specs.Written.{attenuated_by};
ghost use Rattle.sr_caveat.specs.View.{view_template, view_rule, listed_templates, keys_of};
ghost use Rattle.sr_caveat.specs.View.{listed_rewrites};

use crate::binds::binds;
use crate::embedded::has_embedded;
use crate::patterns::parse_pattern;
use crate::{CPat, Caveat, PatternForm, Rewrite, Rule, TemplateForm, Tmpl};
use pv_value::{Entries, Entry, NoMemory, Node, Text, Value};
use pv_words::{is_word, number_in, worded};
use std::alloc::Global;
use std::sync::Arc;

/// The caveat that a value writes. One that is malformed or unknown refuses every value. A guard is
/// known where `own` is true, which is for the server's own caveats, and not for those of the wire.
pub fn parse_caveat(alloc: Global, value: &Value, own: bool) -> Result<Caveat, NoMemory>
    ensures { IfOk result (λ c. c ≡ caveat_of own value.now) }
{
    if has_embedded(value) {
        return reject_all(alloc);
    }
    let reader = Reader {
        alloc,
        own,
        names: 0,
    };
    reader.parse_standing(value)
}

/// How caveats are read, and the templates in them.
#[derive(Clone, Copy, Drop)]
struct Reader {
    alloc: Global,
    /// Whether a guard is known.
    own: bool,
    /// How many values the pattern before a template binds, each of which the template may name.
    names: u64,
}

impl Reader {
    /// The caveat that a value writes, or the one that refuses every value.
    #[cycle(parse_caveat)]
    fn parse_standing(self, value: &Value) -> Result<Caveat, NoMemory>
        ensures { IfOk result (λ c. c ≡ standing (caveat_in self.own value.now)) }
    {
        standing(self.alloc, self.parse_rule(value)?)
    }

    /// What a caveat's value writes, where it is of the grammar.
    #[cycle(parse_caveat)]
    fn parse_rule(self, value: &Value) -> Result<Option<Rule>, NoMemory>
        ensures { IfOk result (λ r. option_map view_rule r ≡ caveat_in self.own value.now) }
    {
        let Some((word, parts)) = worded(value) else {
            return Ok(None);
        };
        self.parse_worded_rule(word, parts)
    }

    #[cycle(parse_caveat)]
    fn parse_worded_rule(self, word: &Text, parts: &[Value]) -> Result<Option<Rule>, NoMemory>
        ensures { IfOk result (λ r. option_map view_rule r
            ≡ caveat_in self.own (labelled word.now parts.now)) }
    {
        match parts {
            [] => Ok(None),
            [x] => self.parse_short_rule(word, x),
            [pattern, template] => self.parse_rewrite(word, pattern, template),
            _ => Ok(None),
        }
    }

    /// `<or [rewrite ..]>`, `<reject p>`, `<guard Name>`.
    #[cycle(parse_caveat)]
    fn parse_short_rule(self, word: &Text, x: &Value) -> Result<Option<Rule>, NoMemory>
        ensures { IfOk result (λ r. option_map view_rule r
            ≡ short_caveat self.own word.now x.now (pattern_of x.now)
            (rewrites_of self.own x.now)) }
    {
        if is_word(word, b"or") {
            return self.parse_or(x);
        }
        if is_word(word, b"reject") {
            return Ok(new_reject(parse_pattern(self.alloc, x)?));
        }
        if is_word(word, b"guard") {
            return new_guard(x, self.own);
        }
        Ok(None)
    }

    /// `[rewrite ..]`.
    #[cycle(parse_caveat)]
    fn parse_or(self, x: &Value) -> Result<Option<Rule>, NoMemory>
        ensures { IfOk result (λ r. option_map view_rule r
            ≡ option_map one_of (rewrites_of self.own x.now)) }
    {
        match &x.node {
            Node::Seq(items) => Ok(new_or(self.parse_rewrites(items.as_slice())?)),
            _ => Ok(None),
        }
    }

    #[cycle(parse_caveat)]
    fn parse_rewrites(self, items: &[Value]) -> Result<Option<Vec<Rewrite>>, NoMemory>
        ensures { IfOk result (λ rs. option_map (λ v. listed_rewrites v.items) rs
            ≡ rewrites_in self.own (plains items.now)) }
    {
        let mut rewrites = Vec::new(self.alloc);
        for x in items {
            let Some(rewrite) = as_rewrite(self.parse_rule(x)?) else {
                return Ok(None);
            };
            rewrites.push(rewrite)?;
        }
        Ok(Some(rewrites))
    }

    /// `<rewrite p t>`.
    #[cycle(parse_caveat)]
    fn parse_rewrite(
        self,
        word: &Text,
        pattern: &Value,
        template: &Value,
    ) -> Result<Option<Rule>, NoMemory>
        ensures { IfOk result (λ r. option_map view_rule r ≡ long_caveat word.now
            (pattern_of pattern.now)
            (template_of self.own (names_of (pattern_of pattern.now)) template.now)) }
    {
        if !is_word(word, b"rewrite") {
            return Ok(None);
        }
        let Some(pattern) = parse_pattern(self.alloc, pattern)? else {
            return Ok(None);
        };
        let behind = Reader {
            names: binds(&pattern),
            ..self
        };
        Ok(new_rewrite(pattern, behind.parse_template(template)?))
    }

    /// The template that a value writes, where it is of the grammar and names no value that the
    /// pattern before it doesn't bind.
    #[cycle(parse_caveat)]
    fn parse_template(self, value: &Value) -> Result<Option<Tmpl>, NoMemory>
        ensures { IfOk result (λ t. t ≡ template_of self.own self.names value.now) }
    {
        let Some((word, parts)) = worded(value) else {
            return Ok(None);
        };
        self.parse_worded(word, parts)
    }

    #[cycle(parse_caveat)]
    fn parse_worded(self, word: &Text, parts: &[Value]) -> Result<Option<Tmpl>, NoMemory>
        ensures { IfOk result (λ t. t
            ≡ template_of self.own self.names (labelled word.now parts.now)) }
    {
        match parts {
            [] => Ok(None),
            [x] => self.parse_short(word, x),
            [x, y] => self.parse_long(word, x, y),
            _ => Ok(None),
        }
    }

    /// `<ref n>`, `<lit v>`, `<arr [t ..]>`, `<dict {k: t ..}>`.
    #[cycle(parse_caveat)]
    fn parse_short(self, word: &Text, x: &Value) -> Result<Option<Tmpl>, NoMemory>
        ensures { IfOk result (λ t. t ≡ short_template self.names word.now x.now
            (templates_of self.own self.names x.now)
            (templates_under_keys self.own self.names x.now)) }
    {
        if is_word(word, b"ref") {
            return Ok(bound_place(self.names, number_in(x)));
        }
        if is_word(word, b"lit") {
            return Ok(Some(form(TemplateForm::Lit(x.copy()?))));
        }
        if is_word(word, b"arr") {
            return Ok(new_sequence(self.parse_list(x)?));
        }
        if is_word(word, b"dict") {
            return self.parse_dictionary(x);
        }
        Ok(None)
    }

    /// `<attenuate t [caveat ..]>`, `<rec label [t ..]>`.
    #[cycle(parse_caveat)]
    fn parse_long(self, word: &Text, x: &Value, y: &Value) -> Result<Option<Tmpl>, NoMemory>
        ensures { IfOk result (λ t. t ≡ long_template word.now x.now
            (template_of self.own self.names x.now) (caveats_of self.own y.now)
            (templates_of self.own self.names y.now)) }
    {
        if is_word(word, b"attenuate") {
            return self.parse_attenuate(x, y);
        }
        if is_word(word, b"rec") {
            return new_record(x, self.parse_list(y)?);
        }
        Ok(None)
    }

    #[cycle(parse_caveat)]
    fn parse_attenuate(self, x: &Value, y: &Value) -> Result<Option<Tmpl>, NoMemory>
        ensures { IfOk result (λ t. t
            ≡ attenuated_by (template_of self.own self.names x.now) (caveats_of self.own y.now)) }
    {
        let Node::Seq(items) = &y.node else {
            return Ok(None);
        };
        let Some(template) = self.parse_template(x)? else {
            return Ok(None);
        };
        new_attenuate(self.alloc, template, self.parse_caveats(items.as_slice())?)
    }

    /// The caveats that values write, each read by itself.
    #[cycle(parse_caveat)]
    fn parse_caveats(self, items: &[Value]) -> Result<Vec<Caveat>, NoMemory>
        ensures { IfOk result (λ cs. caveats cs.items ≡ caveats_in self.own (plains items.now)) }
    {
        let mut read = Vec::new(self.alloc);
        for x in items {
            read.push(self.parse_standing(x)?)?;
        }
        Ok(read)
    }

    /// `[t ..]`.
    #[cycle(parse_caveat)]
    fn parse_list(self, x: &Value) -> Result<Option<Vec<Tmpl>>, NoMemory>
        ensures { IfOk result (λ ts. option_map (λ v. listed_templates v.items) ts
            ≡ templates_of self.own self.names x.now) }
    {
        match &x.node {
            Node::Seq(items) => self.parse_each(items.as_slice()),
            _ => Ok(None),
        }
    }

    #[cycle(parse_caveat)]
    fn parse_each(self, items: &[Value]) -> Result<Option<Vec<Tmpl>>, NoMemory>
        ensures { IfOk result (λ ts. option_map (λ v. listed_templates v.items) ts
            ≡ templates_in self.own self.names (plains items.now)) }
    {
        let mut templates = Vec::new(self.alloc);
        for x in items {
            let Some(template) = self.parse_template(x)? else {
                return Ok(None);
            };
            templates.push(template)?;
        }
        Ok(Some(templates))
    }

    /// `<dict {k: t ..}>`.
    #[cycle(parse_caveat)]
    fn parse_dictionary(self, x: &Value) -> Result<Option<Tmpl>, NoMemory>
        ensures { IfOk result (λ t. t ≡ option_map (dictionary_of (keys_of_value x.now))
            (templates_under_keys self.own self.names x.now)) }
    {
        match &x.node {
            Node::Dict(entries) => new_dictionary(entries, self.parse_values(entries.as_slice())?),
            _ => Ok(None),
        }
    }

    #[cycle(parse_caveat)]
    fn parse_values(self, entries: &[Entry]) -> Result<Option<Vec<Tmpl>>, NoMemory>
        ensures { IfOk result (λ ts. option_map (λ v. listed_templates v.items) ts
            ≡ templates_in_pairs self.own self.names (pairs (map key_and_value entries.now))) }
    {
        let mut templates = Vec::new(self.alloc);
        for e in entries {
            let Some(template) = self.parse_template(&e.value)? else {
                return Ok(None);
            };
            templates.push(template)?;
        }
        Ok(Some(templates))
    }
}

/// `<reject <_>>`.
fn reject_all(alloc: Global) -> Result<Caveat, NoMemory>
    ensures { IfOk result (λ c. c ≡ reject_all) }
{
    let form = PatternForm::Discard;
    new_caveat(alloc, Rule::Reject(CPat { form }))
}

fn new_caveat(alloc: Global, rule: Rule) -> Result<Caveat, NoMemory>
    ensures { IfOk result (λ c. c ≡ view_rule rule) }
{
    let rule = Arc::new(alloc, rule)?;
    Ok(Caveat { rule })
}

#[inline(never)]
fn standing(alloc: Global, rule: Option<Rule>) -> Result<Caveat, NoMemory>
    ensures { IfOk result (λ c. c ≡ standing (option_map view_rule rule)) }
{
    match rule {
        Some(rule) => new_caveat(alloc, rule),
        None => reject_all(alloc),
    }
}

fn new_reject(pattern: Option<CPat>) -> Option<Rule>
    ensures { option_map view_rule result ≡ option_map reject pattern }
{
    match pattern {
        Some(pattern) => Some(Rule::Reject(pattern)),
        None => None,
    }
}

fn new_guard(name: &Value, own: bool) -> Result<Option<Rule>, NoMemory>
    ensures { IfOk result (λ r. option_map view_rule r ≡ guard_named own name.now) }
{
    if !own {
        return Ok(None);
    }
    match &name.node {
        Node::Sym(name) => Ok(Some(Rule::Guard(name.copy()?))),
        _ => Ok(None),
    }
}

fn new_or(rewrites: Option<Vec<Rewrite>>) -> Option<Rule>
    ensures { option_map view_rule result
        ≡ option_map (λ rs. one_of (listed_rewrites rs.items)) rewrites }
{
    match rewrites {
        Some(rewrites) => Some(Rule::Or(rewrites)),
        None => None,
    }
}

/// The rewrite that a caveat is, where it is one.
fn as_rewrite(rule: Option<Rule>) -> Option<Rewrite>
    ensures { option_map (λ r. rewrite r.pattern r.template) result
        ≡ if_rewrite (option_map view_rule rule) }
{
    match rule {
        Some(Rule::Rewrite(rewrite)) => Some(rewrite),
        _ => None,
    }
}

fn new_rewrite(pattern: CPat, template: Option<Tmpl>) -> Option<Rule>
    ensures { option_map view_rule result ≡ rewrite_by (Some pattern) template }
{
    match template {
        Some(template) => Some(Rule::Rewrite(Rewrite { pattern, template })),
        None => None,
    }
}

fn form(form: TemplateForm) -> Tmpl
    ensures { result ≡ view_template form }
{
    Tmpl { form }
}

fn bound_place(names: u64, place: Option<u64>) -> Option<Tmpl>
    ensures { result ≡ bound_place names place }
{
    match place {
        Some(n) if n < names => Some(form(TemplateForm::Ref(n))),
        _ => None,
    }
}

#[inline(never)]
fn new_attenuate(
    alloc: Global,
    template: Tmpl,
    behind: Vec<Caveat>,
) -> Result<Option<Tmpl>, NoMemory>
    ensures { IfOk result (λ t. t ≡ Some (attenuate template (caveats behind.items))) }
{
    let inside = Box::new(alloc, template)?;
    Ok(Some(form(TemplateForm::Attenuate(inside, behind))))
}

fn new_sequence(templates: Option<Vec<Tmpl>>) -> Option<Tmpl>
    ensures { result ≡ option_map (λ ts. sequence_from (listed_templates ts.items)) templates }
{
    match templates {
        Some(templates) => Some(form(TemplateForm::Arr(templates))),
        None => None,
    }
}

#[inline(never)]
fn new_record(label: &Value, templates: Option<Vec<Tmpl>>) -> Result<Option<Tmpl>, NoMemory>
    ensures { IfOk result (λ t. t
        ≡ option_map (λ ts. record_from label.now (listed_templates ts.items)) templates) }
{
    match templates {
        Some(templates) => Ok(Some(form(TemplateForm::Rec(label.copy()?, templates)))),
        None => Ok(None),
    }
}

#[inline(never)]
fn new_dictionary(keys: &Entries, templates: Option<Vec<Tmpl>>) -> Result<Option<Tmpl>, NoMemory>
    ensures { IfOk result (λ t. t ≡ option_map
        (λ ts. dictionary_of (keys_of keys.now) (listed_templates ts.items)) templates) }
{
    match templates {
        Some(templates) => Ok(Some(form(TemplateForm::Dict(keys.copy()?, templates)))),
        None => Ok(None),
    }
}
