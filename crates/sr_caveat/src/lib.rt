//! Caveats, and references that carry them: what they are, and which values write them.
//!
//! A reference carries caveats, each of which changes what is sent through it, lets it pass as it
//! is, or refuses it. What passes them is told by the crate above, `sr_pass`.
//!
//! Contracts see a [`CPat`], a [`Tmpl`] and a [`Caveat`] as the data of `specs/Patterns.antt`.
//! Which values write them is `caveat_of` of `specs/Written.antt`, and the values that they write
//! are those of `specs/Spelled.antt`.
#![tactic(auto)]

mod binds;
mod caps;
mod caveats;
mod embedded;
mod laws;
mod limits;
mod patterns;
mod spelling;

pub use caps::{Cap, Caveats};
pub use caveats::parse_caveat;
pub use embedded::has_embedded;
pub use laws::{caps_are_their_values, caveats_are_read_back, no_guard_from_the_wire};
pub use limits::{
    REFERENCE_CAVEATS, REFERENCE_WEIGHT, VALUE_DEPTH, VALUE_WEIGHT, limits_are_as_defined,
};
use pv_value::{Entries, Text, Value};
use pv_words::AtomKind;
pub use spelling::{caveat_values, dictionary_with};
use std::marker::Model;
use std::sync::Arc;

/// What a value must be like, and which of its parts are bound.
///
/// Match on `&pattern.form` to look inside.
#[cycle(pattern)]
#[derive(Drop)]
pub struct CPat {
    pub form: PatternForm,
}

/// The forms of patterns (Sturdyref document, "caveats").
#[cycle(pattern)]
#[derive(Drop)]
pub enum PatternForm {
    /// `<_>`, which any value matches.
    Discard,
    /// Any value of a kind.
    OfKind(Kind),
    /// `<bind p>`, which binds what matches `p`.
    Bind(Box<CPat>),
    /// `<and [p ..]>`: what all match.
    And(Vec<CPat>),
    /// `<not p>`: what doesn't match `p`. It binds nothing.
    Not(Box<CPat>),
    /// `<lit v>`, which the value matches alone.
    Lit(Value),
    /// `<rec label [p ..]>`: a record of this label with just these fields.
    Rec(Value, Vec<CPat>),
    /// `<arr [p ..]>`: a sequence of just these items.
    Arr(Vec<CPat>),
    /// `<dict {k: p ..}>`: a dictionary with these keys, and maybe others. The keys are those of
    /// the entries that wrote it, and the patterns stand in their order.
    Dict(Entries, Vec<CPat>),
}

/// The kinds that a pattern can ask for.
#[derive(Clone, Copy, Debug, Drop)]
pub enum Kind {
    Atom(AtomKind),
    Embedded,
}

/// What is made of the values that a pattern bound.
///
/// Match on `&template.form` to look inside.
#[cycle(caveat)]
#[derive(Drop)]
pub struct Tmpl {
    pub form: TemplateForm,
}

/// The forms of templates (Sturdyref document, "caveats").
#[cycle(caveat)]
#[derive(Drop)]
pub enum TemplateForm {
    /// `<attenuate t [caveat ..]>`: the reference that `t` gives, with these caveats behind its
    /// own.
    Attenuate(Box<Tmpl>, Vec<Caveat>),
    /// `<ref n>`: what was bound in this place, counted from 0.
    Ref(u64),
    /// `<lit v>`: the value.
    Lit(Value),
    /// `<rec label [t ..]>`
    Rec(Value, Vec<Tmpl>),
    /// `<arr [t ..]>`
    Arr(Vec<Tmpl>),
    /// `<dict {k: t ..}>`: a dictionary with the keys of the entries that wrote it, whose templates
    /// stand in their order.
    Dict(Entries, Vec<Tmpl>),
}

/// One condition on what passes a reference.
///
/// Match on `&*caveat.rule` to look inside. What is inside is shared: a copy costs one count.
#[cycle(caveat)]
#[derive(Drop)]
pub struct Caveat {
    pub rule: Arc<Rule>,
}

/// The kinds of caveats (Sturdyref document, "caveats").
#[cycle(caveat)]
#[derive(Drop)]
pub enum Rule {
    /// `<rewrite p t>`: what the template makes of a value that matches.
    Rewrite(Rewrite),
    /// `<or [rewrite ..]>`: what the first of these that matches makes of it.
    Or(Vec<Rewrite>),
    /// `<reject p>`: the value, where it doesn't match.
    Reject(CPat),
    /// `<guard Name>`: the value, where it conforms to the definition of this name.
    Guard(Text),
}

/// A pattern, and what is made of what it binds.
#[cycle(caveat)]
#[derive(Drop)]
pub struct Rewrite {
    pub pattern: CPat,
    pub template: Tmpl,
}

impl Model for CPat {
    ghost use Rattle.sr_caveat.specs.Patterns.{Pattern};
    ghost use Rattle.sr_caveat.specs.Lemmas.Measures.{measure};
    ghost use Rattle.sr_caveat.specs.Lemmas.Coded.{pattern_code};

    ghost Value = { Pattern };

    ghost coded = { pattern_code };

    ghost use Rattle.sr_caveat.specs.View.{view_pattern};

    ghost view = { λ a. view_pattern a.form };

    ghost size = { measure };

    ghost use Rattle.sr_caveat.specs.Lemmas.Falls.{pattern_falls};

    ghost size_decreases = { λ a h. pattern_falls a.form };
}

impl Model for Tmpl {
    ghost use Rattle.sr_caveat.specs.Patterns.{Template};
    ghost use Rattle.sr_caveat.specs.Lemmas.Measures.{measure_template};
    ghost use Rattle.sr_caveat.specs.Lemmas.Coded.{template_code};

    ghost Value = { Template };

    ghost coded = { template_code };

    ghost use Rattle.sr_caveat.specs.View.{view_template};

    ghost view = { λ a. view_template a.form };

    ghost size = { measure_template };

    ghost use Rattle.sr_caveat.specs.Lemmas.Falls.{template_falls};

    ghost size_decreases = { λ a h. template_falls a.form };
}

impl Model for Caveat {
    ghost use Rattle.sr_caveat.specs.Patterns.{Caveat};
    ghost use Rattle.sr_caveat.specs.Lemmas.Measures.{measure_caveat};
    ghost use Rattle.sr_caveat.specs.Lemmas.Coded.{caveat_code};

    ghost Value = { Caveat };

    ghost coded = { caveat_code };

    ghost use Rattle.sr_caveat.specs.View.{view_rule};

    ghost view = { λ a. view_rule a.rule.value };

    ghost size = { measure_caveat };

    ghost use Rattle.sr_caveat.specs.Lemmas.Falls.{rule_falls};

    ghost size_decreases = { λ a h. rule_falls a.rule.value };
}
