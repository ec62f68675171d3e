//! Dataspace patterns: which values write them, which values they match, and what they capture.
//!
//! Contracts see a [`DPat`] as the data `Pattern` of `specs/Patterns.antt`. What a pattern means is
//! `matched` of `specs/Matching.antt`, apart from how it is written, `pattern_of` of
//! `specs/Written.antt`.
#![tactic(auto)]

mod laws;
mod matching;
mod parsing;
mod parts;

pub use laws::captures_are_binds;
pub use matching::{captures, matches};
pub use parsing::parse;
pub use parts::is_of;
use pv_value::Value;
use std::marker::Model;

/// A dataspace pattern.
///
/// Match on `&pattern.form` to look inside.
#[cycle(pattern)]
#[derive(Drop)]
pub struct DPat {
    pub form: Form,
}

/// The forms of patterns (Syndicate Protocol, "dataspace patterns").
#[cycle(pattern)]
#[derive(Drop)]
pub enum Form {
    /// `<_>`, which any value matches.
    Discard,
    /// `<bind p>`, which captures what matches `p`.
    Bind(Box<DPat>),
    /// `<lit v>`, which the value matches alone.
    Lit(Value),
    /// `<group g {key: p ..}>`, or in the older spelling `<rec label [p ..]>`, `<arr [p ..]>` or
    /// `<dict {key: p ..}>`: a value of this kind whose parts under the keys match.
    Group(Group, Vec<Field>),
}

/// The pattern of the part under a key.
#[cycle(pattern)]
#[derive(Drop)]
pub struct Field {
    pub key: Value,
    pub pattern: DPat,
}

/// What a group looks into.
#[derive(Drop)]
pub enum Group {
    /// A record of this label: `<rec label>`, or `<rec label [p ..]>` of exactly so many fields.
    InRecord(Value, Extent),
    /// A sequence: `<arr>`, or `<arr [p ..]>` of exactly so many items.
    InSequence(Extent),
    /// `<dict>`, a dictionary.
    InDictionary,
}

/// How many fields or items a value is to have.
#[derive(Clone, Copy)]
pub enum Extent {
    /// Any number: those that no key names are passed over.
    Open,
    /// Exactly so many.
    Exactly(usize),
}

impl Model for DPat {
    ghost use Rattle.dp_pattern.specs.Patterns.{Pattern};
    ghost use Rattle.dp_pattern.specs.Lemmas.Measures.{measure};
    ghost use Rattle.dp_pattern.specs.Lemmas.Coded.{pattern_code};

    ghost Value = { Pattern };

    ghost coded = { pattern_code };

    ghost use Rattle.dp_pattern.specs.View.{view_form};

    ghost view = { λ a. view_form a.form };

    ghost size = { measure };

    ghost use Rattle.dp_pattern.specs.Lemmas.Falls.{falls};

    ghost size_decreases = { λ a h. falls a.form };
}
