//! Schemas: definitions of names by patterns, closed under their names and guarded.
//!
//! Contracts see a [`Pattern`] as the data `PlainPattern` of `specs/Patterns.antt`, and a
//! [`Schema`] as the list of its definitions. That each name has one definition, that each name in
//! a pattern has one, and that each way from a name back to itself goes through a compound, is kept
//! by the type: `IsSchema` of `specs/Schemas.antt`.
#![tactic(auto)]

mod asked;
mod faults;
mod indexed;
mod laws;
mod making;
mod missing;
mod names;
mod ranks;
mod rising;
mod ways;

ghost use Rattle.std.specs.Prelude.{◌≡◌};

pub use faults::SchemaFault;
use indexed::Indexed;
pub use laws::{one_verdict, ways_end};
use pv_value::{Text, Value};
use pv_words::AtomKind;
use std::alloc::Global;
use std::marker::Model;

/// What a value must be like (Preserves Schema, section "Patterns").
///
/// Match on `&pattern.form` to look inside.
#[cycle(pattern)]
#[derive(Drop)]
pub struct Pattern {
    pub form: Form,
}

/// The forms of patterns.
#[cycle(pattern)]
#[derive(Drop)]
pub enum Form {
    /// `any`, which each value matches.
    Any,
    /// `bool`, `double` and so on: each value of a kind.
    OfKind(AtomKind),
    /// The value alone.
    Literal(Value),
    /// What the definition of the name matches.
    Name(Text),
    /// `#:P`: an embedded value whose inside matches.
    Embedded(Box<Pattern>),
    /// `<label P ..>`: a record of this label with just these fields.
    Record(Value, Vec<Pattern>),
    /// `<<rec> L F>`: a record whose label and whose sequence of fields match.
    RecordOf(Box<Pattern>, Box<Pattern>),
    /// `[P ..]`: a sequence of just these items.
    Tuple(Vec<Pattern>),
    /// `[P .. Q ...]`: a sequence of these first items, whose others all match the last pattern.
    TupleWithRest(Vec<Pattern>, Box<Pattern>),
    /// `#{P}`: a set whose elements all match.
    SetOf(Box<Pattern>),
    /// `{K: V ...:...}`: a dictionary whose keys and whose values all match.
    DictOf(Box<Pattern>, Box<Pattern>),
    /// `{key: P ..}`: a dictionary with these keys, and maybe others.
    Dict(Vec<Field>),
    /// `P / Q ..`: what one of them matches.
    OneOf(Vec<Pattern>),
    /// `P & Q ..`: what all of them match.
    AllOf(Vec<Pattern>),
}

/// The pattern of the value under a key.
#[cycle(pattern)]
#[derive(Drop)]
pub struct Field {
    pub key: Value,
    pub pattern: Pattern,
}

/// A name, and the pattern that it stands for.
#[derive(Drop)]
pub struct Definition {
    pub name: Text,
    pub pattern: Pattern,
}

/// A list of definitions.
#[derive(Drop)]
pub struct Defs {
    list: Vec<Definition>,
}

/// Definitions of which each name has one, which are closed under their names and guarded.
#[derive(Drop)]
pub struct Schema {
    alloc: Global,
    defs: Indexed,
    /// For each definition, in their order, whether verdicts on it are worth keeping.
    asked_again: Vec<bool>,
}

impl Model for Pattern {
    ghost use Rattle.ps_schema.specs.Patterns.{PlainPattern};
    ghost use Rattle.ps_schema.specs.Lemmas.Measures.{measure};
    ghost use Rattle.ps_schema.specs.Lemmas.Coded.{pattern_code};

    ghost Value = { PlainPattern };

    ghost coded = { pattern_code };

    ghost use Rattle.ps_schema.specs.View.{view_form};

    ghost view = { λ a. view_form a.form };

    ghost size = { measure };

    ghost use Rattle.ps_schema.specs.Lemmas.Falls.{falls};

    ghost size_decreases = { λ a h. falls a.form };
}

impl Model for Defs {
    ghost use Rattle.std.specs.Prelude.{List};
    ghost use Rattle.ps_schema.specs.declared.Definition.{Definition};
    ghost use Rattle.std.specs.Coded.{coded_list};
    ghost use Rattle.ps_schema.specs.Lemmas.CodedDefinitions.{definition_code};

    ghost Value = { List Definition };

    ghost coded = { coded_list definition_code };

    ghost view = { λ a. a.list.items };
}

impl Model for Schema {
    ghost use Rattle.std.specs.Prelude.{List};
    ghost use Rattle.ps_schema.specs.declared.Definition.{Definition};
    ghost use Rattle.ps_schema.specs.Schemas.{IsSchema};
    ghost use Rattle.std.specs.Coded.{coded_list};
    ghost use Rattle.ps_schema.specs.Lemmas.CodedDefinitions.{definition_code};

    ghost Value = { List Definition };

    ghost coded = { coded_list definition_code };

    ghost view = { λ a. a.defs };

    ghost invariant = { λ a. IsSchema a.defs };
}

impl Defs {
    /// The same definitions, in the same order.
    pub fn from_vec(list: Vec<Definition>) -> Defs
        ensures { result ≡ list.items }
    {
        Defs { list }
    }
}
