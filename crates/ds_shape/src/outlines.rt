//! Outlines and shapes: what splitting makes of a pattern.
use crate::paths::Path;
use dp_pattern::Group;
use pv_value::Value;
use std::marker::Model;

/// What may be asked of a value by its kind.
#[derive(Drop)]
pub enum Kind {
    /// Nothing but that it is there.
    Any,
    /// That it is of the group's kind, and has as many parts as the group wants.
    Of(Group),
}

/// That at a path something stands, and is of a kind.
#[derive(Drop)]
pub struct Test {
    pub path: Path,
    pub kind: Kind,
}

/// What patterns that differ in their constants alone have in common.
#[derive(Drop)]
pub struct Outline {
    /// What a value is to pass.
    pub tests: Vec<Test>,
    /// Where a value is to have the constants.
    pub constants: Vec<Path>,
    /// Where a value is captured, in the order of the captures.
    pub captures: Vec<Path>,
}

impl Model for Outline {
    ghost use Rattle.std.specs.Coded.{codes};
    ghost use Rattle.pv_value.specs.Lemmas.Coded.{plain_code};
    ghost use Rattle.ds_shape.specs.Outlines.{Outline as OutlineOf};

    ghost Value = { OutlineOf };

    ghost coded = { Prim.hlevel (codes, plain_code) };

    ghost view = { λ o. record {
      tests = o.tests.items;
      constants = o.constants.items;
      captures = o.captures.items;
    } };
}

/// A pattern taken apart.
#[derive(Drop)]
pub struct Shape {
    pub outline: Outline,
    /// The sequence of what is to stand at the outline's constant paths.
    pub constants: Value,
}
