//! Dataspace patterns taken apart, as an index of patterns needs them: the tests of a pattern, its
//! constants, each at a path, and the paths at which it captures.
//!
//! Patterns that differ in their constants alone have the same [`Outline`]. So an index has, for
//! each outline and constants, those who observe so, and finds for a value under each outline the
//! constants that it has there: one look, however many patterns there are.
//!
//! What the parts of a pattern are is `outline_of` and `constants_of` of `specs/Splitting.antt`,
//! and what they say of a value is `captured_by` of `specs/Standing.antt`. Outlines are told apart
//! by the value `outline_value` of `specs/Keys.antt`, and stand in its order.
//!
//! std's traits of comparing are written out for [`Outline`], which go by the order of its value.
#![tactic(auto)]

mod keys;
mod laws;
mod ordering;
mod outlines;
mod paths;
mod splitting;
mod standing;

pub use laws::{
    constants_tell, keys_tell_outlines, outlines_are_in_order, parts_are_in_order,
    shapes_say_patterns,
};
pub use outlines::{Kind, Outline, Shape, Test};
pub use paths::{Path, Step, part_at};
pub use splitting::split;
pub use standing::{captures_at, constants_at, passes};
