//! Schemas, read from their text (Preserves Schema, section "Concrete (textual) syntax").
//!
//! A text is read as values; which definitions they write is `definitions_of` of
//! `specs/Clauses.antt`, a grammar on lists of values, and which pattern a value writes is
//! `pattern_of` of `specs/Written.antt`.
#![tactic(auto)]

mod clauses;
mod faults;
mod laws;
mod names;
mod parsing;
mod reading;
mod support;

pub use faults::{Misfit, SchemaFault};
pub use laws::one_verdict;
pub use reading::read_schema;
