//! What the layers above read of values: records whose label is a word, numbers, the parts that a
//! place or a key names, and the kinds of atoms.
#![tactic(auto)]

mod kinds;
mod parts;
mod words;

pub use kinds::AtomKind;
pub use parts::{item_under, value_under};
pub use words::{is_word, labelled, number, number_in, worded};
