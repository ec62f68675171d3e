//! The one compact text of a value, by the Preserves text syntax.
#![tactic(auto, using(crate::proofs::Fronts::fronts))]

mod atoms;
mod bytes;
mod laws;
mod printing;
mod symbols;

pub use laws::{printed_texts_read_back, printed_texts_spell};
pub use printing::{print, print_into};
