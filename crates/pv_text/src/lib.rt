//! The text form of values: reading it, by the Preserves text syntax.
#![tactic(auto)]

mod laws;
mod reading;
mod values;

pub use laws::{text_is_judged_as_a_whole, texts_are_read_one_way};
pub use pv_lex::{TextFault, TextKind};
pub use values::{next_value, read_all, read_text};
