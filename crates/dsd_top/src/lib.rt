//! The program over an outside world that is handed in: the words that make something of standard
//! input, or of no input at all.
//!
//! [`dsd_once`] does what these words say. The words that serve, that query and that keep bindings
//! are of crates above, with the usage text, the lines on standard error and the readings of single
//! words from here: [`plain_value`], [`key_of`], [`number_within`] and [`reference_line`].
#![tactic(auto)]

mod answers;
mod conformance;
mod faults;
mod forms;
mod inputs;
mod laws;
mod lines;
mod loading;
mod minting;
mod numbers;
mod once;
mod schemas;
mod values;
mod words;

pub use conformance::Conformance;
pub use faults::Fault;
pub use inputs::read_input;
pub use laws::minted_references_verify;
pub use lines::{refuse, say};
pub use minting::{WordsFault, key_of, plain_value, reference_line};
pub use numbers::number_within;
pub use once::dsd_once;
pub use sc_script::{next_is_decided, one_course, one_reading};
pub use schemas::FILE_BYTES;
pub use words::{Minting, is_serve};
