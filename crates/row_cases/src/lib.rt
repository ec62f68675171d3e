//! Cases of the codecs and the hash in tables, how bytes are written in a file, what differs
//! between two outcomes, and the count of what passed.
//!
//! Three functions stand once more in other crates of rows (names of faults of the text form, what
//! is told of a case that differs, the one value that a text is), since this crate keeps its own to
//! itself.
#![tactic(auto)]

mod codecs;
mod differences;
mod faults;
mod hashes;
mod names;
mod shown;
mod spelling;
mod tables;
mod tally;

pub use differences::{Outcome, outcomes_differ};
pub use faults::Fault;
pub use spelling::{Form, bytes_in, escaped, find_form};
pub use tables::judge_table;
pub use tally::{Findings, Tally, one_difference};
