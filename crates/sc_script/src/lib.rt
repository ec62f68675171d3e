//! Scripts: their runs over the machine, and what these leave. What scripts hold is `sc_events`.
//!
//! What stands of an input is its course in `specs/Scripts.antt`: it runs through the steps that
//! its values make, or stops for the first cause.
//!
//! `Run` is handed on by value and whole, since `Hub::step` takes the hub by value, and so five of
//! its calls take it apart and put it together again. What isn't the hub (what was sent, how many
//! bytes, what is unread) could stand in a struct of its own that is changed in place; the proofs
//! of these calls name the four fields. Some functions have the hint `inline(always)`, as in
//! `hub_core`.
#![tactic(auto)]

mod faults;
mod laws;
mod ran;
mod runs;
mod scripts;

pub use faults::ScriptFault;
pub use laws::one_course;
pub use ran::run_script;
pub use rl_stream::next_is_decided;
pub use sc_events::{Form, one_reading};
