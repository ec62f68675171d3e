//! The hub behind a gate: the machine's steps, done by many threads as if by one.
//!
//! [`Served`] is the hub as a value that a [`turn_gate::Gate`] holds.
//! [`histories_are_the_machines`] says what a gate's history is then: a run of the machine.
//!
//! `Seated` is over any value that a gate holds, and a caller of the server where that value is the
//! hub: the kit states no struct whose field needs a bound that only a generic `impl` meets.
#![tactic(auto)]

mod laws;
mod seated;
mod served;

pub use laws::{histories_are_the_machines, news_are_called, news_are_seen};
pub use seated::Seated;
pub use served::{Served, ServedStep};
