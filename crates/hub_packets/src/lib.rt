//! Packets of connections, in and out, apart from the state of the hub: the admission of what a
//! connection sends, and what it is told, references as it knows them.
//!
//! [`admission`] tells what the events of a packet do, or why one of them is refused, by
//! `hub_machine`'s `specs/Admission.antt`; [`all_to_send`] gives the events of a batch as they are
//! sent, and exports what they tell of.
//!
//! Each layer that turns faults of the one below into its own writes the conversions, since the
//! kit's derive makes none that a clause can speak of.
#![tactic(auto)]

mod admitting;
mod refusals;
mod telling;

pub use admitting::{Admitting, admission};
pub use refusals::Refusal;
pub use telling::all_to_send;
