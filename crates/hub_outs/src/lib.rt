//! The packets that connections were sent: kept for each of them, in order, as the machine's
//! replies bring them.
//!
//! A map in a struct stands in four crates (`Outs` here, `Outboxes`, `Streams` and `Ports`): each
//! has elements and calls of its own, and one map that all shared would hide the clauses that are
//! what each is for.
#![tactic(auto)]

mod outs;

pub use outs::{Outs, turning};
