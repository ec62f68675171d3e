//! Links at a gate over the hub: who opens them, and the jobs that serve them.
//!
//! [`GateDesk`] opens a link by an arrival of a connection, and makes of its halves two jobs, each
//! a [`Session`] with a seat of its own at the gate. [`Worker`] is a job that does the work of the
//! system's actors. `specs/Desks.antt` has the words of these contracts.
//!
//! [`GateDesk::seat`] answers a seat and no `Result`, since splitting a pass takes no memory and
//! always succeeds. The two jobs of a link are one type, [`Session`], with an enum for its half,
//! since a spawner takes jobs of one type.
#![tactic(auto)]

mod gate_desk;
mod jobs;

pub use gate_desk::{GateDesk, Stopped};
pub use jobs::{Half, Session, Worker, serve_reads, serve_writes};
