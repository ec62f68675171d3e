//! A client that asks a server for what a reference names, observes a pattern there, and tells what
//! comes and goes.
//!
//! `specs/Hearing.antt` says what each event does, `specs/Reactions.antt` what a list of packets
//! does, and `specs/Laws.antt` what the lines of such a list add up to.
#![tactic(auto)]

mod asks;
mod client;
mod hearing;
mod laws;
mod lines;
mod printing;
mod words;

pub use client::{Client, QueryFault, Reaction, Standing};
pub use laws::{added_lines_are_held, packets_go_on};
pub use lines::{Line, Lines};
