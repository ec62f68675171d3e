//! A query over a dialled link: it asks the server for what a reference names, observes a pattern
//! there, and writes a line for each value that comes or goes, until so many are written.
//!
//! `specs/Asked.antt` says what is written and said for the bytes that the server sent, and why a
//! query ends.
#![tactic(auto)]

mod asker;
mod asking;
mod dialling;
mod packets;
mod printing;
mod received;

pub use dialling::{QUERY_BYTES, QueryEnd, Question, query};
