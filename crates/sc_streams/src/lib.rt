//! What connections have sent: a stream for each of them, as far as it isn't read.
//!
//! `Streams` is one of four maps in a struct, of which `hub_outs` tells why they aren't one.
#![tactic(auto)]

mod streams;

pub use streams::Streams;
