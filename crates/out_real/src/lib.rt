//! The real outside world: standard streams and files, links over TCP, and threads.
//!
//! Each adapter counts its faults and tells nothing of content: no clause can say what a file, a
//! socket or a terminal gives or takes. So these lines are trusted, and each adapter has a test.
//! [`waits`] has the times for which links wait, of which no clause tells either.
#![tactic(auto)]

mod accepting;
mod dialling;
mod host;
mod keeping;
mod links;
mod spawner;
mod streams;
#[cfg(test)]
mod tests;
pub mod waits;

pub use host::RealHost;
pub use links::{TcpSink, TcpSource};
pub use spawner::{STACK_BYTES, ScopeSpawner, start_in};
pub use streams::{ReadSource, WriteSink};
