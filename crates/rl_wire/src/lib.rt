//! The crossing of references: values as a connection writes them, and as the server keeps them.
//!
//! What crosses, in which order references are looked at, and what stands where two keys or
//! elements become equal is `crossed_in` and `crossed_out` of `specs/Crossing.antt`.
//!
//! The last number of a system actor is one of this crate's own, since the constants of actors
//! stand above it, in `ac_world`.
#![tactic(auto)]

mod faults;
mod gathering;
mod held;
mod inward;
mod laws;
mod outward;
mod rebuilding;
mod wires;

pub use faults::WireFault;
pub use inward::{Crossed, references_in, wire_in};
pub use laws::{attenuated_references_are_caps, references_come_back};
pub use outward::wire_out;
pub use wires::Wire;

/// Connection k, counted from 1, is actor k above this one.
const BEFORE_CONNECTIONS: u32 = 16;
