//! Values found by what stands in them: for an outline and constants, a set of values among which
//! all that have these constants stand, without a pass over all values.
//!
//! What [`Facts`] hold of a list of values is `AreFacts` of `specs/Keeping.antt`, and what they
//! answer is `IsNear` of `specs/Nearness.antt`.
#![tactic(auto)]

mod atoms;
mod facts;
mod keeping;
mod laws;
mod near;

pub use facts::Facts;
pub use laws::facts_are_members;
pub use near::Near;
