//! The schema by which guards judge: the first value of a script or of a configuration may give it.
//!
//! What a first value gives, and which schema that is, stands in `specs/Firsts.antt`. How the
//! values of either are judged one after another stands in `specs/Courses.antt`, and has no code of
//! its own.
//!
//! The four lines of `err_so`, on a fault that `?` hands on, stand in the lemmas here and in the
//! proofs of `hub_packets`.
#![tactic(auto)]

mod firsts;
mod laws;

pub use firsts::{first_schema, no_schema};
pub use laws::one_first_schema;
