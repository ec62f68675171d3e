//! Dataspaces as lists of numbered values: what is wanted over them, exact changes of it, and what
//! a message fans out to.
//!
//! Contracts see a [`Space`] as its list of rows, a number and a value each, ascending by number.
//! What is wanted over the values is `wants` of `specs/Wants.antt`.
//!
//! Who observes is read here alone (`observer_of`, `is_observer`), and so is `is_over`, beside its
//! limit: the crates above call them. std's traits of comparing are written out for `Standing`,
//! which go by an order that a definition gives. The last dataspace's number is one of this crate's
//! own, since the constants of actors stand above it, in `ac_world`.
#![tactic(auto)]

mod collecting;
mod comparing;
mod fanning;
mod laws;
mod limits;
mod observing;
mod plain;
mod references;
mod space;
mod standing;
mod weighing;

pub use laws::{changes_are_exact, limit_is_as_defined, wants_are_in_order, wants_are_the_rule};
pub use limits::{WANTED_WEIGHT, is_over};
pub use observing::{is_observer, observer_of};
pub use plain::PlainSpace;
pub use references::{Reference, reference_of, reference_value};
pub use space::{Applied, Change, Changes, Fan, FanList, Fanned, Space, SpaceEvent};
