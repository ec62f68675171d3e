//! The counted index: a dataspace that changes at the cost of what changes.
//!
//! A [`Skeleton`] does what `ds_space::PlainSpace` does, word for word. It keeps, beside its rows,
//! an index of the distinct values: the outlines of the observations, and for each outline and
//! constants that are observed who observes so, and how many values were captured so. Only a
//! value's first row that comes and its last row that goes change anything.
//!
//! What the index holds of a list of values is `IsIndex` of `specs/Indexes.antt`.
//!
//! What comes and what goes stand beside each other (`bump` and `drop_one`, `watch` and `unwatch`,
//! and what is made of them): the two of a pair have one shape, and differ in the call in the midst
//! and in what their contracts add or take away.
#![tactic(auto)]

mod capturing;
mod counting;
mod entering;
mod fanning;
mod finding;
mod index;
mod laws;
mod leaf;
mod listing;
mod observing;
mod outlines;
mod shape;
mod skeleton;
mod standing;
mod tally;
mod touching;

pub use laws::{counts_are_wants, leaves_count_captures};
pub use skeleton::Skeleton;
