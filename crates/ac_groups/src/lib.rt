//! Keys by groups: a key `[o c]` stands in the group o, so that o is looked for once and kept once.
//!
//! What contracts see of [`Groups`] is two flat lists, as if nothing were grouped: the handle of
//! each whole key, and the facet of each group that has one.
//!
//! A system actor keeps the handle of its row for each key that it wants, since owner, target and
//! value alone don't tell which of two rows to retract.
#![tactic(auto)]

mod group;
mod groups;
mod parts;
#[cfg(test)]
mod tests;

pub use groups::{Groups, Taken};
