//! Marks of values: numbers of 64 bits by which values are told apart at a glance.
//!
//! Values that are alike to near their end cost a walk over all that they share where they are
//! compared. A [`Marked`] value has its mark beside it, so that a map looks at the values alone
//! whose marks are equal.
#![tactic(auto)]

mod marking;
mod marks;
#[cfg(test)]
mod tests;

pub use marking::mark;
pub use marks::{Marked, marked_order_is_total};
