//! Sets of values that are small mostly: one value is kept in place, and a tree is made only for
//! the second.
//!
//! Contracts see a [`SmallSet`] as the library's set of the same keys.
#![tactic(auto)]

mod set;
#[cfg(test)]
mod tests;

pub use set::{Held, SmallSet};
