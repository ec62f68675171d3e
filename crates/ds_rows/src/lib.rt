//! Rows of values under handles, and how many rows have each value.
//!
//! Contracts see [`Rows`] as the list of rows, a handle and a value each, ascending by handle.
//! Whether a row has a value is looked up, however many rows there are.
#![tactic(auto)]

mod counting;
mod rows;
#[cfg(test)]
mod tests;

pub use rows::Rows;
