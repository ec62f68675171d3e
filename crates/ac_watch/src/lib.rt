//! Watchers: what they have got, and what they want by that.
//!
//! A watcher has the name of a behaviour, and has got rows, a handle and a value each. For each
//! sequence among the values it wants what its behaviour makes of it: a key `[captures place]` for
//! each place. [`Watching`] tells how what is wanted changes with each row.
//!
//! The keys that come and those that leave are made by two functions of the same shape, which
//! differ in the case of `Change`.
#![tactic(auto)]

mod keys;
#[cfg(test)]
mod tests;
mod watching;
mod weighing;

pub use watching::Watching;
