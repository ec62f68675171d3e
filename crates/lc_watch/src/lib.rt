//! Behaviours of watchers: what a watcher asserts of the captures that it is told.
//!
//! A behaviour has a name, and `specs/Behaviours.antt` has the table of all. [`Watcher`] keeps a
//! function that answers the table; [`Table`] is one.
//!
//! [`Watcher::new`] ensures nothing: whatever function a watcher keeps, by its type it answers the
//! table.
//!
//! The five lines that copy a list of values stand in `rl_wire` too, and in `ds_shape` for steps,
//! since `pv_value` offers a copy of one value.
#![tactic(auto)]

mod behaviours;
mod laws;
mod tables;
#[cfg(test)]
mod tests;
mod watchers;

pub use behaviours::{Behaves, Behaviour};
pub use laws::eight_at_most;
pub use tables::Table;
pub use watchers::Watcher;
