//! One value that many threads change in steps, and the one history of those steps.
//!
//! A [`Gate`] holds a value whose type says what a step does to it ([`Replayed`]). Each caller has
//! a [`Pass`] of the gate. [`Gate::commit`] does one step while no other caller does one, and
//! [`Gate::commit_row`] several, one behind another. The contract of each call says what its pass
//! then knows: a list of steps with their replies, which is legal, and in which the caller's own
//! steps stand at the places of its `mine`. The lists of any two passes begin one list. Once all
//! passes were joined into the first one, [`Gate::close`] gives the value that the whole list
//! leaves.
//!
//! A caller that finds nothing to do rests at a place ([`Gate::rest`]) until a step calls it.
//!
//! `specs/History.antt`, `specs/Passes.antt` and `specs/Rows.antt` have the words of these
//! contracts.
#![tactic(auto)]

mod calls;
mod gate;
mod laws;
mod plays;
mod replayed;
mod rows;
mod view;

pub use gate::{Gate, GateFault, MOST, Pass};
pub use laws::{each_stands_once, history_is_one_threads, rule_stands};
pub use replayed::{Course, NoMemory, PLACES, Replayed};
pub use view::{Entry, Has, Held, Joined, View};
