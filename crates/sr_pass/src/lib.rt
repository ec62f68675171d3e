//! What passes caveats, and what they make of it.
//!
//! A value that is sent through a reference passes the reference's caveats, the newest first: each
//! one changes the value, lets it pass as it is, or refuses it. So a reference with more caveats
//! gives only what the one with fewer gives.
//!
//! What a pattern binds of a value is `bound` of `specs/Binding.antt`, what a template makes of it
//! `filled` of `specs/Filling.antt`, and what passes a list of caveats `passed` of
//! `specs/Passing.antt`.
#![tactic(auto)]

mod filling;
mod laws;
mod matching;
mod passing;
mod sizes;

pub use laws::{attenuating_narrows, bindings_are_binds, newest_comes_first, unknown_is_refused};
pub use matching::{bindings, matches};
pub use passing::{Judge, NoNames, pass};
