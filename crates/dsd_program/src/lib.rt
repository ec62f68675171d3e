//! The program over an outside world that is handed in: all its words.
//!
//! [`run_words`] hands them to the crate that does them. It promises what that crate's call
//! promises: `specs/Words.antt` says which words go to which, and `specs/Does.antt` has a relation
//! for each, of what is told of the world before and after.
#![tactic(auto)]

mod running;
mod word;

pub use running::run_words;
