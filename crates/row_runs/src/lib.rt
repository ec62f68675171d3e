//! Rows as the program does them, over the outside world in memory, and what came of the rows of a
//! file.
#![tactic(auto)]

mod outcomes;
mod rows;

pub use outcomes::outcome_of;
pub use rows::judge_file;
