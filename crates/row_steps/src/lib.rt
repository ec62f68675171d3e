//! Rows of steps: the machine that a row is tried on, and what came of the rows of a file.
#![tactic(auto)]

mod machines;
mod steps;

pub use steps::judge_file;
