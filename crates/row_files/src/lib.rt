//! What files of rows say: their sections and rows, their cases, and where one isn't written as it
//! must be.
#![tactic(auto)]

mod cases;
mod faults;
mod lines;
mod rows;
mod sections;

pub use cases::{Case, Line, case_of, line_of};
pub use faults::LineFault;
pub use rows::{Row, RowFile, rows_of};
