//! Tables of cases of schemas: texts with the fault that each has as a schema, and values with
//! whether each conforms.
//!
//! The loop over the lines of a table stands twice here and once in `row_cases`: each judges by a
//! definition of its own, and what their proofs have in common is `judged_more` of `row_cases`.
#![tactic(auto)]

mod fault_cases;
mod lines;
mod tables;
mod told;
mod value_cases;

pub use tables::{Table, find_table, judge_table};
