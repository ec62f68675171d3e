//! What a run of the server leaves, and its report as a value.
#![tactic(auto)]

mod ran;
mod reports;

pub use ran::{Connection, Ran};
pub use reports::{holdings, report};
