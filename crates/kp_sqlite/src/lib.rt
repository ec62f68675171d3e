//! Kept bindings in a file of SQLite.
//!
//! [`SqlKeeper`] keeps the name of its file alone: each call opens the file, which nobody else can
//! open meanwhile, and closes it. So other processes come to the file between two calls. Nothing
//! is told of what the file holds: others may write it.
#![tactic(auto)]

mod keeper;
mod refusal;
mod table;
#[cfg(test)]
mod tests;

pub use keeper::SqlKeeper;
pub use refusal::Cause;
