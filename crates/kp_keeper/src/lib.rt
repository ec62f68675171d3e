//! Bindings that outlast the server: what is kept of each, who keeps them, and a keeper in memory.
//!
//! [`Records`] is the list of what is kept. [`Keeper`] is something that keeps such a list, and
//! [`Keeping`] one whose list is in a file that it opens by its name. What commands leave of a list
//! is `After` of `specs/Commands.antt`.
#![tactic(auto)]

mod keeper;
mod laws;
mod memory;
mod records;

pub use keeper::{KeepFault, Keeper, Keeping, Kept, MOST_RECORDS};
pub use laws::{commands_decide, limit_is_as_defined};
pub use memory::{MemKeeper, MemKeeping};
pub use records::{Record, Records};

#[cfg(test)]
mod tests;
