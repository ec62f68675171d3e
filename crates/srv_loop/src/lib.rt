//! Accepting links: each is welcomed by a desk, and its two jobs are started by a spawner.
//!
//! [`Desk`] opens links and dismisses them. [`accept_all`] accepts, and its contract says what
//! became of each link that it was given. `specs/Links.antt` and `specs/Tallies.antt` have the
//! words of these contracts.
#![tactic(auto)]

mod accepting;
mod desk;
mod tally;
#[cfg(test)]
mod tests;

pub use accepting::accept_all;
pub use desk::{Desk, NoMemory};
pub use tally::Tally;
