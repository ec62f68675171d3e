//! The world of the machine: live actors, rows and inboxes, the turns of system actors, and
//! endings.
//!
//! What contracts see of a [`World`] is the state of `specs/Worlds.antt`; its turns are those of
//! `specs/Turns.antt`, for every body of [`ds_space::Space`].
//!
//! Actors' numbers stand as numbers in definitions: the gatekeeper is 0, dataspaces are 1 to 8,
//! watchers 9 to 16, connections from 17 (`specs/Worlds.antt`); in code their constants stand here,
//! and the crates above take them from here. `Readings::new` and `behaves` ensure nothing: what is
//! read is kept right by its type, and what `behaves` lends answers the table, by its trait.
#![tactic(auto)]

mod actors;
mod acts;
mod aims;
mod context;
mod dataspaces;
mod gatekeeper;
mod held;
mod others;
mod outboxes;
mod parts;
mod plans;
mod readings;
mod residents;
mod spreads;
mod sums;
mod systems;
mod turning;
mod turns;
mod watched;
mod watchers;
mod world;

pub use ac_table::Load;
pub use actors::{BEFORE_CONNECTIONS, FIRST_CONNECTION};
pub use acts::Act;
pub use aims::Aim;
pub use held::Held;
pub use readings::limit_is_as_defined;
pub use spreads::{Spread, Spreads};
pub use turns::Turned;
pub use watched::Watched;
pub use world::World;
