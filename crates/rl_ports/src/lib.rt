//! What a connection names by numbers of its own: the references that it was told of, and
//! the assertions that it made.
//!
//! An export stays in force while it is pinned or a held row mentions it; a sweep at the end of a
//! turn releases the others, and their numbers are never given again. Contracts see [`Ports`] as
//! its exports by number, its pins, its notes of what held rows mention, and its handles in use.
#![tactic(auto)]

mod export_list;
mod marking;
mod oids;
mod ports;
mod reading;

pub use oids::Oids;
pub use ports::{EXPORTS, EXPORTS_WEIGHT, Exported, Inbound, Ports, PortsFault};
pub use reading::ReadReference;
