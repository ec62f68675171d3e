//! The machine of the server: connections over the world of actors, as one pure state machine over
//! steps.
//!
//! What contracts see of a [`Hub`] is the state of `hub_machine`'s `specs/State.antt`, and
//! [`Hub::step`] is the machine of its `specs/Machine.antt`, over any body of [`ds_space::Space`].
//! What a packet does, and what a connection is told of a batch, is told by `hub_packets`.
//!
//! Some functions that take the world or the hub and hand it on have the hint `inline(always)`: by
//! value each such call moves some hundred bytes. The hint changes no proof, and makes the compiler
//! slower. `behaves` of [`Hub`] ensures nothing: whatever it lends answers the table, by its trait.
#![tactic(auto)]

mod endings;
mod hub;
mod packets;
mod turns;
mod unchecked;
mod watchers;
mod work;

pub use hub::Hub;
pub use hub_machine::{
    BACKLOG, BACKLOG_WEIGHT, CONNECTIONS, DATASPACES, DELIVERIES, DELIVERIES_WEIGHT, Fault,
    HANDLES, ROWS_WEIGHT, Reply, Step, TURN_EVENTS, WANTED_WEIGHT, WATCHERS,
    refusals_change_nothing, refused_packets_have_their_cause, refused_packets_leave_nothing,
};
pub use rl_ports::Inbound;
pub use work::{CLASSES, class_of};
