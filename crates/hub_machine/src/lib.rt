//! The machine of the server, as definitions: its state, its steps and replies, why connections
//! end, and the limits.
//!
//! `specs/Machine.antt` says what each step makes of a state, and what the reply is. The crate has
//! the types that steps and replies are made of, and laws of the definitions; `hub_core` does the
//! steps.
#![tactic(auto)]

mod faults;
mod laws;
mod limits;
mod steps;

pub use faults::{Fault, over, overrun};
pub use laws::{
    refusals_change_nothing, refused_packets_have_their_cause, refused_packets_leave_nothing,
};
pub use limits::{
    BACKLOG, BACKLOG_WEIGHT, CONNECTIONS, DATASPACES, DELIVERIES, DELIVERIES_WEIGHT, HANDLES,
    ROWS_WEIGHT, TURN_EVENTS, WANTED_WEIGHT, WATCHERS, WORN_CONNECTIONS, WORN_HANDLE,
    limits_are_as_defined,
};
pub use steps::{Reply, Step};
