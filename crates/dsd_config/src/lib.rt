//! The configuration in a file, over an outside world that is handed in.
//!
//! [`hub_in`] reads the file and gives the hub that its text sets up, or why it gives none.
//! `specs/Configs.antt` says what stands of a file as a configuration.
#![tactic(auto)]

mod configs;

pub use configs::hub_in;
