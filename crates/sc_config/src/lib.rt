//! Configurations of a server: texts of a schema, of bindings and of watchers alone.
//!
//! What stands of a text is its course in `specs/Configs.antt`: it gives a schema and the steps
//! that bind and watch, or is refused for the first cause.
#![tactic(auto)]

mod configs;
mod events;
mod faults;
mod laws;

pub use configs::configured;
pub use faults::ConfigFault;
pub use laws::one_configuration;
