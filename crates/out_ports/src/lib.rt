//! The outside world as a program sees it, and in memory for tests.
//!
//! [`ports`] has the traits: sources, sinks, listeners, hosts and spawners. [`streams`] reads and
//! writes whole texts over them. [`memory`] has a form of each trait in memory, whose contracts say
//! exactly what each call answers and changes.
#![tactic(auto)]

pub mod memory;
pub mod ports;
pub mod streams;
