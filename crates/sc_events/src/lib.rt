//! What scripts hold: the values of an input, in the binary form or in text, and the events that
//! values write.
//!
//! `specs/Readings.antt` says what is read of an input, and `specs/Events.antt` which event a value
//! is.
#![tactic(auto)]

mod events;
mod inputs;
mod laws;

pub use events::{ScriptEvent, event_of, reference_to};
pub use inputs::{Form, INPUT_BYTES, NextFault, Values};
pub use laws::{limit_is_as_defined, one_reading};
