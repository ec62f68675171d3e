//! What records of kept bindings give: bindings, and values that show them.
//!
//! A record is of an oid and of caveats where its bytes are their canonical forms: `IsRecordOf` of
//! `specs/Spelled.antt`. The first record that is of none is told.
#![tactic(auto)]

mod bound;
mod faults;
mod forms;
mod laws;
mod spelled;

pub use bound::{binding_of, bindings_of, shown, shown_of};
pub use faults::RecordFault;
pub use laws::records_have_one_reading;
pub use spelled::{KEY_BYTES, Parts, parts_of};

#[cfg(test)]
mod tests;
