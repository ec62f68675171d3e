//! Whether values conform to schemas (Preserves Schema, section "Patterns").
//!
//! What conforms is `conforms` of `ps_schema`, in `specs/Conforms.antt` there: a table of the forms
//! of patterns, and the meaning that it gives to names.
#![tactic(auto)]

mod checking;
mod finding;
mod laws;
mod subjects;
mod verdicts;

pub use checking::conforms;
pub use laws::{has_meaning, one_meaning};
