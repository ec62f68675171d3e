//! The canonical form of values (Preserves, "Canonical Form for Binary Syntax").
#![tactic(auto)]

mod forms;
mod laws;

pub use forms::{canon, canon_into, canon_len};
pub use laws::{canonical_is_exact, weight_counts_nodes};
