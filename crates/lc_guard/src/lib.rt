//! Stored predicates: what guards judge by where a schema defines names.
//!
//! [`Guards`] keep a schema beside a function that answers which values conform to it. As a
//! [`sr_pass::Judge`] they are the schema. [`all_known`] answers whether the guards of caveats are
//! all of names that a judge knows.
#![tactic(auto)]

mod guards;
mod knowing;
mod predicates;

pub use guards::Guards;
pub use knowing::all_known;
pub use predicates::Predicate;
