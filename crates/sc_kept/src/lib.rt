//! The configuration that kept bindings are: each record's binding is bound, in order, and nothing
//! else is done.
#![tactic(auto)]

mod hub;

pub use hub::configured;
