//! The script of a load on a server: many items, each observed before it is asserted.
//!
//! What it holds is `load_bytes` of `specs/Loads.antt`.
#![tactic(auto)]

mod draws;
mod items;
mod loads;

pub use loads::load_script;

#[cfg(test)]
mod tests;
