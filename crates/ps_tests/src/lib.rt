//! Tests of schemas: calls that take memory, where it is ample, and chains of names.
#![tactic(auto)]

#[cfg(test)]
mod schemas;
