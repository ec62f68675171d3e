//! Tests of configurations, over the plain body of a dataspace. They stand beside what they try,
//! since all that serves waits for a crate's own tests.
#![tactic(auto)]

#[cfg(test)]
mod configs;
