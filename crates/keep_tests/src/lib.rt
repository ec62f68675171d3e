//! Tests of kept bindings over a keeper in memory: what the words `bindings` leave and write one
//! after another, and each status at its cause. A server by what they kept is tried in `dsd_tests`.
#![tactic(auto)]

#[cfg(test)]
mod keeping;
#[cfg(test)]
mod rows;
#[cfg(test)]
mod statuses;
