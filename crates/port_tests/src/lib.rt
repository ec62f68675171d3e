//! Tests of the outside world in memory: what rows don't show, and the texts of faults.
#![tactic(auto)]

#[cfg(test)]
mod ports;
#[cfg(test)]
mod streams;
