//! Tests of the word `query` over a host in memory.
#![tactic(auto)]

#[cfg(test)]
mod asking;
#[cfg(test)]
mod statuses;
#[cfg(test)]
mod words;
