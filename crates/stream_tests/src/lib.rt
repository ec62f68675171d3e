//! Tests of values and packets from pieces: calls that take memory, where it is ample.
#![tactic(auto)]

#[cfg(test)]
mod feeds;
#[cfg(test)]
mod packets;
#[cfg(test)]
mod scans;
#[cfg(test)]
mod sources;
