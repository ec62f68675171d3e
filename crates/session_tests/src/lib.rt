//! Tests of sessions over links in memory, with the hub behind a gate: what a peer may send that is
//! no value, and links that end and fail at each place.
#![tactic(auto)]

#[cfg(test)]
mod bad_bytes;
#[cfg(test)]
mod counted;
#[cfg(test)]
mod drip;
#[cfg(test)]
mod gates;
#[cfg(test)]
mod puts;
#[cfg(test)]
mod sessions;
#[cfg(test)]
mod takes;
