//! Tests of the query client: what it makes of packets, and a whole query over a host in memory.
#![tactic(auto)]

#[cfg(test)]
mod faults;
#[cfg(test)]
mod links;
#[cfg(test)]
mod reactions;
#[cfg(test)]
mod texts;
