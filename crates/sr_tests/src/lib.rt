//! Tests of caveats: calls that take memory, where it is ample, and which no row makes. What passes
//! caveats, and what is refused, is shown by rows.
#![tactic(auto)]

#[cfg(test)]
mod caveats;
#[cfg(test)]
mod guards;
#[cfg(test)]
mod weights;
