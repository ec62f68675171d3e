//! Tests of patterns and of dataspaces: calls that take memory, where it is ample. What the calls
//! answer case by case is shown by rows, and so is the table of actors, by each of their steps.
#![tactic(auto)]

#[cfg(test)]
mod patterns;
#[cfg(test)]
mod spaces;
#[cfg(test)]
mod wide;
