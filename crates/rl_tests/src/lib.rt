//! Tests of packets and of the crossing of references: calls that take memory, where it is ample,
//! and values that nest far deeper than the reader's bound. What else these calls answer is shown
//! by rows.
#![tactic(auto)]

#[cfg(test)]
mod crossing;
#[cfg(test)]
mod dialects;
#[cfg(test)]
mod making;
#[cfg(test)]
mod releasing;
#[cfg(test)]
mod spelled;
#[cfg(test)]
mod turns;
