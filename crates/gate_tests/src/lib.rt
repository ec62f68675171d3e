//! Tests of the gate over a sum: callers in one thread and in several.
#![tactic(auto)]

mod laws;
mod sums;

pub use laws::each_reply_is_the_sum_of_a_front;
pub use sums::{Sum, UpTo};

#[cfg(test)]
mod alone;
#[cfg(test)]
mod orders;
#[cfg(test)]
mod rows;
#[cfg(test)]
mod together;
