//! How much the values weigh that write caveats and references, and how deep they nest: reckoned
//! from the caveats themselves, with no memory taken.
//!
//! What is reckoned is what `weight` and `depth` of `pv_value` tell of the values of
//! `specs/Spelled.antt` and `specs/Caps.antt` of `sr_caveat`.
#![tactic(auto)]

mod labels;
mod nesting;
mod weighing;

pub use labels::{depth_of_keys, weight_of_keys};
pub use nesting::depth_of_caveats;
pub use weighing::{cap_weight, weight_of_caveats};
