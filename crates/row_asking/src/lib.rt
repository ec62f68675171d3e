//! What a case of rows of steps does or asks, by the value that says it, and the machine's replies
//! as values.
#![tactic(auto)]

mod asking;
mod replies;

pub use asking::{Asked, asked_of};
pub use replies::{actor_value, holdings_value, reply_value};
