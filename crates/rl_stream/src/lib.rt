//! Packets in what a peer has sent: what stands next, decided on the first 262,144 bytes of what
//! hasn't been read, and how far it is read.
#![tactic(auto)]

mod laws;
mod nexts;
mod streams;

pub use laws::{any_cut_is_one_course, next_is_decided, one_course, one_next};
pub use nexts::{Next, next_packet};
pub use streams::Stream;
