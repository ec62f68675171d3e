//! The server in threads: links accepted, and a session for each half of a link in a thread of its
//! own.
//!
//! [`serve`] starts all threads and returns once all have ended.
#![tactic(auto)]

mod serving;

pub use serving::serve;
