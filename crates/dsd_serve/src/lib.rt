//! The words that serve: the server on sockets and threads, over an outside world that is handed
//! in.
//!
//! [`dsd_main`] does what the words say. Those that begin with `serve` it does itself, and all
//! others as `dsd_top` does. [`serve_kept_words`] serves by bindings that a keeper keeps, as
//! [`dsd_main`] does by a configuration.
//!
//! The clauses of [`dsd_main`] on words that serve stand on `serve_words` and on itself, as a
//! contract doesn't pass through a call.
#![tactic(auto)]

mod kept;
mod mains;
mod numbers;
mod serving;
mod unserved;
mod words;

pub use kept::serve_kept_words;
pub use mains::dsd_main;
