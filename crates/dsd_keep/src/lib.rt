//! The words `bindings`: what is kept of bindings in a file, for the servers that begin later.
//!
//! [`bindings_words`] does what the words say, over a keeper that is handed in. It reads no input.
//! `specs/Words.antt` says which words ask for what, and `specs/Requests.antt` which record, which
//! line and which oid they give; `specs/Endings.antt` which status and which line on standard error
//! go with an end, and what is kept after it. A key is in no text that is written: what `list`
//! writes of a record has no field for it, and a line on standard error has a number at most.
#![tactic(auto)]

mod keeping;
mod laws;
mod requests;
mod spelling;
mod undone;
mod words;

pub use keeping::bindings_words;
pub use laws::{commands_fold, keys_are_not_shown};
