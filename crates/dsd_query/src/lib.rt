//! The word `query`: a question to a server that other words, or another program, serve.
//!
//! [`query_words`] does what the words say, over an outside world that is handed in. It reads no
//! input. `specs/Queries.antt` says which words ask a question, and `specs/Ends.antt` which status
//! and which line on standard error go with its end.
#![tactic(auto)]

mod ends;
mod querying;
mod words;

pub use querying::query_words;
pub use words::is_query;
