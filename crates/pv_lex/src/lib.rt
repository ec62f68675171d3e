//! The lexical layer of the text form of values, by the Preserves text syntax: characters, escapes,
//! numbers, byte strings, doubles and tokens.
//!
//! A reader of values takes one token at a time, by [`lexeme_at`]. All tokens of a text at once, by
//! [`tokens`], are for tools, such as one that colours a text: no reader of values calls it.
#![tactic(auto)]

mod characters;
mod contents;
mod escapes;
mod faults;
mod gaps;
mod hexadecimal;
mod kinds;
mod laws;
mod lexing;
mod listing;
mod numbers;
mod quoted;
mod runs;
mod sextets;

pub use characters::is_bare;
pub use faults::{TextFault, TextKind};
pub use gaps::skip_blank;
pub use kinds::{AtomForm, Lexeme, Mark, Token, TokenKind, Tokens};
pub use laws::lexemes_are_tokens;
pub use lexing::lexeme_at;
pub use listing::tokens;
pub use numbers::{integer_of, is_decimal_double, is_integer_text};
