//! Signed references: what they are, how they are signed and attenuated, and what they give.
//!
//! A reference names an oid. Whoever knows the key of the oid's binding can mint a reference to it;
//! whoever has a reference can put a caveat behind its others, and sign that with no key. What it
//! gives is the binding's own reference with these caveats behind it: `answer_of` of
//! `specs/Answers.antt`.
#![tactic(auto)]

mod answering;
mod bound;
mod laws;
mod links;
mod refs;
mod signing;

pub use answering::{Answer, Why, reply, resolve};
pub use bound::{Binding, Bindings};
pub use laws::{accepted_is_given, last_caveat_is_signed, signed_is_valid};
pub use links::verify_bytes;
pub use refs::{SturdyRef, read_ref};
pub use signing::{attenuate, mint, verify};
