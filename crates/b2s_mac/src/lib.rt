//! BLAKE2s, the hash function of RFC 7693, and HMAC over it (RFC 2104). Nothing takes memory.
#![tactic(auto)]

mod compress;
mod hashing;
mod mac;
#[cfg(test)]
mod tests;

pub use hashing::Blake2s;
pub use mac::hmac;

/// The length of a block in bytes.
const BLOCK_LEN: usize = 64;
