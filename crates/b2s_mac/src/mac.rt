//! HMAC (RFC 2104, section 2) over BLAKE2s.

ghost use Rattle.std.specs.Prelude.{◌≡◌, ℕ, [], ◌++◌, map, bit_xor};
ghost use Rattle.b2s_mac.specs.Blake2s.{blake2s};
ghost use Rattle.b2s_mac.specs.Hmac.{hmac, key_block};

use crate::BLOCK_LEN;
use crate::hashing::{Blake2s, padded};

const INNER_PAD: u8 = 0x36;

const OUTER_PAD: u8 = 0x5C;

// The unkeyed digest of 32 bytes of two pieces.
fn digest_of_two(first: &[u8], second: &[u8]) -> [u8; 32]
    ensures { result ≡ blake2s [] 32 (first.now ++ second.now) }
{
    let mut hash = Blake2s::new(&[], 32);
    hash.update(first);
    hash.update(second);
    hash.finish()
}

// A key as a block: a longer one is hashed first.
fn key_block(key: &[u8]) -> [u8; BLOCK_LEN]
    ensures { result ≡ key_block key.now }
{
    if key.len() > BLOCK_LEN {
        padded(&digest_of_two(key, &[]))
    } else {
        padded(key)
    }
}

// A block with each byte xored with the pad.
fn xored(block: &[u8; BLOCK_LEN], pad: u8) -> [u8; BLOCK_LEN]
    ensures { result ≡ map (λ b. bit_xor b pad) block.now }
{
    let mut out = *block;
    'bytes: for i in 0..BLOCK_LEN {
        out[i] = block[i] ^ pad;
    }
    out
}

/// HMAC-BLAKE2s-256 of `bytes` under a key of any length.
pub fn hmac(key: &[u8], bytes: &[u8]) -> [u8; 32]
    ensures { result ≡ hmac key.now bytes.now }
{
    let block = key_block(key);
    let inner = digest_of_two(&xored(&block, INNER_PAD), bytes);
    digest_of_two(&xored(&block, OUTER_PAD), &inner)
}
