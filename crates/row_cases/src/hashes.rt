//! The calls of the hash, whose arguments stand behind bytes that say where they are cut.
ghost use Rattle.std.specs.Prelude.{◌≡◌, ◌-◌, ◌+◌, ◌≤◌, ◌<◌, ◌++◌, IfOk, length, replicate};
ghost use Rattle.b2s_mac.specs.Blake2s.{blake2s};
ghost use Rattle.row_cases.specs.Calls.{GivesDigest, GivesMac};

use crate::codecs::Answer;
use crate::faults::Fault;
use b2s_mac::{Blake2s, hmac};
use std::alloc::Global;

const CUT_OFF: Fault = Fault::Form("fewer bytes than the first ones say");

const OUT_OF_RANGE: Fault = Fault::Form("a key or a digest of no such length");

/// The digest of a message in two pieces, with the zeros behind it. Three bytes stand first: how
/// long the key is, how long the digest is and where the message is cut. The key and the message
/// follow.
pub fn digest_of(alloc: Global, given: &[u8]) -> Result<Answer, Fault>
    ensures { IfOk result (λ a. GivesDigest given.now a) }
{
    if given.len() < 3 || given.len() - 3 < given[0] as usize {
        return Err(CUT_OFF);
    }
    let (key, message) = given[3..].split_at(given[0] as usize);
    let cut = given[2] as usize;
    if message.len() < cut {
        return Err(CUT_OFF);
    }
    let out_len = given[1];
    if key.len() > 32 || out_len == 0 || out_len > 32 {
        return Err(OUT_OF_RANGE);
    }
    let digest = digest_in_two(key, out_len, &message[..cut], &message[cut..]);
    Ok(Answer::Bytes(Vec::from_slice(alloc, &digest)?))
}

fn digest_in_two(key: &[u8], out_len: u8, first: &[u8], second: &[u8]) -> [u8; 32]
    requires key { length key.now ≤ 32 }
    requires some { 1 ≤ out_len }
    requires fits { out_len ≤ 32 }
    ensures { result ≡ blake2s key.now out_len (first.now ++ second.now)
        ++ replicate (32 - out_len) 0 }
{
    let mut hash = Blake2s::new(key, out_len);
    hash.update(first);
    hash.update(second);
    hash.finish()
}

/// The code of a message. A byte stands first: how long the key is. The key and the message
/// follow.
pub fn mac_of(alloc: Global, given: &[u8]) -> Result<Answer, Fault>
    ensures { IfOk result (λ a. GivesMac given.now a) }
{
    if given.is_empty() || given.len() - 1 < given[0] as usize {
        return Err(CUT_OFF);
    }
    let (key, message) = given[1..].split_at(given[0] as usize);
    Ok(Answer::Bytes(Vec::from_slice(alloc, &hmac(key, message))?))
}
