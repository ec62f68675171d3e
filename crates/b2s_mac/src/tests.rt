//! Digests that others computed. Tables of cases have more of them.

ghost use Rattle.std.specs.Prelude.{◌≤◌, length};

use crate::{Blake2s, hmac};

// RFC 7693, appendix B.
const OF_ABC: [u8; 32] = [
    0x50, 0x8C, 0x5E, 0x8C, 0x32, 0x7C, 0x14, 0xE2, 0xE1, 0xA7, 0x2B, 0xA3, 0x4E, 0xEB, 0x45, 0x2F,
    0x37, 0x45, 0x8B, 0x20, 0x9E, 0xD6, 0x3A, 0x29, 0x4D, 0x99, 0x9B, 0x4C, 0x86, 0x67, 0x59, 0x82,
];

// RFC 7693, appendix E: the digest of digests.
const OF_DIGESTS: [u8; 32] = [
    0x6A, 0x41, 0x1F, 0x08, 0xCE, 0x25, 0xAD, 0xCD, 0xFB, 0x02, 0xAB, 0xA6, 0x41, 0x45, 0x1C, 0xEC,
    0x53, 0xC5, 0x98, 0xB2, 0x4F, 0x4F, 0xC7, 0x87, 0xFB, 0xDC, 0x88, 0x79, 0x7F, 0x4C, 0x1D, 0xFE,
];

// Of the key "key" and the text below, by Python's `hmac`.
const OF_FOX: [u8; 32] = [
    0xF9, 0x32, 0x15, 0xBB, 0x90, 0xD4, 0xAF, 0x4C, 0x30, 0x61, 0xCD, 0x93, 0x2F, 0xB1, 0x69, 0xFB,
    0x8B, 0xB8, 0xA9, 0x1D, 0x0B, 0x40, 0x22, 0xBA, 0xEA, 0x12, 0x71, 0xE1, 0x32, 0x3C, 0xD9, 0xA0,
];

#[test]
fn abc_in_two_pieces(rt: HostRuntime) {
    assert!(rt; digest_of_abc() == OF_ABC);
}

#[test]
fn a_digest_of_digests(rt: HostRuntime) {
    assert!(rt; digest_of_digests() == OF_DIGESTS);
}

#[test]
fn a_fox_under_a_key(rt: HostRuntime) {
    assert!(rt; hmac(b"key", b"The quick brown fox jumps over the lazy dog") == OF_FOX);
}

fn digest_of_abc() -> [u8; 32] {
    let mut hash = Blake2s::new(b"", 32);
    hash.update(b"a");
    hash.update(b"bc");
    hash.finish()
}

fn digest_of_digests() -> [u8; 32] {
    let mut all = Blake2s::new(b"", 32);
    add_digests_of_length(&mut all, 16);
    add_digests_of_length(&mut all, 20);
    add_digests_of_length(&mut all, 28);
    add_digests_of_length(&mut all, 32);
    all.finish()
}

fn add_digests_of_length(all: &mut Blake2s, out_len: u8)
    requires some { 1 ≤ out_len }
    requires fits { out_len ≤ 32 }
{
    add_digests(all, out_len, 0);
    add_digests(all, out_len, 3);
    add_digests(all, out_len, 64);
    add_digests(all, out_len, 65);
    add_digests(all, out_len, 255);
    add_digests(all, out_len, 1024);
}

// Adds the digest of `len` bytes, and that under a key as long as the digest.
fn add_digests(all: &mut Blake2s, out_len: u8, len: u16)
    requires len { len ≤ 1024 }
    requires some { 1 ≤ out_len }
    requires fits { out_len ≤ 32 }
{
    let bytes = sequence(u32::from(len));
    let input = &bytes[..len as usize];
    let key = sequence(u32::from(out_len));
    let width = out_len as usize;
    add_digest(all, b"", out_len, input);
    add_digest(all, &key[..width], out_len, input);
}

fn add_digest(all: &mut Blake2s, key: &[u8], out_len: u8, input: &[u8])
    requires key { length key.now ≤ 32 }
    requires some { 1 ≤ out_len }
    requires fits { out_len ≤ 32 }
{
    let mut hash = Blake2s::new(key, out_len);
    hash.update(input);
    let digest = hash.finish();
    all.update(&digest[..out_len as usize]);
}

// The high bytes of numbers each of which is the sum of the two before it.
fn sequence(seed: u32) -> [u8; 1024] {
    let mut bytes = [0u8; 1024];
    let mut before = seed.wrapping_mul(0xDEAD_4BAD);
    let mut last = 1u32;
    for byte in bytes.iter_mut() {
        let next = before.wrapping_add(last);
        before = last;
        last = next;
        *byte = (next / 0x100_0000) as u8;
    }
    bytes
}
