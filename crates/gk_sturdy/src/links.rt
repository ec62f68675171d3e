//! The chain of links that signs a reference.
ghost use Rattle.std.specs.Prelude.{◌≡◌, ◌↔◌, IsTrue, IfOk};
ghost use Rattle.std.specs.Str.{bytes_eq};
ghost use Rattle.pv_canon.specs.Canonical.{canonical};
ghost use Rattle.gk_sturdy.specs.Chain.{link, chain, due};

use crate::refs::SturdyRef;
use b2s_mac::hmac;
use pv_canon::canon;
use pv_value::{Blob, NoMemory, Value};
use std::alloc::Global;

/// How many bytes a link has.
const LINK_BYTES: usize = 16;

/// Bytes that sign others.
pub(crate) type Link = [u8; LINK_BYTES];

/// Whether `sig` is the last link of the chain over these canonical forms, in all of its 16 bytes.
pub fn verify_bytes(key: &[u8], oid: &[u8], caveats: &[Blob], sig: &[u8]) -> bool
    ensures { IsTrue result ↔ (sig.now ≡ chain key.now oid.now caveats.now) }
{
    is_same(sig, &last_link(key, oid, caveats))
}

/// The last link of the chain over these canonical forms.
fn last_link(key: &[u8], oid: &[u8], caveats: &[Blob]) -> Link
    ensures { result ≡ chain key.now oid.now caveats.now }
{
    let mut last = link(key, oid);
    for caveat in caveats {
        last = link(&last, caveat.as_slice());
    }
    last
}

/// The signature that is due under a key.
pub(crate) fn due(alloc: Global, key: &[u8], r: &SturdyRef) -> Result<Link, NoMemory>
    ensures { IfOk result (λ l. l ≡ due key.now r.now) }
{
    let mut last = signed(alloc, key, &r.oid)?;
    for caveat in r.caveats.as_slice() {
        last = signed(alloc, &last, caveat)?;
    }
    Ok(last)
}

/// The link that signs a value.
pub(crate) fn signed(alloc: Global, key: &[u8], value: &Value) -> Result<Link, NoMemory>
    ensures { IfOk result (λ l. l ≡ link key.now (canonical value.now)) }
{
    let form = canon(alloc, value)?;
    Ok(link(key, form.as_slice()))
}

/// The link that signs these bytes.
fn link(key: &[u8], bytes: &[u8]) -> Link
    ensures { result ≡ link key.now bytes.now }
{
    let code = hmac(key, bytes);
    let mut link = [0u8; LINK_BYTES];
    link.copy_from_slice(&code[..LINK_BYTES]);
    link
}

/// Whether the bytes are those of the link. All 16 are looked at, with no exit at the first
/// difference.
pub(crate) fn is_same(given: &[u8], link: &Link) -> bool
    ensures { result ≡ bytes_eq given.now link.now }
{
    if given.len() != LINK_BYTES {
        return false;
    }
    let mut alike = 0;
    for i in 0..LINK_BYTES {
        alike += usize::from(given[i] == link[i]);
    }
    alike == LINK_BYTES
}
