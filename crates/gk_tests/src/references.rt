//! Signed references. The signatures are those of Python's `hmac` with `hashlib.blake2s`: of the
//! canonical form of "room" under the key, and of that of `<reject <_>>` under the first one.

use gk_sturdy::{Binding, Bindings, attenuate, mint, read_ref, reply, verify, verify_bytes};
use pv_text::read_text;
use pv_value::{Blob, Value};
use sr_caveat::Cap;
use std::alloc::Global;
use std::test::Fail;

const KEY: [u8; 16] = [0, 1, 2, 3, 4, 5, 6, 7, 8, 9, 10, 11, 12, 13, 14, 15];

const MINTED: &str = r#"<ref {oid: "room" sig: #x"be09f04bb8e633725d5a158a2682bbd5"}>"#;

const ATTENUATED: &str =
    r#"<ref {caveats: [<reject <_>>] oid: "room" sig: #x"dfd7fc0548d328ec35e6c5797231b04d"}>"#;

const ONE_BIT_TURNED: &str =
    r#"<ref {caveats: [<reject <_>>] oid: "room" sig: #x"dfd7fc0548d328ec35e6c5797231b04c"}>"#;

const LAST_CAVEAT_REMOVED: &str =
    r#"<ref {oid: "room" sig: #x"dfd7fc0548d328ec35e6c5797231b04d"}>"#;

const FIFTEEN_BYTES: &str =
    r#"<ref {caveats: [<reject <_>>] oid: "room" sig: #x"dfd7fc0548d328ec35e6c5797231b0"}>"#;

/// The value of a text.
fn value(alloc: Global, text: &str) -> Result<Value, Fail> {
    let (value, _) = read_text(alloc, text.as_bytes())?;
    Ok(value)
}

/// The value of what is minted for "room".
fn minted(alloc: Global) -> Result<Value, Fail> {
    let r = mint(alloc, &KEY, value(alloc, "\"room\"")?)?;
    Ok(r.to_value(alloc)?)
}

/// The value of that with one caveat.
fn attenuated(alloc: Global) -> Result<Value, Fail> {
    let r = mint(alloc, &KEY, value(alloc, "\"room\"")?)?;
    let r = attenuate(alloc, r, value(alloc, "<reject <_>>")?)?;
    Ok(r.to_value(alloc)?)
}

/// Whether a text is a reference that is valid under the key.
fn is_valid(alloc: Global, text: &str) -> Result<bool, Fail> {
    match read_ref(alloc, &value(alloc, text)?)? {
        Some(r) => Ok(verify(alloc, &KEY, &r)?),
        None => Ok(false),
    }
}

/// Whether this is the signature of the canonical form of "room".
fn signs_the_room(sig: &[u8]) -> bool {
    verify_bytes(&KEY, b"\xB1\x04room", &[], sig)
}

/// "room" bound to an object of actor 9.
fn room(alloc: Global) -> Result<Option<Binding>, Fail> {
    let oid = value(alloc, "\"room\"")?;
    let key = Blob::from_slice(alloc, &KEY)?;
    match Cap::of_value(alloc, &value(alloc, "[9 0]")?)? {
        Some(cap) => Ok(Some(Binding { oid, key, cap })),
        None => Ok(None),
    }
}

/// Whether "room" is added.
fn is_added(alloc: Global, bindings: &mut Bindings) -> Result<bool, Fail> {
    match room(alloc)? {
        Some(binding) => Ok(bindings.add(binding)?),
        None => Ok(false),
    }
}

/// Whether a value is answered so where "room" is bound.
fn is_answered(alloc: Global, text: &str, answer: &str) -> Result<bool, Fail> {
    let mut bindings = Bindings::new(alloc);
    is_added(alloc, &mut bindings)?;
    let answered = reply(alloc, &bindings, &value(alloc, text)?)?;
    Ok(answered == value(alloc, answer)?)
}

/// Whether a second binding of an oid is added.
fn is_added_twice(alloc: Global) -> Result<bool, Fail> {
    let mut bindings = Bindings::new(alloc);
    Ok(is_added(alloc, &mut bindings)? && is_added(alloc, &mut bindings)?)
}

#[test]
fn signatures_of_another_program(rt: HostRuntime) -> Result<(), Fail> {
    assert!(rt; minted(rt.alloc())? == value(rt.alloc(), MINTED)?);
    assert!(rt; attenuated(rt.alloc())? == value(rt.alloc(), ATTENUATED)?);
    Ok(())
}

#[test]
fn valid_in_all_of_its_bytes(rt: HostRuntime) -> Result<(), Fail> {
    assert!(rt; is_valid(rt.alloc(), MINTED)?);
    assert!(rt; is_valid(rt.alloc(), ATTENUATED)?);
    assert!(rt; !is_valid(rt.alloc(), ONE_BIT_TURNED)?);
    assert!(rt; !is_valid(rt.alloc(), LAST_CAVEAT_REMOVED)?);
    assert!(rt; !is_valid(rt.alloc(), FIFTEEN_BYTES)?);
    Ok(())
}

#[test]
fn signed_bytes(rt: HostRuntime) {
    assert!(rt;
        signs_the_room(b"\xBE\x09\xF0\x4B\xB8\xE6\x33\x72\x5D\x5A\x15\x8A\x26\x82\xBB\xD5")
    );
    assert!(rt; !signs_the_room(b"\xBE\x09\xF0\x4B\xB8\xE6\x33\x72\x5D\x5A\x15\x8A\x26\x82\xBB"));
}

#[test]
fn a_room_lets_in(rt: HostRuntime) -> Result<(), Fail> {
    assert!(rt; is_answered(rt.alloc(), ATTENUATED, "<accepted #:[9 0 <reject <_>>]>")?);
    assert!(rt; is_answered(rt.alloc(), FIFTEEN_BYTES, "<rejected \"refused\">")?);
    assert!(rt; !is_added_twice(rt.alloc())?);
    Ok(())
}
