//! Patterns: one is read, and captures what it binds.

use dp_pattern::{DPat, captures, matches, parse};
use pv_text::read_text;
use pv_value::Value;
use std::alloc::Global;
use std::test::Fail;

/// The value of a text.
pub(crate) fn value(alloc: Global, text: &str) -> Result<Value, Fail> {
    let (value, _) = read_text(alloc, text.as_bytes())?;
    Ok(value)
}

/// How much the pattern captures of the value, where it matches.
fn captured(alloc: Global, pattern: &DPat, value: &Value) -> Result<Option<usize>, Fail> {
    match captures(alloc, pattern, value)? {
        Some(found) if matches(pattern, value) => Ok(Some(found.as_slice().len())),
        _ => Ok(None),
    }
}

/// How much the pattern of a text captures of the value, where there is one and it matches.
fn captured_by(alloc: Global, text: &str, value_of: &Value) -> Result<Option<usize>, Fail> {
    let written = value(alloc, text)?;
    match parse(alloc, &written)? {
        Some(pattern) => captured(alloc, &pattern, value_of),
        None => Ok(None),
    }
}

/// Whether a group captures the one part of the value that it binds.
fn captures_one(alloc: Global, text: &str) -> Result<bool, Fail> {
    let value = value(alloc, text)?;
    let found = captured_by(alloc, "<group <arr> {0: <bind <_>>}>", &value)?;
    Ok(found == Some(1))
}

#[test]
fn a_group_captures_what_it_binds(rt: HostRuntime) -> Result<(), Fail> {
    assert!(rt; captures_one(rt.alloc(), "[7 8]")?);
    assert!(rt; !captures_one(rt.alloc(), "7")?);
    Ok(())
}
