//! Patterns are split, and values are looked at by the parts.

use dp_pattern::{DPat, parse};
use ds_shape::{Shape, captures_at, constants_at, passes, split};
use pv_text::read_text;
use pv_value::Value;
use std::alloc::Global;
use std::collections::BTreeSet;
use std::test::Fail;

/// The value of a text.
fn value(alloc: Global, text: &str) -> Result<Value, Fail> {
    let (value, _) = read_text(alloc, text.as_bytes())?;
    Ok(value)
}

/// The parts of the pattern that a text writes.
fn shape(alloc: Global, text: &str) -> Result<Option<Shape>, Fail> {
    let written = value(alloc, text)?;
    match parse(alloc, &written)? {
        Some(pattern) => shape_of(alloc, &pattern),
        None => Ok(None),
    }
}

fn shape_of(alloc: Global, pattern: &DPat) -> Result<Option<Shape>, Fail> {
    Ok(Some(split(alloc, pattern)?))
}

/// Whether the value has the constants of the shape.
fn has_constants(alloc: Global, shape: &Shape, value: &Value) -> Result<bool, Fail> {
    match constants_at(alloc, &shape.outline, value)? {
        Some(constants) => Ok(constants == shape.constants),
        None => Ok(false),
    }
}

/// What the parts capture of the value, as one value.
fn captured_by(alloc: Global, shape: &Shape, value: &Value) -> Result<Option<Value>, Fail> {
    if passes(&shape.outline, value) && has_constants(alloc, shape, value)? {
        return Ok(captures_at(alloc, &shape.outline, value)?);
    }
    Ok(None)
}

/// The same of the texts of a pattern and a value.
fn captured(alloc: Global, pattern: &str, of: &str) -> Result<Option<Value>, Fail> {
    let of = value(alloc, of)?;
    match shape(alloc, pattern)? {
        Some(shape) => captured_by(alloc, &shape, &of),
        None => Ok(None),
    }
}

/// Whether the pattern captures of the value what a text tells.
fn captures(alloc: Global, pattern: &str, of: &str, due: &str) -> Result<bool, Fail> {
    let due = value(alloc, due)?;
    match captured(alloc, pattern, of)? {
        Some(found) => Ok(found == due),
        None => Ok(false),
    }
}

/// Whether the pattern captures nothing, since the value doesn't match.
fn misses(alloc: Global, pattern: &str, of: &str) -> Result<bool, Fail> {
    Ok(captured(alloc, pattern, of)?.is_none())
}

/// A record of a label, with a constant, a capture and a part that is to be there.
const POINT: &str = "<group <rec point> {0: <lit 1> 1: <bind <_>> 2: <_>}>";

/// The same with another constant, and with another capture.
const OTHER_POINT: &str = "<group <rec point> {0: <lit 7> 1: <bind <_>> 2: <_>}>";

const OTHER_PLACE: &str = "<group <rec point> {0: <lit 1> 1: <_> 2: <bind <_>>}>";

/// Captures within a capture, and behind it.
const NESTED: &str = "<group <dict> {a: <bind <group <arr> {1: <bind <_>>}>> b: <bind <_>>}>";

#[test]
fn parts_say_what_the_pattern_says(rt: HostRuntime) -> Result<(), Fail> {
    assert!(rt; captures(rt.alloc(), POINT, "<point 1 2 3>", "[2]")?);
    assert!(rt; captures(rt.alloc(), POINT, "<point 1 2 3 4>", "[2]")?);
    assert!(rt; misses(rt.alloc(), POINT, "<point 2 2 3>")?);
    assert!(rt; misses(rt.alloc(), POINT, "<point 1 2>")?);
    assert!(rt; misses(rt.alloc(), POINT, "<spot 1 2 3>")?);
    assert!(rt; misses(rt.alloc(), POINT, "[1 2 3]")?);
    assert!(rt; captures(rt.alloc(), NESTED, "{a: [7 8] b: 9}", "[[7 8] 8 9]")?);
    assert!(rt; misses(rt.alloc(), NESTED, "{a: [7] b: 9}")?);
    assert!(rt; captures(rt.alloc(), "<_>", "x", "[]")?);
    assert!(rt; captures(rt.alloc(), "<lit x>", "x", "[]")?);
    assert!(rt; misses(rt.alloc(), "<lit x>", "y")?);
    Ok(())
}

/// How many outlines the patterns have.
fn outlines(alloc: Global, patterns: &[&str]) -> Result<usize, Fail> {
    let mut outlines = BTreeSet::new(alloc);
    for pattern in patterns {
        if let Some(shape) = shape(alloc, pattern)? {
            outlines.insert(shape.outline)?;
        }
    }
    Ok(outlines.len())
}

/// How many keys the outlines of the patterns have.
fn keys(alloc: Global, patterns: &[&str]) -> Result<usize, Fail> {
    let mut keys = BTreeSet::new(alloc);
    for pattern in patterns {
        if let Some(shape) = shape(alloc, pattern)? {
            keys.insert(shape.outline.key(alloc)?)?;
        }
    }
    Ok(keys.len())
}

#[test]
fn outlines_tell_all_but_constants(rt: HostRuntime) -> Result<(), Fail> {
    let patterns = [POINT, OTHER_POINT, OTHER_PLACE];
    assert!(rt; outlines(rt.alloc(), &patterns)? == 2);
    assert!(rt; keys(rt.alloc(), &patterns)? == 2);
    Ok(())
}
