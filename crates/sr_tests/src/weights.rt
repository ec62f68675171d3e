//! How much caveats and references weigh: the lengths of the canonical form, and 48 for each node,
//! reckoned by hand.

use pv_text::read_text;
use pv_value::{Value, depth, weight};
use sr_caveat::{Cap, Caveat, parse_caveat};
use sr_weight::{cap_weight, depth_of_caveats, weight_of_caveats};
use std::alloc::Global;
use std::test::Fail;

/// Each kind of caveat, with each form of patterns and of templates.
const ALL_FORMS: &str = r#"<or [
    <rewrite <rec A [<bind <_>> <not String> <lit "a">]> <rec B [<ref 0> <lit 200>]>>
    <rewrite <and [<arr [<bind <_>>]> <dict {"k": Symbol}>]>
        <arr [<dict {"l": <ref 0>}> <attenuate <ref 0> [<reject <_>> <guard Name>]>]>>
]>"#;

/// The value of a text.
fn value(alloc: Global, text: &str) -> Result<Value, Fail> {
    let (value, _) = read_text(alloc, text.as_bytes())?;
    Ok(value)
}

/// The caveat that a text writes, as one of the server's own.
fn caveat(alloc: Global, text: &str) -> Result<Caveat, Fail> {
    let written = value(alloc, text)?;
    Ok(parse_caveat(alloc, &written, true)?)
}

/// Whether a text's caveat weighs so much, and nests so deep.
fn weighs(alloc: Global, text: &str, weight: u64, depth: u32) -> Result<bool, Fail> {
    let list = [caveat(alloc, text)?];
    Ok(weight_of_caveats(&list) == weight && depth_of_caveats(&list) == depth)
}

/// Whether a text's caveat weighs as much as the text's value, and nests as deep.
fn weighs_as_its_value(alloc: Global, text: &str) -> Result<bool, Fail> {
    let written = value(alloc, text)?;
    weighs(alloc, text, weight(&written), depth(&written))
}

/// Whether the reference that a text writes weighs so much.
fn reference_weighs(alloc: Global, text: &str, weight: u64) -> Result<bool, Fail> {
    let written = value(alloc, text)?;
    match Cap::of_value(alloc, &written)? {
        Some(cap) => Ok(cap_weight(&cap) == weight),
        None => Ok(false),
    }
}

#[test]
fn weights_reckoned_by_hand(rt: HostRuntime) -> Result<(), Fail> {
    assert!(rt; weighs(rt.alloc(), "<reject <bind <_>>>", 311, 3)?);
    assert!(rt; reference_weighs(rt.alloc(), "[18 4 <reject <bind <_>>>]", 463)?);
    Ok(())
}

#[test]
fn each_form_weighs_as_its_value_does(rt: HostRuntime) -> Result<(), Fail> {
    assert!(rt; weighs_as_its_value(rt.alloc(), ALL_FORMS)?);
    Ok(())
}
