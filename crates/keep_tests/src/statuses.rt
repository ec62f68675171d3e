//! Each status, at its cause.
use crate::keeping::{B_LINE, KEY, Wanted, comes_of, comes_with, empty, keeping_of, record};
use kp_keeper::{MemKeeping, Records};
use std::alloc::Global;
use std::test::Fail;

/// A caveat that is so many sequences within one another.
fn nested(alloc: Global, depth: usize) -> Result<String, Fail> {
    let mut text = String::new(alloc);
    for _ in 0..depth {
        text.push('[')?;
    }
    for _ in 0..depth {
        text.push(']')?;
    }
    Ok(text)
}

/// Whether the words are refused, and no file is opened for them.
fn are_refused(alloc: Global, words: &[&str]) -> Result<bool, Fail> {
    let mut keeper = empty(alloc);
    let bad = Wanted::new(2, "", "dsd: bad words\n");
    Ok(comes_of(alloc, &mut keeper, words, &bad)? && keeper.file().is_none())
}

#[test]
fn words_out_of_their_form_are_refused(rt: HostRuntime) -> Result<(), Fail> {
    let alloc = rt.alloc();
    assert!(rt; are_refused(alloc, &["bindings", "f"])?);
    assert!(rt; are_refused(alloc, &["bindings", "f", "list", "x"])?);
    assert!(rt; are_refused(alloc, &["bindings", "f", "revoke"])?);
    assert!(rt; are_refused(alloc, &["bindings", "f", "revoke", "#:1"])?);
    assert!(rt; are_refused(alloc, &["bindings", "f", "add", "1", "00"])?);
    assert!(rt; are_refused(alloc, &["bindings", "f", "add", "1", "0", "1"])?);
    assert!(rt; are_refused(alloc, &["bindings", "f", "add", "1", "00", "0"])?);
    assert!(rt; are_refused(alloc, &["bindings", "f", "add", "1", "00", "9"])?);
    assert!(rt; are_refused(alloc, &["bindings", "f", "add", "1 2", "00", "1"])?);
    assert!(rt; are_refused(alloc, &["bindings", "f", "add", "1", "00", "1", ""])?);
    Ok(())
}

/// A caveat of 63 sequences within one another is kept in a sequence of 64; one of 64 isn't read.
fn nests(alloc: Global) -> Result<bool, Fail> {
    let deepest = nested(alloc, 63)?;
    let deeper = nested(alloc, 64)?;
    let words = ["bindings", "f", "add", "\"b\"", KEY, "1", deepest.as_str()];
    let mut keeper = empty(alloc);
    Ok(
        comes_of(alloc, &mut keeper, &words, &Wanted::new(0, B_LINE, ""))?
            && are_refused(
                alloc,
                &["bindings", "f", "add", "\"b\"", KEY, "1", deeper.as_str()],
            )?,
    )
}

#[test]
fn a_caveat_that_nests_too_deep_is_refused(rt: HostRuntime) -> Result<(), Fail> {
    assert!(rt; nests(rt.alloc())?);
    Ok(())
}

/// Where the output fails, `add` has kept its record, and what it wrote is a front of its line.
fn unwritten(alloc: Global) -> Result<bool, Fail> {
    let mut keeper = empty(alloc);
    let words = ["bindings", "f", "add", "\"b\"", KEY, "1"];
    let failed = Wanted::new(4, "", "dsd: write failed\n");
    Ok(
        comes_with(alloc, &mut keeper, &words, &[0], &failed)?
            && keeper.keeper().records().len() == 1,
    )
}

#[test]
fn what_was_added_stays_where_its_line_is_not_written(rt: HostRuntime) -> Result<(), Fail> {
    assert!(rt; unwritten(rt.alloc())?);
    Ok(())
}

/// Where the keeper fails at once, or after the file was opened, nothing is done.
fn failing(alloc: Global, works: u64) -> Result<bool, Fail> {
    let failed = Wanted::new(15, "", "dsd: keeper failed\n");
    let add = ["bindings", "f", "add", "\"b\"", KEY, "1"];
    let mut keeper = keeping_of(Records::new(alloc), works);
    let unkept = comes_of(alloc, &mut keeper, &add, &failed)?;
    let mut keeper = keeping_of(Records::new(alloc), works);
    let unlisted = comes_of(alloc, &mut keeper, &["bindings", "f", "list"], &failed)?;
    let mut keeper = keeping_of(Records::new(alloc), works);
    let revoke = ["bindings", "f", "revoke", "\"b\""];
    Ok(unkept && unlisted && comes_of(alloc, &mut keeper, &revoke, &failed)?)
}

#[test]
fn a_keeper_that_fails_is_told(rt: HostRuntime) -> Result<(), Fail> {
    assert!(rt; failing(rt.alloc(), 0)?);
    assert!(rt; failing(rt.alloc(), 1)?);
    Ok(())
}

/// So many records, under oids that ascend and are no values' bytes.
fn many(alloc: Global, count: u32) -> Result<MemKeeping, Fail> {
    let mut list = Vec::new(alloc);
    for n in 0..count {
        list.push(record(alloc, &n.to_be_bytes(), 1)?)?;
    }
    match Records::from_vec(list) {
        Some(records) => Ok(keeping_of(records, 1000)),
        None => Ok(empty(alloc)),
    }
}

fn filled(alloc: Global) -> Result<bool, Fail> {
    let mut keeper = many(alloc, 10_000)?;
    let words = ["bindings", "f", "add", "\"b\"", KEY, "1"];
    let full = Wanted::new(6, "", "dsd: limit 6\n");
    Ok(comes_of(alloc, &mut keeper, &words, &full)? && keeper.keeper().records().len() == 10_000)
}

#[test]
fn the_record_after_ten_thousand_is_refused(rt: HostRuntime) -> Result<(), Fail> {
    assert!(rt; filled(rt.alloc())?);
    Ok(())
}

/// The second record's bytes are no value.
fn misread(alloc: Global) -> Result<bool, Fail> {
    let mut records = Records::new(alloc);
    records.put(&record(alloc, b"\x80", 1)?)?;
    records.put(&record(alloc, b"\xff", 1)?)?;
    let mut keeper = keeping_of(records, 1000);
    let bad = Wanted::new(7, "", "dsd: bad config at 1\n");
    comes_of(alloc, &mut keeper, &["bindings", "f", "list"], &bad)
}

#[test]
fn a_record_that_is_no_binding_is_told(rt: HostRuntime) -> Result<(), Fail> {
    assert!(rt; misread(rt.alloc())?);
    Ok(())
}
