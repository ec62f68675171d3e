//! Words that ask no question.
use crate::asking::{comes_of, outcome, steady};
use std::alloc::Global;
use std::test::Fail;

/// A signed reference, and a pattern.
const REF: &str = "<ref {oid: \"room\", sig: #x\"00\"}>";

const PATTERN: &str = "<bind <_>>";

/// Whether the words are refused, and nobody is dialled.
fn are_refused(alloc: Global, words: &[&str]) -> Result<bool, Fail> {
    let refused = outcome(2, "", "dsd: bad words\n");
    comes_of(alloc, words, &steady(""), &refused, "")
}

/// Whether a query with this reference, this pattern and this number is refused.
fn is_refused(alloc: Global, reference: &str, pattern: &str, lines: &str) -> Result<bool, Fail> {
    are_refused(alloc, &["query", "a:1", reference, pattern, lines])
}

#[test]
fn fewer_words_and_more(rt: HostRuntime) -> Result<(), Fail> {
    let alloc = rt.alloc();
    assert!(rt; are_refused(alloc, &[])?);
    assert!(rt; are_refused(alloc, &["query"])?);
    assert!(rt; are_refused(alloc, &["query", "a:1", REF, PATTERN])?);
    assert!(rt; are_refused(alloc, &["query", "a:1", REF, PATTERN, "1", "1"])?);
    assert!(rt; are_refused(alloc, &["ask", "a:1", REF, PATTERN, "1"])?);
    Ok(())
}

#[test]
fn numbers_of_lines(rt: HostRuntime) -> Result<(), Fail> {
    let alloc = rt.alloc();
    for lines in ["0", "1000001", "01", "+1", "one", "", "-1", "1.0"] {
        assert!(rt; is_refused(alloc, REF, PATTERN, lines)?);
    }
    Ok(())
}

#[test]
fn what_is_no_signed_reference(rt: HostRuntime) -> Result<(), Fail> {
    let alloc = rt.alloc();
    for reference in [
        "",
        "5",
        "<ref {}>",
        "<ref {oid: \"room\", sig: \"00\"}>",
        "<ref {oid: #:1, sig: #x\"00\"}>",
        "<ref {oid: 1, sig: #x\"00\", other: #:1}>",
        "<ref {oid: 1, sig: #x\"00\"}> 1",
        "<ref {oid: 1, sig: #x\"00\"",
    ] {
        assert!(rt; is_refused(alloc, reference, PATTERN, "1")?);
    }
    Ok(())
}

#[test]
fn what_is_no_pattern(rt: HostRuntime) -> Result<(), Fail> {
    let alloc = rt.alloc();
    for pattern in ["", "1", "<bind>", "<lit #:1>", "<lit [1]>", "<_> <_>", "<_"] {
        assert!(rt; is_refused(alloc, REF, pattern, "1")?);
    }
    Ok(())
}

/// Whether a query with these words is asked, of a server that leaves at once.
fn is_asked(alloc: Global, reference: &str, pattern: &str, lines: &str) -> Result<bool, Fail> {
    let first = "[[0 <A <resolve <ref {oid: \"room\", sig: #x\"00\"}> #:[0 1]> 1>]]";
    let words = ["query", "a:1", reference, pattern, lines];
    comes_of(
        alloc,
        &words,
        &steady(""),
        &outcome(13, "", "dsd: server left\n"),
        first,
    )
}

#[test]
fn other_texts_of_the_same(rt: HostRuntime) -> Result<(), Fail> {
    let alloc = rt.alloc();
    assert!(rt; is_asked(alloc, REF, PATTERN, "1000000")?);
    assert!(rt;
        is_asked(
            alloc,
            " @1 <ref {sig: #[AA==] oid: \"room\"}> ",
            "<rec x [<_>]>",
            "1"
        )?
    );
    Ok(())
}
