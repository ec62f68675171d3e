//! Each status, at its cause.
use crate::asking::{Server, Wanted, comes_of, outcome, steady};
use std::alloc::Global;
use std::test::Fail;

/// A reference that may be false: that is the server's to find.
const REF: &str = "<ref {oid: \"room\", sig: #x\"00\"}>";

/// What is said first, and what once the reference is accepted as the server's object 1.
const FIRST: &str = "[[0 <A <resolve <ref {oid: \"room\", sig: #x\"00\"}> #:[0 1]> 1>]]";

const BOTH: &str = "[[0 <A <resolve <ref {oid: \"room\", sig: #x\"00\"}> #:[0 1]> 1>]]
    [[1 <A <Observe <bind <_>> #:[0 2]> 2>]]";

/// Whether this comes of a query for so many lines.
fn asks(
    alloc: Global,
    lines: &str,
    server: &Server,
    wanted: &Wanted,
    said: &str,
) -> Result<bool, Fail> {
    comes_of(
        alloc,
        &["query", "a:1", REF, "<bind <_>>", lines],
        server,
        wanted,
        said,
    )
}

/// A server that accepts the reference, and tells that `["ann"]` comes and goes.
const ANN: &str = "[[1 <A <accepted #:[0 1]> 5>]] [[2 <A [\"ann\"] 9>]] [[2 <R 9>]]";

#[test]
fn ann_comes_and_goes(rt: HostRuntime) -> Result<(), Fail> {
    let alloc = rt.alloc();
    let both = outcome(0, "+ [\"ann\"]\n- [\"ann\"]\n", "");
    assert!(rt; asks(alloc, "2", &steady(ANN), &both, BOTH)?);
    assert!(rt;
        asks(
            alloc,
            "1",
            &steady(ANN),
            &outcome(0, "+ [\"ann\"]\n", ""),
            BOTH
        )?
    );
    Ok(())
}

#[test]
fn a_reference_that_is_rejected(rt: HostRuntime) -> Result<(), Fail> {
    let rejects = steady("[[1 <A <rejected \"refused\"> 5>]]");
    let rejected = outcome(12, "", "dsd: rejected\n");
    assert!(rt; asks(rt.alloc(), "1", &rejects, &rejected, FIRST)?);
    Ok(())
}

#[test]
fn a_handle_that_nothing_stands_under(rt: HostRuntime) -> Result<(), Fail> {
    let bad = outcome(14, "", "dsd: bad server\n");
    assert!(rt; asks(rt.alloc(), "1", &steady("[[2 <R 9>]]"), &bad, FIRST)?);
    Ok(())
}

#[test]
fn a_server_that_leaves_before_the_last_line(rt: HostRuntime) -> Result<(), Fail> {
    let alloc = rt.alloc();
    let left = outcome(13, "+ [\"ann\"]\n- [\"ann\"]\n", "dsd: server left\n");
    assert!(rt; asks(alloc, "3", &steady(ANN), &left, BOTH)?);
    let says_why = steady("[[2 <A 1 9>]] <error \"x\" 1> [[2 <R 9>]]");
    assert!(rt;
        asks(
            alloc,
            "2",
            &says_why,
            &outcome(13, "+ 1\n", "dsd: server left\n"),
            FIRST
        )?
    );
    Ok(())
}

#[test]
fn what_is_no_packet_behind_a_line(rt: HostRuntime) -> Result<(), Fail> {
    let bad = outcome(14, "+ 1\n", "dsd: bad server\n");
    assert!(rt; asks(rt.alloc(), "2", &steady("[[2 <A 1 9>]] 5"), &bad, FIRST)?);
    Ok(())
}

#[test]
fn an_address_that_is_not_answered(rt: HostRuntime) -> Result<(), Fail> {
    let nobody = Server {
        failing_dials: &[0],
        ..steady(ANN)
    };
    let failed = outcome(11, "", "dsd: connect failed\n");
    assert!(rt; asks(rt.alloc(), "2", &nobody, &failed, "")?);
    Ok(())
}

#[test]
fn hearing_that_fails(rt: HostRuntime) -> Result<(), Fail> {
    let fails = Server {
        failing_hears: &[0],
        ..steady(ANN)
    };
    assert!(rt;
        asks(
            rt.alloc(),
            "2",
            &fails,
            &outcome(3, "", "dsd: read failed\n"),
            FIRST
        )?
    );
    Ok(())
}

#[test]
fn saying_or_writing_that_fails(rt: HostRuntime) -> Result<(), Fail> {
    let alloc = rt.alloc();
    let says = Server {
        failing_says: &[0],
        ..steady(ANN)
    };
    let failed = outcome(4, "", "dsd: write failed\n");
    assert!(rt; asks(alloc, "2", &says, &failed, "")?);
    let puts = Server {
        failing_puts: &[1],
        ..steady("[[2 <A 1 9>]] [[2 <A 2 8>]]")
    };
    assert!(rt;
        asks(
            alloc,
            "2",
            &puts,
            &outcome(4, "+ 1\n", "dsd: write failed\n"),
            FIRST
        )?
    );
    Ok(())
}
