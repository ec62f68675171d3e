//! Whole queries over a host in memory.
use crate::texts::{bytes, value};
use dq_link::{QueryEnd, Question, query};
use out_ports::memory::{MemHost, MemListen, MemSink, MemSource};
use out_ports::ports::{Host, Sink};
use sr_caveat::has_embedded;
use std::alloc::{AllocError, Global};
use std::test::Fail;

/// What a server sends, and which calls fail.
#[derive(Drop)]
struct Server<'a> {
    packets: &'a str,
    cut: usize,
    failing_hears: &'a [u64],
    failing_says: &'a [u64],
    failing_dials: &'a [u64],
    failing_puts: &'a [u64],
}

/// A server of which no call fails.
fn steady(packets: &str) -> Server<'_> {
    Server {
        packets,
        cut: 0,
        failing_hears: &[],
        failing_says: &[],
        failing_dials: &[],
        failing_puts: &[],
    }
}

/// A sink with much room that fails at these puts.
fn sink(alloc: Global, failing: &[u64]) -> Result<MemSink, AllocError> {
    Ok(MemSink::new(
        Vec::with_capacity(alloc, 4096)?,
        Vec::from_slice(alloc, failing)?,
    ))
}

/// A host whose peer is the server; what it sends comes in pieces of three bytes, and its last
/// bytes are missing.
fn host(alloc: Global, server: &Server) -> Result<MemHost, Fail> {
    let mut bytes = bytes(alloc, server.packets)?;
    let count = bytes.len().saturating_sub(server.cut);
    bytes.truncate(count);
    let hears = MemSource::new(bytes, 3, Vec::from_slice(alloc, server.failing_hears)?);
    let says = sink(alloc, server.failing_says)?;
    let none = MemListen::new(Vec::new(alloc), Vec::new(alloc));
    let host = MemHost::new(Vec::new(alloc), none, Vec::new(alloc), Vec::new(alloc));
    Ok(host.with_peer(hears, says, Vec::from_slice(alloc, server.failing_dials)?))
}

/// The question for so many lines.
fn question(alloc: Global, lines: u64) -> Result<Question, Fail> {
    Ok(Question {
        reference: value(alloc, "<ref {}>")?,
        pattern: value(alloc, "<bind <_>>")?,
        lines,
    })
}

/// The end of a query for so many lines.
fn ends(
    alloc: Global,
    host: &mut MemHost,
    out: &mut MemSink,
    lines: u64,
) -> Result<Option<QueryEnd>, Fail> {
    let question = question(alloc, lines)?;
    if question.lines == 0 || has_embedded(&question.reference) || has_embedded(&question.pattern) {
        return Ok(None);
    }
    Ok(Some(query(alloc, host, out, "a:1", question)))
}

/// What is said first, and what is said once the reference is accepted as the server's object 7.
const FIRST: &str = "[[0 <A <resolve <ref {}> #:[0 1]> 1>]]";

const OBSERVE: &str = "[[7 <A <Observe <bind <_>> #:[0 2]> 2>]]";

/// Whether a query for so many lines ends so, with this output, and with the first turn and these
/// said.
fn asks(
    alloc: Global,
    server: &Server,
    lines: u64,
    end: QueryEnd,
    output: &str,
    said: &str,
) -> Result<bool, Fail> {
    let mut host = host(alloc, server)?;
    let mut out = sink(alloc, server.failing_puts)?;
    let ended = ends(alloc, &mut host, &mut out, lines)?;
    let said = bytes(alloc, said)?;
    let same = host.says().held() == said.as_slice() && out.held() == output.as_bytes();
    Ok(ended == Some(end) && same && host.dialled() == Some("a:1"))
}

/// A server that accepts, and asserts and takes back `["ann"]`.
const ANN: &str = "[[1 <A <accepted #:[0 7]> 5>]] [[2 <A [\"ann\"] 9>]] [[2 <R 9>]]";

#[test]
fn two_lines_are_written(rt: HostRuntime) -> Result<(), Fail> {
    let said = format!(in rt.alloc(); "{FIRST} {OBSERVE}")?;
    let output = "+ [\"ann\"]\n- [\"ann\"]\n";
    assert!(rt;
        asks(
            rt.alloc(),
            &steady(ANN),
            2,
            QueryEnd::Done,
            output,
            said.as_str()
        )?
    );
    Ok(())
}

#[test]
fn no_line_more_than_was_asked_for(rt: HostRuntime) -> Result<(), Fail> {
    let alloc = rt.alloc();
    let packets = "[[2 <A 1 8>]] [[2 <A 2 9>] [2 <S #:[0 3]>] [2 <A 3 7>]]";
    assert!(rt; asks(alloc, &steady(packets), 1, QueryEnd::Done, "+ 1\n", FIRST)?);
    // What the packet with the last line asks isn't said.
    assert!(rt;
        asks(
            alloc,
            &steady(packets),
            2,
            QueryEnd::Done,
            "+ 1\n+ 2\n",
            FIRST
        )?
    );
    // What comes behind that packet isn't looked at.
    let packets = "[[2 <A 1 8>]] [[2 <R 9>]]";
    assert!(rt; asks(alloc, &steady(packets), 1, QueryEnd::Done, "+ 1\n", FIRST)?);
    Ok(())
}

#[test]
fn a_packet_at_fault_gives_none_of_its_lines(rt: HostRuntime) -> Result<(), Fail> {
    let alloc = rt.alloc();
    let packets = "[[2 <A 1 8>]] [[2 <A 2 7>] [2 <R 9>]]";
    assert!(rt;
        asks(
            alloc,
            &steady(packets),
            2,
            QueryEnd::BadServer,
            "+ 1\n",
            FIRST
        )?
    );
    Ok(())
}

#[test]
fn servers_that_refuse_or_leave(rt: HostRuntime) -> Result<(), Fail> {
    let alloc = rt.alloc();
    let packets = "[[1 <A <rejected \"refused\"> 5>]]";
    assert!(rt; asks(alloc, &steady(packets), 1, QueryEnd::Rejected, "", FIRST)?);
    assert!(rt;
        asks(
            alloc,
            &steady("[[2 <R 9>]]"),
            1,
            QueryEnd::BadServer,
            "",
            FIRST
        )?
    );
    assert!(rt;
        asks(
            alloc,
            &steady("[[2 <A 1 9>]] 5"),
            2,
            QueryEnd::BadServer,
            "+ 1\n",
            FIRST
        )?
    );
    let packets = "[[2 <A 1 9>]] <error \"x\" 1>";
    assert!(rt; asks(alloc, &steady(packets), 2, QueryEnd::Left, "+ 1\n", FIRST)?);
    assert!(rt;
        asks(
            alloc,
            &steady("[[2 <A 1 9>]]"),
            2,
            QueryEnd::Left,
            "+ 1\n",
            FIRST
        )?
    );
    Ok(())
}

#[test]
fn half_a_packet_is_none(rt: HostRuntime) -> Result<(), Fail> {
    let cut = Server {
        cut: 1,
        ..steady("[[2 <A 1 9>]] [[2 <A 2 8>]]")
    };
    assert!(rt; asks(rt.alloc(), &cut, 2, QueryEnd::Left, "+ 1\n", FIRST)?);
    Ok(())
}

#[test]
fn calls_that_fail(rt: HostRuntime) -> Result<(), Fail> {
    let alloc = rt.alloc();
    let hears = Server {
        failing_hears: &[0],
        ..steady(ANN)
    };
    assert!(rt; asks(alloc, &hears, 2, QueryEnd::HearFailed, "", FIRST)?);
    let says = Server {
        failing_says: &[1],
        ..steady(ANN)
    };
    assert!(rt; asks(alloc, &says, 2, QueryEnd::SayFailed, "", FIRST)?);
    let puts = Server {
        failing_puts: &[1],
        ..steady("[[2 <A 1 9>] [2 <S #:[0 3]>] [2 <A 2 8>]]")
    };
    assert!(rt; asks(alloc, &puts, 3, QueryEnd::OutputFailed, "+ 1\n", FIRST)?);
    Ok(())
}

/// Whether a dial that fails ends the query, with nothing heard, said or written.
fn fails_to_dial(alloc: Global) -> Result<bool, Fail> {
    let server = Server {
        failing_dials: &[0],
        ..steady(ANN)
    };
    let mut host = host(alloc, &server)?;
    let mut out = sink(alloc, &[])?;
    let ended = ends(alloc, &mut host, &mut out, 2)?;
    let silent = host.says().held().is_empty() && out.held().is_empty();
    Ok(ended == Some(QueryEnd::DialFailed) && silent && host.dialled().is_none())
}

#[test]
fn a_dial_that_fails(rt: HostRuntime) -> Result<(), Fail> {
    assert!(rt; fails_to_dial(rt.alloc())?);
    Ok(())
}
