//! Packets at which a client goes no further.
use crate::reactions::begun;
use crate::texts::packets;
use dq_core::{Client, QueryFault, Reaction};
use rl_packet::Packet;
use std::alloc::Global;
use std::test::Fail;

/// The client after a packet, or the fault.
fn next(alloc: Global, client: Client, packet: &Packet) -> Result<Client, QueryFault> {
    let (client, Reaction { lines: _, ask: _ }) = client.take(alloc, packet)?;
    Ok(client)
}

/// Which packet is at fault, and why.
fn fault(alloc: Global, packets: &[Packet]) -> Result<Option<(usize, QueryFault)>, Fail> {
    let Some((mut client, _)) = begun(alloc)? else {
        return Ok(None);
    };
    for (i, packet) in packets.iter().enumerate() {
        match next(alloc, client, packet) {
            Ok(then) => client = then,
            Err(fault) => return Ok(Some((i, fault))),
        }
    }
    Ok(None)
}

/// Whether the last packet of a text is at fault, and none before it.
fn fails(alloc: Global, text: &str, why: QueryFault) -> Result<bool, Fail> {
    let packets = packets(alloc, text)?;
    match fault(alloc, &packets)? {
        Some((i, fault)) => Ok(i.saturating_add(1) == packets.len() && fault == why),
        None => Ok(false),
    }
}

#[test]
fn a_rejected_reference(rt: HostRuntime) -> Result<(), Fail> {
    let alloc = rt.alloc();
    let why = QueryFault::Rejected;
    assert!(rt; fails(alloc, "[[1 <A <rejected \"refused\"> 5>]]", why)?);
    assert!(rt; fails(alloc, "[] [[2 <A 1 9>] [1 <A <rejected> 5>]]", why)?);
    Ok(())
}

#[test]
fn an_error_packet(rt: HostRuntime) -> Result<(), Fail> {
    assert!(rt;
        fails(
            rt.alloc(),
            "[[2 <A 1 9>]] <error \"x\" 1>",
            QueryFault::ServerError
        )?
    );
    Ok(())
}

#[test]
fn an_answer_that_is_none(rt: HostRuntime) -> Result<(), Fail> {
    let alloc = rt.alloc();
    let why = QueryFault::BadServer;
    assert!(rt; fails(alloc, "[[1 <A 3 5>]]", why)?);
    assert!(rt; fails(alloc, "[[1 <A <accepted #:[1 7]> 5>]]", why)?);
    assert!(rt; fails(alloc, "[[1 <A <accepted 7> 5>]]", why)?);
    assert!(rt; fails(alloc, "[[1 <A <accepted #:[0 7] 1> 5>]]", why)?);
    assert!(rt; fails(alloc, "[[1 <A <\"accepted\" #:[0 7]> 5>]]", why)?);
    Ok(())
}

#[test]
fn an_object_that_the_client_has_not(rt: HostRuntime) -> Result<(), Fail> {
    let alloc = rt.alloc();
    let why = QueryFault::BadServer;
    assert!(rt; fails(alloc, "[[0 <M 1>]]", why)?);
    assert!(rt; fails(alloc, "[[3 <S #:[1 0]>]]", why)?);
    assert!(rt; fails(alloc, "[[2 <A 1 9>]] [[3 <R 9>]]", why)?);
    Ok(())
}

#[test]
fn handles_that_stand_and_that_do_not(rt: HostRuntime) -> Result<(), Fail> {
    let alloc = rt.alloc();
    let why = QueryFault::BadServer;
    assert!(rt; fails(alloc, "[[2 <R 9>]]", why)?);
    assert!(rt; fails(alloc, "[[2 <A 1 9>]] [[1 <R 9>]]", why)?);
    assert!(rt; fails(alloc, "[[1 <A <accepted #:[0 7]> 9>]] [[2 <R 9>]]", why)?);
    assert!(rt; fails(alloc, "[[2 <A 1 9>]] [[2 <A 1 9>]]", why)?);
    assert!(rt; fails(alloc, "[[2 <A 1 9>] [2 <R 9>]] [[2 <R 9>]]", why)?);
    // The handle is looked at before the answer.
    assert!(rt; fails(alloc, "[[2 <A 1 9>]] [[1 <A <rejected 1> 9>]]", why)?);
    Ok(())
}

#[test]
fn a_turn_of_the_older_dialect(rt: HostRuntime) -> Result<(), Fail> {
    let alloc = rt.alloc();
    let why = QueryFault::BadServer;
    assert!(rt; fails(alloc, "[[2 <assert 1 9>]]", why)?);
    // That comes before all else.
    assert!(rt; fails(alloc, "[[1 <assert <rejected 1> 9>]]", why)?);
    Ok(())
}
