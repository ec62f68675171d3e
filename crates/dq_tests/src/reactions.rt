//! What a client makes of packets.
use crate::texts::{lines, packets, value};
use dq_core::{Client, Reaction};
use pv_print::print_into;
use rl_packet::{Packet, Turn, packet_value};
use sr_caveat::has_embedded;
use std::alloc::Global;
use std::test::Fail;

/// A client that asks for `<ref {}>` and is to observe `<bind <_>>`, and the turn that it says
/// first. Nothing is embedded in either value.
pub(crate) fn begun(alloc: Global) -> Result<Option<(Client, Turn)>, Fail> {
    let reference = value(alloc, "<ref {}>")?;
    let pattern = value(alloc, "<bind <_>>")?;
    if has_embedded(&reference) || has_embedded(&pattern) {
        return Ok(None);
    }
    Ok(Some(Client::begin(alloc, reference, pattern)?))
}

/// Appends the lines of a reaction, and behind each ask a line feed.
fn note(alloc: Global, reaction: Reaction, told: &mut Vec<u8>) -> Result<(), Fail> {
    let Reaction { lines, ask } = reaction;
    for line in lines.as_slice() {
        line.write_into(told)?;
    }
    if let Some(turn) = ask {
        print_into(told, &packet_value(alloc, &Packet::Turn(turn))?)?;
        told.push(b'\n')?;
    }
    Ok(())
}

/// What a client prints for the packets, and what it asks, each behind the lines of its packet.
fn told(alloc: Global, packets: &[Packet]) -> Result<Option<Vec<u8>>, Fail> {
    let Some((mut client, _)) = begun(alloc)? else {
        return Ok(None);
    };
    let mut told = Vec::new(alloc);
    for packet in packets {
        let (next, reaction) = client.take(alloc, packet)?;
        client = next;
        note(alloc, reaction, &mut told)?;
    }
    Ok(Some(told))
}

/// Whether a client tells just this of the packets of a text.
fn tells(alloc: Global, text: &str, expected: &str) -> Result<bool, Fail> {
    match told(alloc, &packets(alloc, text)?)? {
        Some(told) => Ok(told.as_slice() == expected.as_bytes()),
        None => Ok(false),
    }
}

/// Whether the first turn is this.
fn opens_with(alloc: Global, expected: &str) -> Result<bool, Fail> {
    let Some((_, turn)) = begun(alloc)? else {
        return Ok(false);
    };
    let mut told = Vec::new(alloc);
    print_into(&mut told, &packet_value(alloc, &Packet::Turn(turn))?)?;
    told.push(b'\n')?;
    Ok(told.as_slice() == lines(alloc, expected)?.as_slice())
}

#[test]
fn the_first_turn_resolves_the_reference(rt: HostRuntime) -> Result<(), Fail> {
    assert!(rt; opens_with(rt.alloc(), "[[0 <A <resolve <ref {}> #:[0 1]> 1>]]")?);
    Ok(())
}

#[test]
fn an_accepted_reference_is_observed_once(rt: HostRuntime) -> Result<(), Fail> {
    let alloc = rt.alloc();
    let observe = "[[7 <A <Observe <bind <_>> #:[0 2]> 2>]]\n";
    assert!(rt; tells(alloc, "[[1 <A <accepted #:[0 7]> 5>]]", observe)?);
    assert!(rt;
        tells(
            alloc,
            "[[1 <A <accepted #:[0 7]> 5>] [1 <A <accepted #:[0 8]> 6>] [1 <A 3 7>]]
             [[1 <R 5>]] [[1 <A <rejected 1> 5>] [1 <M 3>]]",
            observe
        )?
    );
    Ok(())
}

#[test]
fn what_comes_and_goes_makes_lines(rt: HostRuntime) -> Result<(), Fail> {
    let alloc = rt.alloc();
    assert!(rt;
        tells(
            alloc,
            "[[2 <A [\"ann\"] 9>] [2 <A [\"bob\"] 8>]] [[2 <R 9>] [2 <M {a: #t}>] [2 <R 8>]]",
            "+ [\"ann\"]\n+ [\"bob\"]\n- [\"ann\"]\n! {a: #t}\n- [\"bob\"]\n"
        )?
    );
    // The same value twice, and a handle that stands anew.
    assert!(rt;
        tells(
            alloc,
            "[[2 <A 1 9>] [2 <A 1 8>] [2 <R 9>] [2 <A 2 9>] [2 <R 8>] [2 <R 9>]]",
            "+ 1\n+ 1\n- 1\n+ 2\n- 1\n- 2\n"
        )?
    );
    Ok(())
}

#[test]
fn embedded_values_are_printed_as_sent(rt: HostRuntime) -> Result<(), Fail> {
    assert!(rt; tells(rt.alloc(), "[[2 <A [#:[0 3]] 9>]]", "+ [#:[0 3]]\n")?);
    Ok(())
}

#[test]
fn syncs_of_the_servers_objects_are_answered(rt: HostRuntime) -> Result<(), Fail> {
    let alloc = rt.alloc();
    assert!(rt; tells(alloc, "[[1 <S #:[0 4]>]]", "[[4 <M #t>]]\n")?);
    assert!(rt; tells(alloc, "[[2 <S #:[1 4]>]]", "")?);
    // What is asked for one packet is one turn, in order.
    assert!(rt;
        tells(
            alloc,
            "[[2 <S #:[0 4]>] [1 <A <accepted #:[0 0]> 5>] [2 <A 1 6>] [1 <S #:[0 3]>]]",
            "+ 1\n[[4 <M #t>] [0 <A <Observe <bind <_>> #:[0 2]> 2>] [3 <M #t>]]\n"
        )?
    );
    Ok(())
}

#[test]
fn what_says_nothing_does_nothing(rt: HostRuntime) -> Result<(), Fail> {
    assert!(rt; tells(rt.alloc(), "#f [] <other 1> [[2 <A 1 9>]] <x>", "+ 1\n")?);
    Ok(())
}
