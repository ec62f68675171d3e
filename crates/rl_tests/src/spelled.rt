//! Turns in bytes: bytes written by hand, by the tables of the binary form.

use pv_value::Value;
use rl_packet::{
    Dialect, Packet, packet_of, packet_size, packet_value, turn_in, write_packet_into,
};
use std::alloc::Global;
use std::test::Fail;

/// Whether the packet is written in these bytes, and as long as that.
fn is_written(alloc: Global, packet: &Packet, bytes: &[u8]) -> Result<bool, Fail> {
    let mut out = Vec::new(alloc);
    write_packet_into(&mut out, packet)?;
    Ok(out.as_slice() == bytes && packet_size(packet) == bytes.len() as u64)
}

/// Whether the packet's value is that of a packet which is written in these bytes.
fn comes_back(alloc: Global, packet: &Packet, bytes: &[u8]) -> Result<bool, Fail> {
    let value = packet_value(alloc, packet)?;
    match packet_of(alloc, &value) {
        Ok(again) => is_written(alloc, &again, bytes),
        Err(_) => Ok(false),
    }
}

/// Whether these bytes and one more begin with a turn of one event in the dialect, or of none, that
/// takes all but the last one, and is written in the same bytes, and its value too.
fn is_turn(alloc: Global, bytes: &[u8], dialect: Option<Dialect>) -> Result<bool, Fail> {
    let mut more = Vec::new(alloc);
    more.extend_from_slice(bytes)?;
    more.push(0x80)?;
    match turn_in(alloc, &more)? {
        Some((turn, size)) => {
            let count = usize::from(dialect.is_some());
            let right = size == bytes.len() && turn.events.len() == count;
            let right = right && turn.dialect == dialect;
            let packet = Packet::Turn(turn);
            let written = is_written(alloc, &packet, bytes)?;
            Ok(right && written && comes_back(alloc, &packet, bytes)?)
        }
        None => Ok(false),
    }
}

fn is_newer(alloc: Global, bytes: &[u8]) -> Result<bool, Fail> {
    is_turn(alloc, bytes, Some(Dialect::Newer))
}

fn is_older(alloc: Global, bytes: &[u8]) -> Result<bool, Fail> {
    is_turn(alloc, bytes, Some(Dialect::Older))
}

/// Whether these bytes begin with no whole turn.
fn is_none(alloc: Global, bytes: &[u8]) -> Result<bool, Fail> {
    Ok(turn_in(alloc, bytes)?.is_none())
}

/// Whether the sequence of these two events is a turn.
fn are_turn(alloc: Global, first: &[u8], second: &[u8]) -> Result<bool, Fail> {
    let mut bytes = Vec::new(alloc);
    bytes.push(0xb5)?;
    bytes.extend_from_slice(first)?;
    bytes.extend_from_slice(second)?;
    bytes.push(0x84)?;
    Ok(!is_none(alloc, &bytes)?)
}

/// `[[0 <M v>]]`, where v is so many sequences one inside another.
fn nested(alloc: Global, levels: usize) -> Result<Vec<u8>, Fail> {
    let mut bytes = Vec::new(alloc);
    bytes.extend_from_slice(&[0xb5, 0xb5, 0xb0, 0, 0xb4, 0xb3, 1, 0x4d])?;
    for _ in 0..levels {
        bytes.push(0xb5)?;
    }
    for _ in 0..levels {
        bytes.push(0x84)?;
    }
    bytes.extend_from_slice(&[0x84, 0x84, 0x84])?;
    Ok(bytes)
}

fn nests(alloc: Global, levels: usize) -> Result<bool, Fail> {
    is_newer(alloc, &nested(alloc, levels)?)
}

fn nests_too_deep(alloc: Global, levels: usize) -> Result<bool, Fail> {
    is_none(alloc, &nested(alloc, levels)?)
}

#[test]
fn events_stand_in_bytes(rt: HostRuntime) -> Result<(), Fail> {
    let alloc = rt.alloc();
    // [[0 <A #t 1>]], [[1 <R 200>]], [[0 <M "a">]], [[0 <S #:[0 2]>]]
    let assertion = [
        0xb5, 0xb5, 0xb0, 0, 0xb4, 0xb3, 1, 0x41, 0x81, 0xb0, 1, 1, 0x84, 0x84, 0x84,
    ];
    let retraction = [
        0xb5, 0xb5, 0xb0, 1, 1, 0xb4, 0xb3, 1, 0x52, 0xb0, 2, 0, 200, 0x84, 0x84, 0x84,
    ];
    let message = [
        0xb5, 0xb5, 0xb0, 0, 0xb4, 0xb3, 1, 0x4d, 0xb1, 1, 0x61, 0x84, 0x84, 0x84,
    ];
    let sync = [
        0xb5, 0xb5, 0xb0, 0, 0xb4, 0xb3, 1, 0x53, 0x86, 0xb5, 0xb0, 0, 0xb0, 1, 2, 0x84, 0x84,
        0x84, 0x84,
    ];
    assert!(rt; is_newer(alloc, &assertion)?);
    assert!(rt; is_newer(alloc, &retraction)?);
    assert!(rt; is_newer(alloc, &message)?);
    assert!(rt; is_newer(alloc, &sync)?);
    assert!(rt; is_turn(alloc, &[0xb5, 0x84], None)?);
    Ok(())
}

#[test]
fn older_events_stand_in_bytes(rt: HostRuntime) -> Result<(), Fail> {
    let alloc = rt.alloc();
    // [[0 <assert #t 1>]], [[1 <retract 200>]], [[0 <message "a">]], [[0 <sync #:[0 2]>]]
    let assertion = [
        0xb5, 0xb5, 0xb0, 0, 0xb4, 0xb3, 6, 0x61, 0x73, 0x73, 0x65, 0x72, 0x74, 0x81, 0xb0, 1, 1,
        0x84, 0x84, 0x84,
    ];
    let retraction = [
        0xb5, 0xb5, 0xb0, 1, 1, 0xb4, 0xb3, 7, 0x72, 0x65, 0x74, 0x72, 0x61, 0x63, 0x74, 0xb0, 2,
        0, 200, 0x84, 0x84, 0x84,
    ];
    let message = [
        0xb5, 0xb5, 0xb0, 0, 0xb4, 0xb3, 7, 0x6d, 0x65, 0x73, 0x73, 0x61, 0x67, 0x65, 0xb1, 1,
        0x61, 0x84, 0x84, 0x84,
    ];
    let sync = [
        0xb5, 0xb5, 0xb0, 0, 0xb4, 0xb3, 4, 0x73, 0x79, 0x6e, 0x63, 0x86, 0xb5, 0xb0, 0, 0xb0, 1,
        2, 0x84, 0x84, 0x84, 0x84,
    ];
    assert!(rt; is_older(alloc, &assertion)?);
    assert!(rt; is_older(alloc, &retraction)?);
    assert!(rt; is_older(alloc, &message)?);
    assert!(rt; is_older(alloc, &sync)?);
    Ok(())
}

#[test]
fn events_of_both_dialects_are_no_turn(rt: HostRuntime) -> Result<(), Fail> {
    let alloc = rt.alloc();
    // [0 <R 1>], [0 <retract 1>]
    let newer = [0xb5, 0xb0, 0, 0xb4, 0xb3, 1, 0x52, 0xb0, 1, 1, 0x84, 0x84];
    let older = [
        0xb5, 0xb0, 0, 0xb4, 0xb3, 7, 0x72, 0x65, 0x74, 0x72, 0x61, 0x63, 0x74, 0xb0, 1, 1, 0x84,
        0x84,
    ];
    assert!(rt; are_turn(alloc, &newer, &newer)?);
    assert!(rt; are_turn(alloc, &older, &older)?);
    assert!(rt; !are_turn(alloc, &newer, &older)?);
    assert!(rt; !are_turn(alloc, &older, &newer)?);
    Ok(())
}

#[test]
fn other_bytes_begin_with_no_turn(rt: HostRuntime) -> Result<(), Fail> {
    let alloc = rt.alloc();
    // a turn that is cut, and the assertion of an embedded value that is no wire reference
    let cut = [
        0xb5, 0xb5, 0xb0, 0, 0xb4, 0xb3, 1, 0x41, 0x81, 0xb0, 1, 1, 0x84, 0x84,
    ];
    let unwired = [
        0xb5, 0xb5, 0xb0, 0, 0xb4, 0xb3, 1, 0x41, 0x86, 0x81, 0xb0, 1, 1, 0x84, 0x84, 0x84,
    ];
    assert!(rt; is_none(alloc, &cut)?);
    assert!(rt; is_none(alloc, &unwired)?);
    assert!(rt; is_none(alloc, &[0x80])?);
    assert!(rt; is_none(alloc, &[])?);
    Ok(())
}

#[test]
fn a_turn_nests_64_deep(rt: HostRuntime) -> Result<(), Fail> {
    let alloc = rt.alloc();
    assert!(rt; nests(alloc, 61)?);
    assert!(rt; nests_too_deep(alloc, 62)?);
    Ok(())
}

#[test]
fn other_packets_are_written(rt: HostRuntime) -> Result<(), Fail> {
    let alloc = rt.alloc();
    // <error #t #f>
    let error = [0xb4, 0xb3, 5, 101, 114, 114, 111, 114, 0x81, 0x80, 0x84];
    let packet = Packet::Error(Value::boolean(true), Value::boolean(false));
    assert!(rt; is_written(alloc, &packet, &error)?);
    assert!(rt; is_written(alloc, &Packet::Nop, &[0x80])?);
    Ok(())
}
