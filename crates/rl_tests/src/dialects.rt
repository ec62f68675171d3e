//! Values of events of both dialects.

use pv_value::{Items, Node, Value};
use rl_packet::{
    Dialect, Event, Packet, PacketFault, Turn, TurnEvent, TurnEvents, packet_of, packet_value,
};
use std::alloc::Global;
use std::test::Fail;

/// The turn that takes one assertion back.
fn retraction(alloc: Global, dialect: Dialect) -> Result<Packet, Fail> {
    let mut events = Vec::new(alloc);
    let event = Event::Retract(1);
    events.push(TurnEvent { oid: 0, event })?;
    let events = TurnEvents::of_events(events).unwrap_or(TurnEvents::new(alloc));
    Ok(Packet::Turn(Turn::of(dialect, events)))
}

/// Appends what a sequence holds.
fn push_items(items: &mut Vec<Value>, sequence: &Value) -> Result<(), Fail> {
    if let Node::Seq(more) = &sequence.node {
        for item in more.as_slice() {
            items.push(item.copy()?)?;
        }
    }
    Ok(())
}

/// Appends the event of such a turn.
fn push_event(alloc: Global, items: &mut Vec<Value>, dialect: Dialect) -> Result<(), Fail> {
    let turn = retraction(alloc, dialect)?;
    let value = packet_value(alloc, &turn)?;
    push_items(items, &value)
}

/// The sequence of an event in each of these dialects.
fn sequence(alloc: Global, first: Dialect, second: Dialect) -> Result<Value, Fail> {
    let mut items = Vec::new(alloc);
    push_event(alloc, &mut items, first)?;
    push_event(alloc, &mut items, second)?;
    Ok(Value::sequence(Items::from_vec(alloc, items)?))
}

/// Whether the packet is a turn of two events in the dialect.
fn is_turn(packet: &Packet, dialect: Dialect) -> bool {
    match packet {
        Packet::Turn(turn) => turn.events.len() == 2 && turn.dialect == Some(dialect),
        _ => false,
    }
}

/// Whether an event in each of these dialects are a turn together, in the first one.
fn are_turn(alloc: Global, first: Dialect, second: Dialect) -> Result<bool, Fail> {
    let value = sequence(alloc, first, second)?;
    match packet_of(alloc, &value) {
        Ok(packet) => Ok(is_turn(&packet, first)),
        Err(fault) => Ok(fault != PacketFault::BadPacket),
    }
}

#[test]
fn events_of_a_turn_are_of_one_dialect(rt: HostRuntime) -> Result<(), Fail> {
    let alloc = rt.alloc();
    assert!(rt; are_turn(alloc, Dialect::Newer, Dialect::Newer)?);
    assert!(rt; are_turn(alloc, Dialect::Older, Dialect::Older)?);
    assert!(rt; !are_turn(alloc, Dialect::Newer, Dialect::Older)?);
    assert!(rt; !are_turn(alloc, Dialect::Older, Dialect::Newer)?);
    Ok(())
}
