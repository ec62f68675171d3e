//! The packet that a value is.
ghost use Rattle.std.specs.Prelude.{◌≡◌, IfOk, IfErr, IfSome, IfNone, MatchOption, map};
ghost use Rattle.std.specs.Prelude.{true, false};
ghost use Rattle.std.specs.List.{AllByRecursion};
ghost use Rattle.pv_value.specs.Plain.{Plain, sequence, plains, pairs};
ghost use Rattle.pv_value.specs.View.{key_and_value};
ghost use Rattle.pv_words.specs.Words.{labelled};
ghost use Rattle.rl_packet.specs.Wired.{is_wire_reference, is_wired, all_wired, all_pairs_wired};
ghost use Rattle.rl_packet.specs.Wired.{is_peer, IsEvent, IsTurnEvent};
ghost use Rattle.rl_packet.specs.Grammar.{is_string, is_record, NoneIs, IsPacketOf};
ghost use Rattle.rl_packet.specs.Grammar.{IsTurnOf, AreEventsOf, IsTurnEventOf};
ghost use Rattle.rl_packet.specs.Grammar.{IsEventOf, IsErrorOf};
ghost use Rattle.rl_packet.specs.Packets.{Dialect};
ghost use Rattle.rl_packet.specs.Packets.{assert_word, retract_word, message_word, sync_word};
ghost use Rattle.rl_packet.specs.declared.reading.PacketFault.TheVariants as fault;

use crate::packets::{Dialect, Event, Packet, Turn, TurnEvent, TurnEvents};
use pv_value::{Entry, NoMemory, Node, Value};
use pv_words::{is_word, number_in, worded};
use std::alloc::{AllocFailed, Global};
use thiserror::Error;

/// Why a value is no packet.
#[derive(Clone, Copy, Debug, PartialEq, Eq, Error)]
pub enum PacketFault {
    /// It isn't what the protocol lets a peer send.
    #[error("bad packet")]
    BadPacket,
    /// Memory ran out.
    #[error("out of memory")]
    NoMemory,
}

impl From<NoMemory> for PacketFault {
    ghost from_gives = { λ _ e. e ≡ fault.NoMemory };

    fn from(_: NoMemory) -> PacketFault {
        PacketFault::NoMemory
    }
}

impl<T: Drop> From<AllocFailed<T>> for PacketFault {
    ghost from_gives = { λ _ e. e ≡ fault.NoMemory };

    fn from(_: AllocFailed<T>) -> PacketFault {
        PacketFault::NoMemory
    }
}

/// Whether what an embedded value holds is a wire reference: `[0 oid]` or `[1 oid caveat ..]`.
fn is_wire_reference(inside: &Value) -> bool
    ensures { result ≡ is_wire_reference inside.now }
{
    let Node::Seq(items) = &inside.node else {
        return false;
    };
    let items = items.as_slice();
    if items.len() < 2 || number_in(&items[1]).is_none() {
        return false;
    }
    match number_in(&items[0]) {
        Some(0) => items.len() == 2,
        Some(1) => true,
        _ => false,
    }
}

/// Whether every embedded value in it that isn't inside another one is a wire reference.
#[cycle(wired)]
pub(crate) fn is_wired(value: &Value) -> bool
    ensures { result ≡ is_wired value.now }
{
    match &value.node {
        Node::Emb(inside) => is_wire_reference(inside),
        Node::Rec(rec) => is_wired(&rec.label) && all_wired(rec.fields.as_slice()),
        Node::Seq(items) => all_wired(items.as_slice()),
        Node::Set(set) => all_wired(set.as_slice()),
        Node::Dict(entries) => all_pairs_wired(entries.as_slice()),
        _ => true,
    }
}

#[cycle(wired)]
fn all_wired(values: &[Value]) -> bool
    ensures { result ≡ all_wired (plains values.now) }
{
    for x in values {
        if !is_wired(x) {
            return false;
        }
    }
    true
}

#[cycle(wired)]
fn all_pairs_wired(entries: &[Entry]) -> bool
    ensures { result ≡ all_pairs_wired (pairs (map key_and_value entries.now)) }
{
    for e in entries {
        if !is_wired(&e.key) || !is_wired(&e.value) {
            return false;
        }
    }
    true
}

/// Whether it is an embedded wire reference.
pub(crate) fn is_peer(value: &Value) -> bool
    ensures { result ≡ is_peer value.now }
{
    match &value.node {
        Node::Emb(inside) => is_wire_reference(inside),
        _ => false,
    }
}

fn is_string(value: &Value) -> bool
    ensures { result ≡ is_string value.now }
{
    match &value.node {
        Node::Str(_) => true,
        _ => false,
    }
}

/// Whether an event may stand in a packet.
fn is_event(event: &Event) -> bool
    ensures is { result ≡ true → IsEvent event.now }
    ensures is_none { result ≡ false → IsEvent event.now → ⊥ }
{
    match event {
        Event::Assert(value, handle) => is_wired(value) && *handle < 1 << 63,
        Event::Retract(handle) => *handle < 1 << 63,
        Event::Message(body) => is_wired(body),
        Event::Sync(peer) => is_peer(peer),
    }
}

fn is_turn_event(event: &TurnEvent) -> bool
    ensures is { result ≡ true → IsTurnEvent event.now }
    ensures is_none { result ≡ false → IsTurnEvent event.now → ⊥ }
{
    event.oid < 1 << 63 && is_event(&event.event)
}

fn are_turn_events(events: &[TurnEvent]) -> bool
    ensures are { result ≡ true → AllByRecursion IsTurnEvent events.now }
    ensures are_not { result ≡ false → AllByRecursion IsTurnEvent events.now → ⊥ }
{
    for event in events {
        if !is_turn_event(event) {
            return false;
        }
    }
    true
}

impl TurnEvents {
    /// The list of these events, where each may stand in a packet.
    pub fn of_events(events: Vec<TurnEvent>) -> Option<TurnEvents>
        ensures turn { IfSome result (λ turn. turn ≡ events.items) }
        ensures none { IfNone result (AllByRecursion IsTurnEvent events.items → ⊥) }
    {
        if are_turn_events(&events) {
            Some(TurnEvents::from_vec(events))
        } else {
            None
        }
    }
}

/// The packet that a value is.
pub fn packet_of(alloc: Global, value: &Value) -> Result<Packet, PacketFault>
    ensures packet { IfOk result (IsPacketOf value.now) }
    ensures bad { IfErr result (NoneIs (IsPacketOf value.now)) }
{
    match &value.node {
        Node::Seq(items) => Ok(Packet::Turn(turn_of(alloc, items.as_slice())?)),
        Node::Bool(false) => Ok(Packet::Nop),
        Node::Rec(_) => Ok(record_packet(value)?),
        _ => Err(PacketFault::BadPacket),
    }
}

/// The error or the extension that a record is.
fn record_packet(value: &Value) -> Result<Packet, NoMemory>
    requires { is_record value.now ≡ true }
    ensures { IfOk result (IsPacketOf value.now) }
{
    match error_parts(value) {
        Some((message, detail)) => Ok(Packet::Error(message.copy()?, detail.copy()?)),
        None => Ok(Packet::Extension(value.copy()?)),
    }
}

/// The message and the detail of `<error message detail>`, where the message is a string.
fn error_parts(value: &Value) -> Option<(&Value, &Value)>
    ensures { MatchOption result
        ((m d : Plain) → IsErrorOf value.now m d → ⊥)
        (λ p. IsErrorOf value.now p.0.now p.1.now) }
{
    let Some((word, fields)) = worded(value) else {
        return None;
    };
    let [message, detail] = fields else {
        return None;
    };
    if is_word(word, b"error") && is_string(message) {
        Some((message, detail))
    } else {
        None
    }
}

/// The turn that a sequence of these items is. The first event tells the dialect: in the other one
/// it is refused, and no further event is looked at.
fn turn_of(alloc: Global, items: &[Value]) -> Result<Turn, PacketFault>
    ensures turn { IfOk result (IsTurnOf (sequence (plains items.now))) }
    ensures bad { IfErr result (NoneIs (IsTurnOf (sequence (plains items.now)))) }
{
    match turn_in_dialect(alloc, Dialect::Newer, items) {
        Err(PacketFault::BadPacket) => turn_in_dialect(alloc, Dialect::Older, items),
        read => read,
    }
}

/// The turn that a sequence of these items is in the dialect.
fn turn_in_dialect(alloc: Global, dialect: Dialect, items: &[Value]) -> Result<Turn, PacketFault>
    ensures turn { IfOk result (IsTurnOf (sequence (plains items.now))) }
    ensures bad { IfErr result (NoneIs (AreEventsOf dialect items.now)) }
{
    let events = events_of(alloc, dialect, items)?;
    Ok(Turn::of(dialect, events))
}

/// The events that these items are in the dialect.
fn events_of(alloc: Global, dialect: Dialect, items: &[Value]) -> Result<TurnEvents, PacketFault>
    ensures events { IfOk result (AreEventsOf dialect items.now) }
    ensures bad { IfErr result (NoneIs (AreEventsOf dialect items.now)) }
{
    let mut events = Vec::new(alloc);
    for item in items {
        events.push(turn_event_of(dialect, item)?)?;
    }
    Ok(TurnEvents::from_vec(events))
}

/// The event at an object that a value is: `[oid event]`.
fn turn_event_of(dialect: Dialect, value: &Value) -> Result<TurnEvent, PacketFault>
    ensures event { IfOk result (IsTurnEventOf dialect value.now) }
    ensures bad { IfErr result (NoneIs (IsTurnEventOf dialect value.now)) }
{
    let Node::Seq(parts) = &value.node else {
        return Err(PacketFault::BadPacket);
    };
    let [oid, event] = parts.as_slice() else {
        return Err(PacketFault::BadPacket);
    };
    let Some(oid) = number_in(oid) else {
        return Err(PacketFault::BadPacket);
    };
    let event = event_of(dialect, event)?;
    Ok(TurnEvent { oid, event })
}

/// The event that a value is.
fn event_of(dialect: Dialect, value: &Value) -> Result<Event, PacketFault>
    ensures event { IfOk result (IsEventOf dialect value.now) }
    ensures bad { IfErr result (NoneIs (IsEventOf dialect value.now)) }
{
    let Some((word, fields)) = worded(value) else {
        return Err(PacketFault::BadPacket);
    };
    if is_word(word, dialect.assert_word().as_bytes()) {
        assertion_of(fields)
    } else if is_word(word, dialect.retract_word().as_bytes()) {
        retraction_of(fields)
    } else if is_word(word, dialect.message_word().as_bytes()) {
        message_of(fields)
    } else if is_word(word, dialect.sync_word().as_bytes()) {
        sync_of(fields)
    } else {
        Err(PacketFault::BadPacket)
    }
}

/// The assertion with these fields: the value and the handle.
fn assertion_of(fields: &[Value]) -> Result<Event, PacketFault>
    ensures event { (d : Dialect)
        → IfOk result (IsEventOf d (labelled (assert_word d) fields.now)) }
    ensures bad { (d : Dialect)
        → IfErr result (NoneIs (IsEventOf d (labelled (assert_word d) fields.now))) }
{
    let [value, handle] = fields else {
        return Err(PacketFault::BadPacket);
    };
    let Some(handle) = number_in(handle) else {
        return Err(PacketFault::BadPacket);
    };
    if !is_wired(value) {
        return Err(PacketFault::BadPacket);
    }
    Ok(Event::Assert(value.copy()?, handle))
}

/// The retraction with these fields: the handle.
fn retraction_of(fields: &[Value]) -> Result<Event, PacketFault>
    ensures event { (d : Dialect)
        → IfOk result (IsEventOf d (labelled (retract_word d) fields.now)) }
    ensures bad { (d : Dialect)
        → IfErr result (NoneIs (IsEventOf d (labelled (retract_word d) fields.now))) }
{
    let [handle] = fields else {
        return Err(PacketFault::BadPacket);
    };
    let Some(handle) = number_in(handle) else {
        return Err(PacketFault::BadPacket);
    };
    Ok(Event::Retract(handle))
}

/// The message with these fields: the body.
fn message_of(fields: &[Value]) -> Result<Event, PacketFault>
    ensures event { (d : Dialect)
        → IfOk result (IsEventOf d (labelled (message_word d) fields.now)) }
    ensures bad { (d : Dialect)
        → IfErr result (NoneIs (IsEventOf d (labelled (message_word d) fields.now))) }
{
    let [body] = fields else {
        return Err(PacketFault::BadPacket);
    };
    if !is_wired(body) {
        return Err(PacketFault::BadPacket);
    }
    Ok(Event::Message(body.copy()?))
}

/// The sync with these fields: the peer.
fn sync_of(fields: &[Value]) -> Result<Event, PacketFault>
    ensures event { (d : Dialect)
        → IfOk result (IsEventOf d (labelled (sync_word d) fields.now)) }
    ensures bad { (d : Dialect)
        → IfErr result (NoneIs (IsEventOf d (labelled (sync_word d) fields.now))) }
{
    let [peer] = fields else {
        return Err(PacketFault::BadPacket);
    };
    if !is_peer(peer) {
        return Err(PacketFault::BadPacket);
    }
    Ok(Event::Sync(peer.copy()?))
}
