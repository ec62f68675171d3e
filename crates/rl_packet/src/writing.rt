//! Packets written without their values, and how long that is.
ghost use Rattle.std.specs.Prelude.{◌≡◌, ◌<◌, ◌+◌, ◌-◌, ◌^◌, ◌++◌, ◌∷◌, [], length, min, map, OnOk};
ghost use Rattle.std.specs.Io.{StartsWith};
ghost use Rattle.pv_value.specs.Plain.{plains, symbol};
ghost use Rattle.pv_value.specs.Weight.{canonical_size, sizes_with};
ghost use Rattle.pv_value.specs.WellFormed.{IsWellFormed, AreWellFormed};
ghost use Rattle.pv_words.specs.Words.{number};
ghost use Rattle.pv_binary.specs.Written.{written, written_all};
ghost use Rattle.rl_packet.specs.Packets.{Dialect, event_value, aimed_value, packet_value};

use crate::packets::{Dialect, Event, Packet, TurnEvent};
use pv_binary::{tags, write_integer_into, write_into};
use pv_value::{NoMemory, Value, canonical_size, push_byte, push_bytes};
use pv_words::number;

/// Appends the written spelling of a packet's value, which is not made. Where memory runs out, a
/// part of it may stand there.
#[tactic(auto, unfolding(pv_binary::specs::Numbers::varint))]
pub fn write_packet_into(out: &mut Vec<u8>, packet: &Packet) -> Result<(), NoMemory>
    ensures written { OnOk result
        (out.new.items ≡ out.old.items ++ written (packet_value packet.now)) }
    ensures front { StartsWith out.new.items out.old.items }
{
    match packet {
        Packet::Turn(turn) => {
            push_byte(out, tags::SEQUENCE)?;
            write_events(out, turn.written_dialect(), turn.events.as_slice())
        }
        Packet::Error(message, detail) => {
            push_bytes(
                out,
                &[tags::RECORD, tags::SYMBOL, 5, 101, 114, 114, 111, 114],
            )?;
            write_into(out, message)?;
            write_into(out, detail)?;
            push_byte(out, tags::END)
        }
        Packet::Nop => push_byte(out, tags::FALSE),
        Packet::Extension(value) => write_into(out, value),
    }
}

/// Events at their objects, and the end of their sequence.
fn write_events(out: &mut Vec<u8>, dialect: Dialect, events: &[TurnEvent]) -> Result<(), NoMemory>
    ensures written { OnOk result (out.new.items ≡ out.old.items
        ++ (written_all (plains (map (aimed_value dialect) events.now)) ++ 0x84 ∷ [])) }
    ensures front { StartsWith out.new.items out.old.items }
{
    for event in events {
        write_aimed(out, dialect, event)?;
    }
    push_byte(out, tags::END)
}

fn write_aimed(out: &mut Vec<u8>, dialect: Dialect, event: &TurnEvent) -> Result<(), NoMemory>
    ensures written { OnOk result
        (out.new.items ≡ out.old.items ++ written (aimed_value dialect event.now)) }
    ensures front { StartsWith out.new.items out.old.items }
{
    push_byte(out, tags::SEQUENCE)?;
    write_number(out, event.oid)?;
    write_event(out, dialect, &event.event)?;
    push_byte(out, tags::END)
}

fn write_number(out: &mut Vec<u8>, n: u64) -> Result<(), NoMemory>
    ensures written { OnOk result (out.new.items ≡ out.old.items ++ written (number n)) }
    ensures front { StartsWith out.new.items out.old.items }
{
    write_integer_into(out, n as i128)
}

/// The bytes in front of the fields of a record whose label is the symbol of this word. Those of
/// one letter are appended at once.
fn open_event(out: &mut Vec<u8>, word: &str) -> Result<(), NoMemory>
    requires { length word.now < 128 }
    ensures all { OnOk result
        (out.new.items ≡ out.old.items ++ 0xb4 ∷ written (symbol word.now)) }
    ensures front { StartsWith out.new.items out.old.items }
{
    if let [letter] = word.as_bytes() {
        return push_bytes(out, &[tags::RECORD, tags::SYMBOL, 1, *letter]);
    }
    push_bytes(out, &[tags::RECORD, tags::SYMBOL, word.len() as u8])?;
    push_bytes(out, word.as_bytes())
}

fn write_event(out: &mut Vec<u8>, dialect: Dialect, event: &Event) -> Result<(), NoMemory>
    ensures written { OnOk result
        (out.new.items ≡ out.old.items ++ written (event_value dialect event.now)) }
    ensures front { StartsWith out.new.items out.old.items }
{
    match event {
        Event::Assert(value, handle) => {
            open_event(out, dialect.assert_word())?;
            write_into(out, value)?;
            write_number(out, *handle)?;
            push_byte(out, tags::END)
        }
        Event::Retract(handle) => {
            open_event(out, dialect.retract_word())?;
            write_number(out, *handle)?;
            push_byte(out, tags::END)
        }
        Event::Message(body) => {
            open_event(out, dialect.message_word())?;
            write_into(out, body)?;
            push_byte(out, tags::END)
        }
        Event::Sync(peer) => {
            open_event(out, dialect.sync_word())?;
            write_into(out, peer)?;
            push_byte(out, tags::END)
        }
    }
}

/// The length of the canonical form of a packet's value, which is not made: it is as long as the
/// written spelling. It takes no memory, and stops at `u64::MAX`.
pub fn packet_size(packet: &Packet) -> u64
    ensures size { result ≡ min (canonical_size (packet_value packet.now)) (2 ^ 64 - 1) }
    ensures whole { IsWellFormed (packet_value packet.now) }
{
    see_packet(packet);
    size_of(packet)
}

/// The packet's value keeps what is true of all values.
fn see_packet(packet: &Packet)
    ensures { IsWellFormed (packet_value packet.now) }
{
    match packet {
        Packet::Turn(turn) => see_events(turn.events.as_slice()),
        Packet::Error(message, detail) => {
            let _ = &message.node;
            let _ = &detail.node;
        }
        Packet::Nop => {}
        Packet::Extension(value) => {
            let _ = &value.node;
        }
    }
}

fn see_events(events: &[TurnEvent])
    ensures { (d : Dialect) → AreWellFormed (plains (map (aimed_value d) events.now)) }
{
    for event in events {
        see_number(event.oid);
        see_event(&event.event);
    }
}

fn see_event(event: &Event)
    ensures { (d : Dialect) → IsWellFormed (event_value d event.now) }
{
    match event {
        Event::Assert(value, handle) => {
            see_number(*handle);
            let _ = &value.node;
        }
        Event::Retract(handle) => see_number(*handle),
        Event::Message(body) => {
            let _ = &body.node;
        }
        Event::Sync(peer) => {
            let _ = &peer.node;
        }
    }
}

fn see_number(n: u64)
    ensures { IsWellFormed (number n) }
{
    let value = number(n);
    let _ = &value.node;
}

fn size_of(packet: &Packet) -> u64
    ensures { result ≡ min (canonical_size (packet_value packet.now)) (2 ^ 64 - 1) }
{
    match packet {
        Packet::Turn(turn) => {
            events_size(turn.written_dialect(), turn.events.as_slice()).saturating_add(2)
        }
        Packet::Error(message, detail) => canonical_size(message)
            .saturating_add(canonical_size(detail))
            .saturating_add(9),
        Packet::Nop => 1,
        Packet::Extension(value) => canonical_size(value),
    }
}

fn events_size(dialect: Dialect, events: &[TurnEvent]) -> u64
    ensures { result ≡
        min (sizes_with 0 (plains (map (aimed_value dialect) events.now))) (2 ^ 64 - 1) }
{
    let mut total: u64 = 0;
    for event in events {
        total = total.saturating_add(aimed_size(dialect, event));
    }
    total
}

fn aimed_size(dialect: Dialect, event: &TurnEvent) -> u64
    ensures { result ≡ min (canonical_size (aimed_value dialect event.now)) (2 ^ 64 - 1) }
{
    number_size(event.oid)
        .saturating_add(event_size(dialect, &event.event))
        .saturating_add(2)
}

fn number_size(n: u64) -> u64
    ensures { result ≡ min (canonical_size (number n)) (2 ^ 64 - 1) }
{
    canonical_size(&number(n))
}

/// By how much a record is longer than its fields, where its label is the symbol of this word.
fn label_size(word: &str) -> u64
    requires { length word.now < 128 }
    ensures { result ≡ length word.now + 4 }
{
    word.len() as u64 + 4
}

fn event_size(dialect: Dialect, event: &Event) -> u64
    ensures { result ≡ min (canonical_size (event_value dialect event.now)) (2 ^ 64 - 1) }
{
    match event {
        Event::Assert(value, handle) => canonical_size(value)
            .saturating_add(number_size(*handle))
            .saturating_add(label_size(dialect.assert_word())),
        Event::Retract(handle) => {
            number_size(*handle).saturating_add(label_size(dialect.retract_word()))
        }
        Event::Message(body) => {
            canonical_size(body).saturating_add(label_size(dialect.message_word()))
        }
        Event::Sync(peer) => canonical_size(peer).saturating_add(label_size(dialect.sync_word())),
    }
}
