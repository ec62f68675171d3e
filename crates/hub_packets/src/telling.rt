//! What connections are told: the events of a batch, references as the connection knows them.
ghost use Rattle.std.specs.Prelude.{◌≡◌, ◌≤◌, ◌^◌, map, None, IfOk, IfErr, OnOk};
ghost use Rattle.rl_ports.specs.Ports.{AreGiven, AreNumbered, swept};
ghost use Rattle.rl_wire.specs.Crossing.{fault_out, foreign_in, crossed_out, exports_with};
ghost use Rattle.rl_wire.specs.Crossing.{all_exported};
ghost use Rattle.hub_machine.specs.Machine.{sent_event, told_value, foreign_told, naming};
ghost use Rattle.hub_machine.specs.Machine.{all_named};
ghost use Rattle.hub_machine.specs.Machine.{numbers_told, exporting_in};
ghost use Rattle.hub_machine.specs.Lemmas.Naming.{foreign_among};
ghost use Rattle.hub_packets.specs.Refusals.{IsWhyRefused};
ghost use Rattle.hub_packets.specs.Telling.{export_cause};

use crate::refusals::Refusal;
use ac_table::{BatchEvents, Event as Told};
use pv_value::Value;
use rl_packet::{Event, TurnEvent};
use rl_ports::{Oids, Ports};
use rl_wire::wire_out;
use std::alloc::Global;

/// A value as the connection is told of it, and the numbers of the exports in it. Objects of others
/// come to its exports.
fn value_to_send(
    alloc: Global,
    connection: u32,
    ports: &mut Ports,
    value: &Value,
) -> Result<(Value, Oids), Refusal>
    requires { connection ≤ 2 ^ 31 }
    ensures sent { IfOk result (λ told. told.0
        ≡ crossed_out (exports_with ports.old.exports connection value.now) connection value.now) }
    ensures numbers { IfOk result (λ told. told.1 ≡ numbers_told connection value.now ports.old) }
    ensures given { IfOk result (λ told. AreGiven ports.new.exports.next told.1) }
    ensures exports { OnOk result (ports.new ≡ exporting_in connection value.now ports.old) }
    ensures free { OnOk result
        (fault_out ports.old.exports (foreign_in connection value.now) ≡ None) }
    ensures cause { IfErr result
        (IsWhyRefused (export_cause (foreign_in connection value.now) ports.old)) }
{
    Ok(wire_out(alloc, ports, connection, value)?)
}

/// An event as the connection is told of it. Objects of others come to its exports; what a row
/// mentions is noted, and what is said is pinned.
fn to_send(
    alloc: Global,
    connection: u32,
    ports: &mut Ports,
    told: Told,
) -> Result<TurnEvent, Refusal>
    requires { connection ≤ 2 ^ 31 }
    ensures sent { IfOk result (λ e. e ≡ sent_event ports.new.exports connection told) }
    ensures names { OnOk result (ports.new ≡ naming connection told ports.old) }
    ensures free { OnOk result
        (fault_out ports.old.exports (foreign_told connection (told_value told)) ≡ None) }
    ensures cause { IfErr result
        (IsWhyRefused (export_cause (foreign_told connection (told_value told)) ports.old)) }
{
    match told {
        Told::Assert(handle, oid, value) => {
            let (value, oids) = value_to_send(alloc, connection, ports, &value)?;
            ports.hold(handle, oids)?;
            let event = Event::Assert(value, handle);
            Ok(TurnEvent { oid, event })
        }
        Told::Retract(handle, oid) => {
            ports.let_go(handle);
            let event = Event::Retract(handle);
            Ok(TurnEvent { oid, event })
        }
        Told::Message(oid, value) => {
            let (value, oids) = value_to_send(alloc, connection, ports, &value)?;
            ports.pin(&oids);
            let event = Event::Message(value);
            Ok(TurnEvent { oid, event })
        }
        Told::Sync(oid, peer) => {
            let peer = Value::embedded(alloc, peer)?;
            let (peer, oids) = value_to_send(alloc, connection, ports, &peer)?;
            ports.pin(&oids);
            let event = Event::Sync(peer);
            Ok(TurnEvent { oid, event })
        }
    }
}

/// The events as a connection is told of them. Objects of others come to its exports; those that
/// are neither pinned nor mentioned by a held row go once all is told.
pub fn all_to_send(
    alloc: Global,
    connection: u32,
    ports: &mut Ports,
    events: BatchEvents,
) -> Result<Vec<TurnEvent>, Refusal>
    requires { connection ≤ 2 ^ 31 }
    ensures sent { IfOk result (λ sent. sent.items ≡ map (sent_event
        (all_exported ports.old.exports (foreign_among connection events)) connection) events) }
    ensures names { OnOk result (ports.new ≡ swept (all_named connection events ports.old)) }
    ensures numbered { OnOk result
        (AreNumbered (all_exported ports.old.exports (foreign_among connection events))) }
    ensures free { OnOk result
        (fault_out ports.old.exports (foreign_among connection events) ≡ None) }
    ensures cause { IfErr result
        (IsWhyRefused (export_cause (foreign_among connection events) ports.old)) }
{
    let mut sent = Vec::new(alloc);
    for told in events.into_vec() {
        sent.push(to_send(alloc, connection, ports, told)?)?;
    }
    let _ = ports.next_oid();
    ports.sweep();
    Ok(sent)
}
