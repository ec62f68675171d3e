//! Reports of runs.
ghost use Rattle.std.specs.Prelude.{◌≡◌, map, IfOk};
ghost use Rattle.sc_report.specs.Reports.{holding_value as holding_told, status_word};
ghost use Rattle.sc_report.specs.Reports.{connection_value as connection_told};
ghost use Rattle.sc_report.specs.Reports.{connection_values, report_of};

use crate::ran::{Connection, Ran};
use pv_value::{Items, NoMemory, Text, Value};
use pv_words::{labelled, number};
use rl_packet::Holding;
use std::alloc::Global;

/// `<holds oid handle value>`
fn holding_value(alloc: Global, holding: &Holding) -> Result<Value, NoMemory>
    ensures { IfOk result (λ v. v ≡ holding_told holding.now) }
{
    let mut fields = Vec::new(alloc);
    fields.push(number(holding.oid))?;
    fields.push(number(holding.handle))?;
    fields.push(holding.value.copy()?)?;
    labelled(alloc, "holds", fields)
}

/// `[<holds oid handle value> ..]`
pub fn holdings(alloc: Global, held: &[Holding]) -> Result<Items, NoMemory>
    ensures { IfOk result (λ items. items ≡ map holding_told held.now) }
{
    let mut values = Vec::new(alloc);
    for holding in held {
        values.push(holding_value(alloc, holding)?)?;
    }
    Items::from_vec(alloc, values)
}

fn status(alloc: Global, is_live: bool) -> Result<Text, NoMemory>
    ensures { IfOk result (λ word. word ≡ status_word is_live) }
{
    Text::from_str(alloc, if is_live { "live" } else { "ended" })
}

/// `<conn k live|ended [<holds ..> ..] out>`
fn connection_value(alloc: Global, place: u64, connection: &Connection) -> Result<Value, NoMemory>
    ensures { IfOk result (λ v. v ≡ connection_told place connection.now) }
{
    let mut fields = Vec::new(alloc);
    fields.push(number(place))?;
    fields.push(Value::symbol(status(alloc, connection.live)?))?;
    fields.push(Value::sequence(holdings(alloc, &connection.held)?))?;
    fields.push(Value::byte_string(connection.out.copy()?))?;
    labelled(alloc, "conn", fields)
}

/// The connections, from number 1 on.
fn connections(alloc: Global, connections: &[Connection]) -> Result<Items, NoMemory>
    ensures { IfOk result (λ items. items ≡ connection_values 1 connections.now) }
{
    let mut values = Vec::new(alloc);
    for connection in connections {
        let place = values.len() as u64 + 1;
        values.push(connection_value(alloc, place, connection)?)?;
    }
    Items::from_vec(alloc, values)
}

/// The report of what a run left: `<report pending [<conn ..> ..]>`.
pub fn report(alloc: Global, ran: &Ran) -> Result<Value, NoMemory>
    ensures { IfOk result (λ v. v ≡ report_of ran.now) }
{
    let mut fields = Vec::new(alloc);
    fields.push(number(ran.pending))?;
    fields.push(Value::sequence(connections(alloc, &ran.connections)?))?;
    labelled(alloc, "report", fields)
}
