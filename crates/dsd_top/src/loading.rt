//! Runs of generated scripts, and what is told of them.
ghost use Rattle.std.specs.Prelude.{◌≡◌, ◌+◌, length, IfOk, IfErr};
ghost use Rattle.sc_events.specs.declared.inputs.Form.TheVariants as input;
ghost use Rattle.sc_load.specs.Loads.{load_bytes};
ghost use Rattle.sc_script.specs.Scripts.{StopsAt};
ghost use Rattle.dsd_top.specs.Loading.{told, captured, captured_by, all_held, load_value};
ghost use Rattle.dsd_top.specs.Loading.{IsLoadLine, StopsALoad};

use crate::conformance::Conformance;
use crate::forms::{Form, value_in};
use crate::words::Loading;
use ds_skeleton::Skeleton;
use hub_laws::settled_holdings_are_from_scratch;
use lc_watch::Table;
use load_laws::loads_never_stop;
use pv_value::{NoMemory, Node, Value};
use pv_words::{labelled, number, number_in};
use rl_packet::Holding;
use sc_load::load_script;
use sc_report::{Connection, Ran};
use sc_script::{Form as Input, ScriptFault, next_is_decided, run_script};
use std::alloc::Global;

/// The number that a value captures.
fn captured(value: &Value) -> u64
    ensures { result ≡ captured value.now }
{
    let Node::Seq(items) = &value.node else {
        return 0;
    };
    match items.as_slice() {
        [item] => number_in(item).unwrap_or(0),
        _ => 0,
    }
}

/// The sum of what holdings capture.
fn captured_by(held: &[Holding]) -> u64
    ensures { result ≡ told (captured_by held.now) }
{
    let mut sum: u64 = 0;
    for holding in held {
        sum = sum.saturating_add(captured(&holding.value));
    }
    sum
}

/// How many holdings all connections have.
fn held_count(connections: &[Connection]) -> u64
    ensures { result ≡ told (length (all_held connections.now)) }
{
    let mut count: u64 = 0;
    for connection in connections {
        count = count.saturating_add(connection.held.len() as u64);
    }
    count
}

/// The sum of what they capture.
fn captured_sum(connections: &[Connection]) -> u64
    ensures { result ≡ told (captured_by (all_held connections.now)) }
{
    let mut sum: u64 = 0;
    for connection in connections {
        sum = sum.saturating_add(captured_by(&connection.held));
    }
    sum
}

/// `<load start count held sum>`
fn load_value(alloc: Global, loading: &Loading, ran: &Ran) -> Result<Value, NoMemory>
    ensures { IfOk result (λ v. v ≡ load_value loading.now ran.now) }
{
    let mut fields = Vec::new(alloc);
    fields.push(number(loading.start()))?;
    fields.push(number(u64::from(loading.count())))?;
    fields.push(number(held_count(&ran.connections)))?;
    fields.push(number(captured_sum(&ran.connections)))?;
    labelled(alloc, "load", fields)
}

/// The line of the run of a load, or want of memory: no load stops for another cause.
pub fn load_line(alloc: Global, loading: &Loading) -> Result<Vec<u8>, ScriptFault>
    ensures line { IfOk result (λ line. IsLoadLine loading.now line.items) }
    ensures stop { IfErr result
        (StopsAt input.Binary (load_bytes loading.now.start loading.now.count)) }
    ensures memory { IfErr result StopsALoad }
{
    settled_holdings_are_from_scratch();
    next_is_decided();
    loads_never_stop();
    let script = load_script(alloc, loading.start(), loading.count())?;
    let bytes = script.as_slice();
    let ran = run_script::<Skeleton, Conformance, Table>(
        alloc,
        bytes,
        Input::Binary,
        Conformance,
        Table,
    )?;
    let value = load_value(alloc, loading, &ran)?;
    Ok(value_in(alloc, &value, Form::Printed)?)
}
