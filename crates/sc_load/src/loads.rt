//! The script of a load.
ghost use Rattle.std.specs.Prelude.{◌≡◌, ◌≤◌, ◌<◌, ◌*◌, ◌/◌, ◌+◌, ◌-◌, ◌++◌, ℕ, List, min};
ghost use Rattle.std.specs.Prelude.{IfOk, OnOk};
ghost use Rattle.std.specs.List.{flat_map};
ghost use Rattle.pv_value.specs.Plain.{Plain};
ghost use Rattle.pv_binary.specs.Written.{written};
ghost use Rattle.sc_load.specs.Limits.{most_items};
ghost use Rattle.sc_load.specs.Loads.{observes, loads, opens, bytes_event, sent_by};
ghost use Rattle.sc_load.specs.Loads.{all_turns, load_bytes};

use crate::draws::Draws;
use crate::items::{loads, observations, of_one, of_two};
use pv_binary::{write, write_into};
use pv_value::{Blob, NoMemory, Value};
use pv_words::number;
use rl_packet::{Dialect, Packet, Turn, TurnEvents, packet_value};
use std::alloc::Global;

/// The most items of a turn.
const TURN_ITEMS: u64 = 500;

/// The items of a connection, but the last one.
const CONNECTION_ITEMS: u64 = 2_000;

/// The most turns that are drained behind a turn's events.
const DRAIN_TURNS: u64 = 10_000;

/// So many connections come.
fn open_all(alloc: Global, count: u64) -> Result<Vec<u8>, NoMemory>
    ensures { IfOk result (λ script. script.items ≡ flat_map written (opens count)) }
{
    let open = of_one(alloc, "open", number(1))?;
    let mut script = Vec::new(alloc);
    for _ in 0..count {
        write_into(&mut script, &open)?;
    }
    Ok(script)
}

/// `<bytes j b>` for the turn of these events.
fn bytes_event(alloc: Global, connection: u64, events: TurnEvents) -> Result<Value, NoMemory>
    ensures { IfOk result (λ v. v ≡ bytes_event connection events) }
{
    let turn = Turn::of(Dialect::Newer, events);
    let packet = packet_value(alloc, &Packet::Turn(turn))?;
    let bytes = Value::byte_string(write(alloc, &packet)?);
    of_two(alloc, "bytes", number(connection), bytes)
}

/// A connection sends the turn of these events, and its work is done.
fn send(
    alloc: Global,
    script: &mut Vec<u8>,
    connection: u64,
    events: TurnEvents,
) -> Result<(), NoMemory>
    ensures { OnOk result (script.new.items
        ≡ script.old.items ++ flat_map written (sent_by connection events)) }
{
    write_into(script, &bytes_event(alloc, connection, events)?)?;
    write_into(script, &of_one(alloc, "drain", number(DRAIN_TURNS))?)
}

/// Of `n` items all are observed.
fn observe_all(alloc: Global, script: &mut Vec<u8>, n: u64) -> Result<(), NoMemory>
    requires { n ≤ most_items }
    ensures { OnOk result (script.new.items
        ≡ script.old.items ++ flat_map written (all_turns observes n)) }
{
    for turn in 0..n.div_ceil(TURN_ITEMS) {
        let first = TURN_ITEMS * turn;
        let events = observations(alloc, first, TURN_ITEMS.min(n - first))?;
        send(alloc, script, first / CONNECTION_ITEMS + 1, events)?;
    }
    Ok(())
}

/// Of `n` items each asserts what it drew.
fn load_all(alloc: Global, script: &mut Vec<u8>, start: u64, n: u64) -> Result<(), NoMemory>
    requires { n ≤ most_items }
    ensures { OnOk result (script.new.items
        ≡ script.old.items ++ flat_map written (all_turns (loads start) n)) }
{
    let mut draws = Draws { number: start };
    for turn in 0..n.div_ceil(TURN_ITEMS) {
        let first = TURN_ITEMS * turn;
        let events = loads(alloc, &mut draws, first, TURN_ITEMS.min(n - first))?;
        send(alloc, script, first / CONNECTION_ITEMS + 1, events)?;
    }
    Ok(())
}

/// The script of a load of `n` items whose draws begin at `start`, in the binary form. One turn of
/// it is held as values at a time.
pub fn load_script(alloc: Global, start: u64, n: u32) -> Result<Blob, NoMemory>
    requires some { 1 ≤ n }
    requires few { n ≤ most_items }
    ensures { IfOk result (λ bytes. bytes ≡ load_bytes start n) }
{
    let n = u64::from(n);
    let mut script = open_all(alloc, n.div_ceil(CONNECTION_ITEMS))?;
    observe_all(alloc, &mut script, n)?;
    load_all(alloc, &mut script, start, n)?;
    Blob::from_vec(script)
}
