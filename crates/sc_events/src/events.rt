//! The events of scripts, and the values that write them.
ghost use Rattle.std.specs.Prelude.{◌≡◌, codes, IfOk, IfSome, option_map, ◌<◌, ◌^◌};
ghost use Rattle.pv_value.specs.Plain.{plains};
ghost use Rattle.sc_events.specs.Events.{number_below, name_in, arrival_in, space_in, open_event};
ghost use Rattle.sc_events.specs.Events.{close_event, turn_event, drain_event, schema_event};
ghost use Rattle.sc_events.specs.Events.{event_of_one, bytes_event, event_of_two};
ghost use Rattle.sc_events.specs.Events.{reference_to, bound_to, binding_event};
ghost use Rattle.sc_events.specs.Events.{watch_event, event_of_four};
ghost use Rattle.sc_events.specs.Events.{event_of_record, event_of};

use ac_world::Watched;
use gk_sturdy::Binding;
use hub_machine::DATASPACES;
use pv_value::{Blob, NoMemory, Node, Text, Value};
use pv_words::worded;
use sr_caveat::{Cap, Caveats, has_embedded, parse_caveat};
use std::alloc::Global;

/// The most turns of one drain.
const DRAIN_TURNS: i128 = 1_000_000;

/// An event of a script.
#[derive(Drop)]
pub enum ScriptEvent {
    /// An oid is bound.
    Bind(Binding),
    /// A watcher begins.
    Watch(Watched),
    /// A connection comes, to the gatekeeper, for 0, or to this dataspace.
    Open(u8),
    /// Bytes of a connection come.
    Bytes(u32, Blob),
    /// A connection goes.
    Close(u32),
    /// An actor takes its turn.
    Turn(u32),
    /// Up to so many turns of the lowest actor that has work.
    Drain(u64),
    /// More turns than a drain may have.
    LongDrain,
    /// The text of the schema by which guards judge; it may stand first alone.
    Schema(Text),
}

/// The number of a connection or of an actor.
fn name_in(value: &Value) -> Option<u32>
    ensures { result ≡ name_in value.now }
{
    match &value.node {
        Node::Int(n) if *n >= 0 && *n < 1 << 32 => Some(*n as u32),
        _ => None,
    }
}

/// The number of the gatekeeper or of a dataspace.
fn arrival_in(value: &Value) -> Option<u8>
    ensures { result ≡ arrival_in value.now }
{
    match &value.node {
        Node::Int(n) if *n >= 0 && *n <= i128::from(DATASPACES) => Some(*n as u8),
        _ => None,
    }
}

/// The number of a dataspace.
fn space_in(value: &Value) -> Option<u8>
    ensures { result ≡ space_in value.now }
{
    match &value.node {
        Node::Int(n) if *n >= 1 && *n <= i128::from(DATASPACES) => Some(*n as u8),
        _ => None,
    }
}

fn open_event(value: &Value) -> Option<ScriptEvent>
    ensures { result ≡ open_event value.now }
{
    Some(ScriptEvent::Open(arrival_in(value)?))
}

fn close_event(value: &Value) -> Option<ScriptEvent>
    ensures { result ≡ close_event value.now }
{
    Some(ScriptEvent::Close(name_in(value)?))
}

fn turn_event(value: &Value) -> Option<ScriptEvent>
    ensures { result ≡ turn_event value.now }
{
    Some(ScriptEvent::Turn(name_in(value)?))
}

fn drain_event(value: &Value) -> Option<ScriptEvent>
    ensures { result ≡ drain_event value.now }
{
    match &value.node {
        Node::Int(n) if *n < 0 => None,
        Node::Int(n) if *n <= DRAIN_TURNS => Some(ScriptEvent::Drain(*n as u64)),
        Node::Int(_) => Some(ScriptEvent::LongDrain),
        _ => None,
    }
}

fn schema_event(value: &Value) -> Result<Option<ScriptEvent>, NoMemory>
    ensures { IfOk result (λ e. e ≡ schema_event value.now) }
{
    match &value.node {
        Node::Str(text) => Ok(Some(ScriptEvent::Schema(text.copy()?))),
        _ => Ok(None),
    }
}

/// The event of this word with one field.
fn event_of_one(word: &Text, field: &Value) -> Result<Option<ScriptEvent>, NoMemory>
    ensures { IfOk result (λ e. e ≡ event_of_one word.now field.now) }
{
    match word.as_str() {
        "open" => Ok(open_event(field)),
        "close" => Ok(close_event(field)),
        "step" => Ok(turn_event(field)),
        "drain" => Ok(drain_event(field)),
        "schema" => schema_event(field),
        _ => Ok(None),
    }
}

fn bytes_event(name: &Value, bytes: &Value) -> Result<Option<ScriptEvent>, NoMemory>
    ensures { IfOk result (λ e. e ≡ bytes_event name.now bytes.now) }
{
    let Node::Bytes(bytes) = &bytes.node else {
        return Ok(None);
    };
    match name_in(name) {
        Some(connection) => Ok(Some(ScriptEvent::Bytes(connection, bytes.copy()?))),
        None => Ok(None),
    }
}

/// The event of this word with two fields.
fn event_of_two(word: &Text, first: &Value, second: &Value) -> Result<Option<ScriptEvent>, NoMemory>
    ensures { IfOk result (λ e. e ≡ event_of_two word.now first.now second.now) }
{
    match word.as_str() {
        "bytes" => bytes_event(first, second),
        _ => Ok(None),
    }
}

/// The reference to an actor itself, with these caveats, each read as one of the server's own.
pub fn reference_to(alloc: Global, actor: u32, caveats: &[Value]) -> Result<Cap, NoMemory>
    ensures { IfOk result (λ c. c ≡ reference_to actor (plains caveats.now)) }
{
    let mut own = Vec::new(alloc);
    for caveat in caveats {
        own.push(parse_caveat(alloc, caveat, true)?)?;
    }
    Ok(Cap {
        actor,
        entity: 0,
        caveats: Caveats::from_vec(alloc, own)?,
    })
}

/// `<bind oid key space caveats>` with these parts.
fn bound_to(
    alloc: Global,
    oid: &Value,
    key: &Blob,
    caveats: &[Value],
    space: u8,
) -> Result<ScriptEvent, NoMemory>
    ensures { IfOk result (λ e. e ≡ bound_to oid.now key.now (plains caveats.now) space) }
{
    Ok(ScriptEvent::Bind(Binding {
        oid: oid.copy()?,
        key: key.copy()?,
        cap: reference_to(alloc, u32::from(space), caveats)?,
    }))
}

fn binding_event(
    alloc: Global,
    oid: &Value,
    key: &Value,
    space: &Value,
    caveats: &Value,
) -> Result<Option<ScriptEvent>, NoMemory>
    ensures { IfOk result (λ e. e ≡ binding_event oid.now key.now space.now caveats.now) }
{
    let (Node::Bytes(key), Node::Seq(items)) = (&key.node, &caveats.node) else {
        return Ok(None);
    };
    if has_embedded(oid) || has_embedded(caveats) {
        return Ok(None);
    }
    match space_in(space) {
        Some(space) => Ok(Some(bound_to(alloc, oid, key, items.as_slice(), space)?)),
        None => Ok(None),
    }
}

fn watch_event(
    from: &Value,
    pattern: &Value,
    to: &Value,
    name: &Value,
) -> Result<Option<ScriptEvent>, NoMemory>
    ensures { IfOk result (λ e. e ≡ watch_event from.now pattern.now to.now name.now) }
{
    let Node::Sym(name) = &name.node else {
        return Ok(None);
    };
    if has_embedded(pattern) {
        return Ok(None);
    }
    match (space_in(from), space_in(to)) {
        (Some(from), Some(to)) => Ok(Some(ScriptEvent::Watch(Watched {
            from,
            pattern: pattern.copy()?,
            to,
            name: name.copy()?,
        }))),
        _ => Ok(None),
    }
}

/// The event of this word with four fields.
fn event_of_four(
    alloc: Global,
    word: &Text,
    first: &Value,
    second: &Value,
    third: &Value,
    fourth: &Value,
) -> Result<Option<ScriptEvent>, NoMemory>
    ensures { IfOk result (λ e. e
        ≡ event_of_four word.now first.now second.now third.now fourth.now) }
{
    match word.as_str() {
        "bind" => binding_event(alloc, first, second, third, fourth),
        "watch" => watch_event(first, second, third, fourth),
        _ => Ok(None),
    }
}

/// The event of this word with these fields.
fn event_of_record(
    alloc: Global,
    word: &Text,
    fields: &[Value],
) -> Result<Option<ScriptEvent>, NoMemory>
    ensures { IfOk result (λ e. e ≡ event_of_record word.now (plains fields.now)) }
{
    match fields {
        [field] => event_of_one(word, field),
        [first, second] => event_of_two(word, first, second),
        [first, second, third, fourth] => {
            event_of_four(alloc, word, first, second, third, fourth)
        }
        _ => Ok(None),
    }
}

/// The event that the value writes, where it writes one.
pub fn event_of(alloc: Global, value: &Value) -> Result<Option<ScriptEvent>, NoMemory>
    ensures { IfOk result (λ e. e ≡ event_of value.now) }
{
    match worded(value) {
        Some((word, fields)) => event_of_record(alloc, word, fields),
        None => Ok(None),
    }
}
