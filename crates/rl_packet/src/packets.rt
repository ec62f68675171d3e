//! Packets that connections send and get.
ghost use Rattle.std.specs.Prelude.{◌≡◌, ◌==◌, ◌<◌, [], length, unwrap_or, IfOk};
ghost use Rattle.rl_packet.specs.Packets.{assert_word, retract_word, message_word, sync_word};
ghost use Rattle.rl_packet.specs.Packets.{event_value, aimed_value, turn_value, packet_value};
ghost use Rattle.rl_packet.specs.Packets.{spoken, other};
ghost use Rattle.std.specs.List.{AllByRecursion};
ghost use Rattle.rl_packet.specs.Wired.{IsTurnEvent};

use pv_value::{Items, NoMemory, Value};
use pv_words::{labelled, number};
use std::alloc::Global;
use std::marker::Model;

/// By which labels events are written. All events of one turn are of one dialect.
#[derive(Clone, Copy, PartialEq, Eq)]
pub enum Dialect {
    /// `<A assertion handle>`, `<R handle>`, `<M body>`, `<S #:peer>`.
    Newer,
    /// `<assert assertion handle>`, `<retract handle>`, `<message body>`, `<sync #:peer>`.
    Older,
}

impl Dialect {
    /// The dialect that this isn't.
    pub(crate) fn other(self) -> Dialect
        ensures { result ≡ other self }
    {
        match self {
            Dialect::Newer => Dialect::Older,
            Dialect::Older => Dialect::Newer,
        }
    }

    pub(crate) fn assert_word(self) -> &'static str
        ensures word { result.now ≡ assert_word self }
        ensures short { length result.now < 128 }
    {
        match self {
            Dialect::Newer => "A",
            Dialect::Older => "assert",
        }
    }

    pub(crate) fn retract_word(self) -> &'static str
        ensures word { result.now ≡ retract_word self }
        ensures short { length result.now < 128 }
    {
        match self {
            Dialect::Newer => "R",
            Dialect::Older => "retract",
        }
    }

    pub(crate) fn message_word(self) -> &'static str
        ensures word { result.now ≡ message_word self }
        ensures short { length result.now < 128 }
    {
        match self {
            Dialect::Newer => "M",
            Dialect::Older => "message",
        }
    }

    pub(crate) fn sync_word(self) -> &'static str
        ensures word { result.now ≡ sync_word self }
        ensures short { length result.now < 128 }
    {
        match self {
            Dialect::Newer => "S",
            Dialect::Older => "sync",
        }
    }
}

/// What happens at an object.
#[derive(Drop)]
pub enum Event {
    /// A value is asserted under a handle.
    Assert(Value, u64),
    /// The assertion under a handle is taken back.
    Retract(u64),
    /// A value is said.
    Message(Value),
    /// A peer, an embedded value, asks for an answer.
    Sync(Value),
}

/// An event, and the object at which it is aimed: on the wire an oid, inside the server an entity.
#[derive(Drop)]
pub struct TurnEvent {
    pub oid: u64,
    pub event: Event,
}

/// A list of events that happen together, each of which may stand in a packet: its oid and its
/// handle are below 2^63, and each embedded value in it that isn't inside another is a wire
/// reference.
#[derive(Drop)]
pub struct TurnEvents {
    events: Vec<TurnEvent>,
}

impl Model for TurnEvents {
    ghost use Rattle.std.specs.Prelude.{List};
    ghost use Rattle.rl_packet.specs.declared.packets.TurnEvent.{TurnEvent};
    ghost use Rattle.std.specs.Coded.{codes};
    ghost use Rattle.pv_value.specs.Lemmas.Coded.{plain_code};

    ghost Value = { List TurnEvent };

    ghost coded = { Prim.hlevel (codes, plain_code) };

    ghost view = { λ t. t.events.items };

    ghost use Rattle.std.specs.List.{AllByRecursion};
    ghost use Rattle.rl_packet.specs.Wired.{IsTurnEvent};

    ghost invariant = { λ t. AllByRecursion IsTurnEvent t.events.items };
}

/// Events that happen together, and the dialect in which they are written. In what is a packet
/// there is no dialect exactly where there are no events.
#[derive(Drop)]
pub struct Turn {
    pub dialect: Option<Dialect>,
    pub events: TurnEvents,
}

/// What stands alone on the wire.
#[derive(Drop)]
pub enum Packet {
    /// Events that happen together.
    Turn(Turn),
    /// The last that a peer hears: `<error message detail>`, the message a string.
    Error(Value, Value),
    /// `#f`, which says nothing.
    Nop,
    /// Any other record, which is ignored.
    Extension(Value),
}

impl TurnEvents {
    /// No events.
    pub fn new(alloc: Global) -> TurnEvents
        ensures { result ≡ [] }
    {
        TurnEvents {
            events: Vec::new(alloc),
        }
    }

    pub fn from_vec(events: Vec<TurnEvent>) -> TurnEvents
        requires { AllByRecursion IsTurnEvent events.items }
        ensures { result ≡ events.items }
    {
        TurnEvents { events }
    }

    pub fn into_vec(self) -> Vec<TurnEvent>
        ensures events { result.items ≡ self }
        ensures sound { AllByRecursion IsTurnEvent self }
    {
        let TurnEvents { events } = self;
        events
    }

    pub fn as_slice(&self) -> &[TurnEvent]
        ensures events { result.now ≡ self.now }
        ensures sound { AllByRecursion IsTurnEvent self.now }
    {
        &self.events
    }

    /// How many events there are.
    pub fn len(&self) -> usize
        ensures { result ≡ length self.now }
    {
        self.events.len()
    }

    pub fn is_empty(&self) -> bool
        ensures { result ≡ (length self.now == 0) }
    {
        self.events.is_empty()
    }
}

impl Turn {
    /// The turn of these events in the dialect.
    pub fn of(dialect: Dialect, events: TurnEvents) -> Turn
        ensures { result ≡ spoken dialect events }
    {
        let dialect = if events.is_empty() {
            None
        } else {
            Some(dialect)
        };
        Turn { dialect, events }
    }

    /// The turn of no events.
    pub fn empty(alloc: Global) -> Turn
        ensures { result ≡ record { dialect = None; events = [] } }
    {
        Turn {
            dialect: None,
            events: TurnEvents::new(alloc),
        }
    }

    /// The dialect in which the events are written.
    pub(crate) fn written_dialect(&self) -> Dialect
        ensures { result ≡ unwrap_or self.now.dialect Dialect.Newer }
    {
        self.dialect.unwrap_or(Dialect::Newer)
    }
}

/// The packet as a value.
pub fn packet_value(alloc: Global, packet: &Packet) -> Result<Value, NoMemory>
    ensures { IfOk result (λ v. v ≡ packet_value packet.now) }
{
    match packet {
        Packet::Turn(turn) => turn_value(alloc, turn),
        Packet::Error(message, detail) => {
            let mut fields = Vec::new(alloc);
            fields.push(message.copy()?)?;
            fields.push(detail.copy()?)?;
            labelled(alloc, "error", fields)
        }
        Packet::Nop => Ok(Value::boolean(false)),
        Packet::Extension(value) => value.copy(),
    }
}

/// The turn as a value: a sequence of events `[oid event]`.
fn turn_value(alloc: Global, turn: &Turn) -> Result<Value, NoMemory>
    ensures { IfOk result (λ v. v ≡ turn_value turn.now) }
{
    let dialect = turn.written_dialect();
    let mut items = Vec::new(alloc);
    for event in turn.events.as_slice() {
        items.push(aimed_value(alloc, dialect, event)?)?;
    }
    Ok(Value::sequence(Items::from_vec(alloc, items)?))
}

fn aimed_value(alloc: Global, dialect: Dialect, event: &TurnEvent) -> Result<Value, NoMemory>
    ensures { IfOk result (λ v. v ≡ aimed_value dialect event.now) }
{
    let mut items = Vec::new(alloc);
    items.push(number(event.oid))?;
    items.push(event_value(alloc, dialect, &event.event)?)?;
    Ok(Value::sequence(Items::from_vec(alloc, items)?))
}

fn event_value(alloc: Global, dialect: Dialect, event: &Event) -> Result<Value, NoMemory>
    ensures { IfOk result (λ v. v ≡ event_value dialect event.now) }
{
    let mut fields = Vec::new(alloc);
    match event {
        Event::Assert(value, handle) => {
            fields.push(value.copy()?)?;
            fields.push(number(*handle))?;
            labelled(alloc, dialect.assert_word(), fields)
        }
        Event::Retract(handle) => {
            fields.push(number(*handle))?;
            labelled(alloc, dialect.retract_word(), fields)
        }
        Event::Message(value) => {
            fields.push(value.copy()?)?;
            labelled(alloc, dialect.message_word(), fields)
        }
        Event::Sync(peer) => {
            fields.push(peer.copy()?)?;
            labelled(alloc, dialect.sync_word(), fields)
        }
    }
}
