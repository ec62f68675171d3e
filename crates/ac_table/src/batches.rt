//! Rows, events and batches.
ghost use Rattle.std.specs.Prelude.{◌≡◌, ◌<◌, length};

use pv_value::Value;
use std::marker::Model;

/// An assertion: who makes it, in which facet, at which object of which actor, and what.
#[derive(Drop)]
pub struct Row {
    pub handle: u64,
    pub owner: u32,
    pub facet: u32,
    pub target: u32,
    pub entity: u64,
    pub value: Value,
}

/// What one turn tells an actor's object (Syndicate protocol, section "Events").
#[derive(Drop)]
pub enum Event {
    /// A row's handle, the object, and the row's value.
    Assert(u64, u64, Value),
    /// A row's handle, and the object.
    Retract(u64, u64),
    /// The object, and what is said.
    Message(u64, Value),
    /// The object, and the peer that is to be answered, as the value of its reference.
    Sync(u64, Value),
}

/// Events in their order, of which there is one at least.
#[derive(Drop)]
pub struct BatchEvents {
    items: Vec<Event>,
}

impl Model for BatchEvents {
    ghost use Rattle.std.specs.Prelude.{List, ◌<◌, length};
    ghost use Rattle.std.specs.Coded.{codes};
    ghost use Rattle.pv_value.specs.Lemmas.Coded.{plain_code};
    ghost use Rattle.ac_table.specs.declared.batches.Event.{Event};

    ghost Value = { List Event };

    ghost coded = { Prim.hlevel (codes, plain_code) };

    ghost view = { λ e. e.items.items };

    ghost invariant = { λ e. 0 < length e.items.items };
}

impl BatchEvents {
    /// The events of a list that isn't empty.
    pub fn from_vec(events: Vec<Event>) -> BatchEvents
        requires { 0 < length events.items }
        ensures { result ≡ events.items }
    {
        BatchEvents { items: events }
    }

    pub fn as_slice(&self) -> &[Event]
        ensures events { result.now ≡ self.now }
        ensures some { 0 < length self.now }
    {
        self.items.as_slice()
    }

    pub fn into_vec(self) -> Vec<Event>
        ensures events { result.items ≡ self }
        ensures some { 0 < length self }
    {
        self.items
    }
}

/// What one turn of the actor `from` made for one actor.
#[derive(Drop)]
pub struct Batch {
    pub from: u32,
    pub events: BatchEvents,
}
