//! What the client says to a server.
ghost use Rattle.std.specs.Prelude.{◌≡◌, ◌<◌, ◌^◌, ◌++◌, ◌∷◌, [], false, true, IfOk, OnOk};
ghost use Rattle.std.specs.List.{AllByRecursion};
ghost use Rattle.rl_packet.specs.Wired.{IsTurnEvent, is_wired};
ghost use Rattle.dq_core.specs.Asking.{own_reference, asked_with, resolving, opening};
ghost use Rattle.dq_core.specs.Asking.{observation, sync_answer, ask_of};

use pv_value::{Items, NoMemory, Value};
use pv_words::{labelled, number};
use rl_packet::{Dialect, Event, Turn, TurnEvent, TurnEvents};
use std::alloc::Global;
use std::marker::Model;

/// The client's own object to which the answer for the reference goes.
pub(crate) const ANSWERS: u64 = 1;

/// The client's own object to which what is observed goes.
pub(crate) const OBSERVED: u64 = 2;

/// What the client asks in answer to one packet: events that each may stand in a packet.
#[derive(Drop)]
pub(crate) struct Asks {
    events: Vec<TurnEvent>,
}

impl Model for Asks {
    ghost use Rattle.std.specs.Prelude.{List};
    ghost use Rattle.rl_packet.specs.declared.packets.TurnEvent.{TurnEvent};
    ghost use Rattle.std.specs.Coded.{codes};
    ghost use Rattle.pv_value.specs.Lemmas.Coded.{plain_code};

    ghost Value = { List TurnEvent };

    ghost coded = { Prim.hlevel (codes, plain_code) };

    ghost view = { λ t. t.events.items };

    ghost use Rattle.std.specs.List.{AllByRecursion};
    ghost use Rattle.rl_packet.specs.Wired.{IsTurnEvent};

    ghost invariant = { λ t. AllByRecursion IsTurnEvent t.events.items };
}

impl Asks {
    /// Nothing is asked.
    pub(crate) fn new(alloc: Global) -> Asks
        ensures { result ≡ [] }
    {
        Asks {
            events: Vec::new(alloc),
        }
    }

    /// One event more is asked, behind the others.
    pub(crate) fn push(&mut self, event: TurnEvent) -> Result<(), NoMemory>
        requires { IsTurnEvent event }
        ensures { OnOk result (self.new ≡ self.old ++ event ∷ []) }
    {
        self.events.push(event)?;
        Ok(())
    }

    /// The turn in which they are asked, where there are any.
    pub(crate) fn into_turn(self) -> Option<Turn>
        ensures { result ≡ ask_of self }
    {
        let Asks { events } = self;
        if events.is_empty() {
            return None;
        }
        Some(Turn::of(Dialect::Newer, TurnEvents::from_vec(events)))
    }
}

/// `#:[0 n]`, the client's own object n.
fn own_reference(alloc: Global, n: u64) -> Result<Value, NoMemory>
    ensures { IfOk result (λ v. v ≡ own_reference n) }
{
    let mut pair = Vec::with_capacity(alloc, 2)?;
    pair.push(number(0))?;
    pair.push(number(n))?;
    Value::embedded(alloc, Value::sequence(Items::from_vec(alloc, pair)?))
}

/// `<word value #:[0 n]>`.
fn asked_with(alloc: Global, word: &str, value: Value, n: u64) -> Result<Value, NoMemory>
    ensures { IfOk result (λ v. v ≡ asked_with word.now value n) }
{
    let mut fields = Vec::with_capacity(alloc, 2)?;
    fields.push(value)?;
    fields.push(own_reference(alloc, n)?)?;
    labelled(alloc, word, fields)
}

/// The turn in which the client asks for what a reference names.
pub(crate) fn opening(alloc: Global, reference: Value) -> Result<Turn, NoMemory>
    requires { is_wired reference ≡ true }
    ensures { IfOk result (λ t. t ≡ opening reference) }
{
    let question = asked_with(alloc, "resolve", reference, ANSWERS)?;
    let mut events = Vec::with_capacity(alloc, 1)?;
    events.push(TurnEvent {
        oid: 0,
        event: Event::Assert(question, 1),
    })?;
    Ok(Turn::of(Dialect::Newer, TurnEvents::from_vec(events)))
}

/// The event by which the client observes a pattern at the server's object n.
pub(crate) fn observation(alloc: Global, n: u64, pattern: Value) -> Result<TurnEvent, NoMemory>
    requires oid { n < 2 ^ 63 }
    requires wired { is_wired pattern ≡ true }
    ensures event { IfOk result (λ e. e ≡ observation n pattern) }
    ensures good { IfOk result IsTurnEvent }
{
    let observe = asked_with(alloc, "Observe", pattern, OBSERVED)?;
    Ok(TurnEvent {
        oid: n,
        event: Event::Assert(observe, 2),
    })
}

/// The event by which the client answers a sync of the server's object n.
pub(crate) fn sync_answer(n: u64) -> TurnEvent
    requires { n < 2 ^ 63 }
    ensures event { result ≡ sync_answer n }
    ensures good { IsTurnEvent result }
{
    TurnEvent {
        oid: n,
        event: Event::Message(Value::boolean(true)),
    }
}
