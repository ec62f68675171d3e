//! What the events of one packet bring, event by event.
ghost use Rattle.std.specs.Prelude.{◌≡◌, ◌<◌, ◌^◌, OnOk};
ghost use Rattle.dq_core.specs.Hearing.{begins, packet_heard, turn_heard, event_heard};
ghost use Rattle.dq_core.specs.Hearing.{asserted, answered, accepted, retracted, synced};
ghost use Rattle.dq_core.specs.Hearing.{with_line, is_ours, is_older};
ghost use Rattle.dq_core.specs.Words.{own_oid};
ghost use Rattle.dq_core.specs.Reactions.{finished};
ghost use Rattle.dq_core.specs.Answers.{Leaves};

use crate::asks::{ANSWERS, Asks, OBSERVED, sync_answer};
use crate::client::{Client, QueryFault, Reaction};
use crate::lines::{Line, Lines};
use crate::words::{accepted_oid, is_rejected, own_oid};
use pv_value::{NoMemory, Value};
use rl_packet::{Dialect, Event, Packet, Turn, TurnEvent};
use std::alloc::Global;

/// What a packet has brought so far.
#[derive(Drop)]
pub(crate) struct Hearing {
    client: Client,
    lines: Lines,
    asks: Asks,
}

/// Whether an oid is one of the client's objects.
fn is_ours(oid: u64) -> bool
    ensures { result ≡ is_ours oid }
{
    oid == ANSWERS || oid == OBSERVED
}

/// Whether a turn is of the older dialect.
fn is_older(turn: &Turn) -> bool
    ensures { result ≡ is_older turn.now.dialect }
{
    match turn.dialect {
        Some(Dialect::Older) => true,
        Some(Dialect::Newer) | None => false,
    }
}

impl Hearing {
    /// Nothing is brought yet.
    pub(crate) fn new(alloc: Global, client: Client) -> Hearing
        ensures { result ≡ begins client }
    {
        Hearing {
            client,
            lines: Lines::new(alloc),
            asks: Asks::new(alloc),
        }
    }

    /// The client, and all that was brought.
    pub(crate) fn finish(self) -> (Client, Reaction)
        ensures { result ≡ finished self }
    {
        let Hearing {
            client,
            lines,
            asks,
        } = self;
        let ask = asks.into_turn();
        (client, Reaction { lines, ask })
    }

    pub(crate) fn packet(&mut self, alloc: Global, p: &Packet) -> Result<(), QueryFault>
        ensures { Leaves (packet_heard p.now self.old) result self.new }
    {
        match p {
            Packet::Turn(turn) => self.turn(alloc, turn),
            Packet::Error(_, _) => Err(QueryFault::ServerError),
            Packet::Nop | Packet::Extension(_) => Ok(()),
        }
    }

    fn turn(&mut self, alloc: Global, turn: &Turn) -> Result<(), QueryFault>
        ensures { Leaves (turn_heard turn.now self.old) result self.new }
    {
        if is_older(turn) {
            return Err(QueryFault::BadServer);
        }
        for event in turn.events.as_slice() {
            self.event(alloc, event)?;
        }
        Ok(())
    }

    fn event(&mut self, alloc: Global, event: &TurnEvent) -> Result<(), QueryFault>
        ensures { Leaves (event_heard event.now self.old) result self.new }
    {
        let oid = event.oid;
        if !is_ours(oid) {
            return Err(QueryFault::BadServer);
        }
        match &event.event {
            Event::Assert(value, handle) => self.assertion(alloc, oid, value, *handle),
            Event::Retract(handle) => self.retraction(oid, *handle),
            Event::Message(value) => self.message(oid, value),
            Event::Sync(peer) => self.sync(peer),
        }
    }

    /// A value is asserted at one of the client's objects.
    fn assertion(
        &mut self,
        alloc: Global,
        oid: u64,
        value: &Value,
        handle: u64,
    ) -> Result<(), QueryFault>
        ensures { Leaves (asserted oid value.now handle self.old) result self.new }
    {
        if self.client.has(handle) {
            return Err(QueryFault::BadServer);
        }
        self.client.put(handle, oid, value.copy()?)?;
        if oid == ANSWERS {
            return self.answer(alloc, value);
        }
        Ok(self.line(oid, Line::Added(value.copy()?))?)
    }

    /// A value is asserted where the answer goes. The first one is the answer.
    fn answer(&mut self, alloc: Global, value: &Value) -> Result<(), QueryFault>
        ensures { Leaves (answered value.now self.old) result self.new }
    {
        if self.client.is_answered() {
            return Ok(());
        }
        match accepted_oid(value) {
            Some(n) => Ok(self.accept(alloc, n)?),
            None if is_rejected(value) => Err(QueryFault::Rejected),
            None => Err(QueryFault::BadServer),
        }
    }

    /// The reference is the server's object n: the pattern is observed there.
    fn accept(&mut self, alloc: Global, n: u64) -> Result<(), NoMemory>
        requires { n < 2 ^ 63 }
        ensures { OnOk result (self.new ≡ accepted n self.old) }
    {
        let event = self.client.accept(alloc, n)?;
        self.asks.push(event)
    }

    /// What stands under a handle at one of the client's objects is taken back.
    fn retraction(&mut self, oid: u64, handle: u64) -> Result<(), QueryFault>
        ensures { Leaves (retracted oid handle self.old) result self.new }
    {
        match self.client.remove(handle) {
            Some(standing) if standing.oid == oid => {
                Ok(self.line(oid, Line::Removed(standing.value))?)
            }
            _ => Err(QueryFault::BadServer),
        }
    }

    /// A value is said to one of the client's objects.
    fn message(&mut self, oid: u64, value: &Value) -> Result<(), QueryFault>
        ensures { Leaves (Ok (with_line oid (Line.Said value.now) self.old)) result self.new }
    {
        Ok(self.line(oid, Line::Said(value.copy()?))?)
    }

    /// A line is told, where it is about the object to which what is observed goes.
    fn line(&mut self, oid: u64, line: Line) -> Result<(), NoMemory>
        ensures { OnOk result (self.new ≡ with_line oid line self.old) }
    {
        if oid == OBSERVED {
            self.lines.push(line)?;
        }
        Ok(())
    }

    /// A sync of one of the client's objects. Only a peer that is the server's own object gets an
    /// answer.
    fn sync(&mut self, peer: &Value) -> Result<(), QueryFault>
        ensures { Leaves (Ok (synced (own_oid peer.now) self.old)) result self.new }
    {
        if let Some(n) = own_oid(peer) {
            self.asks.push(sync_answer(n))?;
        }
        Ok(())
    }
}
