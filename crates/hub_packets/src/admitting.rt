//! The admission of a packet: what its events do, or why one of them is refused.
ghost use Rattle.std.specs.Prelude.{◌≡◌, ◌<◌, ◌≤◌, ◌+◌, ◌^◌, length, None, Some};
ghost use Rattle.std.specs.Prelude.{IfOk, IfErr, OnOk, option_map};
ghost use Rattle.rl_ports.specs.Ports.{inbound_of};
ghost use Rattle.hub_machine.specs.Limits.{most_events, worn_handle};
ghost use Rattle.hub_machine.specs.Admission.{before_all, rows_with, load_with, waits_at};
ghost use Rattle.hub_machine.specs.Admission.{inside, kept, let_through, through, aim_at};
ghost use Rattle.hub_machine.specs.Admission.{value_cause};
ghost use Rattle.hub_machine.specs.Admission.{references_cause, taking_cause, stale_cause};
ghost use Rattle.hub_machine.specs.Admission.{load_cause, handle_cause, row_cause, said_cause};
ghost use Rattle.hub_machine.specs.Admission.{retraction_cause, event_cause, cause_of, row_weighs};
ghost use Rattle.hub_machine.specs.Admission.{after_assertion, after_retraction, after_message};
ghost use Rattle.hub_machine.specs.Admission.{after_sync, after_event, after_stale, after};
ghost use Rattle.hub_machine.specs.Admission.{all_admitted};
ghost use Rattle.hub_machine.specs.Admission.{admission, admitted};
ghost use Rattle.hub_machine.specs.Faults.{◌<|>◌};
ghost use Rattle.hub_packets.specs.Refusals.{IsWhyRefused, IsRefusedFor};
ghost use Rattle.hub_packets.specs.Aims.{aim_shown};
ghost use Rattle.hub_packets.specs.Counting.{counted_cause};

use crate::refusals::{Refusal, refuse_for};
use ac_world::{Act, BEFORE_CONNECTIONS, FIRST_CONNECTION, Load, World};
use ds_space::Space;
use hub_machine::{BACKLOG, BACKLOG_WEIGHT, Fault, HANDLES, ROWS_WEIGHT, TURN_EVENTS, over};
use lc_watch::Behaves;
use pv_value::{NoMemory, Node, Value, weight};
use rl_packet::{Event, TurnEvent, TurnEvents};
use rl_ports::{Exported, Inbound, Ports};
use rl_wire::{Crossed, references_in, wire_in};
use sr_caveat::Cap;
use sr_pass::{Judge, pass};
use std::alloc::Global;
use std::collections::BTreeMap;
use std::marker::Model;

/// What the events of a packet so far do, and what is counted after them.
#[derive(Drop)]
pub struct Admitting {
    acts: Vec<Act>,
    /// The weight of each row that the packet makes, by its handle.
    made: BTreeMap<u64, u64>,
    ports: Ports,
    /// How much the connection's rows weigh.
    rows: u64,
    /// How much of the connection's waits for the system's actors.
    load: Load,
    /// The handle that is drawn next.
    next: u64,
}

impl Model for Admitting {
    ghost use Rattle.std.specs.Coded.{codes};
    ghost use Rattle.pv_value.specs.Lemmas.Coded.{plain_code};
    ghost use Rattle.hub_machine.specs.Admission.{Admitting as AdmittingOf};

    ghost Value = { AdmittingOf };

    ghost coded = { Prim.hlevel (codes, plain_code) };

    ghost view = { λ x. record {
      acts = x.acts.items;
      made = x.made.entries;
      ports = x.ports;
      rows = x.rows;
      load = x.load;
      next = x.next;
    } };
}

/// Where an event is.
#[derive(Drop)]
pub(crate) enum Aim {
    /// At an object.
    Object(Cap),
    /// At an export that was released.
    Stale,
    /// At none that ever was.
    Unknown,
}

/// More than may wait for the system's actors.
fn load_cause(load: Load) -> Option<Fault>
    ensures { result ≡ load_cause load }
{
    let many = over(BACKLOG, 10, load.count);
    let heavy = over(BACKLOG_WEIGHT, 11, load.weight);
    many.or(heavy)
}

/// What is inside an embedded value.
fn inside(value: &Value) -> &Value
    ensures { result.now ≡ inside value.now }
{
    match &value.node {
        Node::Emb(inside) => inside,
        _ => value,
    }
}

/// Whether events at an object wait for one of the system's actors.
fn waits_at<S: Space + Drop, J: Judge + Drop, B: Behaves + Drop>(
    to: &Cap,
    world: &World<S, J, B>,
) -> bool
    ensures { result ≡ waits_at to.now world.now }
{
    to.actor < FIRST_CONNECTION && world.live(to.actor)
}

/// What the caveats of a reference let pass of a value that is sent through it.
fn let_through<S: Space + Drop, J: Judge + Drop, B: Behaves + Drop>(
    alloc: Global,
    to: &Cap,
    value: &Value,
    world: &World<S, J, B>,
) -> Result<Option<Value>, NoMemory>
    ensures { IfOk result (λ w. w ≡ let_through world.now to.now value.now) }
{
    pass(alloc, to.caveats.as_slice(), value, world.judge())
}

impl Admitting {
    /// Before the first event of a connection.
    fn new<S: Space + Drop, J: Judge + Drop, B: Behaves + Drop>(
        alloc: Global,
        connection: u32,
        ports: Ports,
        world: &World<S, J, B>,
    ) -> Admitting
        requires { connection ≤ 2 ^ 31 }
        ensures { result ≡ before_all connection ports world.now }
    {
        let actor = BEFORE_CONNECTIONS + connection;
        Admitting {
            acts: Vec::new(alloc),
            made: BTreeMap::new(alloc),
            ports,
            rows: world.row_weight(actor),
            load: world.backlog(actor),
            next: world.next_handle(),
        }
    }

    /// What the events do, and what the connection names after them.
    pub fn into_parts(self) -> (Vec<Act>, Ports)
        ensures acts { result.0.items ≡ self.acts }
        ensures ports { result.1 ≡ self.ports }
    {
        let Admitting { acts, ports, .. } = self;
        (acts, ports)
    }

    /// How much the rows weigh with one more.
    fn rows_with(&self, weight: u64) -> u64
        ensures { result ≡ rows_with weight self.now }
    {
        self.rows.saturating_add(weight)
    }

    /// What waits, with one event more at an object.
    fn load_with<S: Space + Drop, J: Judge + Drop, B: Behaves + Drop>(
        &self,
        to: &Cap,
        weight: u64,
        world: &World<S, J, B>,
    ) -> Load
        ensures { result ≡ load_with world.now to.now weight self.now }
    {
        if waits_at(to, world) {
            self.load.and(Load { count: 1, weight })
        } else {
            self.load
        }
    }

    /// Where an event at the export of this number is.
    fn aim_at(&self, oid: u64) -> Result<Aim, NoMemory>
        ensures { IfOk result (λ a. aim_shown a ≡ aim_at oid self.now.ports) }
    {
        match self.ports.cap_of(oid) {
            Exported::InForce(export) => match export.cap() {
                Some(cap) => Ok(Aim::Object(cap.copy()?)),
                None => Ok(Aim::Unknown),
            },
            Exported::Released => Ok(Aim::Stale),
            Exported::Never => Ok(Aim::Unknown),
        }
    }

    /// A value that the connection sent, as the server keeps it; nothing where it is stale.
    fn kept(&self, alloc: Global, connection: u32, value: &Value) -> Result<Option<Value>, Refusal>
        requires { connection ≤ 2 ^ 31 }
        ensures kept { IfOk result (λ v. v ≡ kept connection value.now self.now) }
        ensures free { OnOk result (value_cause connection value.now self.now ≡ None) }
        ensures cause { IfErr result (IsWhyRefused (value_cause connection value.now self.now)) }
    {
        match wire_in(alloc, &self.ports, connection, value)? {
            Crossed::Whole(value) => Ok(Some(value)),
            Crossed::Stale => Ok(None),
        }
    }

    /// The references alone in a value that the connection sent are looked at.
    fn check_references(&self, alloc: Global, value: &Value) -> Result<(), Refusal>
        ensures free { OnOk result (references_cause value.now self.now ≡ None) }
        ensures cause { IfErr result (IsWhyRefused (references_cause value.now self.now)) }
    {
        references_in(alloc, &self.ports, value)?;
        Ok(())
    }

    /// What gets through to an object of a value that the connection sent.
    fn through<S: Space + Drop, J: Judge + Drop, B: Behaves + Drop>(
        &self,
        alloc: Global,
        connection: u32,
        to: &Cap,
        value: &Value,
        world: &World<S, J, B>,
    ) -> Result<Option<Value>, Refusal>
        requires { connection ≤ 2 ^ 31 }
        ensures through { IfOk result
            (λ v. v ≡ through connection world.now to.now value.now self.now) }
        ensures free { OnOk result (value_cause connection value.now self.now ≡ None) }
        ensures cause { IfErr result (IsWhyRefused (value_cause connection value.now self.now)) }
    {
        match self.kept(alloc, connection, value)? {
            Some(value) => Ok(let_through(alloc, to, &value, world)?),
            None => Ok(None),
        }
    }

    /// A handle that is in use.
    fn handle_cause(&self, handle: u64) -> Option<Fault>
        ensures { result ≡ handle_cause handle self.now }
    {
        match self.ports.row_of(handle) {
            Some(_) => Some(Fault::HandleInUse(handle)),
            None => None,
        }
    }

    /// The handle of an assertion is looked at, and how many are in use with it.
    fn check_handle(&self, handle: u64) -> Result<(), Refusal>
        ensures free { OnOk result (taking_cause handle self.now ≡ None) }
        ensures unused { OnOk result (inbound_of handle self.now.ports ≡ None) }
        ensures cause { IfErr result (IsWhyRefused (taking_cause handle self.now)) }
    {
        let in_use = self.handle_cause(handle);
        let handles = over(HANDLES, 4, (self.ports.in_use() as u64).saturating_add(1));
        refuse_for(in_use.or(handles))
    }

    /// What is counted for a row is looked at, with which so much would wait.
    fn check_row(&self, weight: u64, load: Load) -> Result<(), Refusal>
        ensures free { OnOk result (counted_cause weight load self.now ≡ None) }
        ensures cause { IfErr result (IsWhyRefused (counted_cause weight load self.now)) }
    {
        let rows = over(ROWS_WEIGHT, 5, self.rows_with(weight));
        refuse_for(rows.or(load_cause(load)))
    }

    /// An assertion is done: its row gets the next handle.
    fn assert_value<S: Space + Drop, J: Judge + Drop, B: Behaves + Drop>(
        &mut self,
        to: &Cap,
        value: Value,
        handle: u64,
        world: &World<S, J, B>,
    ) -> Result<(), NoMemory>
        requires next { self.old.next < 2 ^ 63 }
        requires unused { inbound_of handle self.old.ports ≡ None }
        ensures { OnOk result
            (self.new ≡ after_assertion world.now to.now (Some value) handle self.old) }
    {
        let weight = weight(&value);
        self.rows = self.rows_with(weight);
        self.load = self.load_with(to, weight, world);
        self.acts.push(Act::Assert(to.actor, to.entity, value))?;
        self.made.insert(self.next, weight)?;
        self.ports.take_handle(handle, Inbound::Row(self.next))?;
        self.next += 1;
        Ok(())
    }

    /// A value that got through is asserted, where nothing refuses it.
    fn admit_row<S: Space + Drop, J: Judge + Drop, B: Behaves + Drop>(
        &mut self,
        to: &Cap,
        value: Value,
        handle: u64,
        world: &World<S, J, B>,
    ) -> Result<(), Refusal>
        requires next { self.old.next < 2 ^ 63 }
        requires unused { inbound_of handle self.old.ports ≡ None }
        ensures free { OnOk result (row_cause world.now to.now (Some value) self.old ≡ None) }
        ensures cause { IfErr result
            (IsWhyRefused (row_cause world.now to.now (Some value) self.old)) }
        ensures after { OnOk result
            (self.new ≡ after_assertion world.now to.now (Some value) handle self.old) }
    {
        let weight = weight(&value);
        self.check_row(weight, self.load_with(to, weight, world))?;
        self.assert_value(to, value, handle, world)?;
        Ok(())
    }

    /// What got through is asserted; of a value that was refused the handle is noted.
    fn admit_passed<S: Space + Drop, J: Judge + Drop, B: Behaves + Drop>(
        &mut self,
        to: &Cap,
        passed: Option<Value>,
        handle: u64,
        world: &World<S, J, B>,
    ) -> Result<(), Refusal>
        requires next { self.old.next < 2 ^ 63 }
        requires unused { inbound_of handle self.old.ports ≡ None }
        ensures free { OnOk result (row_cause world.now to.now passed self.old ≡ None) }
        ensures cause { IfErr result
            (IsWhyRefused (row_cause world.now to.now passed self.old)) }
        ensures after { OnOk result
            (self.new ≡ after_assertion world.now to.now passed handle self.old) }
    {
        match passed {
            Some(value) => self.admit_row(to, value, handle, world),
            None => Ok(self.ports.take_handle(handle, Inbound::Refused)?),
        }
    }

    /// What got through of a value is asserted, where nothing refuses it.
    fn admit_assertion<S: Space + Drop, J: Judge + Drop, B: Behaves + Drop>(
        &mut self,
        to: &Cap,
        passed: Option<Value>,
        handle: u64,
        world: &World<S, J, B>,
    ) -> Result<(), Refusal>
        requires { self.old.next < 2 ^ 63 }
        ensures free { OnOk result
            ((taking_cause handle self.old <|> row_cause world.now to.now passed self.old)
            ≡ None) }
        ensures cause { IfErr result (IsWhyRefused
            (taking_cause handle self.old <|> row_cause world.now to.now passed self.old)) }
        ensures after { OnOk result
            (self.new ≡ after_assertion world.now to.now passed handle self.old) }
    {
        self.check_handle(handle)?;
        self.admit_passed(to, passed, handle, world)
    }

    /// How much the row of a handle weighs.
    fn row_weighs<S: Space + Drop, J: Judge + Drop, B: Behaves + Drop>(
        &self,
        handle: u64,
        world: &World<S, J, B>,
    ) -> u64
        ensures { result ≡ row_weighs handle world.now self.now }
    {
        match self.made.get(&handle) {
            Some(weight) => *weight,
            None => match world.row(handle) {
                Some(row) => weight(&row.value),
                None => 0,
            },
        }
    }

    /// A handle is given back, and its row goes, where it has one.
    fn retract<S: Space + Drop, J: Judge + Drop, B: Behaves + Drop>(
        &mut self,
        handle: u64,
        what: Inbound,
        world: &World<S, J, B>,
    ) -> Result<(), NoMemory>
        ensures { OnOk result
            (self.new ≡ after_retraction handle (Some what) world.now self.old) }
    {
        self.ports.free_handle(handle);
        if let Inbound::Row(row) = what {
            self.rows = self.rows.saturating_sub(self.row_weighs(row, world));
            self.acts.push(Act::Retract(row))?;
        }
        Ok(())
    }

    /// What a handle stands for is taken back, where it is in use.
    fn admit_retraction<S: Space + Drop, J: Judge + Drop, B: Behaves + Drop>(
        &mut self,
        handle: u64,
        world: &World<S, J, B>,
    ) -> Result<(), Refusal>
        ensures free { OnOk result (retraction_cause handle self.old ≡ None) }
        ensures cause { IfErr result (IsWhyRefused (retraction_cause handle self.old)) }
        ensures after { OnOk result (self.new
            ≡ after_retraction handle (inbound_of handle self.old.ports) world.now self.old) }
    {
        match self.ports.row_of(handle) {
            Some(what) => Ok(self.retract(handle, what, world)?),
            None => Err(Refusal::Cause(Fault::UnknownHandle(handle))),
        }
    }

    /// A value that got through is said, where nothing refuses it.
    fn say<S: Space + Drop, J: Judge + Drop, B: Behaves + Drop>(
        &mut self,
        to: &Cap,
        value: Value,
        world: &World<S, J, B>,
    ) -> Result<(), Refusal>
        ensures free { OnOk result (said_cause world.now to.now (Some value) self.old ≡ None) }
        ensures cause { IfErr result
            (IsWhyRefused (said_cause world.now to.now (Some value) self.old)) }
        ensures after { OnOk result
            (self.new ≡ after_message world.now to.now (Some value) self.old) }
    {
        let load = self.load_with(to, weight(&value), world);
        refuse_for(load_cause(load))?;
        self.load = load;
        self.acts.push(Act::Message(to.actor, to.entity, value))?;
        Ok(())
    }

    /// What got through of a value is said, where nothing refuses it; what didn't is dropped.
    fn admit_message<S: Space + Drop, J: Judge + Drop, B: Behaves + Drop>(
        &mut self,
        to: &Cap,
        passed: Option<Value>,
        world: &World<S, J, B>,
    ) -> Result<(), Refusal>
        ensures free { OnOk result (said_cause world.now to.now passed self.old ≡ None) }
        ensures cause { IfErr result (IsWhyRefused (said_cause world.now to.now passed self.old)) }
        ensures after { OnOk result (self.new ≡ after_message world.now to.now passed self.old) }
    {
        match passed {
            Some(value) => self.say(to, value, world),
            None => Ok(()),
        }
    }

    /// A peer asks for an answer, where nothing refuses it; a stale one is dropped.
    fn admit_sync<S: Space + Drop, J: Judge + Drop, B: Behaves + Drop>(
        &mut self,
        to: &Cap,
        peer: Option<Value>,
        world: &World<S, J, B>,
    ) -> Result<(), Refusal>
        ensures free { OnOk result
            (said_cause world.now to.now (option_map inside peer) self.old ≡ None) }
        ensures cause { IfErr result
            (IsWhyRefused (said_cause world.now to.now (option_map inside peer) self.old)) }
        ensures after { OnOk result
            (self.new ≡ after_sync world.now to.now (option_map inside peer) self.old) }
    {
        match peer {
            Some(peer) => self.ask(to, inside(&peer), world),
            None => Ok(()),
        }
    }

    /// A peer asks for an answer, where nothing refuses it.
    fn ask<S: Space + Drop, J: Judge + Drop, B: Behaves + Drop>(
        &mut self,
        to: &Cap,
        peer: &Value,
        world: &World<S, J, B>,
    ) -> Result<(), Refusal>
        ensures free { OnOk result (said_cause world.now to.now (Some peer.now) self.old ≡ None) }
        ensures cause { IfErr result
            (IsWhyRefused (said_cause world.now to.now (Some peer.now) self.old)) }
        ensures after { OnOk result
            (self.new ≡ after_sync world.now to.now (Some peer.now) self.old) }
    {
        let load = self.load_with(to, weight(peer), world);
        refuse_for(load_cause(load))?;
        self.load = load;
        self.acts
            .push(Act::Sync(to.actor, to.entity, peer.copy()?))?;
        Ok(())
    }

    /// What an object is told, where nothing refuses it.
    fn admit_event<S: Space + Drop, J: Judge + Drop, B: Behaves + Drop>(
        &mut self,
        alloc: Global,
        connection: u32,
        to: &Cap,
        event: &Event,
        world: &World<S, J, B>,
    ) -> Result<(), Refusal>
        requires small { connection ≤ 2 ^ 31 }
        requires next { self.old.next < 2 ^ 63 }
        ensures free { OnOk result
            (event_cause connection world.now to.now event.now self.old ≡ None) }
        ensures cause { IfErr result
            (IsWhyRefused (event_cause connection world.now to.now event.now self.old)) }
        ensures after { OnOk result
            (self.new ≡ after_event connection world.now to.now event.now self.old) }
    {
        match event {
            Event::Assert(value, handle) => {
                let passed = self.through(alloc, connection, to, value, world)?;
                self.admit_assertion(to, passed, *handle, world)
            }
            Event::Retract(handle) => self.admit_retraction(*handle, world),
            Event::Message(value) => {
                let passed = self.through(alloc, connection, to, value, world)?;
                self.admit_message(to, passed, world)
            }
            Event::Sync(peer) => {
                let peer = self.kept(alloc, connection, peer)?;
                self.admit_sync(to, peer, world)
            }
        }
    }

    /// An event at a released export, where nothing refuses it: it says nothing, but a handle is
    /// noted, or given back.
    fn admit_stale<S: Space + Drop, J: Judge + Drop, B: Behaves + Drop>(
        &mut self,
        alloc: Global,
        event: &Event,
        world: &World<S, J, B>,
    ) -> Result<(), Refusal>
        ensures free { OnOk result (stale_cause event.now self.old ≡ None) }
        ensures cause { IfErr result (IsWhyRefused (stale_cause event.now self.old)) }
        ensures after { OnOk result (self.new ≡ after_stale world.now event.now self.old) }
    {
        match event {
            Event::Assert(value, inbound) => {
                self.check_references(alloc, value)?;
                self.check_handle(*inbound)?;
                Ok(self.ports.take_handle(*inbound, Inbound::Refused)?)
            }
            Event::Retract(handle) => self.admit_retraction(*handle, world),
            Event::Message(value) => self.check_references(alloc, value),
            Event::Sync(peer) => self.check_references(alloc, peer),
        }
    }

    /// One event more, or the cause against it.
    fn admit<S: Space + Drop, J: Judge + Drop, B: Behaves + Drop>(
        &mut self,
        alloc: Global,
        connection: u32,
        event: &TurnEvent,
        world: &World<S, J, B>,
    ) -> Result<(), Refusal>
        requires small { connection ≤ 2 ^ 31 }
        requires next { self.old.next < 2 ^ 63 }
        ensures free { OnOk result (cause_of connection world.now event.now self.old ≡ None) }
        ensures cause { IfErr result
            (IsWhyRefused (cause_of connection world.now event.now self.old)) }
        ensures after { OnOk result (self.new ≡ after connection world.now event.now self.old) }
    {
        match self.aim_at(event.oid)? {
            Aim::Object(to) => self.admit_event(alloc, connection, &to, &event.event, world),
            Aim::Stale => self.admit_stale(alloc, &event.event, world),
            Aim::Unknown => Err(Refusal::Cause(Fault::UnknownOid(event.oid))),
        }
    }

    /// All events in order, or the cause against the first that is refused.
    fn admit_all<S: Space + Drop, J: Judge + Drop, B: Behaves + Drop>(
        &mut self,
        alloc: Global,
        connection: u32,
        events: &[TurnEvent],
        world: &World<S, J, B>,
    ) -> Result<(), Refusal>
        requires small { connection ≤ 2 ^ 31 }
        requires next { self.old.next < worn_handle }
        requires events { length events.now ≤ most_events }
        ensures admitted { OnOk result
            (all_admitted connection world.now events.now self.old ≡ admitted self.new) }
        ensures refused { IfErr result
            (IsRefusedFor (all_admitted connection world.now events.now self.old)) }
    {
        for event in events {
            self.admit(alloc, connection, event, world)?;
        }
        Ok(())
    }
}

/// What the events of a packet do, or why one of them is refused.
pub fn admission<S: Space + Drop, J: Judge + Drop, B: Behaves + Drop>(
    alloc: Global,
    connection: u32,
    ports: Ports,
    events: &TurnEvents,
    world: &World<S, J, B>,
) -> Result<Admitting, Refusal>
    requires small { connection ≤ 2 ^ 31 }
    requires next { world.now.table.next < worn_handle }
    ensures admitted { IfOk result
        (λ x. admission connection ports world.now events.now ≡ admitted x) }
    ensures refused { IfErr result
        (IsRefusedFor (admission connection ports world.now events.now)) }
{
    refuse_for(over(TURN_EVENTS, 3, events.len() as u64))?;
    let mut admitting = Admitting::new(alloc, connection, ports, world);
    admitting.admit_all(alloc, connection, events.as_slice(), world)?;
    Ok(admitting)
}
