//! The parts of a world, and its changes in place.
//!
//! What has to hold of the parts between changes is `AreSound` of `specs/Keeping.antt`, which the
//! methods ask for and leave behind. For want of memory the world is gone.
ghost use Rattle.std.specs.Prelude.{◌≡◌, ◌<◌, ◌≤◌, ◌^◌, ◌+◌, [], length, true, false};
ghost use Rattle.std.specs.Prelude.{IfOk, IfSome, OnOk, option_map, unwrap_or};
ghost use Rattle.std.specs.BTreeMap.{IsOrdered};
ghost use Rattle.std.specs.Ordering.{nat_cmp};
ghost use Rattle.ac_table.specs.Tables.{is_live};
ghost use Rattle.ac_world.specs.Keeping.{resident_by, world_by, AreSound};
ghost use Rattle.ac_world.specs.Limits.{most_watchers};
ghost use Rattle.ac_world.specs.Others.{rows_in, task_in};
ghost use Rattle.ac_world.specs.Watchers.{task_at};
ghost use Rattle.ac_world.specs.Worlds.{beginning, binding, watching, arrived, sent, ended_of};
ghost use Rattle.ac_world.specs.Worlds.{no_resident, first_actors, is_system};
ghost use Rattle.ac_world.specs.Turns.{system_turn, deliver, turn_with, turn, work};

use crate::actors::{BEFORE_CONNECTIONS, FIRST_CONNECTION, FIRST_OTHER, GATEKEEPER};
use crate::acts::Act;
use crate::context::Context;
use crate::dataspaces::Dataspace;
use crate::gatekeeper::Gatekeeper;
use crate::held::Deliveries;
use crate::others::Other;
use crate::outboxes::Outbox;
use crate::plans::Plan;
use crate::residents::Resident;
use crate::turns::Turned;
use crate::watched::{Watched, observation_by};
use ac_table::{Batch, Event, Table, TableFault};
use ds_space::Space;
use gk_sturdy::Binding;
use lc_watch::Behaves;
use pv_value::NoMemory;
use sr_pass::Judge;
use std::alloc::Global;
use std::collections::BTreeMap;

/// Live actors with their inboxes, rows, and what was delivered to whom.
#[derive(Drop)]
pub struct Parts<S: Space + Drop, J: Judge + Drop, B: Behaves + Drop> {
    pub opened: u32,
    pub judge: J,
    pub behaves: B,
    pub watches: Vec<Watched>,
    /// Between turns nothing is to be posted.
    pub plan: Plan,
    pub gatekeeper: Resident<Gatekeeper>,
    pub others: BTreeMap<u32, Resident<Other<Dataspace<S>>>>,
    pub held: BTreeMap<u32, Deliveries>,
}

impl<S: Space + Drop, J: Judge + Drop, B: Behaves + Drop> Parts<S, J, B> {
    /// The gatekeeper and the dataspaces are live, and nothing is said.
    pub fn begin(alloc: Global, judge: J, behaves: B) -> Result<Parts<S, J, B>, NoMemory>
        ensures sound { IfOk result (λ p. AreSound p) }
        ensures world { IfOk result (λ p. world_by J.schema p ≡ beginning (J.schema judge)) }
    {
        let table = first_table(alloc)?;
        Ok(Parts {
            opened: 0,
            judge,
            behaves,
            watches: Vec::new(alloc),
            plan: Plan::new(alloc, table),
            gatekeeper: Resident::new(alloc, Gatekeeper::new(alloc)),
            others: BTreeMap::new(alloc),
            held: BTreeMap::new(alloc),
        })
    }

    /// A reference is bound, where its oid isn't.
    pub fn bind(&mut self, given: Binding) -> Result<(), NoMemory>
        requires { AreSound self.old }
        ensures sound { OnOk result (AreSound self.new) }
        ensures world { OnOk result (world_by J.schema self.new
            ≡ binding given (world_by J.schema self.old)) }
    {
        self.gatekeeper.system.bindings.add(given)?;
        Ok(())
    }

    /// The next watcher is live, and observes. No connection has come yet.
    pub fn watch(&mut self, alloc: Global, given: Watched) -> Result<(), NoMemory>
        requires sound { AreSound self.old }
        requires first { self.old.opened ≡ 0 }
        requires few { length self.old.watches.items < most_watchers }
        ensures sound { OnOk result (AreSound self.new) }
        ensures world { OnOk result (world_by J.schema self.new
            ≡ watching given (world_by J.schema self.old)) }
    {
        let actor = FIRST_OTHER + self.watches.len() as u32;
        let observation = observation_by(alloc, actor, given.pattern.copy()?)?;
        let mut acts = Vec::with_capacity(alloc, 1)?;
        acts.push(Act::Assert(given.from as u32, 0, observation))?;
        self.plan.table.add_actor(actor)?;
        self.watches.push(given)?;
        self.send(actor, acts)
    }

    /// The next connection is live; answers its number.
    pub fn arrive(&mut self) -> Result<u32, NoMemory>
        requires sound { AreSound self.old }
        requires few { self.old.opened < 2 ^ 31 }
        ensures sound { OnOk result (AreSound self.new) }
        ensures world { OnOk result (world_by J.schema self.new
            ≡ arrived (world_by J.schema self.old)) }
        ensures number { IfOk result (λ opened. opened ≡ self.old.opened + 1) }
    {
        let opened = self.opened + 1;
        self.plan.table.add_actor(BEFORE_CONNECTIONS + opened)?;
        self.opened = opened;
        Ok(opened)
    }

    /// A live actor's acts, in order.
    pub fn send(&mut self, actor: u32, acts: Vec<Act>) -> Result<(), NoMemory>
        requires sound { AreSound self.old }
        requires live { is_live actor self.old.plan.table ≡ true }
        ensures sound { OnOk result (AreSound self.new) }
        ensures world { OnOk result (world_by J.schema self.new
            ≡ sent actor acts.items (world_by J.schema self.old)) }
    {
        self.plan.act_all(actor, acts)?;
        self.plan.commit(actor)
    }

    /// The gatekeeper's turn, its batch taken.
    fn gatekeeper_turn(&mut self, alloc: Global, batch: Batch) -> Result<Turned, NoMemory>
        requires sound { AreSound self.old }
        requires live { is_live 0 self.old.plan.table ≡ true }
        ensures sound { OnOk result (AreSound self.new) }
        ensures world { OnOk result (world_by J.schema self.new
            ≡ (system_turn 0 batch (world_by J.schema self.old)).world) }
        ensures turned { IfOk result (λ turned. turned
            ≡ (system_turn 0 batch (world_by J.schema self.old)).turned) }
    {
        let Batch { from, events } = batch;
        let cx = Context {
            alloc,
            judge: &self.judge,
            behaves: &self.behaves,
            actor: GATEKEEPER,
            from,
        };
        let spreads = self.gatekeeper.take_turn(&cx, &mut self.plan, events)?;
        Ok(Turned::Ran(spreads))
    }

    /// The turn of another system actor, its batch taken.
    fn other_turn(&mut self, alloc: Global, actor: u32, batch: Batch) -> Result<Turned, NoMemory>
        requires sound { AreSound self.old }
        requires live { is_live actor self.old.plan.table ≡ true }
        requires other { 0 < actor }
        requires system { actor < 17 }
        ensures sound { OnOk result (AreSound self.new) }
        ensures world { OnOk result (world_by J.schema self.new
            ≡ (system_turn actor batch (world_by J.schema self.old)).world) }
        ensures turned { IfOk result (λ turned. turned
            ≡ (system_turn actor batch (world_by J.schema self.old)).turned) }
    {
        keeps_its_order(&self.others);
        let kept = self.others.remove(&actor);
        let mut resident = resident_or_new(alloc, &self.watches, actor, kept)?;
        let Batch { from, events } = batch;
        let cx = Context {
            alloc,
            judge: &self.judge,
            behaves: &self.behaves,
            actor,
            from,
        };
        let spreads = resident.take_turn(&cx, &mut self.plan, events)?;
        self.others.insert(actor, resident)?;
        Ok(Turned::Ran(spreads))
    }

    /// What a connection has got after more events.
    fn deliver(&mut self, alloc: Global, actor: u32, events: &[Event]) -> Result<(), NoMemory>
        requires { AreSound self.old }
        ensures sound { OnOk result (AreSound self.new) }
        ensures world { OnOk result (world_by J.schema self.new
            ≡ deliver actor events.now (world_by J.schema self.old)) }
    {
        keeps_its_order(&self.held);
        let mut got = deliveries_or_new(alloc, self.held.remove(&actor));
        got.take_all(events)?;
        self.held.insert(actor, got)?;
        Ok(())
    }

    /// A connection's turn, its batch taken.
    fn connection_turn(
        &mut self,
        alloc: Global,
        actor: u32,
        batch: Batch,
    ) -> Result<Turned, NoMemory>
        requires sound { AreSound self.old }
        requires connection { is_system actor ≡ false }
        ensures sound { OnOk result (AreSound self.new) }
        ensures world { OnOk result (world_by J.schema self.new
            ≡ (turn_with actor batch (world_by J.schema self.old)).world) }
        ensures turned { IfOk result (λ turned. turned
            ≡ (turn_with actor batch (world_by J.schema self.old)).turned) }
    {
        self.deliver(alloc, actor, batch.events.as_slice())?;
        Ok(Turned::Taken(batch))
    }

    /// A live actor's turn, its batch taken.
    fn turn_with(&mut self, alloc: Global, actor: u32, batch: Batch) -> Result<Turned, NoMemory>
        requires sound { AreSound self.old }
        requires live { is_live actor self.old.plan.table ≡ true }
        ensures sound { OnOk result (AreSound self.new) }
        ensures world { OnOk result (world_by J.schema self.new
            ≡ (turn_with actor batch (world_by J.schema self.old)).world) }
        ensures turned { IfOk result (λ turned. turned
            ≡ (turn_with actor batch (world_by J.schema self.old)).turned) }
    {
        if actor >= FIRST_CONNECTION {
            self.connection_turn(alloc, actor, batch)
        } else if actor == GATEKEEPER {
            self.gatekeeper_turn(alloc, batch)
        } else {
            self.other_turn(alloc, actor, batch)
        }
    }

    /// An actor takes the first batch of its inbox.
    pub fn turn(&mut self, alloc: Global, actor: u32) -> Result<Turned, NoMemory>
        requires { AreSound self.old }
        ensures sound { OnOk result (AreSound self.new) }
        ensures world { OnOk result (world_by J.schema self.new
            ≡ (turn actor (world_by J.schema self.old)).world) }
        ensures turned { IfOk result (λ turned. turned
            ≡ (turn actor (world_by J.schema self.old)).turned) }
    {
        match self.plan.table.pop_batch(actor) {
            Ok(Some(batch)) => self.turn_with(alloc, actor, batch),
            Ok(None) => Ok(Turned::Idle),
            Err(_) => Ok(Turned::Gone),
        }
    }

    /// The turn of the lowest system actor for which a batch waits.
    pub fn work(&mut self, alloc: Global) -> Result<Turned, NoMemory>
        requires { AreSound self.old }
        ensures sound { OnOk result (AreSound self.new) }
        ensures world { OnOk result (world_by J.schema self.new
            ≡ (work (world_by J.schema self.old)).world) }
        ensures turned { IfOk result (λ turned. turned
            ≡ (work (world_by J.schema self.old)).turned) }
    {
        match self.plan.table.lowest() {
            Some(actor) if actor < FIRST_CONNECTION => self.turn(alloc, actor),
            _ => Ok(Turned::Idle),
        }
    }

    /// An actor that isn't always live goes, where it is live, with its rows, its inbox and what it
    /// has got; each live target is told of its rows there.
    pub fn end(&mut self, alloc: Global, actor: u32) -> Result<(), NoMemory>
        requires sound { AreSound self.old }
        requires other { 9 ≤ actor }
        ensures sound { OnOk result (AreSound self.new) }
        ensures world { OnOk result (world_by J.schema self.new
            ≡ ended_of actor (world_by J.schema self.old)) }
    {
        match self.plan.table.end_actor(actor) {
            Ok(rows) => {
                let mut out = Outbox::new(alloc);
                out.retract_all(&rows)?;
                out.post(actor, &mut self.plan.table)?;
                self.others.remove(&actor);
                self.held.remove(&actor);
                Ok(())
            }
            Err(TableFault::NoMemory) => Err(NoMemory),
            Err(_) => Ok(()),
        }
    }
}

/// The table in which the first actors are live.
fn first_table(alloc: Global) -> Result<Table, NoMemory>
    ensures { IfOk result (λ t. t ≡ first_actors 9) }
{
    let mut table = Table::new(alloc);
    for actor in 0..FIRST_OTHER {
        table.add_actor(actor)?;
    }
    Ok(table)
}

/// What is true of every map: its keys ascend.
fn keeps_its_order<V>(map: &BTreeMap<u32, V>)
    ensures { IsOrdered nat_cmp map.now }
{
    let _ = map.len();
}

/// The actor of this number as it is kept, or one that has got nothing, where these watchers were
/// made.
fn resident_or_new<S: Space + Drop>(
    alloc: Global,
    watches: &[Watched],
    actor: u32,
    resident: Option<Resident<Other<Dataspace<S>>>>,
) -> Result<Resident<Other<Dataspace<S>>>, NoMemory>
    requires { IfSome resident (λ r. task_in r.system ≡ task_at actor watches.now) }
    ensures resident { IfOk result (λ r. resident_by rows_in r
        ≡ unwrap_or (option_map (resident_by rows_in) resident) no_resident) }
    ensures task { IfOk result (λ r. task_in r.system ≡ task_at actor watches.now) }
{
    match resident {
        Some(resident) => Ok(resident),
        None => Ok(Resident::new(alloc, Other::new(alloc, watches, actor)?)),
    }
}

/// What was delivered, or nothing.
fn deliveries_or_new(alloc: Global, held: Option<Deliveries>) -> Deliveries
    ensures { result ≡ unwrap_or held [] }
{
    match held {
        Some(held) => held,
        None => Deliveries::new(alloc),
    }
}
