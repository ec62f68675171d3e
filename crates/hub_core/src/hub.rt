//! The hub: the state of the server and its steps.
ghost use Rattle.std.specs.Prelude.{◌≡◌, ◌≤◌, ◌<◌, ◌-◌, ◌+◌, ◌^◌, min, true, [], IfOk, IfSome};
ghost use Rattle.std.specs.Prelude.{option_map, option_copied};
ghost use Rattle.ac_world.specs.Worlds.{actor_of};
ghost use Rattle.hub_machine.specs.declared.steps.Reply.TheVariants as reply;
ghost use Rattle.hub_machine.specs.State.{opening, ports_of, is_there};
ghost use Rattle.hub_machine.specs.Endings.{finished};
ghost use Rattle.hub_machine.specs.Machine.{step as step_of, is_worn, refusal, arrive_unless};
ghost use Rattle.hub_machine.specs.Machine.{opened, actor_reference, is_to_space, is_barred};
ghost use Rattle.hub_machine.specs.Machine.{bind_unless};
ghost use Rattle.hub_machine.specs.Completeness.{IsComplete};
ghost use Rattle.hub_machine.specs.Replays.{pending, lowest, first_failed, least};
ghost use Rattle.hub_core.specs.Work.{named_by};

use crate::unchecked::Unchecked;
use ac_world::{BEFORE_CONNECTIONS, Watched, World};
use ds_space::{Reference, Space, reference_value};
use gk_sturdy::Binding;
use hub_machine::{CONNECTIONS, DATASPACES, Fault, Reply, Step, WORN_CONNECTIONS, WORN_HANDLE};
use lc_watch::Behaves;
use pv_value::{NoMemory, Value};
use rl_ports::Ports;
use sr_caveat::{Cap, has_embedded};
use sr_pass::Judge;
use std::alloc::Global;
use std::collections::BTreeMap;
use std::marker::Model;

/// The state of the server: its world, what each live connection names, and the faults of which
/// connections are still to be told.
#[derive(Drop)]
pub struct Hub<S: Space + Drop, J: Judge + Drop, B: Behaves + Drop> {
    pub(crate) world: World<S, J, B>,
    pub(crate) connections: BTreeMap<u32, Ports>,
    pub(crate) faults: BTreeMap<u32, Fault>,
    pub(crate) stopped: bool,
    /// Who is to be looked at at the step's end. It is no part of the state.
    pub(crate) unchecked: Unchecked,
}

impl<S: Space + Drop, J: Judge + Drop, B: Behaves + Drop> Model for Hub<S, J, B> {
    ghost use Rattle.std.specs.Prelude.{◌≤◌, ◌^◌};
    ghost use Rattle.std.specs.List.{AllByRecursion};
    ghost use Rattle.std.specs.Coded.{codes};
    ghost use Rattle.pv_value.specs.Lemmas.Coded.{plain_code};
    ghost use Rattle.sr_caveat.specs.Lemmas.Coded.{caveat_code};
    ghost use Rattle.ps_schema.specs.Lemmas.CodedDefinitions.{definition_code};
    ghost use Rattle.hub_machine.specs.State.{State};
    ghost use Rattle.hub_valid.specs.Validity.{AreValid};
    ghost use Rattle.hub_core.specs.Looking.{AreLeft};

    ghost Value = { State };

    ghost coded = { Prim.hlevel (codes, plain_code, caveat_code, definition_code) };

    ghost view = { λ h. record {
      world = h.world;
      connections = h.connections.entries;
      faults = h.faults.entries;
      stopped = h.stopped;
    } };

    ghost invariant = { λ h. AllByRecursion (λ e. e.0 ≤ 2 ^ 31) h.connections.entries
        × AllByRecursion (λ e. e.0 ≤ 2 ^ 31) h.faults.entries
        × AreValid h.world h.connections.entries
        × AreLeft h.unchecked h.world h.connections.entries };
}

/// The lesser of the numbers that are there.
fn least(first: Option<u32>, second: Option<u32>) -> Option<u32>
    ensures { result ≡ least first second }
{
    match (first, second) {
        (Some(m), Some(n)) => Some(m.min(n)),
        (first, second) => first.or(second),
    }
}

/// The value of the reference to an actor itself.
fn actor_reference(alloc: Global, actor: u32) -> Result<Value, NoMemory>
    ensures { IfOk result (λ v. v ≡ actor_reference actor) }
{
    let reference = Reference { actor, entity: 0 };
    reference_value(alloc, reference)
}

/// Whether a reference is to a dataspace itself.
fn is_to_space(cap: &Cap) -> bool
    ensures { result ≡ is_to_space cap.now }
{
    (1..=u32::from(DATASPACES)).contains(&cap.actor) && cap.entity == 0
}

impl<S: Space + Drop, J: Judge + Drop, B: Behaves + Drop> Hub<S, J, B> {
    /// The server at its beginning: the gatekeeper and the dataspaces, which have got nothing.
    /// Guards judge by what is handed in, and so do watchers act.
    pub fn begin(alloc: Global, judge: J, behaves: B) -> Result<Hub<S, J, B>, NoMemory>
        ensures { IfOk result (λ h. h ≡ opening (J.schema judge)) }
    {
        Ok(Hub {
            world: World::begin(alloc, judge, behaves)?,
            connections: BTreeMap::new(alloc),
            faults: BTreeMap::new(alloc),
            stopped: false,
            unchecked: Unchecked::Nobody,
        })
    }

    /// How many batches wait and how many faults are to be told, at most the greatest u64.
    pub fn pending(&self) -> u64
        ensures { result ≡ min (pending self.now) (2 ^ 64 - 1) }
    {
        self.world
            .batches()
            .saturating_add(self.faults.len() as u64)
    }

    /// The first actor that is a connection of which a fault is to be told.
    fn first_failed(&self) -> Option<u32>
        ensures { result ≡ option_map actor_of (first_failed self.now) }
    {
        let (connection, _) = self.faults.first_key_value()?;
        Some(BEFORE_CONNECTIONS + *connection)
    }

    /// The lowest actor that has work: a batch waits for it, or it is to be told of a fault.
    pub fn lowest(&self) -> Option<u32>
        ensures { result ≡ lowest self.now }
    {
        least(self.world.lowest(), self.first_failed())
    }

    /// What a live connection names.
    pub(crate) fn ports(&self, connection: u32) -> Option<&Ports>
        ensures ports { option_copied result ≡ ports_of connection self.now }
        ensures small { IfSome result (λ ports. connection ≤ 2 ^ 31) }
    {
        let ports = self.connections.get(&connection)?;
        if self.world.live(BEFORE_CONNECTIONS + connection) {
            Some(ports)
        } else {
            None
        }
    }

    /// Whether a connection is there. Its number is small then.
    pub fn live(&self, connection: u32) -> bool
        ensures there { result ≡ is_there connection self.now }
        ensures small { result ≡ true → connection ≤ 2 ^ 31 }
    {
        self.ports(connection).is_some()
    }

    /// The connection whose actor this is, if it is one that has names.
    pub(crate) fn named_by(&self, actor: u32) -> Option<u32>
        ensures { result ≡ named_by actor self.now }
    {
        if actor >= BEFORE_CONNECTIONS
            && self.connections.contains_key(&(actor - BEFORE_CONNECTIONS))
        {
            Some(actor - BEFORE_CONNECTIONS)
        } else {
            None
        }
    }

    /// What guards judge by.
    pub fn judge(&self) -> &J
        ensures { J.schema result.now ≡ self.now.world.schema }
    {
        self.world.judge()
    }

    /// What watchers act by.
    pub fn behaves(&self) -> &B {
        self.world.behaves()
    }

    /// The watchers that were ever made: actor 9 is the first.
    pub fn watches(&self) -> &[Watched]
        ensures { result.now ≡ self.now.world.watches }
    {
        self.world.watches()
    }

    /// How many connections have come.
    pub fn opened(&self) -> u32
        ensures { result ≡ self.now.world.opened }
    {
        self.world.opened()
    }

    /// Whether the numbers for this step are used up.
    fn is_worn(&self, event: &Step) -> bool
        ensures { result ≡ is_worn self.now event.now }
    {
        let worn = self.world.next_handle() >= WORN_HANDLE;
        match event {
            Step::Arrive(_) => worn || self.world.opened() >= WORN_CONNECTIONS,
            _ => worn,
        }
    }

    /// Whether a reference can't be bound.
    fn is_barred(&self, alloc: Global, binding: &Binding) -> Result<bool, NoMemory>
        ensures { IfOk result (λ barred. barred ≡ is_barred binding.now self.now) }
    {
        if self.world.opened() > 0
            || self.world.bound(&binding.oid)
            || !is_to_space(&binding.cap)
            || has_embedded(&binding.oid)
        {
            return Ok(true);
        }
        let reference = binding.cap.to_value(alloc)?;
        Ok(has_embedded(&reference))
    }

    /// A reference is bound, where it may.
    fn bind(self, alloc: Global, binding: Binding) -> Result<(Hub<S, J, B>, Reply), NoMemory>
        ensures state { IfOk result
            (λ done. done.0 ≡ (bind_unless (is_barred binding self) binding self).state) }
        ensures reply { IfOk result
            (λ done. done.1 ≡ (bind_unless (is_barred binding self) binding self).reply) }
    {
        if self.is_barred(alloc, &binding)? {
            return Ok((self, Reply::Barred));
        }
        let hub = Hub {
            world: self.world.bind(binding)?,
            ..self
        };
        hub.ends(alloc, &[], Reply::Taken)
    }

    /// A connection comes.
    fn open(mut self, alloc: Global, space: u8) -> Result<(Hub<S, J, B>, u32), NoMemory>
        requires few { self.world.opened < 2 ^ 31 }
        requires space { space ≤ 8 }
        ensures state { IfOk result (λ done. done.0 ≡ opened space self) }
        ensures number { IfOk result (λ done. done.1 ≡ self.world.opened + 1) }
    {
        let (world, number) = self.world.arrive()?;
        let first = actor_reference(alloc, u32::from(space))?;
        self.connections.insert(number, Ports::new(alloc, first)?)?;
        let hub = Hub {
            world,
            unchecked: self.unchecked.and(number),
            ..self
        };
        Ok((hub, number))
    }

    /// Why no connection comes to the gatekeeper or a dataspace.
    fn refusal(&self, space: u8) -> Option<Reply>
        ensures { result ≡ refusal space self.now }
    {
        if space > DATASPACES {
            Some(Reply::Barred)
        } else if self.stopped {
            Some(Reply::Halted)
        } else if self.connections.len() >= CONNECTIONS {
            Some(Reply::Full)
        } else {
            None
        }
    }

    /// A connection comes, where it may.
    fn arrive(self, alloc: Global, space: u8) -> Result<(Hub<S, J, B>, Reply), NoMemory>
        requires { self.world.opened < 2 ^ 31 }
        ensures state { IfOk result
            (λ done. done.0 ≡ (arrive_unless (refusal space self) space self).state) }
        ensures reply { IfOk result
            (λ done. done.1 ≡ (arrive_unless (refusal space self) space self).reply) }
    {
        match self.refusal(space) {
            Some(reply) => Ok((self, reply)),
            None => {
                let (hub, number) = self.open(alloc, space)?;
                hub.ends(alloc, &[], Reply::Opened(number))
            }
        }
    }

    /// No connection is to come any more.
    fn stop(mut self, alloc: Global) -> Result<(Hub<S, J, B>, Reply), NoMemory>
        ensures state { IfOk result
            (λ done. done.0 ≡ finished [] (record self { stopped = true })) }
        ensures reply { IfOk result (λ done. done.1 ≡ reply.Taken) }
    {
        self.stopped = true;
        self.ends(alloc, &[], Reply::Taken)
    }

    /// A step that may be done.
    #[inline(always)]
    fn machine_step(self, alloc: Global, event: Step) -> Result<(Hub<S, J, B>, Reply), NoMemory>
        ensures state { IfOk result (λ done. done.0 ≡ (step_of self event).state) }
        ensures reply { IfOk result (λ done. done.1 ≡ (step_of self event).reply) }
    {
        if self.is_worn(&event) {
            return Ok((self, Reply::Worn));
        }
        match event {
            Step::Bind(binding) => self.bind(alloc, binding),
            Step::Watch(watched) => self.watch(alloc, watched),
            Step::Arrive(space) => self.arrive(alloc, space),
            Step::Packet(connection, turn) => self.packet(alloc, connection, &turn),
            Step::Bad(connection, fault) => self.bad(alloc, connection, fault),
            Step::Close(connection) => self.leave(alloc, connection),
            Step::Turn(actor) => self.turn(alloc, actor),
            Step::Work => self.work(alloc),
            Step::Stop => self.stop(alloc),
        }
    }

    /// The state after a step, and what is answered to it. For want of memory the state is gone.
    pub fn step(self, alloc: Global, event: Step) -> Result<(Hub<S, J, B>, Reply), NoMemory>
        ensures state { IfOk result (λ done. done.0 ≡ (step_of self event).state) }
        ensures reply { IfOk result (λ done. done.1 ≡ (step_of self event).reply) }
        ensures complete { IfOk result (λ done. IsComplete self event done.1) }
    {
        self.machine_step(alloc, event)
    }
}
