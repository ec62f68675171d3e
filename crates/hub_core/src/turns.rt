//! Turns of actors, and what connections get by them.
ghost use Rattle.std.specs.Prelude.{◌≡◌, ◌≤◌, ◌<◌, ◌^◌, IfOk};
ghost use Rattle.ac_table.specs.Tables.{lowest as lowest_waiting};
ghost use Rattle.ac_world.specs.Worlds.{with_entry};
ghost use Rattle.hub_machine.specs.Limits.{worn_handle};
ghost use Rattle.hub_machine.specs.State.{ports_of};
ghost use Rattle.hub_machine.specs.Machine.{tell, tell_fault, fault_for, after_turn, turn_of};
ghost use Rattle.hub_machine.specs.Machine.{work_by, telling_fault};
ghost use Rattle.hub_valid.specs.Validity.{lived, IsValid, IsValidBatch, IsValidEntry};
ghost use Rattle.hub_core.specs.Telling.{IsToldSoundly, told_by};

use crate::hub::Hub;
use ac_table::Batch;
use ac_world::{BEFORE_CONNECTIONS, FIRST_CONNECTION, Turned};
use ds_space::Space;
use hub_machine::Reply;
use hub_packets::all_to_send;
use lc_watch::Behaves;
use pv_value::NoMemory;
use rl_packet::{Dialect, Packet, Turn, TurnEvents};
use rl_ports::Ports;
use sr_pass::Judge;
use std::alloc::Global;

impl<S: Space + Drop, J: Judge + Drop, B: Behaves + Drop> Hub<S, J, B> {
    /// The fault of an ended connection is told, where it is still to be told.
    fn tell_fault(mut self, alloc: Global, actor: u32) -> Result<(Hub<S, J, B>, Reply), NoMemory>
        ensures state { IfOk result
            (λ done. done.0 ≡ (tell_fault actor (fault_for actor self) self).state) }
        ensures reply { IfOk result
            (λ done. done.1 ≡ (tell_fault actor (fault_for actor self) self).reply) }
    {
        if actor < FIRST_CONNECTION {
            return Ok((self, Reply::Gone));
        }
        match self.faults.remove(&(actor - BEFORE_CONNECTIONS)) {
            Some(fault) => {
                let packet = fault.packet(alloc)?;
                self.ends(alloc, &[], Reply::Sent(packet))
            }
            None => Ok((self, Reply::Gone)),
        }
    }

    /// A connection names this from now on.
    #[inline(always)]
    fn name(mut self, connection: u32, ports: Ports) -> Result<Hub<S, J, B>, NoMemory>
        requires small { connection ≤ 2 ^ 31 }
        requires valid { IsValid self → IsValid
            (record self { connections = with_entry connection ports self.connections }) }
        ensures { IfOk result (λ h. h
            ≡ record self { connections = with_entry connection ports self.connections }) }
    {
        self.connections.insert(connection, ports)?;
        self.unchecked = self.unchecked.and(connection);
        Ok(self)
    }

    /// A connection's batch is sent, and what it tells of is exported; or the connection ends,
    /// where that is too much.
    #[inline(always)]
    fn tell(
        mut self,
        alloc: Global,
        connection: u32,
        batch: Batch,
    ) -> Result<(Hub<S, J, B>, Reply), NoMemory>
        requires next { self.world.table.next ≤ 2 ^ 63 }
        requires valid { IsValidBatch (lived self.world) self.world.table.next batch }
        ensures state { IfOk result
            (λ done. done.0 ≡ (tell connection (ports_of connection self) batch self).state) }
        ensures reply { IfOk result
            (λ done. done.1 ≡ (tell connection (ports_of connection self) batch self).reply) }
    {
        match self.take_ports(connection) {
            Some(ports) => self.tell_by(alloc, connection, ports, batch),
            None => self.ends(alloc, &[], Reply::Ran),
        }
    }

    /// A connection's batch is told by its names, which were taken out of the state.
    #[inline(always)]
    fn tell_by(
        self,
        alloc: Global,
        connection: u32,
        mut ports: Ports,
        batch: Batch,
    ) -> Result<(Hub<S, J, B>, Reply), NoMemory>
        requires small { connection ≤ 2 ^ 31 }
        requires next { self.world.table.next ≤ 2 ^ 63 }
        requires batch { IsValidBatch (lived self.world) self.world.table.next batch }
        requires entry { IsValidEntry (lived self.world) (connection, ports) }
        ensures state { IfOk result (λ done. done.0 ≡ (told_by
            (telling_fault connection batch ports) connection ports batch self).state) }
        ensures reply { IfOk result (λ done. done.1 ≡ (told_by
            (telling_fault connection batch ports) connection ports batch self).reply) }
    {
        match all_to_send(alloc, connection, &mut ports, batch.events) {
            Ok(sent) => {
                let dialect = ports.dialect().unwrap_or(Dialect::Newer);
                let hub = self.name(connection, ports)?;
                let turn = Turn::of(dialect, TurnEvents::from_vec(sent));
                hub.ends(alloc, &[], Reply::Sent(Packet::Turn(turn)))
            }
            Err(refusal) => self.refuse(alloc, connection, refusal),
        }
    }

    /// What follows from what the world tells of a turn that is done.
    #[inline(always)]
    fn after_turn(
        self,
        alloc: Global,
        actor: u32,
        turned: Turned,
    ) -> Result<(Hub<S, J, B>, Reply), NoMemory>
        requires { IsToldSoundly turned self }
        ensures state { IfOk result (λ done. done.0 ≡ (after_turn actor turned self).state) }
        ensures reply { IfOk result (λ done. done.1 ≡ (after_turn actor turned self).reply) }
    {
        match turned {
            Turned::Ran(spreads) => self.ends(alloc, spreads.as_slice(), Reply::Ran),
            Turned::Taken(batch) => self.tell(
                alloc,
                actor.saturating_sub(BEFORE_CONNECTIONS),
                batch,
            ),
            Turned::Idle => Ok((self, Reply::Idle)),
            Turned::Gone => self.tell_fault(alloc, actor),
        }
    }

    /// An actor's turn.
    pub(crate) fn turn(self, alloc: Global, actor: u32) -> Result<(Hub<S, J, B>, Reply), NoMemory>
        requires { self.world.table.next < worn_handle }
        ensures state { IfOk result (λ done. done.0 ≡ (turn_of actor self).state) }
        ensures reply { IfOk result (λ done. done.1 ≡ (turn_of actor self).reply) }
    {
        let (world, turned) = self.world.turn(alloc, actor)?;
        let unchecked = self.unchecked.and_turned(actor, &turned);
        let hub = Hub {
            world,
            unchecked,
            ..self
        };
        hub.after_turn(alloc, actor, turned)
    }

    /// The turn of the lowest of the system's actors for which a batch waits.
    pub(crate) fn work(self, alloc: Global) -> Result<(Hub<S, J, B>, Reply), NoMemory>
        requires { self.world.table.next < worn_handle }
        ensures state { IfOk result (λ done. done.0
            ≡ (work_by (lowest_waiting self.world.table) self).state) }
        ensures reply { IfOk result (λ done. done.1
            ≡ (work_by (lowest_waiting self.world.table) self).reply) }
    {
        match self.world.lowest() {
            Some(actor) if actor < FIRST_CONNECTION => self.turn(alloc, actor),
            _ if self.stopped => Ok((self, Reply::Halted)),
            _ => Ok((self, Reply::Idle)),
        }
    }
}
