//! What connections send: packets, what is none, and their going.
ghost use Rattle.std.specs.Prelude.{◌≡◌, ◌≤◌, ◌<◌, ◌^◌, true, [], IfOk, IfSome};
ghost use Rattle.std.specs.Prelude.{is_some, if◌then◌else◌};
ghost use Rattle.std.specs.BTreeMap.{IsOrdered};
ghost use Rattle.std.specs.List.Sorted.{IsStrictlySortedBy};
ghost use Rattle.std.specs.Map.{keys_of};
ghost use Rattle.std.specs.Ordering.{nat_cmp};
ghost use Rattle.ac_table.specs.Tables.{is_live};
ghost use Rattle.ac_world.specs.Worlds.{actor_of};
ghost use Rattle.hub_machine.specs.Limits.{worn_handle};
ghost use Rattle.hub_machine.specs.State.{ports_of};
ghost use Rattle.hub_machine.specs.Admission.{admission, differ, turn_admission};
ghost use Rattle.hub_machine.specs.Endings.{nameless, departed_for, finished};
ghost use Rattle.hub_machine.specs.Machine.{judged, accepted, packet_at, bad_at, close_at};
ghost use Rattle.hub_machine.specs.declared.steps.Reply.TheVariants as reply;
ghost use Rattle.hub_valid.specs.Validity.{lived, IsValid, IsValidEntry};
ghost use Rattle.hub_packets.specs.Refusals.{IsCauseAnd};

use crate::hub::Hub;
use ac_world::BEFORE_CONNECTIONS;
use ds_space::Space;
use hub_machine::{Fault, Reply};
use hub_packets::{Admitting, Refusal, admission};
use lc_watch::Behaves;
use pv_value::NoMemory;
use rl_packet::{Dialect, Turn, TurnEvents};
use rl_ports::Ports;
use sr_pass::Judge;
use std::alloc::Global;
use std::collections::BTreeMap;

/// The connections' numbers ascend.
pub(crate) fn keeps_its_order(connections: &BTreeMap<u32, Ports>)
    ensures { IsOrdered nat_cmp connections.now }
{
    let _ = connections.len();
}

/// Whether a turn's dialect and a connection's differ.
fn differ(turn: Option<Dialect>, connection: Option<Dialect>) -> bool
    ensures { result ≡ differ turn connection }
{
    match (turn, connection) {
        (Some(turn), Some(connection)) => turn != connection,
        _ => false,
    }
}

impl<S: Space + Drop, J: Judge + Drop, B: Behaves + Drop> Hub<S, J, B> {
    /// A live connection's names, which are taken out of the state.
    #[inline(always)]
    pub(crate) fn take_ports(&mut self, connection: u32) -> Option<Ports>
        ensures ports { result ≡ ports_of connection self.old }
        ensures state { self.new
            ≡ (if is_some result then nameless connection self.old else self.old) }
        ensures small { IfSome result (λ ports. connection ≤ 2 ^ 31) }
        ensures valid { IfSome result
            (λ ports. IsValidEntry (lived self.old.world) (connection, ports)) }
        ensures ordered { IsStrictlySortedBy nat_cmp (keys_of self.old.connections) }
    {
        keeps_its_order(&self.connections);
        if !self.live(connection) {
            return None;
        }
        self.connections.remove(&connection)
    }

    /// What a packet does is done, and its connection names what it leaves.
    #[inline(always)]
    fn accept(
        mut self,
        alloc: Global,
        connection: u32,
        admitting: Admitting,
    ) -> Result<Hub<S, J, B>, NoMemory>
        requires live { is_live (actor_of connection) self.world.table ≡ true }
        requires small { connection ≤ 2 ^ 31 }
        requires valid { IsValid self → IsValid (accepted connection admitting self) }
        ensures { IfOk result (λ h. h ≡ accepted connection admitting self) }
    {
        let (acts, ports) = admitting.into_parts();
        self.connections.insert(connection, ports)?;
        let unchecked = self.unchecked.and_acted(connection, &acts);
        let actor = BEFORE_CONNECTIONS + connection;
        let world = self.world.send(alloc, actor, acts)?;
        Ok(Hub {
            world,
            unchecked,
            ..self
        })
    }

    /// A connection whose names were taken out of the state ends, where there is a cause.
    pub(crate) fn refuse(
        self,
        alloc: Global,
        connection: u32,
        refusal: Refusal,
    ) -> Result<(Hub<S, J, B>, Reply), NoMemory>
        requires { connection ≤ 2 ^ 31 }
        ensures state { IfOk result (λ done. IsCauseAnd refusal
            (λ f. done.0 ≡ finished [] (departed_for connection f self))) }
        ensures reply { IfOk result
            (λ done. IsCauseAnd refusal (λ f. done.1 ≡ reply.Refused f)) }
    {
        match refusal {
            Refusal::Cause(fault) => {
                let hub = self.end_for(alloc, connection, fault)?;
                hub.ends(alloc, &[], Reply::Refused(fault))
            }
            Refusal::NoMemory => Err(NoMemory),
        }
    }

    /// The events of a packet of a connection whose names were taken out of the state.
    #[inline(always)]
    fn judge_events(
        self,
        alloc: Global,
        connection: u32,
        ports: Ports,
        events: &TurnEvents,
    ) -> Result<(Hub<S, J, B>, Reply), NoMemory>
        requires live { is_live (actor_of connection) self.world.table ≡ true }
        requires small { connection ≤ 2 ^ 31 }
        requires next { self.world.table.next < worn_handle }
        requires valid { IsValidEntry (lived self.world) (connection, ports) }
        ensures state { IfOk result (λ done. done.0
            ≡ (judged connection (admission connection ports self.world events.now) self).state) }
        ensures reply { IfOk result (λ done. done.1
            ≡ (judged connection (admission connection ports self.world events.now) self).reply) }
    {
        match admission(alloc, connection, ports, events, &self.world) {
            Ok(admitting) => {
                let _wired = events.as_slice();
                let hub = self.accept(alloc, connection, admitting)?;
                hub.ends(alloc, &[], Reply::Taken)
            }
            Err(refusal) => self.refuse(alloc, connection, refusal),
        }
    }

    /// A packet of a connection whose names were taken out of the state. Its dialect is looked at
    /// before all else, and is the connection's from then on.
    #[inline(always)]
    fn hear(
        self,
        alloc: Global,
        connection: u32,
        mut ports: Ports,
        turn: &Turn,
    ) -> Result<(Hub<S, J, B>, Reply), NoMemory>
        requires live { is_live (actor_of connection) self.world.table ≡ true }
        requires small { connection ≤ 2 ^ 31 }
        requires next { self.world.table.next < worn_handle }
        requires valid { IsValidEntry (lived self.world) (connection, ports) }
        ensures state { IfOk result (λ done. done.0 ≡ (judged connection
            (turn_admission connection ports self.world turn.now) self).state) }
        ensures reply { IfOk result (λ done. done.1 ≡ (judged connection
            (turn_admission connection ports self.world turn.now) self).reply) }
    {
        if differ(turn.dialect, ports.dialect()) {
            return self.refuse(alloc, connection, Refusal::Cause(Fault::BadPacket));
        }
        ports.speak(turn.dialect);
        self.judge_events(alloc, connection, ports, &turn.events)
    }

    /// A connection's packet.
    pub(crate) fn packet(
        mut self,
        alloc: Global,
        connection: u32,
        turn: &Turn,
    ) -> Result<(Hub<S, J, B>, Reply), NoMemory>
        requires next { self.world.table.next < worn_handle }
        ensures state { IfOk result (λ done. done.0
            ≡ (packet_at connection (ports_of connection self) turn.now self).state) }
        ensures reply { IfOk result (λ done. done.1
            ≡ (packet_at connection (ports_of connection self) turn.now self).reply) }
    {
        match self.take_ports(connection) {
            Some(ports) => self.hear(alloc, connection, ports, turn),
            None => Ok((self, Reply::Gone)),
        }
    }

    /// What a connection sent is no packet.
    pub(crate) fn bad(
        self,
        alloc: Global,
        connection: u32,
        fault: Fault,
    ) -> Result<(Hub<S, J, B>, Reply), NoMemory>
        ensures state { IfOk result (λ done. done.0
            ≡ (bad_at connection (ports_of connection self) fault self).state) }
        ensures reply { IfOk result (λ done. done.1
            ≡ (bad_at connection (ports_of connection self) fault self).reply) }
    {
        if self.ports(connection).is_none() {
            return Ok((self, Reply::Gone));
        }
        let hub = self.fail(alloc, connection, fault)?;
        hub.ends(alloc, &[], Reply::Refused(fault))
    }

    /// A connection goes.
    pub(crate) fn leave(
        self,
        alloc: Global,
        connection: u32,
    ) -> Result<(Hub<S, J, B>, Reply), NoMemory>
        ensures state { IfOk result (λ done. done.0
            ≡ (close_at connection (ports_of connection self) self).state) }
        ensures reply { IfOk result (λ done. done.1
            ≡ (close_at connection (ports_of connection self) self).reply) }
    {
        if self.ports(connection).is_none() {
            return Ok((self, Reply::Gone));
        }
        let hub = self.close(alloc, connection)?;
        hub.ends(alloc, &[], Reply::Taken)
    }
}
