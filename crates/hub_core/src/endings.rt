//! How connections and watchers end, and who ends at the end of a step.
ghost use Rattle.std.specs.Prelude.{◌≡◌, ◌≤◌, ◌^◌, IfOk, IfSome};
ghost use Rattle.std.specs.Map.{keys_of};
ghost use Rattle.hub_machine.specs.Endings.{departed, departed_for, closed, failed, failed_where};
ghost use Rattle.hub_machine.specs.Endings.{dismissed, spread_out, all_spread_out, overrun_by};
ghost use Rattle.hub_machine.specs.Endings.{overrun_of, all_overrun, each_overrun, finished};
ghost use Rattle.hub_core.specs.Looking.{AreWithin, AreWithinBut, IdleAreWithin, AreLeft};
ghost use Rattle.hub_core.specs.Work.{waited_for};

use crate::hub::Hub;
use crate::packets::keeps_its_order;
use crate::unchecked::Unchecked;
use ac_world::{BEFORE_CONNECTIONS, FIRST_CONNECTION, Load, Spread};
use ds_space::Space;
use hub_machine::{DATASPACES, DELIVERIES, DELIVERIES_WEIGHT, Fault, Reply, overrun};
use lc_watch::Behaves;
use pv_value::NoMemory;
use sr_pass::Judge;
use std::alloc::Global;

/// More deliveries than may be.
fn overrun_by(load: Load) -> Option<Fault>
    ensures { result ≡ overrun_by load }
{
    overrun(DELIVERIES, 1, load.count).or(overrun(DELIVERIES_WEIGHT, 2, load.weight))
}

impl<S: Space + Drop, J: Judge + Drop, B: Behaves + Drop> Hub<S, J, B> {
    /// An actor that isn't always live goes, where it is live.
    fn dismiss(self, alloc: Global, actor: u32) -> Result<Hub<S, J, B>, NoMemory>
        requires { 9 ≤ actor }
        ensures { IfOk result (λ h. h ≡ dismissed actor self) }
    {
        let world = self.world.end(alloc, actor)?;
        Ok(Hub { world, ..self })
    }

    /// A connection ends. Its names are gone already.
    fn end(self, alloc: Global, connection: u32) -> Result<Hub<S, J, B>, NoMemory>
        requires { connection ≤ 2 ^ 31 }
        ensures { IfOk result (λ h. h ≡ departed connection self) }
    {
        self.dismiss(alloc, BEFORE_CONNECTIONS + connection)
    }

    /// A connection ends.
    pub(crate) fn close(mut self, alloc: Global, connection: u32) -> Result<Hub<S, J, B>, NoMemory>
        requires { connection ≤ 2 ^ 31 }
        ensures { IfOk result (λ h. h ≡ closed connection self) }
    {
        self.connections.remove(&connection);
        self.end(alloc, connection)
    }

    /// A connection ends for a fault. Its names are gone already.
    pub(crate) fn end_for(
        self,
        alloc: Global,
        connection: u32,
        fault: Fault,
    ) -> Result<Hub<S, J, B>, NoMemory>
        requires { connection ≤ 2 ^ 31 }
        ensures { IfOk result (λ h. h ≡ departed_for connection fault self) }
    {
        let mut hub = self.end(alloc, connection)?;
        hub.faults.insert(connection, fault)?;
        Ok(hub)
    }

    /// A connection ends for a fault.
    pub(crate) fn fail(
        mut self,
        alloc: Global,
        connection: u32,
        fault: Fault,
    ) -> Result<Hub<S, J, B>, NoMemory>
        requires { connection ≤ 2 ^ 31 }
        ensures { IfOk result (λ h. h ≡ failed connection fault self) }
    {
        self.connections.remove(&connection);
        self.end_for(alloc, connection, fault)
    }

    /// Who spread ends, where it isn't always live: a connection for a fault, where it is there,
    /// and a watcher without one.
    #[inline(always)]
    fn spread_out(self, alloc: Global, spread: Spread) -> Result<Hub<S, J, B>, NoMemory>
        ensures { IfOk result (λ h. h ≡ spread_out spread self) }
    {
        if spread.actor <= u32::from(DATASPACES) {
            return Ok(self);
        }
        if spread.actor < FIRST_CONNECTION {
            return self.dismiss(alloc, spread.actor);
        }
        let connection = spread.actor - BEFORE_CONNECTIONS;
        if !self.live(connection) {
            return Ok(self);
        }
        self.fail(alloc, connection, Fault::Spread(spread.weight))
    }

    /// Those that spread end, in order.
    #[inline(always)]
    fn all_spread_out(self, alloc: Global, spreads: &[Spread]) -> Result<Hub<S, J, B>, NoMemory>
        ensures { IfOk result (λ h. h ≡ all_spread_out spreads.now self) }
    {
        let mut hub = self;
        for spread in spreads {
            hub = hub.spread_out(alloc, *spread)?;
        }
        Ok(hub)
    }

    /// Why a connection ends for which too much is held and waits.
    fn overrun_of(&self, connection: u32) -> Option<Fault>
        ensures fault { result ≡ overrun_of connection self.now }
        ensures small { IfSome result (λ f. connection ≤ 2 ^ 31) }
    {
        if !self.live(connection) {
            return None;
        }
        overrun_by(self.world.deliveries(BEFORE_CONNECTIONS + connection))
    }

    /// A connection ends, where there is a fault.
    #[inline(always)]
    fn fail_where(
        self,
        alloc: Global,
        connection: u32,
        fault: Option<Fault>,
    ) -> Result<Hub<S, J, B>, NoMemory>
        requires { IfSome fault (λ f. connection ≤ 2 ^ 31) }
        ensures { IfOk result (λ h. h ≡ failed_where connection fault self) }
    {
        match fault {
            Some(fault) => self.fail(alloc, connection, fault),
            None => Ok(self),
        }
    }

    /// The connections of these numbers end for which too much is held and waits, in order.
    fn all_overrun(self, alloc: Global, connections: &[u32]) -> Result<Hub<S, J, B>, NoMemory>
        ensures { IfOk result (λ h. h ≡ all_overrun connections.now self) }
    {
        let mut hub = self;
        for connection in connections {
            let fault = hub.overrun_of(*connection);
            hub = hub.fail_where(alloc, *connection, fault)?;
        }
        Ok(hub)
    }

    /// The numbers of the live connections, ascending.
    fn numbers(&self, alloc: Global) -> Result<Vec<u32>, NoMemory>
        ensures { IfOk result (λ ks. ks.items ≡ keys_of self.now.connections) }
    {
        let mut numbers = Vec::new(alloc);
        for connection in self.connections.keys() {
            numbers.push(*connection)?;
        }
        Ok(numbers)
    }

    /// The numbers of the connections with names for which a batch waits, ascending.
    fn waited_for(&self, alloc: Global) -> Result<Vec<u32>, NoMemory>
        ensures { IfOk result (λ ks. ks.items ≡ waited_for self.now) }
    {
        keeps_its_order(&self.connections);
        let mut numbers = Vec::new(alloc);
        for actor in self.world.busy().iter() {
            if let Some(connection) = self.named_by(*actor) {
                numbers.push(connection)?;
            }
        }
        Ok(numbers)
    }

    /// Who is left to be looked at.
    fn unchecked(&self) -> Unchecked
        ensures { AreLeft result self.now.world self.now.connections }
    {
        self.unchecked
    }

    /// Nobody is left to be looked at.
    #[inline(always)]
    fn looked(mut self) -> Hub<S, J, B>
        requires { AreWithin self }
        ensures { result ≡ self }
    {
        self.unchecked = Unchecked::Nobody;
        self
    }

    /// The one connection is looked at that is left, and ends, where it has to.
    #[inline(always)]
    fn look_at(self, alloc: Global, connection: u32) -> Result<Hub<S, J, B>, NoMemory>
        requires { AreWithinBut connection self }
        ensures { IfOk result (λ h. h ≡ each_overrun self) }
    {
        let fault = self.overrun_of(connection);
        let hub = self.fail_where(alloc, connection, fault)?;
        Ok(hub.looked())
    }

    /// Each connection for which a batch waits is looked at, and those end who have to.
    #[inline(always)]
    fn look_at_waiting(self, alloc: Global) -> Result<Hub<S, J, B>, NoMemory>
        requires { IdleAreWithin self }
        ensures { IfOk result (λ h. h ≡ each_overrun self) }
    {
        let waiting = self.waited_for(alloc)?;
        let hub = self.all_overrun(alloc, &waiting)?;
        Ok(hub.looked())
    }

    /// Each live connection is looked at, and those end who have to.
    fn look_at_each(self, alloc: Global) -> Result<Hub<S, J, B>, NoMemory>
        ensures { IfOk result (λ h. h ≡ each_overrun self) }
    {
        let numbers = self.numbers(alloc)?;
        let hub = self.all_overrun(alloc, &numbers)?;
        Ok(hub.looked())
    }

    /// Those are looked at that are left, and those end who have to.
    #[inline(always)]
    fn look(self, alloc: Global) -> Result<Hub<S, J, B>, NoMemory>
        ensures { IfOk result (λ h. h ≡ each_overrun self) }
    {
        match self.unchecked() {
            Unchecked::Nobody => Ok(self),
            Unchecked::One(connection) => self.look_at(alloc, connection),
            Unchecked::Waiting => self.look_at_waiting(alloc),
            Unchecked::All => self.look_at_each(alloc),
        }
    }

    /// The step's end: those end who have to.
    #[inline(always)]
    fn finish(self, alloc: Global, spreads: &[Spread]) -> Result<Hub<S, J, B>, NoMemory>
        ensures { IfOk result (λ h. h ≡ finished spreads.now self) }
    {
        let hub = self.all_spread_out(alloc, spreads)?;
        hub.look(alloc)
    }

    /// A step that did something is answered, at whose end those end who have to.
    #[inline(always)]
    pub(crate) fn ends(
        self,
        alloc: Global,
        spreads: &[Spread],
        reply: Reply,
    ) -> Result<(Hub<S, J, B>, Reply), NoMemory>
        ensures state { IfOk result (λ done. done.0 ≡ finished spreads.now self) }
        ensures reply { IfOk result (λ done. done.1 ≡ reply) }
    {
        Ok((self.finish(alloc, spreads)?, reply))
    }
}
