//! The turn of a system actor, event by event.
ghost use Rattle.std.specs.Prelude.{◌≡◌, [], true, IfOk, List, OnOk};
ghost use Rattle.ac_table.specs.Tables.{has_facet};
ghost use Rattle.ps_schema.specs.declared.Definition.{Definition};
ghost use Rattle.ds_space.specs.Spaces.{IsNew};
ghost use Rattle.ac_world.specs.Allocating.{allocated};
ghost use Rattle.ac_world.specs.Keeping.{resident_by, turning, turning_by, turning_over};
ghost use Rattle.ac_world.specs.Keeping.{GoesOn, IsToldBy, IsTurned, Stands};
ghost use Rattle.ac_world.specs.Turns.{allocating, releasing, left, came, changed_by, all_changed};
ghost use Rattle.ac_world.specs.Turns.{applied, by_assertion, by_message, taken_in, culprit};
ghost use Rattle.ac_world.specs.Turns.{passes_on, turned_by, all_turned};

use crate::actors::{FIRST_CONNECTION, FIRST_OTHER};
use crate::aims::Aim;
use crate::context::Context;
use crate::plans::Plan;
use crate::residents::Resident;
use crate::spreads::Spreads;
use crate::systems::{Outcome, System};
use ac_groups::Taken;
use ac_table::{BatchEvents, Event};
use ds_space::{Change, Changes, Fan, FanList, SpaceEvent};
use lc_watch::Behaves;
use pv_value::{NoMemory, Value};
use sr_pass::Judge;

impl<Y: System + Drop> Resident<Y> {
    /// The row for a key has gone; with the last of its group their facet goes, which is told.
    fn release(
        &mut self,
        actor: u32,
        plan: &mut Plan,
        key: &Value,
        facet: Option<u32>,
    ) -> Result<(), NoMemory>
        requires stands { Stands actor (turning_by Y.rows (turning self.old plan.old [])) }
        requires facet { IsToldBy (Y.grouping key.now) self.old.groups.facets facet }
        ensures stands { OnOk result
            (Stands actor (turning_by Y.rows (turning self.new plan.new []))) }
        ensures turns { OnOk result (turning_by Y.rows (turning self.new plan.new [])
            ≡ releasing actor (Y.grouping key.now)
            (turning_by Y.rows (turning self.old plan.old []))) }
        ensures system { OnOk result (self.new.system ≡ self.old.system) }
    {
        let Some(group) = Y::group(key) else {
            return Ok(());
        };
        let Some(facet) = facet else {
            return Ok(());
        };
        if !plan.release_facet(actor, facet)? {
            return Ok(());
        }
        self.groups.take_facet(group)?;
        Ok(())
    }

    /// A key is wanted no more.
    fn leave(&mut self, actor: u32, plan: &mut Plan, key: &Value) -> Result<(), NoMemory>
        requires { Stands actor (turning_by Y.rows (turning self.old plan.old [])) }
        ensures stands { OnOk result
            (Stands actor (turning_by Y.rows (turning self.new plan.new []))) }
        ensures turns { (ds : List Definition) → OnOk result
            (turning_by Y.rows (turning self.new plan.new [])
            ≡ left (Y.behaviour ds self.old.system) actor key.now
            (turning_by Y.rows (turning self.old plan.old []))) }
        ensures system { OnOk result (self.new.system ≡ self.old.system) }
    {
        let Taken { handle, facet } = self.groups.take(key)?;
        if let Some(handle) = handle {
            plan.drop_row(actor, handle)?;
        }
        self.release(actor, plan, key, facet)
    }

    /// The facet in which the row for a key is to stand: that of its group, which is told, made
    /// where it isn't there.
    fn allocate(
        &mut self,
        actor: u32,
        plan: &mut Plan,
        key: &Value,
        facet: Option<u32>,
    ) -> Result<u32, NoMemory>
        requires stands { Stands actor (turning_by Y.rows (turning self.old plan.old [])) }
        requires facet { IsToldBy (Y.grouping key.now) self.old.groups.facets facet }
        ensures stands { OnOk result
            (Stands actor (turning_by Y.rows (turning self.new plan.new []))) }
        ensures turns { OnOk result (turning_by Y.rows (turning self.new plan.new [])
            ≡ allocating actor (Y.grouping key.now)
            (turning_by Y.rows (turning self.old plan.old []))) }
        ensures there { IfOk result (λ facet. has_facet actor facet plan.new.table ≡ true) }
        ensures facet { IfOk result (λ facet. facet ≡ (allocated actor (Y.grouping key.now)
            self.old.groups.facets plan.old.table).facet) }
        ensures system { OnOk result (self.new.system ≡ self.old.system) }
    {
        let Some(group) = Y::group(key) else {
            return Ok(0);
        };
        if let Some(facet) = facet {
            return Ok(facet);
        }
        let facet = plan.allocate_facet(actor)?;
        self.groups.put_facet(group, facet)?;
        Ok(facet)
    }

    /// A key is wanted now. Where the caveats refuse what is wanted, nothing comes of it.
    fn come<J: Judge, B: Behaves>(
        &mut self,
        cx: &Context<J, B>,
        plan: &mut Plan,
        key: Value,
    ) -> Result<(), NoMemory>
        requires { Stands cx.now.actor (turning_by Y.rows (turning self.old plan.old [])) }
        ensures { OnOk result (GoesOn Y.rows (Y.behaviour (J.schema cx.now.judge.now)) Y.lasting
            cx.now.actor (turning self.old plan.old []) (λ y. came y cx.now.actor key)
            (turning self.new plan.new [])) }
    {
        let Some(Aim { at, value }) = self.system.aim(cx, &mut self.readings, &key)? else {
            return Ok(());
        };
        // The row that is put gets the next handle.
        let handle = plan.table.next_handle();
        let facet = self.groups.put(&key, handle)?;
        let facet = self.allocate(cx.actor, plan, &key, facet)?;
        plan.put(cx.actor, facet, (at.actor, at.entity), value)?;
        Ok(())
    }

    /// One change in what is wanted.
    fn change<J: Judge, B: Behaves>(
        &mut self,
        cx: &Context<J, B>,
        plan: &mut Plan,
        change: Change,
    ) -> Result<(), NoMemory>
        requires { Stands cx.now.actor (turning_by Y.rows (turning self.old plan.old [])) }
        ensures { OnOk result (GoesOn Y.rows (Y.behaviour (J.schema cx.now.judge.now)) Y.lasting
            cx.now.actor (turning self.old plan.old []) (λ y. changed_by y cx.now.actor change)
            (turning self.new plan.new [])) }
    {
        match change {
            Change::Left(key) => self.leave(cx.actor, plan, &key),
            Change::Came(key) => self.come(cx, plan, key),
        }
    }

    /// What changed in what is wanted.
    fn change_all<J: Judge, B: Behaves>(
        &mut self,
        cx: &Context<J, B>,
        plan: &mut Plan,
        changes: Changes,
    ) -> Result<(), NoMemory>
        requires { Stands cx.now.actor (turning_by Y.rows (turning self.old plan.old [])) }
        ensures { OnOk result (GoesOn Y.rows (Y.behaviour (J.schema cx.now.judge.now)) Y.lasting
            cx.now.actor (turning self.old plan.old [])
            (λ y. all_changed y cx.now.actor changes.items) (turning self.new plan.new [])) }
    {
        for change in changes {
            self.change(cx, plan, change)?;
        }
        Ok(())
    }

    /// The rows change by an event, where no more is wanted after it than may be.
    fn apply<J: Judge, B: Behaves>(
        &mut self,
        cx: &Context<J, B>,
        plan: &mut Plan,
        spreads: &mut Spreads,
        event: SpaceEvent,
    ) -> Result<(), NoMemory>
        requires stands { Stands cx.now.actor
            (turning_by Y.rows (turning self.old plan.old spreads.old)) }
        requires new { IsNew (Y.rows self.old.system) event }
        ensures { OnOk result (GoesOn Y.rows (Y.behaviour (J.schema cx.now.judge.now)) Y.lasting
            cx.now.actor (turning self.old plan.old spreads.old)
            (λ y. applied y cx.now.actor cx.now.from event)
            (turning self.new plan.new spreads.new)) }
    {
        match self.system.apply(cx.alloc, cx.behaves, event)? {
            Outcome::Done(changes) => self.change_all(cx, plan, changes),
            Outcome::Over(weight) => pass_over_event(cx, plan, spreads, weight),
        }
    }

    /// A row under a handle comes.
    fn take_in<J: Judge, B: Behaves>(
        &mut self,
        cx: &Context<J, B>,
        plan: &mut Plan,
        spreads: &mut Spreads,
        handle: u64,
        value: Value,
    ) -> Result<(), NoMemory>
        requires { Stands cx.now.actor
            (turning_by Y.rows (turning self.old plan.old spreads.old)) }
        ensures { OnOk result (GoesOn Y.rows (Y.behaviour (J.schema cx.now.judge.now)) Y.lasting
            cx.now.actor (turning self.old plan.old spreads.old)
            (λ y. taken_in y cx.now.actor cx.now.from handle value)
            (turning self.new plan.new spreads.new)) }
    {
        if self.system.has(handle) {
            return Ok(());
        }
        self.apply(cx, plan, spreads, SpaceEvent::Add(handle, value))
    }

    /// A message goes to those to whom the actor passes it on.
    fn pass_on<J: Judge, B: Behaves>(
        &mut self,
        cx: &Context<J, B>,
        plan: &mut Plan,
        spreads: &mut Spreads,
        message: &Value,
    ) -> Result<(), NoMemory>
        requires { Stands cx.now.actor
            (turning_by Y.rows (turning self.old plan.old spreads.old)) }
        ensures { OnOk result (GoesOn Y.rows (Y.behaviour (J.schema cx.now.judge.now)) Y.lasting
            cx.now.actor (turning self.old plan.old spreads.old)
            (λ y. passes_on y cx.now.from message.now)
            (turning self.new plan.new spreads.new)) }
    {
        match self.system.fan(cx.alloc, message)? {
            Fan::Each(list) => plan.say_all(cx.alloc, cx.judge, &mut self.readings, list),
            Fan::Over(weight) => pass_over_message(cx, plan, spreads, weight),
        }
    }

    /// One event.
    fn turn<J: Judge, B: Behaves>(
        &mut self,
        cx: &Context<J, B>,
        plan: &mut Plan,
        spreads: &mut Spreads,
        event: Event,
    ) -> Result<(), NoMemory>
        requires { Stands cx.now.actor
            (turning_by Y.rows (turning self.old plan.old spreads.old)) }
        ensures { OnOk result (GoesOn Y.rows (Y.behaviour (J.schema cx.now.judge.now)) Y.lasting
            cx.now.actor (turning self.old plan.old spreads.old)
            (λ y. turned_by y cx.now.actor cx.now.from event)
            (turning self.new plan.new spreads.new)) }
    {
        match event {
            Event::Assert(handle, _, value) => self.take_in(cx, plan, spreads, handle, value),
            Event::Retract(handle, _) => self.apply(cx, plan, spreads, SpaceEvent::Gone(handle)),
            Event::Message(_, value) => self.pass_on(cx, plan, spreads, &value),
            Event::Sync(_, peer) => plan.answer(cx.alloc, cx.judge, &mut self.readings, &peer),
        }
    }

    /// The events of a batch; answers who is to end.
    fn turn_all<J: Judge, B: Behaves>(
        &mut self,
        cx: &Context<J, B>,
        plan: &mut Plan,
        events: Vec<Event>,
    ) -> Result<Spreads, NoMemory>
        requires { Stands cx.now.actor (turning_by Y.rows (turning self.old plan.old [])) }
        ensures { IfOk result (λ spreads. GoesOn Y.rows
            (Y.behaviour (J.schema cx.now.judge.now)) Y.lasting
            cx.now.actor (turning self.old plan.old [])
            (λ y. all_turned y cx.now.actor cx.now.from events.items)
            (turning self.new plan.new spreads)) }
    {
        let mut spreads = Spreads::new(cx.alloc);
        for event in events {
            self.turn(cx, plan, &mut spreads, event)?;
        }
        Ok(spreads)
    }

    /// The actor's turn over a batch, with all that it does done; answers who is to end.
    pub fn take_turn<J: Judge, B: Behaves>(
        &mut self,
        cx: &Context<J, B>,
        plan: &mut Plan,
        events: BatchEvents,
    ) -> Result<Spreads, NoMemory>
        requires { Stands cx.now.actor (turning_by Y.rows (turning self.old plan.old [])) }
        ensures turned { IfOk result (λ spreads. IsTurned cx.now.actor
            (turning_over (Y.behaviour (J.schema cx.now.judge.now) self.old.system) cx.now.actor
            cx.now.from events (resident_by Y.rows self.old) plan.old)
            (resident_by Y.rows self.new) plan.new spreads) }
        ensures lasting { OnOk result (Y.lasting self.new.system ≡ Y.lasting self.old.system) }
    {
        let spreads = self.turn_all(cx, plan, events.into_vec())?;
        plan.commit(cx.actor)?;
        Ok(spreads)
    }
}

/// An event is passed over, since what is wanted would weigh so much; who is to end for it is
/// listed.
fn pass_over_event<J: Judge, B: Behaves>(
    cx: &Context<J, B>,
    plan: &Plan,
    spreads: &mut Spreads,
    weight: u64,
) -> Result<(), NoMemory>
    ensures { OnOk result (spreads.new
        ≡ by_assertion plan.now.table cx.now.actor cx.now.from weight spreads.old) }
{
    let culprit = culprit(cx.actor, cx.from);
    let ends = culprit >= FIRST_OTHER && plan.table.live(culprit);
    spreads.add(ends, culprit, weight)
}

/// A message is passed over, since what is sent would weigh so much; who is to end for it is
/// listed.
fn pass_over_message<J: Judge, B: Behaves>(
    cx: &Context<J, B>,
    plan: &Plan,
    spreads: &mut Spreads,
    weight: u64,
) -> Result<(), NoMemory>
    ensures { OnOk result (spreads.new
        ≡ by_message plan.now.table cx.now.from weight spreads.old) }
{
    let ends = cx.from >= FIRST_CONNECTION && plan.table.live(cx.from);
    spreads.add(ends, cx.from, weight)
}

/// Who ends where an assertion in a batch at an actor would have too much wanted: the one that made
/// the batch; where that is no connection and the actor is a watcher, the actor.
fn culprit(actor: u32, from: u32) -> u32
    ensures { result ≡ culprit actor from }
{
    if from >= FIRST_CONNECTION || actor < FIRST_OTHER {
        from
    } else {
        actor
    }
}
