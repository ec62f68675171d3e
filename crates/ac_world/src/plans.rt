//! A turn in the making: rows that come and go, and the events that tell of it.
ghost use Rattle.std.specs.Prelude.{◌≡◌, ◌<◌, true, false, not, [], ◌∷◌, if◌then◌else◌, OnOk, IfOk};
ghost use Rattle.pv_value.specs.Plain.{sequence, plains};
ghost use Rattle.ac_table.specs.Facets.{least_free};
ghost use Rattle.ac_table.specs.Tables.{is_live, has_facet, has_rows, tree_of, faceted};
ghost use Rattle.ac_table.specs.Tables.{without_facets};
ghost use Rattle.ac_world.specs.Allocating.{IsRooted};
ghost use Rattle.ac_world.specs.Outboxes.{plan_over, put, with_trees, dropped, said, committed};
ghost use Rattle.ac_world.specs.Outboxes.{acted, all_acted, owns};
ghost use Rattle.ac_world.specs.Aims.{aim_for};
ghost use Rattle.ac_world.specs.Turns.{say_at, say_all, answer_to};

use crate::acts::Act;
use crate::aims::Aim;
use crate::outboxes::Outbox;
use crate::readings::Readings;
use ac_table::{Event, Table};
use ds_space::{FanList, Fanned};
use pv_value::{NoMemory, Value};
use sr_pass::Judge;
use std::alloc::Global;
use std::marker::Model;

/// The table as the turn leaves it, and what is to be posted.
#[derive(Drop)]
pub struct Plan {
    pub table: Table,
    pub out: Outbox,
}

impl Model for Plan {
    ghost use Rattle.std.specs.Coded.{codes};
    ghost use Rattle.pv_value.specs.Lemmas.Coded.{plain_code};
    ghost use Rattle.ac_world.specs.Outboxes.{Plan as PlanOf};

    ghost Value = { PlanOf };

    ghost coded = { Prim.hlevel (codes, plain_code) };

    ghost view = { λ p. record { table = p.table; out = p.out } };
}

impl Plan {
    /// Nothing is done yet.
    pub fn new(alloc: Global, table: Table) -> Plan
        ensures { result ≡ plan_over table }
    {
        Plan {
            table,
            out: Outbox::new(alloc),
        }
    }

    /// A new row of a live owner in one of its facets, at the object `to.1` of the actor `to.0`;
    /// answers its handle.
    pub fn put(
        &mut self,
        owner: u32,
        facet: u32,
        to: (u32, u64),
        value: Value,
    ) -> Result<u64, NoMemory>
        requires live { is_live owner self.old.table ≡ true }
        requires facet { has_facet owner facet self.old.table ≡ true }
        ensures put { OnOk result (self.new ≡ put owner facet to.0 to.1 value self.old) }
        ensures handle { IfOk result (λ handle. handle ≡ self.old.table.next) }
    {
        let told = value.copy()?;
        match self.table.assert_row(owner, facet, to, value) {
            Ok(handle) => {
                self.out.tell(to.0, Event::Assert(handle, to.1, told))?;
                Ok(handle)
            }
            // The owner is live and the facet is there, so memory is wanting.
            Err(_) => Err(NoMemory),
        }
    }

    /// One more facet of a live owner, right below facet 0; answers its number.
    pub fn allocate_facet(&mut self, owner: u32) -> Result<u32, NoMemory>
        requires live { is_live owner self.old.table ≡ true }
        requires root { has_facet owner 0 self.old.table ≡ true }
        ensures number { IfOk result (λ n. n ≡ least_free (tree_of owner self.old.table)) }
        ensures some { IfOk result (λ n. 0 < n) }
        ensures free { IfOk result (λ n. has_facet owner n self.old.table ≡ false) }
        ensures made { IfOk result (λ n. self.new
            ≡ with_trees (faceted owner 0 n self.old.table).trees self.old) }
    {
        if let Ok(facet) = self.table.add_facet(owner, 0) {
            return Ok(facet);
        }
        // The owner is live and has facet 0, so memory is wanting.
        Err(NoMemory)
    }

    /// Stops a facet right below facet 0, where no row stands in it; answers whether it did.
    pub fn release_facet(&mut self, owner: u32, facet: u32) -> Result<bool, NoMemory>
        requires live { is_live owner self.old.table ≡ true }
        requires there { has_facet owner facet self.old.table ≡ true }
        requires below { 0 < facet }
        requires rooted { IsRooted (tree_of owner self.old.table) }
        ensures stopped { IfOk result (λ gone. gone ≡ not (has_rows owner facet self.old.table)) }
        ensures state { OnOk result (self.new ≡ with_trees
            (if has_rows owner facet self.old.table then self.old.table.trees
            else (without_facets owner (facet ∷ []) self.old.table).trees) self.old) }
    {
        if self.table.has_rows(owner, facet) {
            return Ok(false);
        }
        if let Ok(handles) = self.table.stop_facet(owner, facet) {
            drop(handles);
            return Ok(true);
        }
        // The owner is live and has the facet, so memory is wanting.
        Err(NoMemory)
    }

    /// Whether a row is the owner's.
    fn owns(&self, owner: u32, handle: u64) -> bool
        ensures { result ≡ owns owner handle self.now.table }
    {
        match self.table.row(handle) {
            Some(row) => row.owner == owner,
            None => false,
        }
    }

    /// The row under a handle goes, where it is the owner's.
    pub fn drop_row(&mut self, owner: u32, handle: u64) -> Result<(), NoMemory>
        ensures { OnOk result (self.new ≡ dropped owner handle self.old) }
    {
        if !self.owns(owner, handle) {
            return Ok(());
        }
        match self.table.retract_row(handle) {
            Ok(row) => {
                let (target, entity) = (row.target, row.entity);
                drop(row);
                self.out.tell(target, Event::Retract(handle, entity))
            }
            Err(_) => Ok(()),
        }
    }

    /// One more event.
    pub fn say(&mut self, target: u32, event: Event) -> Result<(), NoMemory>
        ensures { OnOk result (self.new ≡ said target event self.old) }
    {
        self.out.tell(target, event)
    }

    /// What gets through, to the object at which it aims.
    fn say_at(&mut self, aim: Option<Aim>) -> Result<(), NoMemory>
        ensures { OnOk result (self.new ≡ say_at aim self.old) }
    {
        match aim {
            Some(Aim { at, value }) => self.say(at.actor, Event::Message(at.entity, value)),
            None => Ok(()),
        }
    }

    /// A sync's answer, as it gets through the peer. Where the peer is no reference nobody is told.
    pub fn answer<J: Judge>(
        &mut self,
        alloc: Global,
        judge: &J,
        readings: &mut Readings,
        peer: &Value,
    ) -> Result<(), NoMemory>
        ensures { OnOk result (self.new ≡ answer_to (J.schema judge.now) peer.now self.old) }
    {
        let aim = readings.aim_at(alloc, judge, &Value::boolean(true), peer)?;
        self.say_at(aim)
    }

    /// The captures of a message, to the one that observes it.
    fn say_fanned<J: Judge>(
        &mut self,
        alloc: Global,
        judge: &J,
        readings: &mut Readings,
        fanned: Fanned,
    ) -> Result<(), NoMemory>
        ensures { OnOk result (self.new ≡ say_at (aim_for (J.schema judge.now)
            (sequence (plains fanned.captures)) fanned.observe) self.old) }
    {
        let Fanned { observe, captures } = fanned;
        let aim = readings.aim_for(alloc, judge, &Value::sequence(captures), &observe)?;
        self.say_at(aim)
    }

    /// The captures of a message, to each that observes it.
    pub fn say_all<J: Judge>(
        &mut self,
        alloc: Global,
        judge: &J,
        readings: &mut Readings,
        list: FanList,
    ) -> Result<(), NoMemory>
        ensures { OnOk result (self.new ≡ say_all (J.schema judge.now) list.items self.old) }
    {
        for fanned in list {
            self.say_fanned(alloc, judge, readings, fanned)?;
        }
        Ok(())
    }

    /// One act of a live connection.
    fn act(&mut self, actor: u32, act: Act) -> Result<(), NoMemory>
        requires live { is_live actor self.old.table ≡ true }
        requires root { has_facet actor 0 self.old.table ≡ true }
        ensures { OnOk result (self.new ≡ acted actor act self.old) }
    {
        match act {
            Act::Assert(target, entity, value) => {
                self.put(actor, 0, (target, entity), value)?;
                Ok(())
            }
            Act::Retract(handle) => self.drop_row(actor, handle),
            Act::Message(target, entity, value) => self.say(target, Event::Message(entity, value)),
            Act::Sync(target, entity, peer) => self.say(target, Event::Sync(entity, peer)),
        }
    }

    /// The acts of a live connection, in order.
    pub fn act_all(&mut self, actor: u32, acts: Vec<Act>) -> Result<(), NoMemory>
        requires live { is_live actor self.old.table ≡ true }
        requires root { has_facet actor 0 self.old.table ≡ true }
        ensures { OnOk result (self.new ≡ all_acted actor acts.items self.old) }
    {
        for act in acts {
            self.act(actor, act)?;
        }
        Ok(())
    }

    /// All of it is done: each live target has its batch, and nothing is to be posted any more.
    pub fn commit(&mut self, from: u32) -> Result<(), NoMemory>
        ensures { OnOk result (self.new ≡ plan_over (committed from self.old)) }
    {
        let out = self.out.take();
        out.post(from, &mut self.table)
    }
}
