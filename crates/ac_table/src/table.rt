//! The table, as ordered maps.
ghost use Rattle.std.specs.Prelude.{◌≡◌, ◌<◌, ◌≤◌, ◌^◌, ◌-◌, false, min, IfOk, OnOk, OnErr, Err};
ghost use Rattle.std.specs.Prelude.{option_copied, MatchOption, None, Some, IfNone, ◌≢◌, []};
ghost use Rattle.std.specs.Prelude.{vec_capacity, true, ℕ, is_some};
ghost use Rattle.ac_table.specs.declared.TableFault.TheVariants.{NoMemory as no_memory};
ghost use Rattle.ac_table.specs.Faults.{actor_fault, facet_fault, row_fault, Faults, ExactFaults};
ghost use Rattle.ac_table.specs.Sums.{top, top_load, load_for, load_sent, load_below, weight_owned};
ghost use Rattle.ac_table.specs.Tables.{opening, is_live, find_row, rows_of, has_rows};
ghost use Rattle.ac_table.specs.Tables.{first_batch, has_facet, tree_of, faceted, IsStopped};
ghost use Rattle.ac_table.specs.Facets.{IsLeastFree, IsTree, least_free};
ghost use Rattle.ac_table.specs.Kept.{AreStopping};
ghost use Rattle.ac_table.specs.Maps.{is_key};
ghost use Rattle.std.specs.BTreeSet.{btree_set_len};
ghost use Rattle.std.specs.List.Sorted.{IsStrictlySortedBy};
ghost use Rattle.std.specs.Ordering.{nat_cmp};
ghost use Rattle.ac_table.specs.Tables.{lowest, waiting, joined, asserted, retracted, ended};
ghost use Rattle.ac_table.specs.Tables.{pushed};
ghost use Rattle.ac_table.specs.Tables.{popped, IsTable};

use crate::TableFault;
use crate::batches::{Batch, Row};
use crate::facets::Facets;
use crate::handles::NextHandle;
use crate::inbox::Inbox;
use crate::keeping::{disown, list, pop_busy, push_busy, put_row, take_off_all, take_rows};
use crate::loads::Load;
use crate::sets::keeps_its_order;
use crate::sum::Sum;
use pv_value::{NoMemory, Value, weight};
use std::alloc::Global;
use std::collections::{BTreeMap, BTreeSet};
use std::marker::Model;

/// A live actor: the handles of its rows, what they weigh, what waits for it, and its facets.
#[derive(Drop)]
struct LiveActor {
    own: BTreeSet<u64>,
    row_weight: Sum,
    inbox: Inbox,
    facets: Facets,
}

/// What goes where a facet stops: facets, the handles of their rows, which are to be told, and room
/// for these rows.
#[derive(Drop)]
struct Stopping {
    facets: BTreeSet<u32>,
    handles: BTreeSet<u64>,
    told: Vec<u64>,
    room: Vec<Row>,
}

/// Live actors with their inboxes and facets, and rows.
#[derive(Drop)]
pub struct Table {
    alloc: Global,
    next: NextHandle,
    rows: BTreeMap<u64, Row>,
    actors: BTreeMap<u32, LiveActor>,
    /// The actors for which a batch waits.
    busy: BTreeSet<u32>,
    /// How many batches wait.
    waiting: u64,
}

impl Model for Table {
    ghost use Rattle.std.specs.Coded.{codes};
    ghost use Rattle.pv_value.specs.Lemmas.Coded.{plain_code};
    ghost use Rattle.ac_table.specs.Tables.{TableState};

    ghost Value = { TableState };

    ghost coded = { Prim.hlevel (codes, plain_code) };

    ghost use Rattle.ac_table.specs.Kept.{state_of, IsWhole};

    ghost view = { λ t. state_of t.next t.rows.entries t.actors.entries };

    ghost invariant = { λ t. IsWhole t.next t.rows.entries t.actors.entries t.busy.keys
        t.waiting };
}

impl Table {
    /// No actor is live, and the next handle is 1.
    pub fn new(alloc: Global) -> Table
        ensures { result ≡ opening }
    {
        Table {
            alloc,
            next: NextHandle::first(),
            rows: BTreeMap::new(alloc),
            actors: BTreeMap::new(alloc),
            busy: BTreeSet::new(alloc),
            waiting: 0,
        }
    }

    pub fn live(&self, actor: u32) -> bool
        ensures { result ≡ is_live actor self.now }
    {
        self.actors.contains_key(&actor)
    }

    pub fn row(&self, handle: u64) -> Option<&Row>
        ensures { option_copied result ≡ find_row handle self.now.rows }
    {
        self.rows.get(&handle)
    }

    /// Whether a live actor has a facet.
    pub fn has_facet(&self, actor: u32, facet: u32) -> bool
        ensures { result ≡ has_facet actor facet self.now }
    {
        match self.actors.get(&actor) {
            Some(it) => it.facets.has(facet),
            None => false,
        }
    }

    /// Whether rows of an actor stand in a facet.
    pub fn has_rows(&self, actor: u32, facet: u32) -> bool
        ensures { result ≡ has_rows actor facet self.now }
    {
        match self.actors.get(&actor) {
            Some(it) => it.facets.has_rows(facet),
            None => false,
        }
    }

    /// The handle that the next row gets.
    pub fn next_handle(&self) -> u64
        ensures next { result ≡ self.now.next }
        ensures small { result ≤ 2 ^ 63 }
    {
        self.next.get()
    }

    /// The batch that the actor takes next.
    pub fn first(&self, actor: u32) -> Option<&Batch>
        ensures { option_copied result ≡ first_batch actor self.now }
    {
        let it = self.actors.get(&actor)?;
        it.inbox.front()
    }

    /// What waits for an actor.
    pub fn load(&self, actor: u32) -> Load
        ensures { result ≡ top_load (load_for actor self.now) }
    {
        match self.actors.get(&actor) {
            Some(it) => it.inbox.load(),
            None => Load::none(),
        }
    }

    /// What of an actor's waits for another.
    pub fn load_sent(&self, actor: u32, to: u32) -> Load
        ensures { result ≡ top_load (load_sent actor to self.now) }
    {
        match self.actors.get(&to) {
            Some(it) => it.inbox.load_from(actor),
            None => Load::none(),
        }
    }

    /// What of an actor's waits for the actors below `end`, each of which is looked up.
    pub fn load_below(&self, actor: u32, end: u32) -> Load
        ensures { result ≡ top_load (load_below actor end self.now) }
    {
        let mut load = Load::none();
        for to in 0..end {
            load = load.and(self.load_sent(actor, to));
        }
        load
    }

    /// What the values of an actor's rows weigh together.
    pub fn row_weight(&self, actor: u32) -> u64
        ensures { result ≡ top (weight_owned actor self.now) }
    {
        match self.actors.get(&actor) {
            Some(it) => it.row_weight.told(),
            None => 0,
        }
    }

    /// The lowest of the actors for which a batch waits.
    pub fn lowest(&self) -> Option<u32>
        ensures { result ≡ lowest self.now }
    {
        self.busy.first().copied()
    }

    /// The actors for which a batch waits.
    pub fn busy(&self) -> &BTreeSet<u32>
        ensures { (a : ℕ) → is_key a result.now.keys ≡ is_some (first_batch a self.now) }
    {
        &self.busy
    }

    /// How many batches wait.
    pub fn batches(&self) -> u64
        ensures { result ≡ min (waiting self.now) (2 ^ 64 - 1) }
    {
        self.waiting
    }

    /// What is true of every table.
    pub fn keeps_its_order(&self)
        ensures { IsTable self.now }
    {
        let _ = &self.next;
    }

    /// What is true of an actor's facets.
    pub fn keeps_its_tree(&self, actor: u32)
        ensures { IsTree (tree_of actor self.now) }
    {
        match self.actors.get(&actor) {
            Some(it) => it.facets.keeps_its_tree(),
            None => {}
        }
    }

    /// Makes an actor live that isn't, as one is whose number was never used.
    pub fn add_actor(&mut self, actor: u32) -> Result<(), NoMemory>
        requires { is_live actor self.old ≡ false }
        ensures joined { OnOk result (self.new ≡ joined actor self.old) }
        ensures unchanged { OnErr result (self.new ≡ self.old) }
    {
        let facets = Facets::new(self.alloc)?;
        let it = LiveActor {
            own: BTreeSet::new(self.alloc),
            row_weight: Sum::none(),
            inbox: Inbox::new(self.alloc),
            facets,
        };
        self.actors.insert(actor, it)?;
        Ok(())
    }

    /// One more facet of an actor, right below another; answers its number, the least from 1 that
    /// none has. Where none of 32 bits is free memory is said to be wanting.
    pub fn add_facet(&mut self, actor: u32, parent: u32) -> Result<u32, TableFault>
        ensures fault { Faults (facet_fault actor parent self.old) self.old self.new result }
        ensures made { IfOk result (λ n. self.new ≡ faceted actor parent n self.old) }
        ensures least { IfOk result (λ n. IsLeastFree n (tree_of actor self.old)) }
        ensures number { IfOk result (λ n. n ≡ least_free (tree_of actor self.old)) }
    {
        if !self.live(actor) {
            return Err(TableFault::NoActor);
        }
        if !self.has_facet(actor, parent) {
            return Err(TableFault::NoFacet);
        }
        let Some(it) = self.actors.get_mut(&actor) else {
            return Err(TableFault::NoActor);
        };
        let number = it.facets.add(self.alloc, parent)?;
        Ok(number)
    }

    /// What goes where a facet of a live actor stops.
    fn stopping(&self, actor: u32, facet: u32) -> Result<Stopping, NoMemory>
        requires { has_facet actor facet self.now ≡ true }
        ensures stopping { IfOk result (λ s. AreStopping actor facet s.facets.keys s.handles.keys
            s.told.items self.now) }
        ensures ascending { IfOk result (λ s. IsStrictlySortedBy nat_cmp s.told.items) }
        ensures empty { IfOk result (λ s. s.room.items ≡ []) }
        ensures room { IfOk result (λ s. btree_set_len s.handles ≤ vec_capacity s.room) }
    {
        let Some(it) = self.actors.get(&actor) else {
            return Err(NoMemory);
        };
        let facets = it.facets.all_below(self.alloc, facet)?;
        let handles = it.facets.rows_in(self.alloc, &facets)?;
        let told = list(self.alloc, &handles)?;
        let room = Vec::with_capacity(self.alloc, handles.len())?;
        Ok(Stopping {
            facets,
            handles,
            told,
            room,
        })
    }

    /// These facets of a live actor go, with exactly their rows.
    fn stop(&mut self, actor: u32, facet: u32, stopping: Stopping) -> Result<Vec<u64>, NoMemory>
        requires there { has_facet actor facet self.old ≡ true }
        requires stopping { AreStopping actor facet stopping.facets.keys stopping.handles.keys
            stopping.told.items self.old }
        requires empty { stopping.room.items ≡ [] }
        requires room { btree_set_len stopping.handles ≤ vec_capacity stopping.room }
        ensures stopped { IfOk result (λ handles. IsStopped actor facet self.old self.new
            handles.items) }
        ensures told { IfOk result (λ handles. handles.items ≡ stopping.told.items) }
    {
        let Stopping {
            facets,
            handles,
            told,
            room,
        } = stopping;
        let Some(it) = self.actors.get_mut(&actor) else {
            return Err(NoMemory);
        };
        it.facets.remove(facet, &facets)?;
        disown(&mut it.own, &handles);
        let taken = take_rows(&mut self.rows, handles, room);
        take_off_all(&mut it.row_weight, &taken);
        Ok(told)
    }

    /// Stops an actor's facet and all that are below it: they go, with exactly their rows. Answers
    /// the handles of these rows, ascending.
    pub fn stop_facet(&mut self, actor: u32, facet: u32) -> Result<Vec<u64>, TableFault>
        ensures fault { Faults (facet_fault actor facet self.old) self.old self.new result }
        ensures stopped { IfOk result (λ handles. IsStopped actor facet self.old self.new
            handles.items) }
        ensures ascending { IfOk result (λ handles. IsStrictlySortedBy nat_cmp handles.items) }
    {
        if !self.live(actor) {
            return Err(TableFault::NoActor);
        }
        if !self.has_facet(actor, facet) {
            return Err(TableFault::NoFacet);
        }
        let stopping = self.stopping(actor, facet)?;
        let handles = self.stop(actor, facet, stopping)?;
        Ok(handles)
    }

    /// One more row of the owner, at the object `to.1` of the actor `to.0`; answers its handle.
    /// A handle of 2^63 or more is never given: there memory is said to be wanting.
    pub fn assert_row(
        &mut self,
        owner: u32,
        facet: u32,
        to: (u32, u64),
        value: Value,
    ) -> Result<u64, TableFault>
        ensures fault { Faults (facet_fault owner facet self.old) self.old self.new result }
        ensures made { OnOk result (self.new ≡ asserted owner facet to.0 to.1 value self.old) }
        ensures handle { IfOk result (λ handle. handle ≡ self.old.next) }
        ensures small { IfOk result (λ handle. handle < 2 ^ 63) }
    {
        if !self.live(owner) {
            return Err(TableFault::NoActor);
        }
        if !self.has_facet(owner, facet) {
            return Err(TableFault::NoFacet);
        }
        let handle = self.next.get();
        if handle >= 1 << 63 {
            return Err(TableFault::NoMemory);
        }
        let Some(it) = self.actors.get_mut(&owner) else {
            return Err(TableFault::NoActor);
        };
        let weight = weight(&value);
        keeps_its_order(&it.own);
        let row = Row {
            handle,
            owner,
            facet,
            target: to.0,
            entity: to.1,
            value,
        };
        put_row(&mut self.rows, &mut it.own, &mut it.facets, row)?;
        it.row_weight.add(weight);
        self.next.advance();
        Ok(handle)
    }

    /// Takes a row out.
    pub fn retract_row(&mut self, handle: u64) -> Result<Row, TableFault>
        ensures fault { ExactFaults (row_fault handle self.old) self.old self.new result }
        ensures memory { result ≢ Err no_memory }
        ensures gone { OnOk result (self.new ≡ retracted handle self.old) }
        ensures row { IfOk result (λ row. find_row handle self.old.rows ≡ Some row) }
    {
        let Some(row) = self.rows.remove(&handle) else {
            return Err(TableFault::NoRow);
        };
        // The owner of each row is live.
        let Some(it) = self.actors.get_mut(&row.owner) else {
            return Ok(row);
        };
        it.own.remove(&handle);
        it.facets.remove_row(row.facet, handle);
        it.row_weight.take_off(weight(&row.value));
        Ok(row)
    }

    /// Takes an actor out, with its inbox; answers its rows, which go too, ascending by handle.
    pub fn end_actor(&mut self, actor: u32) -> Result<Vec<Row>, TableFault>
        ensures fault { Faults (actor_fault actor self.old) self.old self.new result }
        ensures ended { OnOk result (self.new ≡ ended actor self.old) }
        ensures rows { IfOk result (λ rows. rows.items ≡ rows_of actor self.old.rows) }
    {
        let Some(it) = self.actors.get(&actor) else {
            return Err(TableFault::NoActor);
        };
        let room = Vec::with_capacity(self.alloc, it.own.len())?;
        let Some(it) = self.actors.remove(&actor) else {
            return Err(TableFault::NoActor);
        };
        self.busy.remove(&actor);
        self.waiting -= it.inbox.len() as u64;
        Ok(take_rows(&mut self.rows, it.own, room))
    }

    /// One more batch for a live actor, behind those that wait.
    pub fn push_batch(&mut self, actor: u32, batch: Batch) -> Result<(), TableFault>
        ensures fault { Faults (actor_fault actor self.old) self.old self.new result }
        ensures pushed { OnOk result (self.new ≡ pushed actor batch self.old) }
    {
        let Some(it) = self.actors.get_mut(&actor) else {
            return Err(TableFault::NoActor);
        };
        push_busy(
            &mut self.busy,
            &mut self.waiting,
            actor,
            &mut it.inbox,
            batch,
        )?;
        Ok(())
    }

    /// Takes the first batch for a live actor, where one waits.
    pub fn pop_batch(&mut self, actor: u32) -> Result<Option<Batch>, TableFault>
        ensures fault { ExactFaults (actor_fault actor self.old) self.old self.new result }
        ensures memory { result ≢ Err no_memory }
        ensures batch { IfOk result (λ batch. batch ≡ first_batch actor self.old) }
        ensures popped { OnOk result (self.new ≡ popped actor self.old) }
        ensures none { IfOk result (λ batch. IfNone batch (self.new ≡ self.old)) }
    {
        let Some(it) = self.actors.get_mut(&actor) else {
            return Err(TableFault::NoActor);
        };
        let batch = pop_busy(&mut self.busy, &mut self.waiting, actor, &mut it.inbox);
        Ok(batch)
    }
}
