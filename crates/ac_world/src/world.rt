//! The world and its changes.
ghost use Rattle.std.specs.Prelude.{◌≡◌, ◌<◌, ◌≤◌, ◌^◌, ◌-◌, ◌+◌, length, min, true};
ghost use Rattle.std.specs.Prelude.{IfOk, option_copied, ℕ, is_some};
ghost use Rattle.ac_table.specs.Maps.{is_key};
ghost use Rattle.ac_table.specs.Tables.{is_live, find_row, first_batch, lowest, waiting};
ghost use Rattle.gk_sturdy.specs.Bindings.{bound};
ghost use Rattle.ac_world.specs.Judging.{IsJudged};
ghost use Rattle.ac_world.specs.Limits.{most_watchers};
ghost use Rattle.ac_world.specs.Worlds.{beginning, binding, watching, arrived, sent, ended_of};
ghost use Rattle.ac_world.specs.Turns.{turn, work};

use crate::acts::Act;
use crate::parts::Parts;
use crate::turns::Turned;
use crate::watched::Watched;
use ac_table::{Batch, Row};
use ds_space::Space;
use gk_sturdy::Binding;
use lc_watch::Behaves;
use pv_value::{NoMemory, Value};
use sr_pass::Judge;
use std::alloc::Global;
use std::collections::BTreeSet;
use std::marker::Model;

/// Live actors with their inboxes, rows, and what was delivered to whom. It lies behind a pointer,
/// so that to hand it on costs nothing.
#[derive(Drop)]
pub struct World<S: Space + Drop, J: Judge + Drop, B: Behaves + Drop> {
    pub(crate) parts: Box<Parts<S, J, B>>,
}

impl<S: Space + Drop, J: Judge + Drop, B: Behaves + Drop> Model for World<S, J, B> {
    ghost use Rattle.std.specs.Coded.{codes};
    ghost use Rattle.pv_value.specs.Lemmas.Coded.{plain_code};
    ghost use Rattle.sr_caveat.specs.Lemmas.Coded.{caveat_code};
    ghost use Rattle.ps_schema.specs.Lemmas.CodedDefinitions.{definition_code};
    ghost use Rattle.ac_world.specs.Worlds.{WorldState};

    ghost Value = { WorldState };

    ghost coded = { Prim.hlevel (codes, plain_code, caveat_code, definition_code) };

    ghost use Rattle.ac_world.specs.Keeping.{world_by, AreSound};

    ghost view = { λ w. world_by J.schema w.parts.value };

    ghost invariant = { λ w. AreSound w.parts.value };
}

impl<S: Space + Drop, J: Judge + Drop, B: Behaves + Drop> World<S, J, B> {
    /// The opening: the gatekeeper and the dataspaces are live, and nothing is said. Guards judge
    /// by what is handed in, and so do watchers act.
    pub fn begin(alloc: Global, judge: J, behaves: B) -> Result<World<S, J, B>, NoMemory>
        ensures { IfOk result (λ w. w ≡ beginning (J.schema judge)) }
    {
        let parts = Parts::begin(alloc, judge, behaves)?;
        Ok(World {
            parts: Box::new(alloc, parts)?,
        })
    }

    /// What guards judge by.
    pub fn judge(&self) -> &J
        ensures { J.schema result.now ≡ self.now.schema }
    {
        &self.parts.judge
    }

    /// What watchers act by.
    pub fn behaves(&self) -> &B {
        &self.parts.behaves
    }

    /// The watchers that were ever made: actor 9 is the first.
    pub fn watches(&self) -> &[Watched]
        ensures { result.now ≡ self.now.watches }
    {
        &self.parts.watches
    }

    /// The handle that is drawn next.
    pub fn next_handle(&self) -> u64
        ensures next { result ≡ self.now.table.next }
        ensures small { result ≤ 2 ^ 63 }
    {
        self.parts.plan.table.next_handle()
    }

    /// How many connections were ever opened.
    pub fn opened(&self) -> u32
        ensures { result ≡ self.now.opened }
    {
        self.parts.opened
    }

    pub fn live(&self, actor: u32) -> bool
        ensures { result ≡ is_live actor self.now.table }
    {
        self.parts.plan.table.live(actor)
    }

    pub fn row(&self, handle: u64) -> Option<&Row>
        ensures { option_copied result ≡ find_row handle self.now.table.rows }
    {
        self.parts.plan.table.row(handle)
    }

    /// The batch that the actor takes next.
    pub fn first(&self, actor: u32) -> Option<&Batch>
        ensures { option_copied result ≡ first_batch actor self.now.table }
    {
        self.parts.plan.table.first(actor)
    }

    /// The lowest live actor for which a batch waits.
    pub fn lowest(&self) -> Option<u32>
        ensures { result ≡ lowest self.now.table }
    {
        self.parts.plan.table.lowest()
    }

    /// The live actors for which a batch waits.
    pub fn busy(&self) -> &BTreeSet<u32>
        ensures { (a : ℕ) → is_key a result.now.keys ≡ is_some (first_batch a self.now.table) }
    {
        self.parts.plan.table.busy()
    }

    /// How many batches wait, at most the greatest u64.
    pub fn batches(&self) -> u64
        ensures { result ≡ min (waiting self.now.table) (2 ^ 64 - 1) }
    {
        self.parts.plan.table.batches()
    }

    /// Whether an oid is bound.
    pub fn bound(&self, oid: &Value) -> bool
        ensures { result ≡ bound oid.now self.now.bindings }
    {
        self.parts.gatekeeper.system.bindings.has(oid)
    }

    /// A reference is bound, where its oid isn't. For want of memory the world is gone.
    pub fn bind(mut self, given: Binding) -> Result<World<S, J, B>, NoMemory>
        ensures { IfOk result (λ w. w ≡ binding given self) }
    {
        self.parts.bind(given)?;
        Ok(self)
    }

    /// The next watcher is live, and observes. No connection has come yet, and the watcher was
    /// judged: it watches a pattern at a dataspace, asserts at another one by a known behaviour,
    /// and meets no other watcher. For want of memory the world is gone.
    pub fn watch(mut self, alloc: Global, given: Watched) -> Result<World<S, J, B>, NoMemory>
        requires first { self.opened ≡ 0 }
        requires few { length self.watches < most_watchers }
        requires judged { IsJudged given self.watches }
        ensures { IfOk result (λ w. w ≡ watching given self) }
    {
        self.parts.watch(alloc, given)?;
        Ok(self)
    }

    /// The next connection is live; answers its number.
    pub fn arrive(mut self) -> Result<(World<S, J, B>, u32), NoMemory>
        requires { self.opened < 2 ^ 31 }
        ensures world { IfOk result (λ done. done.0 ≡ arrived self) }
        ensures number { IfOk result (λ done. done.1 ≡ self.opened + 1) }
    {
        let opened = self.parts.arrive()?;
        Ok((self, opened))
    }

    /// A live actor's acts, in order.
    pub fn send(
        mut self,
        _alloc: Global,
        actor: u32,
        acts: Vec<Act>,
    ) -> Result<World<S, J, B>, NoMemory>
        requires { is_live actor self.table ≡ true }
        ensures { IfOk result (λ w. w ≡ sent actor acts.items self) }
    {
        self.parts.send(actor, acts)?;
        Ok(self)
    }

    /// An actor takes the first batch of its inbox. For want of memory the world is gone.
    pub fn turn(mut self, alloc: Global, actor: u32) -> Result<(World<S, J, B>, Turned), NoMemory>
        ensures world { IfOk result (λ done. done.0 ≡ (turn actor self).world) }
        ensures turned { IfOk result (λ done. done.1 ≡ (turn actor self).turned) }
    {
        let turned = self.parts.turn(alloc, actor)?;
        Ok((self, turned))
    }

    /// The turn of the lowest system actor for which a batch waits.
    pub fn work(mut self, alloc: Global) -> Result<(World<S, J, B>, Turned), NoMemory>
        ensures world { IfOk result (λ done. done.0 ≡ (work self).world) }
        ensures turned { IfOk result (λ done. done.1 ≡ (work self).turned) }
    {
        let turned = self.parts.work(alloc)?;
        Ok((self, turned))
    }

    /// An actor that isn't always live goes, where it is live, with its rows, its inbox and what it
    /// has got; each live target is told of its rows there.
    pub fn end(mut self, alloc: Global, actor: u32) -> Result<World<S, J, B>, NoMemory>
        requires { 9 ≤ actor }
        ensures { IfOk result (λ w. w ≡ ended_of actor self) }
    {
        self.parts.end(alloc, actor)?;
        Ok(self)
    }
}
