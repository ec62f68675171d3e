//! The gatekeeper, which answers those who resolve signed references.
ghost use Rattle.std.specs.Prelude.{◌≡◌, List, [], ◌∷◌, ◌&&◌, None, IfOk, OnOk, refl};
ghost use Rattle.std.specs.Prelude.{if◌then◌else◌, codes};
ghost use Rattle.std.specs.Map.{lookup};
ghost use Rattle.std.specs.BTreeMap.{is_at};
ghost use Rattle.std.specs.Ordering.{nat_cmp};
ghost use Rattle.ps_schema.specs.declared.Definition.{Definition};
ghost use Rattle.ds_space.specs.Wants.{is_observer as observes};
ghost use Rattle.ds_space.specs.declared.space.SpaceEvent.TheVariants.{Add, Gone};
ghost use Rattle.ac_world.specs.Behaviours.{asks as asks_for, answer_for, gatekeeper};
ghost use Rattle.pv_words.specs.Words.{is_word};
ghost use Rattle.ac_world.specs.Lemmas.Grouping.{ungrouped};
ghost use Rattle.ac_world.specs.Outcomes.{outcome_at};
ghost use Rattle.ac_world.specs.Systems.{IsAppliedBy};

use crate::aims::Aim;
use crate::context::Context;
use crate::readings::Readings;
use crate::systems::{Outcome, System};
use ds_rows::Rows;
use ds_space::{Change, Changes, Fan, SpaceEvent, is_observer};
use gk_sturdy::{Bindings, reply};
use lc_watch::Behaves;
use pv_value::{NoMemory, Node, Text, Value};
use pv_words::{is_word, worded};
use sr_pass::Judge;
use std::alloc::Global;
use std::marker::Model;

/// What is bound, and what the gatekeeper has got.
#[derive(Drop)]
pub struct Gatekeeper {
    pub(crate) bindings: Bindings,
    rows: Rows,
}

impl Model for Gatekeeper {
    ghost use Rattle.std.specs.Coded.{codes};
    ghost use Rattle.pv_value.specs.Lemmas.Coded.{plain_code};
    ghost use Rattle.sr_caveat.specs.Lemmas.Coded.{caveat_code};
    ghost use Rattle.ac_world.specs.Worlds.{Gatekeeping};

    ghost Value = { Gatekeeping };

    ghost coded = { Prim.hlevel (codes, plain_code, caveat_code) };

    ghost view = { λ g. record { bindings = g.bindings; got = g.rows } };
}

impl Gatekeeper {
    /// Nothing is bound, and it has got nothing.
    pub(crate) fn new(alloc: Global) -> Gatekeeper
        ensures { result ≡ record { bindings = []; got = [] } }
    {
        Gatekeeper {
            bindings: Bindings::new(alloc),
            rows: Rows::new(alloc),
        }
    }

    /// A row comes, under a handle that is new.
    fn add(&mut self, alloc: Global, handle: u64, value: Value) -> Result<Outcome, NoMemory>
        requires { lookup (is_at (nat_cmp handle)) self.old.got ≡ None }
        ensures applied { IfOk result (λ outcome. (ds : List Definition)
            → IsAppliedBy (λ g. g.got) (λ g. gatekeeper ds g.bindings)
            (gatekeeper ds self.old.bindings) self.old.got (Add handle value)
            (outcome_at self.new outcome)) }
        ensures lasting { OnOk result (self.new.bindings ≡ self.old.bindings) }
    {
        let asked = asks(&value);
        let came = Change::Came(value.copy()?);
        let first = self.rows.add(handle, value)?;
        let changes = change_if(alloc, asked && first, came)?;
        Ok(Outcome::Done(changes))
    }

    /// A row goes, where it is there.
    fn remove(&mut self, alloc: Global, handle: u64) -> Result<Outcome, NoMemory>
        ensures applied { IfOk result (λ outcome. (ds : List Definition)
            → IsAppliedBy (λ g. g.got) (λ g. gatekeeper ds g.bindings)
            (gatekeeper ds self.old.bindings) self.old.got (Gone handle)
            (outcome_at self.new outcome)) }
        ensures lasting { OnOk result (self.new.bindings ≡ self.old.bindings) }
    {
        let Some((value, last)) = self.rows.remove(handle) else {
            return Ok(Outcome::Done(Vec::new(alloc)));
        };
        let asked = asks(&value);
        let changes = change_if(alloc, asked && last, Change::Left(value))?;
        Ok(Outcome::Done(changes))
    }
}

impl System for Gatekeeper {
    ghost rows = { λ g. g.got };

    ghost behaviour = { λ ds g. gatekeeper ds g.bindings };

    ghost judged = { λ ds g. refl };

    ghost lasting = { λ g. record { bound = g.bindings; task = None } };

    ghost grouping = { λ k. None };

    ghost grouped = { λ ds g. refl };

    ghost first = { ungrouped };

    fn apply<B: Behaves>(
        &mut self,
        alloc: Global,
        _behaves: &B,
        event: SpaceEvent,
    ) -> Result<Outcome, NoMemory> {
        match event {
            SpaceEvent::Add(handle, value) => self.add(alloc, handle, value),
            SpaceEvent::Gone(handle) => self.remove(alloc, handle),
        }
    }

    fn has(&self, handle: u64) -> bool {
        self.rows.has(handle)
    }

    fn group(_key: &Value) -> Option<&Value> {
        None
    }

    fn aim<J: Judge, B: Behaves>(
        &self,
        cx: &Context<J, B>,
        readings: &mut Readings,
        key: &Value,
    ) -> Result<Option<Aim>, NoMemory> {
        answer_for(cx.alloc, cx.judge, readings, &self.bindings, key)
    }

    fn fan(&self, alloc: Global, _message: &Value) -> Result<Fan, NoMemory> {
        Ok(Fan::Each(Vec::new(alloc)))
    }
}

/// A change that comes about, or none.
fn change_if(alloc: Global, comes: bool, change: Change) -> Result<Changes, NoMemory>
    ensures { IfOk result (λ changes. changes.items ≡ if comes then change ∷ [] else []) }
{
    let mut changes = Vec::new(alloc);
    if comes {
        changes.push(change)?;
    }
    Ok(changes)
}

/// Whether a value asks: it is `<resolve s #:r>`, where r names an object of a watcher or of a
/// connection.
fn asks(value: &Value) -> bool
    ensures { result ≡ asks_for value.now }
{
    let Some((word, fields)) = worded(value) else {
        return false;
    };
    match fields {
        [_, observer] => asks_as(word, observer),
        _ => false,
    }
}

/// Whether a record of this word, with this observer behind what it resolves, asks.
fn asks_as(word: &Text, observer: &Value) -> bool
    ensures { result ≡ (is_word word.now (codes "resolve") && observes observer.now) }
{
    is_word(word, b"resolve") && is_observer(observer)
}

/// What arrives of the reply to one that asks.
fn answer_for<J: Judge>(
    alloc: Global,
    judge: &J,
    readings: &mut Readings,
    bindings: &Bindings,
    key: &Value,
) -> Result<Option<Aim>, NoMemory>
    ensures { IfOk result
        (λ aim. aim ≡ answer_for (J.schema judge.now) bindings.now key.now) }
{
    let Node::Rec(record) = &key.node else {
        return Ok(None);
    };
    let Some(step) = record.fields.as_slice().first() else {
        return Ok(None);
    };
    let reply = reply(alloc, bindings, step)?;
    readings.aim_for(alloc, judge, &reply, key)
}
