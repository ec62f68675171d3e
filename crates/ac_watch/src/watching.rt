//! What a watcher has got.
ghost use Rattle.std.specs.Prelude.{◌≡◌, [], IfOk, None, option_copied};
ghost use Rattle.std.specs.Map.{lookup};
ghost use Rattle.std.specs.BTreeMap.{is_at};
ghost use Rattle.std.specs.Ordering.{nat_cmp};
ghost use Rattle.ds_space.specs.Spaces.{IsNew, has_row};
ghost use Rattle.ds_space.specs.declared.space.SpaceEvent.TheVariants.{Add, Gone};
ghost use Rattle.ac_watch.specs.Watching.{made, value_at, IsWatched};

use crate::keys::{all_came, all_left};
use crate::weighing::{weight_with, weight_without};
use ds_rows::Rows;
use ds_space::{Applied, SpaceEvent, is_over};
use lc_watch::Behaves;
use pv_value::{Items, NoMemory, Node, Text, Value};
use pv_words::item_under;
use std::alloc::Global;
use std::marker::Model;

/// The name of a watcher's behaviour, the rows that it has got, and what all that it wants weighs.
#[derive(Drop)]
pub struct Watching {
    name: Text,
    rows: Rows,
    weight: u64,
}

impl Model for Watching {
    ghost use Rattle.std.specs.Prelude.{◌≡◌, ◌≤◌};
    ghost use Rattle.std.specs.Coded.{codes};
    ghost use Rattle.std.specs.Map.{values_of};
    ghost use Rattle.pv_value.specs.Lemmas.Coded.{plain_code};
    ghost use Rattle.ds_space.specs.Limits.{most_wanted_weight};
    ghost use Rattle.ac_watch.specs.Watching.{Watch, sequences, weight_of_made};

    ghost Value = { Watch };

    ghost coded = { Prim.hlevel (codes, plain_code) };

    ghost view = { λ w. record { name = w.name; got = w.rows } };

    ghost invariant = { λ w.
        (w.weight ≡ weight_of_made w.name (sequences (values_of w.rows)))
        × (w.weight ≤ most_wanted_weight) };
}

impl Watching {
    /// It has got nothing. This takes no memory.
    pub fn new(alloc: Global, name: Text) -> Watching
        ensures { result ≡ record { name = name; got = [] } }
    {
        Watching {
            name,
            rows: Rows::new(alloc),
            weight: 0,
        }
    }

    /// Whether a row has this handle.
    pub fn has(&self, handle: u64) -> bool
        ensures { result ≡ has_row handle self.now.got }
    {
        self.rows.has(handle)
    }

    /// A row comes or goes. What is made of a sequence is wanted with the first row that has it,
    /// and no more without the last. For want of memory the watcher is gone.
    pub fn apply<B: Behaves>(
        self,
        alloc: Global,
        behaves: &B,
        event: SpaceEvent,
    ) -> Result<Applied<Watching>, NoMemory>
        requires { IsNew self.got event }
        ensures { IfOk result (IsWatched self event) }
    {
        match event {
            SpaceEvent::Add(handle, value) => self.add(alloc, behaves, handle, value),
            SpaceEvent::Gone(handle) => self.remove(alloc, behaves, handle),
        }
    }

    /// What is wanted under a key.
    pub fn value_at<B: Behaves>(
        &self,
        alloc: Global,
        behaves: &B,
        key: &Value,
    ) -> Result<Option<Value>, NoMemory>
        ensures { IfOk result (λ value. value ≡ value_at self.now.name key.now) }
    {
        let Node::Seq(parts) = &key.node else {
            return Ok(None);
        };
        let parts = parts.as_slice();
        if parts.len() != 2 {
            return Ok(None);
        }
        let made = made_of(alloc, behaves, &self.name, &parts[0])?;
        copied(item_under(made.as_slice(), &parts[1]))
    }

    /// A row comes, under a handle that is new.
    fn add<B: Behaves>(
        self,
        alloc: Global,
        behaves: &B,
        handle: u64,
        value: Value,
    ) -> Result<Applied<Watching>, NoMemory>
        requires { lookup (is_at (nat_cmp handle)) self.got ≡ None }
        ensures { IfOk result (IsWatched self (Add handle value)) }
    {
        let Watching {
            name,
            mut rows,
            weight,
        } = self;
        if rows.stands(&value) {
            rows.add(handle, value)?;
            return Ok(Applied::Done(Watching { name, rows, weight }, Vec::new(alloc)));
        }
        let made = made_of(alloc, behaves, &name, &value)?;
        let after = weight_with(weight, &made);
        if is_over(after) {
            return Ok(Applied::Over(Watching { name, rows, weight }, after));
        }
        let changes = all_came(alloc, &value, &made)?;
        rows.add(handle, value)?;
        let weight = after;
        Ok(Applied::Done(Watching { name, rows, weight }, changes))
    }

    /// A row goes, where it is there.
    fn remove<B: Behaves>(
        self,
        alloc: Global,
        behaves: &B,
        handle: u64,
    ) -> Result<Applied<Watching>, NoMemory>
        ensures { IfOk result (IsWatched self (Gone handle)) }
    {
        let Watching {
            name,
            mut rows,
            weight,
        } = self;
        match rows.remove(handle) {
            Some((value, last)) => {
                if !last {
                    return Ok(Applied::Done(Watching { name, rows, weight }, Vec::new(alloc)));
                }
                let made = made_of(alloc, behaves, &name, &value)?;
                let weight = weight_without(weight, &made);
                let changes = all_left(alloc, &value, &made)?;
                Ok(Applied::Done(Watching { name, rows, weight }, changes))
            }
            None => Ok(Applied::Done(Watching { name, rows, weight }, Vec::new(alloc))),
        }
    }
}

/// What the behaviour of a name makes of a value.
fn made_of<B: Behaves>(
    alloc: Global,
    behaves: &B,
    name: &Text,
    value: &Value,
) -> Result<Items, NoMemory>
    ensures { IfOk result (λ items. items ≡ made name.now value.now) }
{
    match &value.node {
        Node::Seq(captures) => behaves.behave(alloc, name.as_bytes(), captures),
        _ => Items::from_vec(alloc, Vec::new(alloc)),
    }
}

/// An equal one.
fn copied(value: Option<&Value>) -> Result<Option<Value>, NoMemory>
    ensures { IfOk result (λ copy. copy ≡ option_copied value.entry) }
{
    match value {
        Some(value) => Ok(Some(value.copy()?)),
        None => Ok(None),
    }
}
