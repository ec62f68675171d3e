//! An inbox, and what it comes to.
ghost use Rattle.std.specs.Prelude.{◌≡◌, [], ◌∷◌, ◌++◌, ◌==◌, OnOk, OnErr, option_copied};
ghost use Rattle.std.specs.Prelude.{slice_get, drop, length, ◌<◌, ◌^◌};
ghost use Rattle.ac_table.specs.Sums.{top_load, load_waiting, load_from};

use crate::batches::Batch;
use crate::loads::{Load, Total, load_in};
use crate::senders::{add_sent, take_off_sent};
use pv_value::NoMemory;
use std::alloc::Global;
use std::collections::{BTreeMap, VecDeque};
use std::marker::Model;

/// The batches that wait for an actor, the earliest first; what all of them come to, and what
/// those of each sender do.
#[derive(Drop)]
pub(crate) struct Inbox {
    batches: VecDeque<Batch>,
    total: Total,
    senders: BTreeMap<u32, Total>,
}

impl Model for Inbox {
    ghost use Rattle.std.specs.Prelude.{List};
    ghost use Rattle.std.specs.Coded.{codes};
    ghost use Rattle.pv_value.specs.Lemmas.Coded.{plain_code};
    ghost use Rattle.ac_table.specs.declared.batches.Batch.{Batch};
    ghost use Rattle.ac_table.specs.Inboxes.{IsLoaded};

    ghost Value = { List Batch };

    ghost coded = { Prim.hlevel (codes, plain_code) };

    ghost view = { λ i. i.batches.items };

    ghost invariant = { λ i. IsLoaded i.batches.items i.total i.senders.entries };
}

/// Fewer batches wait than 2^64. This holds of every inbox and is called where a proof rests on it.
fn keeps_its_bound(batches: &VecDeque<Batch>)
    ensures { length batches.now.items < 2 ^ 64 }
{
    let _ = batches.len();
}

impl Inbox {
    pub(crate) fn new(alloc: Global) -> Inbox
        ensures { result ≡ [] }
    {
        Inbox {
            batches: VecDeque::new(alloc),
            total: Total::none(),
            senders: BTreeMap::new(alloc),
        }
    }

    pub(crate) fn len(&self) -> usize
        ensures { result ≡ length self.now }
    {
        self.batches.len()
    }

    pub(crate) fn is_empty(&self) -> bool
        ensures { result ≡ (length self.now == 0) }
    {
        self.batches.is_empty()
    }

    pub(crate) fn front(&self) -> Option<&Batch>
        ensures { option_copied result ≡ slice_get self.now 0 }
    {
        self.batches.front()
    }

    /// What waits.
    pub(crate) fn load(&self) -> Load
        ensures { result ≡ top_load (load_waiting self.now) }
    {
        self.total.load()
    }

    /// What of a sender's waits.
    pub(crate) fn load_from(&self, sender: u32) -> Load
        ensures { result ≡ top_load (load_from sender self.now) }
    {
        match self.senders.get(&sender) {
            Some(total) => total.load(),
            None => Load::none(),
        }
    }

    /// One more batch, behind the others.
    pub(crate) fn push(&mut self, batch: Batch) -> Result<(), NoMemory>
        ensures pushed { OnOk result (self.new ≡ self.old ++ batch ∷ []) }
        ensures unchanged { OnErr result (self.new ≡ self.old) }
    {
        let load = load_in(batch.events.as_slice());
        keeps_its_bound(&self.batches);
        self.batches.reserve(1)?;
        add_sent(&mut self.senders, batch.from, load)?;
        self.total.add(load);
        self.batches.push_back(batch)?;
        Ok(())
    }

    /// The first batch leaves, where there is one.
    pub(crate) fn pop(&mut self) -> Option<Batch>
        ensures batch { result ≡ slice_get self.old 0 }
        ensures rest { self.new ≡ drop 1 self.old }
    {
        let batch = self.batches.pop_front()?;
        let load = load_in(batch.events.as_slice());
        self.total.take_off(load);
        take_off_sent(&mut self.senders, batch.from, load);
        Some(batch)
    }
}
