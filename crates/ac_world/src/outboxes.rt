//! The events that a turn makes, a list for each target.
ghost use Rattle.std.specs.Prelude.{◌≡◌, [], OnOk};
ghost use Rattle.ac_table.specs.Tables.{pushed};
ghost use Rattle.ac_world.specs.Outboxes.{told, posted, retractions};

use ac_table::{Batch, BatchEvents, Event, Row, Table, TableFault};
use pv_value::NoMemory;
use std::alloc::Global;
use std::collections::BTreeMap;
use std::marker::Model;
use std::mem::replace;

/// The events for each target.
#[derive(Drop)]
pub struct Outbox {
    alloc: Global,
    lists: BTreeMap<u32, BatchEvents>,
}

impl Model for Outbox {
    ghost use Rattle.std.specs.Coded.{codes};
    ghost use Rattle.pv_value.specs.Lemmas.Coded.{plain_code};
    ghost use Rattle.ac_world.specs.Outboxes.{Outbox as OutboxOf};

    ghost Value = { OutboxOf };

    ghost coded = { Prim.hlevel (codes, plain_code) };

    ghost view = { λ o. o.lists.entries };

    ghost use Rattle.std.specs.BTreeMap.{IsOrdered};
    ghost use Rattle.std.specs.Ordering.{nat_cmp};

    ghost invariant = { λ o. IsOrdered nat_cmp o.lists };
}

impl Outbox {
    /// Nobody is told anything.
    pub fn new(alloc: Global) -> Outbox
        ensures { result ≡ [] }
    {
        Outbox {
            alloc,
            lists: BTreeMap::new(alloc),
        }
    }

    /// Takes all of it out.
    pub fn take(&mut self) -> Outbox
        ensures taken { result ≡ self.old }
        ensures empty { self.new ≡ [] }
    {
        let empty = Outbox::new(self.alloc);
        replace(self, empty)
    }

    /// One more event for a target.
    pub fn tell(&mut self, target: u32, event: Event) -> Result<(), NoMemory>
        ensures { OnOk result (self.new ≡ told target event self.old) }
    {
        let mut events = match self.lists.remove(&target) {
            Some(events) => events.into_vec(),
            None => Vec::new(self.alloc),
        };
        events.push(event)?;
        self.lists.insert(target, BatchEvents::from_vec(events))?;
        Ok(())
    }

    /// A retraction of each row, at its target.
    pub fn retract_all(&mut self, rows: &[Row]) -> Result<(), NoMemory>
        ensures { OnOk result (self.new ≡ retractions rows.now self.old) }
    {
        for row in rows {
            self.tell(row.target, Event::Retract(row.handle, row.entity))?;
        }
        Ok(())
    }

    /// Each live target gets its events as one batch.
    pub fn post(self, from: u32, table: &mut Table) -> Result<(), NoMemory>
        ensures { OnOk result (table.new ≡ posted from self table.old) }
    {
        for (target, events) in self.lists {
            push(table, target, Batch { from, events })?;
        }
        Ok(())
    }
}

/// One more batch, where the target is live.
fn push(table: &mut Table, target: u32, batch: Batch) -> Result<(), NoMemory>
    ensures { OnOk result (table.new ≡ pushed target batch table.old) }
{
    match table.push_batch(target, batch) {
        Ok(()) => Ok(()),
        Err(fault) => match fault {
            TableFault::NoMemory => Err(NoMemory),
            _ => Ok(()),
        },
    }
}
