//! What was delivered to an actor that is no dataspace.
ghost use Rattle.std.specs.Prelude.{◌≡◌, [], OnOk};
ghost use Rattle.std.specs.Map.{values_of};
ghost use Rattle.ac_world.specs.Worlds.{delivered, all_delivered, with_entry, without_entry};
ghost use Rattle.ac_table.specs.Sums.{top_load};
ghost use Rattle.ac_world.specs.Sums.{load_got, weight_found};

use ac_table::{Event, Load, Sum};
use pv_value::{NoMemory, Value, weight};
use std::alloc::Global;
use std::collections::BTreeMap;
use std::marker::Model;

/// An assertion that was delivered: the object at which it is made, and what.
#[derive(Drop)]
pub struct Held {
    pub entity: u64,
    pub value: Value,
}

/// What a delivery weighs, where there is one.
fn weight_of(held: Option<Held>) -> u64
    ensures { result ≡ weight_found held }
{
    match held {
        Some(held) => weight(&held.value),
        None => 0,
    }
}

/// What was delivered and not taken back, by handle, and what it weighs.
#[derive(Drop)]
pub struct Deliveries {
    by_handle: BTreeMap<u64, Held>,
    weight: Sum,
}

impl Model for Deliveries {
    ghost use Rattle.std.specs.Coded.{codes};
    ghost use Rattle.pv_value.specs.Lemmas.Coded.{plain_code};
    ghost use Rattle.std.specs.Prelude.{◌≡◌};
    ghost use Rattle.ac_world.specs.Sums.{sum_of_held};
    ghost use Rattle.ac_world.specs.Worlds.{Deliveries as DeliveriesOf};

    ghost Value = { DeliveriesOf };

    ghost coded = { Prim.hlevel (codes, plain_code) };

    ghost view = { λ d. d.by_handle.entries };

    ghost invariant = { λ d. d.weight ≡ sum_of_held d.by_handle.entries };
}

impl Deliveries {
    /// Nothing was delivered.
    pub fn new(alloc: Global) -> Deliveries
        ensures { result ≡ [] }
    {
        Deliveries {
            by_handle: BTreeMap::new(alloc),
            weight: Sum::none(),
        }
    }

    /// One that is delivered, in place of what was under its handle.
    fn hold(&mut self, handle: u64, held: Held) -> Result<(), NoMemory>
        ensures { OnOk result (self.new ≡ with_entry handle held self.old) }
    {
        let more = weight(&held.value);
        let _many = self.by_handle.len();
        let replaced = self.by_handle.insert(handle, held)?;
        self.weight.take_off(weight_of(replaced));
        self.weight.add(more);
        Ok(())
    }

    /// One that is taken back, where it was delivered.
    fn let_go(&mut self, handle: u64)
        ensures { self.new ≡ without_entry handle self.old }
    {
        let gone = self.by_handle.remove(&handle);
        self.weight.take_off(weight_of(gone));
    }

    /// One event more.
    fn take(&mut self, event: &Event) -> Result<(), NoMemory>
        ensures { OnOk result (self.new ≡ delivered event.now self.old) }
    {
        match event {
            Event::Assert(handle, entity, value) => {
                let held = Held {
                    entity: *entity,
                    value: value.copy()?,
                };
                self.hold(*handle, held)?;
            }
            Event::Retract(handle, _) => self.let_go(*handle),
            Event::Message(_, _) | Event::Sync(_, _) => {}
        }
        Ok(())
    }

    /// The events of a batch.
    pub fn take_all(&mut self, events: &[Event]) -> Result<(), NoMemory>
        ensures { OnOk result (self.new ≡ all_delivered events.now self.old) }
    {
        for event in events {
            self.take(event)?;
        }
        Ok(())
    }

    /// How many assertions, and how much their values weigh.
    pub(crate) fn load(&self) -> Load
        ensures { result ≡ top_load (load_got (values_of self.now)) }
    {
        Load {
            count: self.by_handle.len() as u64,
            weight: self.weight.told(),
        }
    }
}
