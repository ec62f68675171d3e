//! How many events there are, and how much they weigh.
ghost use Rattle.std.specs.Prelude.{◌≡◌, ◌<◌, ◌≤◌, ◌+◌, ◌^◌, ◌==◌, ◌&&◌};
ghost use Rattle.ac_table.specs.Sums.{top_load, nothing, both, load_of, load_in};

use crate::batches::Event;
use crate::sum::Sum;
use pv_value::weight;
use std::marker::Model;

/// How many, and how much they weigh. Each ends at the greatest u64.
#[derive(Clone, Copy)]
pub struct Load {
    pub count: u64,
    pub weight: u64,
}

impl Load {
    pub fn none() -> Load
        ensures { result ≡ nothing }
    {
        Load {
            count: 0,
            weight: 0,
        }
    }

    /// Both together.
    pub fn and(self, other: Load) -> Load
        ensures { result ≡ top_load (both self other) }
    {
        Load {
            count: self.count.saturating_add(other.count),
            weight: self.weight.saturating_add(other.weight),
        }
    }

    pub(crate) fn is_nothing(self) -> bool
        ensures { result ≡ (self.count == 0 && self.weight == 0) }
    {
        self.count == 0 && self.weight == 0
    }
}

fn load_of(event: &Event) -> Load
    ensures { result ≡ top_load (load_of event.now) }
{
    let weight = match event {
        Event::Assert(_, _, value) | Event::Message(_, value) => weight(value),
        Event::Sync(_, peer) => weight(peer),
        Event::Retract(_, _) => return Load::none(),
    };
    Load { count: 1, weight }
}

pub(crate) fn load_in(events: &[Event]) -> Load
    ensures { result ≡ top_load (load_in events.now) }
{
    let mut load = Load::none();
    for event in events {
        load = load.and(load_of(event));
    }
    load
}

/// What loads come to together that come and go.
#[derive(Drop)]
pub(crate) struct Total {
    count: Sum,
    weight: Sum,
}

impl Model for Total {
    ghost use Rattle.std.specs.Coded.{codes};
    ghost use Rattle.ac_table.specs.declared.loads.Load.{Load};

    ghost Value = { Load };

    ghost coded = { Prim.hlevel codes };

    ghost view = { λ t. record { count = t.count; weight = t.weight } };
}

impl Total {
    pub(crate) fn none() -> Total
        ensures { result ≡ nothing }
    {
        Total {
            count: Sum::none(),
            weight: Sum::none(),
        }
    }

    pub(crate) fn add(&mut self, load: Load)
        requires count { self.old.count + load.count < 2 ^ 128 }
        requires weight { self.old.weight + load.weight < 2 ^ 128 }
        ensures { self.new ≡ both self.old load }
    {
        self.count.add(load.count);
        self.weight.add(load.weight);
    }

    pub(crate) fn take_off(&mut self, load: Load)
        requires count { load.count ≤ self.old.count }
        requires weight { load.weight ≤ self.old.weight }
        ensures { both self.new load ≡ self.old }
    {
        self.count.take_off(load.count);
        self.weight.take_off(load.weight);
    }

    pub(crate) fn load(&self) -> Load
        ensures { result ≡ top_load self.now }
    {
        Load {
            count: self.count.told(),
            weight: self.weight.told(),
        }
    }

    pub(crate) fn is_nothing(&self) -> bool
        ensures { result ≡ (self.now.count == 0 && self.now.weight == 0) }
    {
        self.count.told() == 0 && self.weight.told() == 0
    }
}
