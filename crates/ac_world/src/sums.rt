//! What is counted and weighed of an actor.
ghost use Rattle.std.specs.Prelude.{◌≡◌, [], unwrap_or};
ghost use Rattle.std.specs.Map.{values_of};
ghost use Rattle.ac_world.specs.Worlds.{entry_of};
ghost use Rattle.ac_table.specs.Sums.{top, top_load};
ghost use Rattle.ac_world.specs.Sums.{load_got, row_weight, backlog, deliveries};

use crate::actors::FIRST_CONNECTION;
use crate::held::Deliveries;
use crate::world::World;
use ac_table::Load;
use ds_space::Space;
use lc_watch::Behaves;
use sr_pass::Judge;
use std::collections::BTreeMap;

/// What an actor has got.
fn load_got(actor: u32, held: &BTreeMap<u32, Deliveries>) -> Load
    ensures { result
        ≡ top_load (load_got (values_of (unwrap_or (entry_of actor held.now.entries) []))) }
{
    match held.get(&actor) {
        Some(got) => got.load(),
        None => Load::none(),
    }
}

impl<S: Space + Drop, J: Judge + Drop, B: Behaves + Drop> World<S, J, B> {
    /// What the values of an actor's rows weigh together.
    pub fn row_weight(&self, actor: u32) -> u64
        ensures { result ≡ top (row_weight actor self.now) }
    {
        self.parts.plan.table.row_weight(actor)
    }

    /// What of an actor's waits for system actors.
    pub fn backlog(&self, actor: u32) -> Load
        ensures { result ≡ top_load (backlog actor self.now) }
    {
        self.parts.plan.table.load_below(actor, FIRST_CONNECTION)
    }

    /// What an actor has got, and what waits for it.
    pub fn deliveries(&self, actor: u32) -> Load
        ensures { result ≡ top_load (deliveries actor self.now) }
    {
        load_got(actor, &self.parts.held).and(self.parts.plan.table.load(actor))
    }
}
