//! Watchers, which begin before the first connection comes.
ghost use Rattle.std.specs.Prelude.{◌≡◌, ◌||◌, not, length, nat_lt, nat_le, IfOk};
ghost use Rattle.std.specs.List.{list_any};
ghost use Rattle.lc_watch.specs.Behaviours.{is_behaviour};
ghost use Rattle.ac_world.specs.Limits.{most_watchers};
ghost use Rattle.ac_world.specs.Worlds.{is_space};
ghost use Rattle.hub_machine.specs.Machine.{meets, is_no_pattern, is_unwatchable, watch_unless};

use crate::hub::Hub;
use ac_world::Watched;
use dp_pattern::parse;
use ds_space::Space;
use hub_machine::{DATASPACES, Reply, WATCHERS};
use lc_watch::Behaves;
use pv_value::{NoMemory, Value};
use sr_caveat::has_embedded;
use sr_pass::Judge;
use std::alloc::Global;

/// Whether an actor is a dataspace.
fn is_space(actor: u8) -> bool
    ensures { result ≡ is_space actor }
{
    (1..=DATASPACES).contains(&actor)
}

/// Whether something is embedded in a value, or it is no pattern.
fn is_no_pattern(alloc: Global, value: &Value) -> Result<bool, NoMemory>
    ensures { IfOk result (λ none. none ≡ is_no_pattern value.now) }
{
    if has_embedded(value) {
        return Ok(true);
    }
    Ok(parse(alloc, value)?.is_none())
}

/// Whether one dataspace would be both watched and asserted at.
fn meets(watched: &Watched, other: &Watched) -> bool
    ensures { result ≡ meets watched.now other.now }
{
    other.to == watched.from || other.from == watched.to
}

/// Whether one dataspace would be both watched and asserted at, by a watcher and by one of these.
fn meets_any(watched: &Watched, others: &[Watched]) -> bool
    ensures { result ≡ list_any (meets watched.now) others.now }
{
    others.iter().any(|other| meets(watched, other))
}

impl<S: Space + Drop, J: Judge + Drop, B: Behaves + Drop> Hub<S, J, B> {
    /// Whether no watcher may begin any more.
    fn is_past_watching(&self) -> bool
        ensures { result ≡ (nat_lt 0 self.now.world.opened
            || nat_le most_watchers (length self.now.world.watches)) }
    {
        self.world.opened() > 0 || self.world.watches().len() >= WATCHERS
    }

    /// Whether what a watcher watches or asserts at is no dataspace, or its behaviour isn't known.
    fn is_astray(&self, watched: &Watched) -> bool
        ensures { result ≡ (not (is_space watched.now.from) || not (is_space watched.now.to)
            || not (is_behaviour watched.now.name)) }
    {
        !is_space(watched.from)
            || !is_space(watched.to)
            || !self.world.behaves().knows(watched.name.as_bytes())
    }

    /// Whether a watcher can't begin.
    fn is_unwatchable(&self, alloc: Global, watched: &Watched) -> Result<bool, NoMemory>
        ensures { IfOk result (λ barred. barred ≡ is_unwatchable watched.now self.now) }
    {
        if self.is_past_watching()
            || self.is_astray(watched)
            || is_no_pattern(alloc, &watched.pattern)?
        {
            return Ok(true);
        }
        Ok(meets(watched, watched) || meets_any(watched, self.world.watches()))
    }

    /// A watcher begins, where it may.
    pub(crate) fn watch(
        self,
        alloc: Global,
        watched: Watched,
    ) -> Result<(Hub<S, J, B>, Reply), NoMemory>
        ensures state { IfOk result
            (λ done. done.0 ≡ (watch_unless (is_unwatchable watched self) watched self).state) }
        ensures reply { IfOk result
            (λ done. done.1 ≡ (watch_unless (is_unwatchable watched self) watched self).reply) }
    {
        if self.is_unwatchable(alloc, &watched)? {
            return Ok((self, Reply::Barred));
        }
        let hub = Hub {
            world: self.world.watch(alloc, watched)?,
            ..self
        };
        hub.ends(alloc, &[], Reply::Taken)
    }
}
