//! The hub that a server begins with whose bindings are kept.
ghost use Rattle.std.specs.Prelude.{◌≡◌, ◌≢◌, ℕ, [], IfOk, IfErr};
ghost use Rattle.hub_machine.specs.State.{opening};
ghost use Rattle.hub_machine.specs.Machine.{step as step_of};
ghost use Rattle.hub_machine.specs.declared.steps.Step.TheVariants.{Bind};
ghost use Rattle.sr_caveat.specs.Caps.{IsSound};
ghost use Rattle.kp_keeper.specs.Records.{Ascend};
ghost use Rattle.kp_bound.specs.Spelled.{IsFirstBad};
ghost use Rattle.kp_bound.specs.declared.faults.RecordFault.TheVariants as fault;
ghost use Rattle.sc_kept.specs.Configured.{IsConfiguredBy};

use ds_space::Space;
use gk_sturdy::Binding;
use hub_core::{Hub, Step};
use kp_bound::{RecordFault, binding_of};
use kp_keeper::{Record, Records};
use lc_guard::{Guards, Predicate};
use lc_watch::{Behaves, Behaviour, Watcher};
use pv_value::NoMemory;
use sc_schema::no_schema;
use sr_pass::Judge;
use std::alloc::Global;

/// What a hub holds is let go here: a world has many parts, and the proof of each function in which
/// one ends goes through all of them.
#[inline(never)]
fn let_go<S: Space + Drop, J: Judge + Drop, B: Behaves + Drop>(_hub: Hub<S, J, B>) {}

/// The hub without a schema, before any step.
fn begun<S: Space + Drop, F: Predicate + Drop, G: Behaviour + Drop>(
    alloc: Global,
    predicate: F,
    behaviour: G,
) -> Result<Hub<S, Guards<F>, Watcher<G>>, NoMemory>
    ensures { IfOk result (λ hub. hub ≡ opening []) }
{
    let guards = Guards::new(no_schema(alloc)?, predicate);
    Hub::begin(alloc, guards, Watcher::new(behaviour))
}

/// The hub after one more binding is bound, whatever is answered.
fn with_binding<S: Space + Drop, J: Judge + Drop, B: Behaves + Drop>(
    alloc: Global,
    hub: Hub<S, J, B>,
    binding: Binding,
) -> Result<Hub<S, J, B>, NoMemory>
    requires { IsSound binding.cap }
    ensures { IfOk result (λ now. now ≡ (step_of hub (Bind binding)).state) }
{
    let (hub, _) = hub.step(alloc, Step::Bind(binding))?;
    Ok(hub)
}

/// A hub over any body of a dataspace, once each record's binding is bound; or the first record
/// that has none. Nobody's schema is there, and no caveat of a record holds a guard. The hub takes
/// each of the bindings, and nothing else is done.
pub fn configured<S: Space + Drop, F: Predicate + Drop, G: Behaviour + Drop>(
    records: &Records,
    predicate: F,
    behaviour: G,
) -> Result<Hub<S, Guards<F>, Watcher<G>>, RecordFault>
    ensures hub { IfOk result (IsConfiguredBy records.now) }
    ensures stop { IfErr result (λ f. f ≢ fault.NoMemory
        → (n : ℕ) × (f ≡ fault.Bad n) × IsFirstBad records.now n) }
{
    let alloc = records.allocator();
    let hub = begun(alloc, predicate, behaviour)?;
    with_all(alloc, hub, records.as_slice())
}

/// The hub after each record's binding is bound.
fn with_all<S: Space + Drop, J: Judge + Drop, B: Behaves + Drop>(
    alloc: Global,
    hub: Hub<S, J, B>,
    records: &[Record],
) -> Result<Hub<S, J, B>, RecordFault>
    requires begun { hub ≡ opening [] }
    requires ascending { Ascend records.now }
    ensures hub { IfOk result (IsConfiguredBy records.now) }
    ensures stop { IfErr result (λ f. f ≢ fault.NoMemory
        → (n : ℕ) × (f ≡ fault.Bad n) × IsFirstBad records.now n) }
{
    let mut hub = hub;
    let mut place = 0;
    for one in records {
        let read = binding_of(alloc, one)?;
        let Some(binding) = read else {
            let_go(hub);
            return Err(RecordFault::Bad(place));
        };
        hub = with_binding(alloc, hub, binding)?;
        place += 1;
    }
    Ok(hub)
}
