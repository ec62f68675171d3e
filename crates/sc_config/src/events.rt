//! The events of a configuration, done one by one, over any body of a dataspace.
ghost use Rattle.std.specs.Prelude.{◌≡◌, ℕ, List, IfOk, IfErr};
ghost use Rattle.sr_caveat.specs.Caps.{IsSound};
ghost use Rattle.sc_events.specs.Events.{event_of, IsSoundEvent};
ghost use Rattle.sc_events.specs.declared.events.ScriptEvent.TheVariants as events;
ghost use Rattle.sc_schema.specs.Courses.{after_value};
ghost use Rattle.hub_machine.specs.Machine.{IsAllowed};
ghost use Rattle.sc_config.specs.Configs.{SetsUp};
ghost use Rattle.sc_config.specs.Courses.{set_up, binds, after_event, doing};
ghost use Rattle.sc_config.specs.Keeping.{SetsAs, StopsAs, was_taken};

use crate::faults::ConfigFault;
use ds_space::Space;
use gk_sturdy::Binding;
use hub_core::{Hub, Reply, Step};
use lc_guard::all_known;
use lc_watch::Behaves;
use pv_value::Value;
use sc_events::{ScriptEvent, event_of};
use sr_pass::Judge;
use std::alloc::Global;

/// What a hub holds is let go here: a world has many parts, and the proof of each function in which
/// one ends goes through all of them.
#[inline(never)]
pub(crate) fn let_go<S: Space + Drop, J: Judge + Drop, B: Behaves + Drop>(_hub: Hub<S, J, B>) {}

/// Whether what sets the server up was taken.
fn was_taken(reply: Reply) -> bool
    ensures { result ≡ was_taken reply }
{
    match reply {
        Reply::Taken => true,
        _ => false,
    }
}

/// Event `place` binds a reference or makes a watcher, which has to be taken.
fn set_up<S: Space + Drop, J: Judge + Drop, B: Behaves + Drop>(
    alloc: Global,
    hub: Hub<S, J, B>,
    place: u64,
    event: Step,
) -> Result<Hub<S, J, B>, ConfigFault>
    requires allowed { IsAllowed hub event }
    requires sets_up { SetsUp event }
    ensures set { IfOk result (SetsAs hub (set_up place event)) }
    ensures stop { IfErr result (StopsAs hub (set_up place event)) }
{
    let (hub, reply) = hub.step(alloc, event)?;
    if !was_taken(reply) {
        let_go(hub);
        return Err(ConfigFault::Bad(place));
    }
    Ok(hub)
}

/// Event `place` binds a reference. The names of its guards are looked at first.
fn with_binding<S: Space + Drop, J: Judge + Drop, B: Behaves + Drop>(
    alloc: Global,
    hub: Hub<S, J, B>,
    place: u64,
    binding: Binding,
) -> Result<Hub<S, J, B>, ConfigFault>
    requires { IsSound binding.cap }
    ensures set { IfOk result (SetsAs hub (binds place binding)) }
    ensures stop { IfErr result (StopsAs hub (binds place binding)) }
{
    if !all_known(hub.judge(), binding.cap.caveats.as_slice()) {
        let_go(hub);
        return Err(ConfigFault::Bad(place));
    }
    set_up(alloc, hub, place, Step::Bind(binding))
}

/// Event `place` gives a schema, whatever its text is: only the first one may.
fn with_schema<S: Space + Drop, J: Judge + Drop, B: Behaves + Drop>(
    hub: Hub<S, J, B>,
    place: u64,
) -> Result<Hub<S, J, B>, ConfigFault>
    ensures set { IfOk result (λ now. (text : List ℕ)
        → SetsAs hub (after_event place (events.Schema text)) now) }
    ensures stop { IfErr result (λ f. (text : List ℕ)
        → StopsAs hub (after_event place (events.Schema text)) f) }
{
    if place == 0 {
        return Ok(hub);
    }
    let_go(hub);
    Err(ConfigFault::Bad(place))
}

/// Event `place` of a configuration.
fn with_event<S: Space + Drop, J: Judge + Drop, B: Behaves + Drop>(
    alloc: Global,
    hub: Hub<S, J, B>,
    place: u64,
    event: ScriptEvent,
) -> Result<Hub<S, J, B>, ConfigFault>
    requires { IsSoundEvent event }
    ensures set { IfOk result (SetsAs hub (after_event place event)) }
    ensures stop { IfErr result (StopsAs hub (after_event place event)) }
{
    match event {
        ScriptEvent::Bind(binding) => with_binding(alloc, hub, place, binding),
        ScriptEvent::Watch(watched) => set_up(alloc, hub, place, Step::Watch(watched)),
        ScriptEvent::Schema(text) => {
            drop(text);
            with_schema(hub, place)
        }
        _ => {
            let_go(hub);
            Err(ConfigFault::Bad(place))
        }
    }
}

/// Value `place` of a configuration.
pub(crate) fn with_value<S: Space + Drop, J: Judge + Drop, B: Behaves + Drop>(
    alloc: Global,
    hub: Hub<S, J, B>,
    place: u64,
    value: &Value,
) -> Result<Hub<S, J, B>, ConfigFault>
    ensures set { IfOk result (SetsAs hub (after_value doing place (event_of value.now))) }
    ensures stop { IfErr result (StopsAs hub (after_value doing place (event_of value.now))) }
{
    match event_of(alloc, value)? {
        Some(event) => with_event(alloc, hub, place, event),
        None => {
            let_go(hub);
            Err(ConfigFault::Bad(place))
        }
    }
}
