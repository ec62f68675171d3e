//! Turns, by the call that looks at their events.

use rl_packet::{Dialect, Event, Turn, TurnEvent, TurnEvents};
use std::alloc::Global;
use std::test::Fail;

/// Whether the event that retracts this handle may stand in a turn.
fn may_retract(alloc: Global, handle: u64) -> Result<bool, Fail> {
    let mut events = Vec::new(alloc);
    let event = Event::Retract(handle);
    events.push(TurnEvent { oid: 0, event })?;
    Ok(TurnEvents::of_events(events).is_some())
}

/// Whether a turn of no events has no dialect, however it is made.
fn nothing_has_no_dialect(alloc: Global) -> bool {
    let none = Turn::of(Dialect::Older, TurnEvents::new(alloc));
    none.dialect.is_none() && Turn::empty(alloc).dialect.is_none()
}

#[test]
fn a_turn_is_made_of_events_that_may_stand_in_one(rt: HostRuntime) -> Result<(), Fail> {
    let alloc = rt.alloc();
    assert!(rt; may_retract(alloc, (1 << 63) - 1)?);
    assert!(rt; !may_retract(alloc, 1 << 63)?);
    assert!(rt; nothing_has_no_dialect(alloc));
    Ok(())
}
