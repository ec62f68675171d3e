//! Spaces: what is wanted comes and goes.

use crate::patterns::value;
use ds_skeleton::Skeleton;
use ds_space::{Applied, Fan, PlainSpace, Space, SpaceEvent};
use pv_value::Value;
use std::alloc::Global;
use std::test::Fail;

/// The space with one row more, and how many keys it changed.
pub(crate) fn with<S: Space + Drop>(
    alloc: Global,
    space: S,
    number: u64,
    value: Value,
) -> Result<Option<(S, usize)>, Fail> {
    if space.has(number) {
        return Ok(None);
    }
    match space.apply(alloc, SpaceEvent::Add(number, value))? {
        Applied::Done(space, changes) => Ok(Some((space, changes.len()))),
        Applied::Over(_, _) => Ok(None),
    }
}

/// How many keys change when a row goes.
fn gone<S: Space + Drop>(alloc: Global, space: S, number: u64) -> Result<usize, Fail> {
    match space.apply(alloc, SpaceEvent::Gone(number))? {
        Applied::Done(_, changes) => Ok(changes.len()),
        Applied::Over(_, _) => Ok(0),
    }
}

/// How many observe a message.
fn observers<S: Space + Drop>(alloc: Global, space: &S, message: &Value) -> Result<usize, Fail> {
    match space.fan(alloc, message)? {
        Fan::Each(fanned) => Ok(fanned.len()),
        Fan::Over(_) => Ok(0),
    }
}

/// A space with an observation of what has one item.
fn observed<S: Space + Drop>(alloc: Global) -> Result<Option<S>, Fail> {
    let observe = value(alloc, "<Observe <group <arr> {0: <bind <_>>}> #:[17 1]>")?;
    match with::<S>(alloc, Space::fresh(alloc), 1, observe)? {
        Some((space, _)) => Ok(Some(space)),
        None => Ok(None),
    }
}

/// Whether one key comes with a value that is observed, and goes with it.
fn comes_and_goes<S: Space + Drop>(alloc: Global, space: S) -> Result<bool, Fail> {
    let seen = value(alloc, "[7]")?;
    match with(alloc, space, 2, seen)? {
        Some((space, came)) => Ok(came == 1 && gone(alloc, space, 2)? == 1),
        None => Ok(false),
    }
}

/// Whether a message is observed.
fn is_told<S: Space + Drop>(alloc: Global, space: &S) -> Result<bool, Fail> {
    let message = value(alloc, "[5]")?;
    Ok(observers(alloc, space, &message)? == 1)
}

/// Through the bound alone.
fn is_observed<S: Space + Drop>(alloc: Global) -> Result<bool, Fail> {
    match observed::<S>(alloc)? {
        Some(space) => Ok(is_told(alloc, &space)? && comes_and_goes(alloc, space)?),
        None => Ok(false),
    }
}

#[test]
fn what_is_captured_comes_and_goes(rt: HostRuntime) -> Result<(), Fail> {
    assert!(rt; is_observed::<PlainSpace>(rt.alloc())?);
    assert!(rt; is_observed::<Skeleton>(rt.alloc())?);
    Ok(())
}
