//! A space with very many observations, each of which wants another fact.

use crate::patterns::value;
use crate::spaces::with;
use ds_skeleton::Skeleton;
use ds_space::Space;
use pv_value::Value;
use std::alloc::Global;
use std::test::Fail;

/// The observation of the loads of a number.
fn observation(alloc: Global, n: u64) -> Result<Value, Fail> {
    let pattern = "<group <rec Load> {0: <lit ";
    let text = format!(in alloc; "<Observe {pattern}{n}> 1: <bind <_>>}}> #:[17 {n}]>")?;
    value(alloc, &text)
}

/// The load of a number.
fn load(alloc: Global, n: u64) -> Result<Value, Fail> {
    let text = format!(in alloc; "<Load {n} {n}>")?;
    value(alloc, &text)
}

/// A space with so many observations.
fn observed<S: Space + Drop>(alloc: Global, count: u64) -> Result<Option<S>, Fail> {
    let mut space: S = Space::fresh(alloc);
    for n in 1..=count {
        let Some((more, _)) = with(alloc, space, n, observation(alloc, n)?)? else {
            return Ok(None);
        };
        space = more;
    }
    Ok(Some(space))
}

/// Whether each of so many facts brings one key.
fn each_brings_one<S: Space + Drop>(alloc: Global, space: S, count: u64) -> Result<bool, Fail> {
    let mut space = space;
    for n in 1..=count {
        let fact = load(alloc, n)?;
        let Some((more, came)) = with(alloc, space, count.saturating_add(n), fact)? else {
            return Ok(false);
        };
        if came != 1 {
            return Ok(false);
        }
        space = more;
    }
    Ok(true)
}

/// Through the bound alone.
fn is_wide<S: Space + Drop>(alloc: Global, count: u64) -> Result<bool, Fail> {
    match observed::<S>(alloc, count)? {
        Some(space) => each_brings_one(alloc, space, count),
        None => Ok(false),
    }
}

#[test]
fn each_fact_is_told_to_its_observer(rt: HostRuntime) -> Result<(), Fail> {
    assert!(rt; is_wide::<Skeleton>(rt.alloc(), 100_000)?);
    Ok(())
}
