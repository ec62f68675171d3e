//! Keys of a group come and go, and one that is kept aside.
use crate::{Groups, Taken};
use pv_value::{Items, NoMemory, Value};
use pv_words::number;
use std::alloc::Global;
use std::test::Fail;

/// The sequence of one number, or of two.
fn key(alloc: Global, first: u64, rest: Option<u64>) -> Result<Value, NoMemory> {
    let mut items = Vec::new(alloc);
    items.push(number(first))?;
    if let Some(rest) = rest {
        items.push(number(rest))?;
    }
    Ok(Value::sequence(Items::from_vec(alloc, items)?))
}

/// Whether a key had this handle, and its group this facet.
fn is_taken(
    groups: &mut Groups,
    key: &Value,
    handle: u64,
    facet: Option<u32>,
) -> Result<bool, NoMemory> {
    let Taken {
        handle: had,
        facet: told,
    } = groups.take(key)?;
    Ok(had == Some(handle) && told == facet)
}

/// Whether the facet of a group is told with the handles that come and go while it has one.
fn is_told(alloc: Global) -> Result<bool, NoMemory> {
    let mut groups = Groups::new(alloc);
    let (one, two) = (key(alloc, 1, Some(2))?, key(alloc, 1, Some(3))?);
    let first = groups.put(&one, 5)?.is_none();
    groups.put_facet(&number(1), 7)?;
    let second = groups.put(&two, 6)? == Some(7);
    let went = is_taken(&mut groups, &one, 5, Some(7))? && is_taken(&mut groups, &two, 6, Some(7))?;
    groups.take_facet(&number(1))?;
    Ok(first && second && went && groups.take(&one)?.facet.is_none())
}

/// Whether a key of another form comes and goes.
fn is_kept_aside(alloc: Global) -> Result<bool, NoMemory> {
    let mut groups = Groups::new(alloc);
    let one = key(alloc, 1, None)?;
    let came = groups.put(&one, 5)?.is_none();
    Ok(came && is_taken(&mut groups, &one, 5, None)?)
}

#[test]
fn keys_come_and_go(rt: HostRuntime) -> Result<(), Fail> {
    assert!(rt; is_told(rt.alloc())?);
    assert!(rt; is_kept_aside(rt.alloc())?);
    Ok(())
}
