//! Records are kept in their order, and each answer comes.
use crate::keeper::{KeepFault, Keeper, Keeping, Kept};
use crate::memory::{MemKeeper, MemKeeping};
use crate::records::{Record, Records};
use pv_value::{Blob, NoMemory};
use std::alloc::Global;
use std::test::Fail;

fn record(alloc: Global, oid: &[u8], space: u8) -> Result<Record, NoMemory> {
    Ok(Record {
        oid: Blob::from_slice(alloc, oid)?,
        key: Blob::from_slice(alloc, &[7, 0, 255])?,
        space,
        caveats: Blob::from_slice(alloc, &[0xb5, 0x84])?,
    })
}

/// A keeper in which no file is open, of no records, for so many calls.
fn keeping(alloc: Global, works: u64) -> MemKeeping {
    MemKeeping::new(MemKeeper::new(Records::new(alloc), works))
}

fn puts<K: Keeper>(
    alloc: Global,
    keeper: &mut K,
    oid: &[u8],
    space: u8,
    wanted: Result<Kept, KeepFault>,
) -> Result<bool, NoMemory> {
    let record = record(alloc, oid, space)?;
    Ok(keeper.put(&record) == wanted)
}

/// Whether the two records are listed.
fn lists_two(records: &Records, first: (&[u8], u8), second: (&[u8], u8)) -> bool {
    match records.as_slice() {
        [a, b] => {
            a.oid.as_slice() == first.0
                && a.space == first.1
                && b.oid.as_slice() == second.0
                && b.space == second.1
        }
        _ => false,
    }
}

fn lists<K: Keeper>(keeper: &mut K, first: (&[u8], u8), second: (&[u8], u8)) -> bool {
    match keeper.list() {
        Ok(records) => lists_two(&records, first, second),
        Err(_) => false,
    }
}

/// `"b"` and then `"a"` are kept, the lesser oid first.
fn two_are_kept(alloc: Global, keeper: &mut MemKeeping) -> Result<bool, NoMemory> {
    let kept = puts(alloc, keeper, b"\xb1\x01b", 1, Ok(Kept::Done))?
        && puts(alloc, keeper, b"\xb1\x01a", 2, Ok(Kept::Done))?;
    Ok(kept && lists(keeper, (b"\xb1\x01a", 2), (b"\xb1\x01b", 1)))
}

/// What is kept is told as kept, and stays as it was; what is let go is gone.
fn each_answer_comes(alloc: Global, keeper: &mut MemKeeping) -> Result<bool, NoMemory> {
    let again = puts(alloc, keeper, b"\xb1\x01a", 3, Ok(Kept::There))?
        && lists(keeper, (b"\xb1\x01a", 2), (b"\xb1\x01b", 1));
    let once = keeper.remove(b"\xb1\x01b") == Ok(true);
    let twice = keeper.remove(b"\xb1\x01b") == Ok(false);
    let front = keeper.remove(b"\xb1\x01") == Ok(false);
    let left = keeper.list().is_ok_and(|records| records.len() == 1);
    Ok(again && once && twice && front && left && keeper.keep_faults() == 0)
}

fn kept_in_order(alloc: Global) -> Result<bool, NoMemory> {
    let mut keeper = keeping(alloc, 100);
    let named = keeper.keep("bindings") == Ok(()) && keeper.file() == Some("bindings");
    Ok(named && two_are_kept(alloc, &mut keeper)? && each_answer_comes(alloc, &mut keeper)?)
}

#[test]
fn records_are_kept_in_order(rt: HostRuntime) -> Result<(), Fail> {
    assert!(rt; kept_in_order(rt.alloc())?);
    Ok(())
}

/// Where no file is open each call fails and counts it.
fn nothing_open(alloc: Global) -> Result<bool, NoMemory> {
    let mut keeper = keeping(alloc, 100);
    let failed = keeper.list().is_err()
        && puts(alloc, &mut keeper, b"a", 1, Err(KeepFault::Failed))?
        && keeper.remove(b"a") == Err(KeepFault::Failed);
    Ok(failed && keeper.keep_faults() == 3 && keeper.file().is_none())
}

#[test]
fn without_a_file_each_call_fails(rt: HostRuntime) -> Result<(), Fail> {
    assert!(rt; nothing_open(rt.alloc())?);
    Ok(())
}

/// A call that fails changes neither the list nor the name.
fn worn_in_time(alloc: Global) -> Result<bool, NoMemory> {
    let mut keeper = keeping(alloc, 3);
    let before = keeper.keep("first") == Ok(())
        && puts(alloc, &mut keeper, b"a", 1, Ok(Kept::Done))?
        && keeper.remove(b"b") == Ok(false);
    let failed = keeper.keep("second") == Err(KeepFault::Failed)
        && puts(alloc, &mut keeper, b"b", 1, Err(KeepFault::Failed))?
        && keeper.remove(b"a") == Err(KeepFault::Failed)
        && keeper.list().is_err();
    let same = keeper.file() == Some("first") && keeper.keeper().records().len() == 1;
    Ok(before && failed && same && keeper.keep_faults() == 4)
}

#[test]
fn a_call_that_fails_changes_nothing(rt: HostRuntime) -> Result<(), Fail> {
    assert!(rt; worn_in_time(rt.alloc())?);
    Ok(())
}

/// So many records, under oids that ascend.
fn many(alloc: Global, count: u32) -> Result<Records, NoMemory> {
    let mut list = Vec::new(alloc);
    for n in 0..count {
        list.push(record(alloc, &n.to_be_bytes(), 1)?)?;
    }
    match Records::from_vec(list) {
        Some(records) => Ok(records),
        None => Err(NoMemory),
    }
}

/// One record more is kept, the next one isn't, but where its oid is there it is told so.
fn filled(alloc: Global) -> Result<bool, NoMemory> {
    let mut records = many(alloc, 9_999)?;
    let last = records.put(&record(alloc, b"last", 1)?)? == Kept::Done;
    let over = records.put(&record(alloc, b"over", 1)?)? == Kept::Full(10_000);
    let there = records.put(&record(alloc, b"last", 2)?)? == Kept::There;
    Ok(last && over && there && records.len() == 10_000)
}

#[test]
fn ten_thousand_are_kept(rt: HostRuntime) -> Result<(), Fail> {
    assert!(rt; filled(rt.alloc())?);
    Ok(())
}

/// Whether these oids are a list of records.
fn taken(alloc: Global, oids: &[&[u8]]) -> Result<bool, NoMemory> {
    let mut list = Vec::new(alloc);
    for oid in oids {
        list.push(record(alloc, oid, 1)?)?;
    }
    Ok(Records::from_vec(list).is_some())
}

/// Oids ascend byte by byte, a proper front first, and no two are equal.
fn ascending(alloc: Global) -> Result<bool, NoMemory> {
    let taken_so = taken(alloc, &[])? && taken(alloc, &[b"", b"a", b"aa", b"b", b"\xff"])?;
    let refused = !taken(alloc, &[b"b", b"a"])?
        && !taken(alloc, &[b"a", b"a"])?
        && !taken(alloc, &[b"aa", b"a"])?;
    Ok(taken_so && refused)
}

#[test]
fn only_what_ascends_is_a_list(rt: HostRuntime) -> Result<(), Fail> {
    assert!(rt; ascending(rt.alloc())?);
    Ok(())
}
