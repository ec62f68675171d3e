//! Two rows of one value come, and go.
use crate::Rows;
use pv_value::NoMemory;
use pv_words::number;
use std::alloc::Global;
use std::test::Fail;

/// Whether the row of a handle that is new is the first that has the value 7.
fn comes(rows: &mut Rows, handle: u64) -> Result<bool, NoMemory> {
    if rows.has(handle) {
        return Err(NoMemory);
    }
    rows.add(handle, number(7))
}

/// Whether the row of a handle was the last that had its value.
fn goes(rows: &mut Rows, handle: u64) -> bool {
    match rows.remove(handle) {
        Some((_, last)) => last && !rows.has(handle),
        None => false,
    }
}

/// Whether the first of two rows alone is the first of its value, and the last of them the last.
fn come_and_go(alloc: Global) -> Result<bool, NoMemory> {
    let mut rows = Rows::new(alloc);
    let came = comes(&mut rows, 3)? && !comes(&mut rows, 1)? && rows.stands(&number(7));
    let went = !goes(&mut rows, 3) && rows.stands(&number(7)) && goes(&mut rows, 1);
    Ok(came && went && !rows.stands(&number(7)))
}

#[test]
fn rows_come_and_go(rt: HostRuntime) -> Result<(), Fail> {
    assert!(rt; come_and_go(rt.alloc())?);
    Ok(())
}
