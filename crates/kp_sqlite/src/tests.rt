//! The table over memory, and the keeper over files.
use crate::keeper::SqlKeeper;
use crate::refusal::{Cause, Refusal};
use crate::table;
use kp_keeper::{KeepFault, Keeper, Keeping, Kept, Record, Records};
use pv_value::{Blob, NoMemory};
use sqlite::{Alter, Connection};
use std::alloc::Global;
use std::fs;
use std::test::Fail;

fn record(alloc: Global, oid: &[u8], space: u8) -> Result<Record, NoMemory> {
    Ok(Record {
        oid: Blob::from_slice(alloc, oid)?,
        key: Blob::from_slice(alloc, &[1, 0, 255])?,
        space,
        caveats: Blob::from_slice(alloc, &[0xb5, 0x84])?,
    })
}

/// Whether the two records are listed, the lesser oid first, as they were put.
fn are_two(records: &Records, first: &[u8], second: &[u8]) -> bool {
    match records.as_slice() {
        [a, b] => {
            a.oid.as_slice() == first
                && b.oid.as_slice() == second
                && a.key.as_slice() == [1, 0, 255].as_slice()
                && a.space == 3
                && a.caveats.as_slice() == [0xb5, 0x84].as_slice()
        }
        _ => false,
    }
}

fn puts<S: Alter>(
    alloc: Global,
    conn: &mut Connection<S>,
    oid: &[u8],
    space: u8,
) -> Result<Result<Kept, Refusal>, NoMemory> {
    let added = record(alloc, oid, space)?;
    Ok(table::put(conn, &added))
}

fn keeps<S: Alter>(alloc: Global, conn: &mut Connection<S>) -> Result<bool, NoMemory> {
    let first = puts(alloc, conn, b"b", 3)? == Ok(Kept::Done);
    let second = puts(alloc, conn, b"\x00a", 3)? == Ok(Kept::Done);
    let again = puts(alloc, conn, b"b", 4)? == Ok(Kept::There);
    let listed = match table::list(alloc, conn) {
        Ok(records) => are_two(&records, b"\x00a", b"b"),
        Err(_) => false,
    };
    Ok(first && second && again && listed)
}

fn lets_go<S: Alter>(conn: &mut Connection<S>) -> bool {
    table::remove(conn, b"b") == Ok(true)
        && table::remove(conn, b"b") == Ok(false)
        && table::remove(conn, b"\x00") == Ok(false)
        && table::remove(conn, b"\x00a") == Ok(true)
}

#[test]
fn records_are_kept_in_a_table(rt: HostRuntime) -> Result<(), Fail> {
    let mut conn = Connection::open_in_memory(rt.alloc())?;
    assert!(rt; keeps(rt.alloc(), &mut conn)? && lets_go(&mut conn));
    Ok(())
}

/// Whether a database that this was done to is refused as one of another table.
fn refused_after(alloc: Global, sql: &str) -> Result<bool, Fail> {
    let mut conn = Connection::open_in_memory(alloc)?;
    conn.execute_batch(sql)?;
    Ok(table::prepare(&mut conn) == Err(Refusal::Failed(Cause::OtherTable)))
}

#[test]
fn another_table_is_refused(rt: HostRuntime) -> Result<(), Fail> {
    assert!(rt; refused_after(rt.alloc(), "CREATE TABLE note (id INTEGER PRIMARY KEY)")?);
    assert!(rt; refused_after(rt.alloc(), "CREATE TABLE binding (oid BLOB PRIMARY KEY)")?);
    Ok(())
}

/// Whether a list with a row of a space that is none is refused.
fn refused_space(alloc: Global) -> Result<bool, Fail> {
    let mut conn = Connection::open_in_memory(alloc)?;
    let made = table::prepare(&mut conn) == Ok(());
    conn.execute_batch("INSERT INTO binding VALUES (x'00', x'', 256, x'')")?;
    let refused = match table::list(alloc, &mut conn) {
        Ok(_) => false,
        Err(refusal) => refusal == Refusal::Failed(Cause::BadRows),
    };
    Ok(made && refused)
}

#[test]
fn a_row_that_is_no_record_is_refused(rt: HostRuntime) -> Result<(), Fail> {
    assert!(rt; refused_space(rt.alloc())?);
    Ok(())
}

fn put_one(alloc: Global, keeper: &mut SqlKeeper, oid: &[u8]) -> Result<bool, NoMemory> {
    let added = record(alloc, oid, 3)?;
    Ok(keeper.put(&added) == Ok(Kept::Done))
}

/// What one keeper put is listed by another, to which the file was free.
fn kept_in_file(rt: &HostRuntime, path: &str) -> Result<bool, NoMemory> {
    let mut first = SqlKeeper::new(rt);
    let unopened = first.list().is_err() && first.cause() == Some(Cause::NoFile);
    let put = first.keep(path) == Ok(())
        && put_one(rt.alloc(), &mut first, b"b")?
        && put_one(rt.alloc(), &mut first, b"a")?;
    let mut second = SqlKeeper::new(rt);
    let opened = second.keep(path) == Ok(());
    let listed = match second.list() {
        Ok(records) => are_two(&records, b"a", b"b"),
        Err(_) => false,
    };
    let gone = second.remove(b"a") == Ok(true) && first.remove(b"a") == Ok(false);
    Ok(unopened && put && opened && listed && gone && first.keep_faults() == 1)
}

/// Whether the file can't be opened, for this cause.
fn is_refused(rt: &HostRuntime, path: &str, cause: Cause) -> bool {
    let mut keeper = SqlKeeper::new(rt);
    keeper.keep(path) == Err(KeepFault::Failed)
        && keeper.keep_faults() == 1
        && keeper.cause() == Some(cause)
}

/// Whether a file that somebody else has open is refused.
fn refused_while_open(rt: &HostRuntime, path: &str) -> bool {
    match Connection::open(rt, path) {
        Ok(conn) => {
            let refused = is_refused(rt, path, Cause::Locked);
            conn.close().is_ok() && refused
        }
        Err(_) => false,
    }
}

#[test]
fn a_file_is_kept_between_calls(rt: HostRuntime) -> Result<(), Fail> {
    let _ = fs::remove_dir_all(&rt, "kp_sqlite_test");
    fs::create_dir(&rt, "kp_sqlite_test")?;
    assert!(rt; kept_in_file(&rt, "kp_sqlite_test/a.db")?);
    assert!(rt; refused_while_open(&rt, "kp_sqlite_test/a.db"));
    assert!(rt; is_refused(&rt, "kp_sqlite_test/none/a.db", Cause::CannotOpen));
    fs::remove_dir_all(&rt, "kp_sqlite_test")?;
    Ok(())
}

#[test]
fn a_file_that_is_no_database_stays(rt: HostRuntime) -> Result<(), Fail> {
    let _ = fs::remove_dir_all(&rt, "kp_sqlite_other");
    fs::create_dir(&rt, "kp_sqlite_other")?;
    fs::write(&rt, "kp_sqlite_other/note", "this is no database at all")?;
    assert!(rt; is_refused(&rt, "kp_sqlite_other/note", Cause::NotADatabase));
    let bytes = fs::read(&rt, "kp_sqlite_other/note")?;
    assert!(rt; bytes.as_slice() == "this is no database at all".as_bytes());
    fs::remove_dir_all(&rt, "kp_sqlite_other")?;
    Ok(())
}
