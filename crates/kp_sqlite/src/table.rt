//! The table of records, over any store.
ghost use Rattle.std.specs.Prelude.{◌≡◌, ℕ, Ok};
ghost use Rattle.kp_keeper.specs.Keeping.{most_records};

use crate::refusal::{Cause, Refusal};
use kp_keeper::{Kept, MOST_RECORDS, Record, Records};
use pv_value::Blob;
use sqlite::{Alter, Connection, Row, params};
use std::alloc::Global;

const MAKE: &str = "CREATE TABLE binding (oid BLOB PRIMARY KEY NOT NULL, mac_key BLOB NOT NULL, \
    space INTEGER NOT NULL, caveats BLOB NOT NULL) STRICT";

const TABLES: &str = "SELECT sql FROM sqlite_schema WHERE sql IS NOT NULL";

const LIST: &str = "SELECT oid, mac_key, space, caveats FROM binding ORDER BY oid";

const COUNT: &str = "SELECT count(*) FROM binding";

const THERE: &str = "SELECT count(*) FROM binding WHERE oid = ?1";

const PUT: &str = "INSERT INTO binding (oid, mac_key, space, caveats) VALUES (?1, ?2, ?3, ?4)";

const REMOVE: &str = "DELETE FROM binding WHERE oid = ?1";

/// Makes the table in an empty database, and sees in any other that it is there, and alone.
pub(crate) fn prepare<S: Alter>(conn: &mut Connection<S>) -> Result<(), Refusal> {
    let tables = conn.query_all(TABLES, &[])?;
    match tables.as_slice() {
        [] => make(conn),
        [table] => see(table),
        _ => Err(Refusal::Failed(Cause::OtherTable)),
    }
}

fn make<S: Alter>(conn: &mut Connection<S>) -> Result<(), Refusal> {
    conn.execute(MAKE, &[])?;
    Ok(())
}

/// Whether it is the table of records.
fn see(table: &Row) -> Result<(), Refusal> {
    let text: String = table.get(0)?;
    if text.as_str() == MAKE {
        Ok(())
    } else {
        Err(Refusal::Failed(Cause::OtherTable))
    }
}

/// All records.
pub(crate) fn list<S: Alter>(alloc: Global, conn: &mut Connection<S>) -> Result<Records, Refusal> {
    prepare(conn)?;
    let rows = conn.query_all(LIST, &[])?;
    match Records::from_vec(records_of(alloc, &rows)?) {
        Some(records) => Ok(records),
        None => Err(Refusal::Failed(Cause::BadRows)),
    }
}

fn records_of(alloc: Global, rows: &[Row]) -> Result<Vec<Record>, Refusal> {
    let mut records = Vec::new(alloc);
    for row in rows {
        records.push(record_of(row)?)?;
    }
    Ok(records)
}

fn record_of(row: &Row) -> Result<Record, Refusal> {
    Ok(Record {
        oid: bytes_in(row, 0)?,
        key: bytes_in(row, 1)?,
        space: space_in(row)?,
        caveats: bytes_in(row, 3)?,
    })
}

fn bytes_in(row: &Row, at: usize) -> Result<Blob, Refusal> {
    let bytes: Vec<u8> = row.get(at)?;
    Ok(Blob::from_vec(bytes)?)
}

fn space_in(row: &Row) -> Result<u8, Refusal> {
    let space: u32 = row.get(2)?;
    match u8::try_from(space) {
        Ok(space) => Ok(space),
        Err(_) => Err(Refusal::Failed(Cause::BadRows)),
    }
}

fn is_there<S: Alter>(conn: &mut Connection<S>, oid: &[u8]) -> Result<bool, Refusal> {
    let count: u64 = conn.query_row(THERE, params![oid])?.get(0)?;
    Ok(count > 0)
}

fn is_full<S: Alter>(conn: &mut Connection<S>) -> Result<bool, Refusal> {
    let count: u64 = conn.query_row(COUNT, &[])?.get(0)?;
    Ok(count >= MOST_RECORDS as u64)
}

fn insert<S: Alter>(conn: &mut Connection<S>, added: &Record) -> Result<(), Refusal> {
    let oid = added.oid.as_slice();
    let key = added.key.as_slice();
    let space = u32::from(added.space);
    let caveats = added.caveats.as_slice();
    conn.execute(PUT, params![oid, key, space, caveats])?;
    Ok(())
}

/// Keeps one record more. What is written is written by one statement.
pub(crate) fn put<S: Alter>(conn: &mut Connection<S>, added: &Record) -> Result<Kept, Refusal>
    ensures limit { (n : ℕ) → result ≡ Ok (Kept.Full n) → n ≡ most_records }
{
    prepare(conn)?;
    if is_there(conn, added.oid.as_slice())? {
        return Ok(Kept::There);
    }
    if is_full(conn)? {
        return Ok(Kept::Full(MOST_RECORDS as u64));
    }
    insert(conn, added)?;
    Ok(Kept::Done)
}

/// Lets the record of an oid go, and tells whether there was one.
pub(crate) fn remove<S: Alter>(conn: &mut Connection<S>, oid: &[u8]) -> Result<bool, Refusal> {
    prepare(conn)?;
    let count = conn.execute(REMOVE, params![oid])?;
    Ok(count > 0)
}
