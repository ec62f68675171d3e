//! A keeper over a file of SQLite.
ghost use Rattle.std.specs.Prelude.{◌≡◌, ◌≤◌, ℕ, None, Some, Ok, Err, IsErrOf};
ghost use Rattle.std.specs.Option.{option_map};
ghost use Rattle.std.specs.String.{string_bytes};
ghost use Rattle.out_ports.specs.Ports.{Rose};
ghost use Rattle.kp_keeper.specs.Keeping.{most_records};
ghost use Rattle.kp_sqlite.specs.declared.refusal.Cause.{Cause};
ghost use Rattle.kp_sqlite.specs.declared.refusal.Refusal.TheVariants as refusals;

use crate::refusal::{Cause, Refusal};
use crate::table;
use kp_keeper::{KeepFault, Keeper, Keeping, Kept, Record, Records};
use sqlite::{Connection, File, FileStore};
use std::rt::HostRuntime;

/// A keeper whose records are in the file that was opened last, none at first.
#[derive(Drop)]
pub struct SqlKeeper<'a> {
    rt: &'a HostRuntime,
    file: Option<String>,
    faults: u64,
    cause: Option<Cause>,
}

impl<'a> SqlKeeper<'a> {
    /// No file is open.
    pub fn new(rt: &'a HostRuntime) -> SqlKeeper<'a>
        ensures file { result.file ≡ None }
        ensures faults { result.faults ≡ 0 }
        ensures cause { result.cause ≡ None }
    {
        SqlKeeper {
            rt,
            file: None,
            faults: 0,
            cause: None,
        }
    }

    /// Why the last call failed that did.
    pub fn cause(&self) -> Option<Cause>
        ensures { result ≡ self.now.cause }
    {
        self.cause
    }

    /// Counts a refusal, unless it is want of memory, and keeps its cause.
    fn counted<T: Drop>(&mut self, answer: Result<T, Refusal>) -> Result<T, KeepFault>
        ensures same_file { self.new.file ≡ self.old.file }
        ensures lasting { self.old.faults ≤ self.new.faults }
        ensures cause { IsErrOf result KeepFault.Failed → Rose self.old.faults self.new.faults }
        ensures answered { (value : T) → answer ≡ Ok value → result ≡ Ok value }
        ensures given { (value : T) → result ≡ Ok value → answer ≡ Ok value }
        ensures failed { (cause : Cause) → answer ≡ Err (refusals.Failed cause) →
            result ≡ Err KeepFault.Failed }
    {
        match answer {
            Ok(value) => Ok(value),
            Err(Refusal::NoMemory) => Err(KeepFault::NoMemory),
            Err(Refusal::Failed(cause)) => {
                self.cause = Some(cause);
                self.faults = self.faults.saturating_add(1);
                Err(KeepFault::Failed)
            }
        }
    }

    /// The answer of what was done, after which a file that couldn't be closed is counted too.
    fn settled<T: Drop>(&mut self, deed: Deed<T>) -> Result<T, KeepFault>
        ensures same_file { self.new.file ≡ self.old.file }
        ensures lasting { self.old.faults ≤ self.new.faults }
        ensures cause { IsErrOf result KeepFault.Failed → Rose self.old.faults self.new.faults }
        ensures given { (value : T) → result ≡ Ok value → deed.answer ≡ Ok value }
        ensures failed { (cause : Cause) → deed.answer ≡ Err (refusals.Failed cause) →
            result ≡ Err KeepFault.Failed }
    {
        let _ = self.counted(deed.closed);
        self.counted(deed.answer)
    }
}

/// What was done with an open file, and whether it was closed.
#[derive(Drop)]
struct Deed<T: Drop> {
    answer: Result<T, Refusal>,
    closed: Result<(), Refusal>,
}

/// The file couldn't be opened.
fn refused<T: Drop>(refusal: Refusal) -> Deed<T>
    ensures { result.answer ≡ Err refusal }
{
    Deed {
        answer: Err(refusal),
        closed: Ok(()),
    }
}

/// Closes the file after this was answered. What was written stays where it can't be closed: its
/// log stands beside it then, until it is opened again.
fn closed<T: Drop>(conn: Connection<FileStore<File>>, answer: Result<T, Refusal>) -> Deed<T>
    ensures { result.answer ≡ answer }
{
    let closed = match conn.close() {
        Ok(()) => Ok(()),
        Err(error) => Err(Refusal::from(error)),
    };
    Deed { answer, closed }
}

// Each of these holds an open file, and does nothing else: what is done with it is judged by
// itself.

fn prepared_in(rt: &HostRuntime, path: &str) -> Deed<()> {
    match Connection::open(rt, path) {
        Ok(mut conn) => {
            let prepared = table::prepare(&mut conn);
            closed(conn, prepared)
        }
        Err(error) => refused(Refusal::from(error)),
    }
}

fn listed_in(rt: &HostRuntime, path: &str) -> Deed<Records> {
    match Connection::open(rt, path) {
        Ok(mut conn) => {
            let listed = table::list(rt.alloc(), &mut conn);
            closed(conn, listed)
        }
        Err(error) => refused(Refusal::from(error)),
    }
}

fn put_in(rt: &HostRuntime, path: &str, added: &Record) -> Deed<Kept>
    ensures limit { (n : ℕ) → result.answer ≡ Ok (Kept.Full n) → n ≡ most_records }
{
    match Connection::open(rt, path) {
        Ok(mut conn) => {
            let put = table::put(&mut conn, added);
            closed(conn, put)
        }
        Err(error) => refused(Refusal::from(error)),
    }
}

fn removed_in(rt: &HostRuntime, path: &str, oid: &[u8]) -> Deed<bool> {
    match Connection::open(rt, path) {
        Ok(mut conn) => {
            let removed = table::remove(&mut conn, oid);
            closed(conn, removed)
        }
        Err(error) => refused(Refusal::from(error)),
    }
}

impl<'a> Keeper for SqlKeeper<'a> {
    ghost kept = { λ _. None };

    ghost faults = { λ k. k.faults };

    ghost file = { λ k. option_map string_bytes k.file };

    fn keep_faults(&self) -> u64 {
        self.faults
    }

    fn list(&mut self) -> Result<Records, KeepFault> {
        let listed = match &self.file {
            Some(name) => listed_in(self.rt, name.as_str()),
            None => refused(Refusal::Failed(Cause::NoFile)),
        };
        self.settled(listed)
    }

    fn put(&mut self, added: &Record) -> Result<Kept, KeepFault> {
        let put = match &self.file {
            Some(name) => put_in(self.rt, name.as_str(), added),
            None => refused(Refusal::Failed(Cause::NoFile)),
        };
        self.settled(put)
    }

    fn remove(&mut self, oid: &[u8]) -> Result<bool, KeepFault> {
        let removed = match &self.file {
            Some(name) => removed_in(self.rt, name.as_str(), oid),
            None => refused(Refusal::Failed(Cause::NoFile)),
        };
        self.settled(removed)
    }
}

impl<'a> Keeping for SqlKeeper<'a> {
    /// The table is made in a file that is new or empty. Any other file is left as it is.
    fn keep(&mut self, name: &str) -> Result<(), KeepFault> {
        let owned = String::from_str(self.rt.alloc(), name)?;
        let prepared = prepared_in(self.rt, name);
        self.settled(prepared)?;
        self.file = Some(owned);
        Ok(())
    }
}
