//! Why a file isn't read or written.
ghost use Rattle.std.specs.Prelude.{◌≡◌};

use pv_value::NoMemory;
use sqlite::{Error, ErrorCode};
use std::alloc::{AllocError, AllocFailed};

/// Why a keeper failed.
#[derive(Clone, Copy, Debug, PartialEq, Eq)]
pub enum Cause {
    /// No file was opened.
    NoFile,
    /// The file can't be opened or made.
    CannotOpen,
    /// Somebody else has it open.
    Locked,
    /// It is no database.
    NotADatabase,
    /// It is one of another table.
    OtherTable,
    /// Its rows are no list of records.
    BadRows,
    /// Anything else, as a full disk.
    Other,
}

/// Why a file isn't read or written.
#[derive(Clone, Copy, Debug, PartialEq, Eq)]
pub(crate) enum Refusal {
    Failed(Cause),
    NoMemory,
}

impl From<Error> for Refusal {
    fn from(error: Error) -> Refusal {
        match error {
            Error::SqliteFailure(code) => refusal_by(code),
            _ => Refusal::Failed(Cause::Other),
        }
    }
}

fn refusal_by(code: ErrorCode) -> Refusal {
    match code {
        ErrorCode::OutOfMemory => Refusal::NoMemory,
        ErrorCode::CannotOpen => Refusal::Failed(Cause::CannotOpen),
        ErrorCode::DatabaseBusy => Refusal::Failed(Cause::Locked),
        ErrorCode::NotADatabase | ErrorCode::DatabaseCorrupt => {
            Refusal::Failed(Cause::NotADatabase)
        }
        _ => Refusal::Failed(Cause::Other),
    }
}

impl From<AllocError> for Refusal {
    fn from(_: AllocError) -> Refusal {
        Refusal::NoMemory
    }
}

impl<T: Drop> From<AllocFailed<T>> for Refusal {
    fn from(_: AllocFailed<T>) -> Refusal {
        Refusal::NoMemory
    }
}

impl From<NoMemory> for Refusal {
    fn from(_: NoMemory) -> Refusal {
        Refusal::NoMemory
    }
}
