//! Why a row or a case isn't run.
ghost use Rattle.std.specs.Prelude.{◌≡◌};
ghost use Rattle.row_cases.specs.declared.faults.Fault.TheVariants as fault;

use std::alloc::{AllocError, AllocFailed};
use thiserror::Error;

/// Why a row or a case isn't run.
#[derive(Debug, Drop, Error)]
pub enum Fault {
    #[error("out of memory")]
    NoMemory,
    /// It isn't written as it must be.
    #[error("{0}")]
    Form(&'static str),
    /// What should be values isn't; the fault of the text form says where.
    #[error("no values: {0}")]
    NoValues(String),
}

impl From<pv_value::NoMemory> for Fault {
    ghost from_gives = { λ _ f. f ≡ fault.NoMemory };

    fn from(_: pv_value::NoMemory) -> Fault {
        Fault::NoMemory
    }
}

impl From<AllocError> for Fault {
    ghost from_gives = { λ _ f. f ≡ fault.NoMemory };

    fn from(_: AllocError) -> Fault {
        Fault::NoMemory
    }
}

impl<T: Drop> From<AllocFailed<T>> for Fault {
    ghost from_gives = { λ _ f. f ≡ fault.NoMemory };

    fn from(_: AllocFailed<T>) -> Fault {
        Fault::NoMemory
    }
}
