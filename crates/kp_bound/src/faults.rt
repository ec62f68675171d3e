//! Why records give no bindings.
ghost use Rattle.std.specs.Prelude.{◌≡◌};

use pv_value::NoMemory;
use std::alloc::{AllocError, AllocFailed};
use thiserror::Error;

/// Why records give no bindings.
#[derive(Clone, Copy, Debug, PartialEq, Eq, Error)]
pub enum RecordFault {
    /// Record n, counted from 0, is the first one that has no binding.
    #[error("bad record {0}")]
    Bad(u64),
    #[error("out of memory")]
    NoMemory,
}

impl From<NoMemory> for RecordFault {
    ghost use Rattle.kp_bound.specs.declared.faults.RecordFault.TheVariants.{NoMemory};

    ghost from_gives = { λ _ fault. fault ≡ NoMemory };

    fn from(_: NoMemory) -> RecordFault {
        RecordFault::NoMemory
    }
}

impl From<AllocError> for RecordFault {
    ghost use Rattle.kp_bound.specs.declared.faults.RecordFault.TheVariants.{NoMemory};

    ghost from_gives = { λ _ fault. fault ≡ NoMemory };

    fn from(_: AllocError) -> RecordFault {
        RecordFault::NoMemory
    }
}

impl<T: Drop> From<AllocFailed<T>> for RecordFault {
    ghost use Rattle.kp_bound.specs.declared.faults.RecordFault.TheVariants.{NoMemory};

    ghost from_gives = { λ _ fault. fault ≡ NoMemory };

    fn from(_: AllocFailed<T>) -> RecordFault {
        RecordFault::NoMemory
    }
}
