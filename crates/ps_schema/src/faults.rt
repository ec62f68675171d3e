//! Why definitions are no schema.
ghost use Rattle.std.specs.Prelude.{◌≡◌};

use pv_value::NoMemory;
use std::alloc::{AllocError, AllocFailed};
use thiserror::Error;

/// Why definitions are no schema.
#[derive(Debug, Drop, Error)]
pub enum SchemaFault {
    #[error("out of memory")]
    NoMemory,
    /// The first name, in order of definition, that leads back to itself with no compound between.
    #[error("{0} is defined by itself")]
    Unguarded(String),
    /// The first name, in the order in which patterns ask for them, that has no definition.
    #[error("{0} is not defined")]
    NoSuchName(String),
    /// The first name, in order of definition, that is defined again behind.
    #[error("{0} is defined twice")]
    NameTwice(String),
}

impl From<NoMemory> for SchemaFault {
    ghost use Rattle.ps_schema.specs.declared.faults.SchemaFault.TheVariants.{NoMemory};

    ghost from_gives = { λ _ e. e ≡ NoMemory };

    fn from(_: NoMemory) -> SchemaFault {
        SchemaFault::NoMemory
    }
}

impl From<AllocError> for SchemaFault {
    ghost use Rattle.ps_schema.specs.declared.faults.SchemaFault.TheVariants.{NoMemory};

    ghost from_gives = { λ _ e. e ≡ NoMemory };

    fn from(_: AllocError) -> SchemaFault {
        SchemaFault::NoMemory
    }
}

impl<T: Drop> From<AllocFailed<T>> for SchemaFault {
    ghost use Rattle.ps_schema.specs.declared.faults.SchemaFault.TheVariants.{NoMemory};

    ghost from_gives = { λ _ e. e ≡ NoMemory };

    fn from(_: AllocFailed<T>) -> SchemaFault {
        SchemaFault::NoMemory
    }
}
