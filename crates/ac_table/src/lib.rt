//! The table of the machine: live actors, the batches that wait for each, and rows.
//!
//! What contracts see of a [`Table`] is the state of `specs/Tables.antt`: lists of rows by handle
//! and of live actors by number. Each call makes one change of that file and leaves all else.
#![tactic(auto)]

mod batches;
mod facets;
mod handles;
mod inbox;
mod keeping;
mod loads;
mod senders;
mod sets;
mod sum;
mod table;

pub use batches::{Batch, BatchEvents, Event, Row};
pub use loads::Load;
use pv_value::NoMemory;
use std::alloc::{AllocError, AllocFailed};
pub use sum::Sum;
pub use table::Table;
use thiserror::Error;

/// Why a call changes nothing, or that memory is wanting; then the table is to be given up.
#[derive(Debug, Drop, Error)]
pub enum TableFault {
    #[error("no such actor")]
    NoActor,
    #[error("no such facet")]
    NoFacet,
    #[error("no such row")]
    NoRow,
    #[error("out of memory")]
    NoMemory,
}

impl From<NoMemory> for TableFault {
    ghost use Rattle.std.specs.Prelude.{◌≡◌};
    ghost use Rattle.ac_table.specs.declared.TableFault.TheVariants.{NoMemory as no_memory};

    ghost from_gives = { λ _ e. e ≡ no_memory };

    fn from(_: NoMemory) -> TableFault {
        TableFault::NoMemory
    }
}

impl From<AllocError> for TableFault {
    ghost use Rattle.std.specs.Prelude.{◌≡◌};
    ghost use Rattle.ac_table.specs.declared.TableFault.TheVariants.{NoMemory as no_memory};

    ghost from_gives = { λ _ e. e ≡ no_memory };

    fn from(_: AllocError) -> TableFault {
        TableFault::NoMemory
    }
}

impl<T: Drop> From<AllocFailed<T>> for TableFault {
    ghost use Rattle.std.specs.Prelude.{◌≡◌};
    ghost use Rattle.ac_table.specs.declared.TableFault.TheVariants.{NoMemory as no_memory};

    ghost from_gives = { λ _ e. e ≡ no_memory };

    fn from(_: AllocFailed<T>) -> TableFault {
        TableFault::NoMemory
    }
}
