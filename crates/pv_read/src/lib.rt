//! What a reader answers: a value, or the fault that stops it and where that stands.
//!
//! The definitions that the readers of the binary form and of the text form share stand in
//! `specs/`: results in a chain, faults at their places, values one behind another.
#![tactic(auto)]

ghost use Rattle.std.specs.Prelude.{◌≡◌};
ghost use Rattle.pv_read.specs.Answers.{placed};
ghost use Rattle.pv_read.specs.Limits.{read_depth};

use pv_value::NoMemory;
use std::alloc::{AllocError, AllocFailed};
use std::fmt::Debug;
use thiserror::Error;

/// How many levels deep a value that is read may nest; in a text, its annotations too.
pub const READ_DEPTH: u32 = 64;

/// The limit is the one that the definitions have.
pub fn limit_is_as_defined()
    ensures { READ_DEPTH ≡ read_depth }
{}

/// Why bytes give no value.
#[derive(Debug, Drop, Error)]
pub enum ReadFault<K: Debug + Drop> {
    /// A fault of this kind, and the offset of the place at which it stands.
    #[error("{0:?} at {1}")]
    Bad(K, usize),
    #[error("out of memory")]
    NoMemory,
}

impl<K: Debug + Drop> From<NoMemory> for ReadFault<K> {
    ghost use Rattle.std.specs.Prelude.{◌≡◌};
    ghost use Rattle.pv_read.specs.declared.ReadFault.TheVariants.{NoMemory as no_memory};

    ghost from_gives = { λ _ e. e ≡ no_memory };

    fn from(_: NoMemory) -> ReadFault<K> {
        ReadFault::NoMemory
    }
}

impl<K: Debug + Drop> From<AllocError> for ReadFault<K> {
    ghost use Rattle.std.specs.Prelude.{◌≡◌};
    ghost use Rattle.pv_read.specs.declared.ReadFault.TheVariants.{NoMemory as no_memory};

    ghost from_gives = { λ _ e. e ≡ no_memory };

    fn from(_: AllocError) -> ReadFault<K> {
        ReadFault::NoMemory
    }
}

impl<K: Debug + Drop, T: Drop> From<AllocFailed<T>> for ReadFault<K> {
    ghost use Rattle.std.specs.Prelude.{◌≡◌};
    ghost use Rattle.pv_read.specs.declared.ReadFault.TheVariants.{NoMemory as no_memory};

    ghost from_gives = { λ _ e. e ≡ no_memory };

    fn from(_: AllocFailed<T>) -> ReadFault<K> {
        ReadFault::NoMemory
    }
}

/// The answer of a reader that knows no place, for what stands at this one.
pub fn at<T, K: Debug + Drop>(place: usize, read: Result<T, K>) -> Result<T, ReadFault<K>>
    ensures { result ≡ placed place read }
{
    match read {
        Ok(x) => Ok(x),
        Err(kind) => Err(ReadFault::Bad(kind, place)),
    }
}
