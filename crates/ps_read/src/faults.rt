//! Why a text is no schema.
ghost use Rattle.std.specs.Prelude.{◌≡◌};

use pv_text::TextKind;
use pv_value::NoMemory;
use std::alloc::AllocFailed;
use thiserror::Error;

/// Why values write no definitions: the place of the first that can't stand where it stands.
#[derive(Clone, Copy, Debug, Drop)]
pub enum Misfit {
    /// It is of no form that may stand there; at the end it is the number of values.
    BadSchema(usize),
    /// `include`, or a pattern with a name of another schema.
    NotSupported(usize),
}

/// Why reading values stopped.
#[derive(Drop)]
pub(crate) enum Stop {
    NoMemory,
    At(Misfit),
}

/// Why a text is no schema.
#[derive(Debug, Drop, Error)]
pub enum SchemaFault {
    #[error("out of memory")]
    NoMemory,
    /// The first name, in order of definition, that leads back to itself with no compound between.
    #[error("{0} is defined by itself")]
    Unguarded(String),
    /// The first name, in the order in which patterns ask for them, that has no definition.
    #[error("{0} is not defined")]
    NoSuchName(String),
    /// The first name, in order of definition, that is defined again behind.
    #[error("{0} is defined twice")]
    NameTwice(String),
    /// How many values stand before the first that can't stand where it stands.
    #[error("value {0} is not of the grammar of schemas")]
    BadSchema(usize),
    /// How many values stand before the first that asks for another schema.
    #[error("value {0} asks for another schema")]
    NotSupported(usize),
    /// The text is no list of values: what is wrong, and the offset at which it stands.
    #[error("bad text at {1}: {0:?}")]
    Text(TextKind, usize),
}

impl From<NoMemory> for Stop {
    ghost use Rattle.ps_read.specs.declared.faults.Stop.TheVariants.{NoMemory};

    ghost from_gives = { λ _ e. e ≡ NoMemory };

    fn from(_: NoMemory) -> Stop {
        Stop::NoMemory
    }
}

impl From<NoMemory> for SchemaFault {
    ghost use Rattle.ps_read.specs.declared.faults.SchemaFault.TheVariants.{NoMemory};

    ghost from_gives = { λ _ e. e ≡ NoMemory };

    fn from(_: NoMemory) -> SchemaFault {
        SchemaFault::NoMemory
    }
}

impl<T: Drop> From<AllocFailed<T>> for Stop {
    ghost use Rattle.ps_read.specs.declared.faults.Stop.TheVariants.{NoMemory};

    ghost from_gives = { λ _ e. e ≡ NoMemory };

    fn from(_: AllocFailed<T>) -> Stop {
        Stop::NoMemory
    }
}
