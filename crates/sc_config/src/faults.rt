//! Why a text is no configuration.
ghost use Rattle.std.specs.Prelude.{◌≡◌};

use pv_value::NoMemory;
use thiserror::Error;

/// Why a text is no configuration: the first cause.
#[derive(Clone, Copy, Debug, PartialEq, Eq, Error)]
pub enum ConfigFault {
    /// Value n, counted from 0, is malformed, or is nothing that a configuration has there, or it
    /// binds what can't be bound or makes a watcher that can't be; for 0 also: the schema's text is
    /// none.
    #[error("bad value {0}")]
    Bad(u64),
    #[error("out of memory")]
    NoMemory,
}

impl From<NoMemory> for ConfigFault {
    ghost use Rattle.sc_config.specs.declared.faults.ConfigFault.TheVariants.{NoMemory};

    ghost from_gives = { λ _ e. e ≡ NoMemory };

    fn from(_: NoMemory) -> ConfigFault {
        ConfigFault::NoMemory
    }
}
