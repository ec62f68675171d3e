//! Why an input has no report.
ghost use Rattle.std.specs.Prelude.{◌≡◌};
ghost use Rattle.sc_script.specs.declared.faults.ScriptFault.TheVariants as fault;

use pv_value::NoMemory;
use thiserror::Error;

/// Why an input has no report: the first cause.
#[derive(Clone, Copy, Debug, PartialEq, Eq, Error)]
pub enum ScriptFault {
    /// Value n, counted from 0, is malformed, is no event, names a connection that was never
    /// opened, binds what can't be bound, or makes a watcher that can't be.
    #[error("bad value {0}")]
    Bad(u64),
    /// A limit is passed: 1, the bytes of the input; 2, live connections; 3, turns of a drain;
    /// 4, bytes that are sent; 5, the server's numbers.
    #[error("limit {0}")]
    Limit(u8),
    /// Event n gives what is no schema, or binds by a guard whose name the schema doesn't define.
    #[error("bad config at {0}")]
    Schema(u64),
    #[error("out of memory")]
    NoMemory,
}

impl From<NoMemory> for ScriptFault {
    ghost from_gives = { λ _ e. e ≡ fault.NoMemory };

    fn from(_: NoMemory) -> ScriptFault {
        ScriptFault::NoMemory
    }
}
