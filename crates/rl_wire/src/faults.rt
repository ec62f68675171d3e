//! Why a value can't come in.
ghost use Rattle.std.specs.Prelude.{◌≡◌};
ghost use Rattle.rl_wire.specs.declared.faults.WireFault.TheVariants as fault;

use pv_value::NoMemory;
use thiserror::Error;

/// Why a value can't come in.
#[derive(Clone, Copy, Debug, PartialEq, Eq, Error)]
pub enum WireFault {
    /// No export ever had this number.
    #[error("unknown oid {0}")]
    UnknownOid(u64),
    /// As the server would keep it, the value weighs (6) or nests (7) so much, or a reference in
    /// it has so many caveats (8) or weighs so much (9).
    #[error("limit {0}: {1}")]
    Limit(u8, u64),
    #[error("out of memory")]
    NoMemory,
}

impl From<NoMemory> for WireFault {
    ghost from_gives = { λ _ e. e ≡ fault.NoMemory };

    fn from(_: NoMemory) -> WireFault {
        WireFault::NoMemory
    }
}
