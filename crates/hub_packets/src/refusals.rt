//! Why a packet isn't taken, or a batch not told.
ghost use Rattle.std.specs.Prelude.{◌≡◌, None, OnOk, IfErr};
ghost use Rattle.hub_packets.specs.declared.refusals.Refusal.TheVariants as refusal;
ghost use Rattle.hub_packets.specs.Refusals.{IsWhyRefused, of_wire, of_ports};

use hub_machine::Fault;
use pv_value::NoMemory;
use rl_ports::PortsFault;
use rl_wire::WireFault;
use std::alloc::{AllocError, AllocFailed};

/// Why a packet isn't taken, or a batch not told.
#[derive(Clone, Copy)]
pub enum Refusal {
    /// The connection ends for this fault.
    Cause(Fault),
    /// Memory ran out.
    NoMemory,
}

impl From<NoMemory> for Refusal {
    ghost from_gives = { λ _ r. r ≡ refusal.NoMemory };

    fn from(_: NoMemory) -> Refusal {
        Refusal::NoMemory
    }
}

impl From<AllocError> for Refusal {
    ghost from_gives = { λ _ r. r ≡ refusal.NoMemory };

    fn from(_: AllocError) -> Refusal {
        Refusal::NoMemory
    }
}

impl<T: Drop> From<AllocFailed<T>> for Refusal {
    ghost from_gives = { λ _ r. r ≡ refusal.NoMemory };

    fn from(_: AllocFailed<T>) -> Refusal {
        Refusal::NoMemory
    }
}

impl From<WireFault> for Refusal {
    ghost from_gives = { λ f r. r ≡ of_wire f };

    fn from(fault: WireFault) -> Refusal {
        match fault {
            WireFault::UnknownOid(oid) => Refusal::Cause(Fault::UnknownOid(oid)),
            WireFault::Limit(which, n) => Refusal::Cause(Fault::Limit(which, n)),
            WireFault::NoMemory => Refusal::NoMemory,
        }
    }
}

impl From<PortsFault> for Refusal {
    ghost from_gives = { λ f r. r ≡ of_ports f };

    fn from(fault: PortsFault) -> Refusal {
        match fault {
            PortsFault::Exports(n) => Refusal::Cause(Fault::Overrun(3, n)),
            PortsFault::Weight(n) => Refusal::Cause(Fault::Overrun(4, n)),
            PortsFault::NoMemory => Refusal::NoMemory,
        }
    }
}

/// Refuses, where there is a cause.
pub(crate) fn refuse_for(cause: Option<Fault>) -> Result<(), Refusal>
    ensures free { OnOk result (cause ≡ None) }
    ensures cause { IfErr result (IsWhyRefused cause) }
{
    match cause {
        Some(fault) => Err(Refusal::Cause(fault)),
        None => Ok(()),
    }
}
