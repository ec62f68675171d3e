//! Why the status of serving isn't 0.
ghost use Rattle.std.specs.Prelude.{◌≡◌};
ghost use Rattle.out_ports.specs.Ports.{Rose, Appends, AppendsFront};
ghost use Rattle.dsd_top.specs.declared.faults.Fault.TheVariants as fault;
ghost use Rattle.dsd_serve.specs.Causes.{status_for, line_for, of_keeper, of_record};
ghost use Rattle.dsd_serve.specs.declared.unserved.Unserved.TheVariants.{Of};

use dsd_top::{Fault, refuse, say};
use kp_bound::RecordFault;
use kp_keeper::KeepFault;
use out_ports::ports::Sink;
use srv_loop::NoMemory;

/// Why the status of serving isn't 0.
#[derive(Clone, Copy)]
pub(crate) enum Unserved {
    /// A cause that other words have too.
    Of(Fault),
    /// The address can't be listened at.
    Unheard,
    /// The file of bindings can't be opened, or what it keeps can't be listed.
    KeeperFailed,
}

impl From<Fault> for Unserved {
    ghost from_gives = { λ f why. why ≡ Of f };

    fn from(fault: Fault) -> Unserved {
        Unserved::Of(fault)
    }
}

impl From<KeepFault> for Unserved {
    ghost from_gives = { λ f why. why ≡ of_keeper f };

    fn from(fault: KeepFault) -> Unserved {
        match fault {
            KeepFault::Failed => Unserved::KeeperFailed,
            KeepFault::NoMemory => Unserved::Of(Fault::NoMemory),
        }
    }
}

impl From<RecordFault> for Unserved {
    ghost from_gives = { λ f why. why ≡ of_record f };

    fn from(fault: RecordFault) -> Unserved {
        match fault {
            RecordFault::Bad(n) => Unserved::Of(Fault::BadConfig(n)),
            RecordFault::NoMemory => Unserved::Of(Fault::NoMemory),
        }
    }
}

impl From<NoMemory> for Unserved {
    ghost from_gives = { λ _ why. why ≡ Of fault.NoMemory };

    fn from(_: NoMemory) -> Unserved {
        Unserved::Of(Fault::NoMemory)
    }
}

/// Says why nothing is served, and answers the status. What can't be written is left.
pub(crate) fn tell_why<E: Sink>(diag: &mut E, why: Unserved) -> u8
    ensures status { result ≡ status_for why }
    ensures said { AppendsFront (E.held diag.old) (E.held diag.new) (line_for why) }
    ensures said_all { (Rose (E.faults diag.old) (E.faults diag.new) → ⊥)
        → Appends (E.held diag.old) (E.held diag.new) (line_for why) }
    ensures unfinished { E.finishes diag.new ≡ E.finishes diag.old }
{
    match why {
        Unserved::Of(fault) => refuse(diag, fault),
        Unserved::Unheard => {
            say(diag, "dsd: listen failed", "");
            8
        }
        Unserved::KeeperFailed => {
            say(diag, "dsd: keeper failed", "");
            15
        }
    }
}
