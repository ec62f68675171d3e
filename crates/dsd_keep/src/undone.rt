//! Why the status of words that ask something of a file isn't 0.
ghost use Rattle.std.specs.Prelude.{◌≡◌, ◌++◌, ◌∷◌, []};
ghost use Rattle.out_ports.specs.Ports.{Rose, Appends, AppendsFront};
ghost use Rattle.kp_bound.specs.declared.faults.RecordFault.{RecordFault};
ghost use Rattle.kp_keeper.specs.declared.keeper.KeepFault.{KeepFault};
ghost use Rattle.dsd_top.specs.declared.faults.Fault.TheVariants as fault;
ghost use Rattle.dsd_keep.specs.Undone.{status_by, line_by, of_keeper, of_record};
ghost use Rattle.dsd_keep.specs.declared.undone.Undone.TheVariants.{Of};

use dsd_top::{Fault, refuse, say};
use kp_bound::RecordFault;
use kp_keeper::KeepFault;
use out_ports::ports::Sink;
use out_ports::streams::WriteFault;
use pv_value::NoMemory;

/// Why the status isn't 0.
#[derive(Clone, Copy)]
pub(crate) enum Undone {
    /// A cause that other words have too.
    Of(Fault),
    KeeperFailed,
    /// A record of the oid is kept.
    BoundAlready,
    /// None is.
    NotBound,
}

impl From<KeepFault> for Undone {
    ghost from_gives = { λ f why. why ≡ of_keeper f };

    fn from(fault: KeepFault) -> Undone {
        match fault {
            KeepFault::Failed => Undone::KeeperFailed,
            KeepFault::NoMemory => Undone::Of(Fault::NoMemory),
        }
    }
}

impl From<RecordFault> for Undone {
    ghost from_gives = { λ f why. why ≡ of_record f };

    fn from(fault: RecordFault) -> Undone {
        match fault {
            RecordFault::Bad(n) => Undone::Of(Fault::BadConfig(n)),
            RecordFault::NoMemory => Undone::Of(Fault::NoMemory),
        }
    }
}

impl From<NoMemory> for Undone {
    ghost from_gives = { λ _ why. why ≡ Of fault.NoMemory };

    fn from(_: NoMemory) -> Undone {
        Undone::Of(Fault::NoMemory)
    }
}

impl From<WriteFault> for Undone {
    ghost from_gives = { λ _ why. why ≡ Of fault.WriteFailed };

    fn from(_: WriteFault) -> Undone {
        Undone::Of(Fault::WriteFailed)
    }
}

/// Says a line, and answers its status. What can't be written is left.
fn tell<E: Sink>(diag: &mut E, words: &str, status: u8) -> u8
    ensures status { result ≡ status }
    ensures said { AppendsFront (E.held diag.old) (E.held diag.new) (words.now ++ 10 ∷ []) }
    ensures said_all { (Rose (E.faults diag.old) (E.faults diag.new) → ⊥)
        → Appends (E.held diag.old) (E.held diag.new) (words.now ++ 10 ∷ []) }
    ensures unfinished { E.finishes diag.new ≡ E.finishes diag.old }
{
    say(diag, words, "");
    status
}

/// Says why nothing more is done, and answers the status. What can't be written is left.
pub(crate) fn tell_why<E: Sink>(diag: &mut E, why: Undone) -> u8
    ensures status { result ≡ status_by why }
    ensures said { AppendsFront (E.held diag.old) (E.held diag.new) (line_by why) }
    ensures said_all { (Rose (E.faults diag.old) (E.faults diag.new) → ⊥)
        → Appends (E.held diag.old) (E.held diag.new) (line_by why) }
    ensures unfinished { E.finishes diag.new ≡ E.finishes diag.old }
{
    match why {
        Undone::Of(fault) => refuse(diag, fault),
        Undone::KeeperFailed => tell(diag, "dsd: keeper failed", 15),
        Undone::BoundAlready => tell(diag, "dsd: bound already", 16),
        Undone::NotBound => tell(diag, "dsd: not bound", 17),
    }
}
