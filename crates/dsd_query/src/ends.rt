//! How a query's end is told.
ghost use Rattle.std.specs.Prelude.{◌≡◌, ◌≢◌, ◌++◌, [], ◌∷◌};
ghost use Rattle.out_ports.specs.Ports.{Rose, Appends, AppendsFront};
ghost use Rattle.dsd_query.specs.Ends.{status_by, words_by};

use dq_link::QueryEnd;
use dsd_top::{Fault, refuse, say};
use out_ports::ports::Sink;

/// Says a line, and answers its status. What can't be written is left.
fn tell<E: Sink>(diag: &mut E, words: &str, status: u8) -> u8
    ensures status { result ≡ status }
    ensures said { AppendsFront (E.held diag.old) (E.held diag.new) (words.now ++ 10 ∷ []) }
    ensures said_all { (Rose (E.faults diag.old) (E.faults diag.new) → ⊥)
        → Appends (E.held diag.old) (E.held diag.new) (words.now ++ 10 ∷ []) }
    ensures unfinished { E.finishes diag.new ≡ E.finishes diag.old }
{
    say(diag, words, "");
    status
}

/// Says why a query ended, where not all lines that it asked for are written, and answers the
/// status. What can't be written is left.
pub(crate) fn tell_end<E: Sink>(diag: &mut E, end: QueryEnd) -> u8
    ensures status { result ≡ status_by end }
    ensures silent { result ≡ 0 → E.held diag.new ≡ E.held diag.old }
    ensures said { result ≢ 0
        → AppendsFront (E.held diag.old) (E.held diag.new) (words_by end ++ 10 ∷ []) }
    ensures said_all { result ≢ 0 → (Rose (E.faults diag.old) (E.faults diag.new) → ⊥)
        → Appends (E.held diag.old) (E.held diag.new) (words_by end ++ 10 ∷ []) }
    ensures unfinished { E.finishes diag.new ≡ E.finishes diag.old }
{
    match end {
        QueryEnd::Done => 0,
        QueryEnd::DialFailed => tell(diag, "dsd: connect failed", 11),
        QueryEnd::Rejected => tell(diag, "dsd: rejected", 12),
        QueryEnd::Left => tell(diag, "dsd: server left", 13),
        QueryEnd::BadServer => tell(diag, "dsd: bad server", 14),
        QueryEnd::Spent => refuse(diag, Fault::Limit(7)),
        QueryEnd::HearFailed => refuse(diag, Fault::ReadFailed),
        QueryEnd::SayFailed | QueryEnd::OutputFailed => refuse(diag, Fault::WriteFailed),
        QueryEnd::NoMemory => refuse(diag, Fault::NoMemory),
    }
}
