//! A query, from its words to its status.
ghost use Rattle.std.specs.Prelude.{◌≡◌, ◌≢◌, ◌<◌, ◌⊎◌, [], ◌∷◌, Some, false, Contains};
ghost use Rattle.out_ports.specs.Ports.{Rose, Appends, AppendsFront};
ghost use Rattle.dsd_top.specs.Asked.{texts};
ghost use Rattle.dsd_query.specs.Queries.{AskAQuestion, IfQuery};
ghost use Rattle.dsd_query.specs.Ends.{query_statuses, WasAsked, Says};
ghost use Rattle.dq_link.specs.Asked.{NoneFell, RestStays, rest_of};
ghost use Rattle.sr_caveat.specs.Embedded.{has_embedded};

use crate::ends::tell_end;
use crate::words::find_query;
use dq_link::Question;
use dsd_top::{Fault, WordsFault, refuse};
use out_ports::ports::{Host, Sink};
use std::alloc::Global;

/// Asks, and answers the status.
fn ask<O: Sink, E: Sink, H: Host>(
    alloc: Global,
    address: &str,
    question: Question,
    out: &mut O,
    diag: &mut E,
    host: &mut H,
) -> u8
    requires plain_reference { has_embedded question.reference ≡ false }
    requires plain_pattern { has_embedded question.pattern ≡ false }
    requires some { 0 < question.lines }
    ensures known { Contains query_statuses result }
    ensures right { result ≢ 2 }
    ensures asked { WasAsked question result (O.held out.old) (O.held out.new)
        (H.link host.old) (H.link host.new) }
    ensures place { result ≢ 5 → result ≢ 11
        → (H.link host.new).address ≡ Some address.now }
    ensures read_failed { result ≡ 3
        → Rose (H.link host.old).heard.faults (H.link host.new).heard.faults }
    ensures write_failed { result ≡ 4 → Rose (O.faults out.old) (O.faults out.new)
        ⊎ Rose (H.link host.old).said.faults (H.link host.new).said.faults }
    ensures connect_failed { result ≡ 11
        → Rose (H.link host.old).dial_faults (H.link host.new).dial_faults }
    ensures unfinished { (O.finishes out.new ≡ O.finishes out.old)
        × (E.finishes diag.new ≡ E.finishes diag.old) }
    ensures lasting { NoneFell (H.link host.old) (H.link host.new)
        (O.faults out.old) (O.faults out.new) }
    ensures rest { RestStays
        (rest_of (H.files host.old) (H.address host.old) (H.closed host.old) (H.gave host.old)
        (H.stops host.old) (H.file_faults host.old) (H.port_faults host.old) (H.faults host.old))
        (rest_of (H.files host.new) (H.address host.new) (H.closed host.new) (H.gave host.new)
        (H.stops host.new) (H.file_faults host.new) (H.port_faults host.new) (H.faults host.new)) }
    ensures silent { result ≡ 0 → E.held diag.new ≡ E.held diag.old }
    ensures said { result ≢ 0
        → Says AppendsFront result (E.held diag.old) (E.held diag.new) }
    ensures said_all { result ≢ 0 → (Rose (E.faults diag.old) (E.faults diag.new) → ⊥)
        → Says Appends result (E.held diag.old) (E.held diag.new) }
{
    let end = dq_link::query(alloc, host, out, address, question);
    tell_end(diag, end)
}

/// Does what the words say, and answers the status. It dials the address, lets the server there
/// resolve the reference, observes the pattern at what that names, and writes a line for each value
/// that comes, goes or is said, as soon as it is known, until so many are written.
///
/// No input is read. What the clauses on the bytes of the link and of the output say holds of those
/// that tell them.
pub fn query_words<O: Sink, E: Sink, H: Host>(
    alloc: Global,
    words: &[String],
    out: &mut O,
    diag: &mut E,
    host: &mut H,
) -> u8
    // Each status, and when it comes. Memory may be wanting for words that ask nothing, too.
    ensures known { Contains query_statuses result }
    ensures words { result ≡ 2 → AskAQuestion (texts words.now) → ⊥ }
    ensures other_words { (AskAQuestion (texts words.now) → ⊥) → Contains (2 ∷ 5 ∷ []) result }

    // The question was asked, and its end has this status: what was heard, and what was written and
    // said for it. Where memory was wanting before, nothing was.
    ensures asked { result ≢ 2 → result ≢ 5 → IfQuery (texts words.now) (λ q. WasAsked q.question
        result (O.held out.old) (O.held out.new) (H.link host.old) (H.link host.new)) }
    ensures cut_short { result ≡ 5 → ((out.new ≡ out.old) × (host.new ≡ host.old))
        ⊎ IfQuery (texts words.now) (λ q. WasAsked q.question
        result (O.held out.old) (O.held out.new) (H.link host.old) (H.link host.new)) }
    ensures place { result ≢ 2 → result ≢ 5 → result ≢ 11 → IfQuery (texts words.now)
        (λ q. (H.link host.new).address ≡ Some q.address) }

    // The count that rose.
    ensures read_failed { result ≡ 3
        → Rose (H.link host.old).heard.faults (H.link host.new).heard.faults }
    ensures write_failed { result ≡ 4 → Rose (O.faults out.old) (O.faults out.new)
        ⊎ Rose (H.link host.old).said.faults (H.link host.new).said.faults }
    ensures connect_failed { result ≡ 11
        → Rose (H.link host.old).dial_faults (H.link host.new).dial_faults }

    // What stands after it. For bad words nothing is done; of what the host tells nothing but its
    // link changes, and no count falls.
    ensures unasked { result ≡ 2 → (out.new ≡ out.old) × (host.new ≡ host.old) }
    ensures unfinished { (O.finishes out.new ≡ O.finishes out.old)
        × (E.finishes diag.new ≡ E.finishes diag.old) }
    ensures lasting { NoneFell (H.link host.old) (H.link host.new)
        (O.faults out.old) (O.faults out.new) }
    ensures rest { RestStays
        (rest_of (H.files host.old) (H.address host.old) (H.closed host.old) (H.gave host.old)
        (H.stops host.old) (H.file_faults host.old) (H.port_faults host.old) (H.faults host.old))
        (rest_of (H.files host.new) (H.address host.new) (H.closed host.new) (H.gave host.new)
        (H.stops host.new) (H.file_faults host.new) (H.port_faults host.new) (H.faults host.new)) }

    // Standard error: nothing at 0, else a front of the line of the status, and all of it where the
    // count of its faults hasn't risen.
    ensures silent { result ≡ 0 → E.held diag.new ≡ E.held diag.old }
    ensures said { result ≢ 0
        → Says AppendsFront result (E.held diag.old) (E.held diag.new) }
    ensures said_all { result ≢ 0 → (Rose (E.faults diag.old) (E.faults diag.new) → ⊥)
        → Says Appends result (E.held diag.old) (E.held diag.new) }
{
    match find_query(alloc, words) {
        Ok((address, question)) => ask(alloc, address, question, out, diag, host),
        Err(WordsFault::Bad) => refuse(diag, Fault::BadWords),
        Err(WordsFault::NoMemory) => refuse(diag, Fault::NoMemory),
    }
}
