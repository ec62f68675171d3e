//! A query from its dial to its end.
ghost use Rattle.std.specs.Prelude.{◌≡◌, ◌<◌, ℕ, List, Some, false, true};
ghost use Rattle.sr_caveat.specs.Embedded.{has_embedded};
ghost use Rattle.dq_core.specs.Asking.{opening};
ghost use Rattle.dq_core.specs.Clients.{begun};
ghost use Rattle.dq_link.specs.Asked.{RestStays, rest_of};
ghost use Rattle.dq_link.specs.Asked.{AreHeard, HasAsked, is_behind_dial, CauseOf, NoneFell};
ghost use Rattle.dq_link.specs.Going.{HaveCourses};

use crate::asker::Asker;
use crate::asking::ask;
use dq_core::Client;
use out_ports::ports::{Host, HostFault, Sink};
use pv_value::Value;
use rl_stream::{next_is_decided, one_course};
use std::alloc::Global;

/// The most bytes that are heard before the last line that is asked for.
pub const QUERY_BYTES: u64 = 1 << 40;

/// Why a query ended.
#[derive(Clone, Copy, Debug, PartialEq, Eq)]
pub enum QueryEnd {
    /// All lines that were asked for are written.
    Done,
    /// The dial failed.
    DialFailed,
    /// The server rejected the reference.
    Rejected,
    /// So many bytes were heard as are heard at most.
    Spent,
    /// The server ended the link, or sent an error packet.
    Left,
    /// The server sent what is no packet, or what no server may send.
    BadServer,
    /// Hearing failed.
    HearFailed,
    /// Saying failed.
    SayFailed,
    /// Writing the lines failed.
    OutputFailed,
    /// Memory ran out.
    NoMemory,
}

/// What a query asks.
#[derive(Drop)]
pub struct Question {
    /// The signed reference that the server is to resolve.
    pub reference: Value,
    /// The pattern that is observed there.
    pub pattern: Value,
    /// How many lines are to be written.
    pub lines: u64,
}

/// Bytes have a course.
pub(crate) fn bytes_have_courses()
    ensures { HaveCourses }
{
    next_is_decided();
    one_course();
}

/// Dials an address, asks the question there, and writes each line as soon as it is known, until as
/// many are written as the question asks for.
///
/// The lines of a packet are written before what is asked for it is said, and behind the last line
/// nothing is said any more. What is kept goes by what the server asserts and by one packet.
pub fn query<H: Host, O: Sink>(
    alloc: Global,
    host: &mut H,
    out: &mut O,
    addr: &str,
    question: Question,
) -> QueryEnd
    requires plain_reference { has_embedded question.reference ≡ false }
    requires plain_pattern { has_embedded question.pattern ≡ false }
    requires some { 0 < question.lines }
    // What was heard, and what was written and said for it.
    ensures asked { (b : List ℕ)
        × AreHeard b (H.link host.old).heard (H.link host.new).heard
        × HasAsked (opening question.reference) (begun question.pattern) question.lines b
        (O.held out.old) (O.held out.new) (H.link host.old).said.held (H.link host.new).said.held
        (H.link host.new).heard result }
    ensures dialled { is_behind_dial result ≡ true → (H.link host.new).address ≡ Some addr.now }
    // Which count rose. None falls.
    ensures cause { CauseOf result (H.link host.old) (H.link host.new)
        (O.faults out.old) (O.faults out.new) }
    ensures lasting { NoneFell (H.link host.old) (H.link host.new)
        (O.faults out.old) (O.faults out.new) }
    ensures unfinished { O.finishes out.new ≡ O.finishes out.old }
    // What is told of files, ports and links that come stays.
    ensures rest { RestStays
        (rest_of (H.files host.old) (H.address host.old) (H.closed host.old) (H.gave host.old)
        (H.stops host.old) (H.file_faults host.old) (H.port_faults host.old) (H.faults host.old))
        (rest_of (H.files host.new) (H.address host.new) (H.closed host.new) (H.gave host.new)
        (H.stops host.new) (H.file_faults host.new) (H.port_faults host.new) (H.faults host.new)) }
{
    bytes_have_courses();
    let Question {
        reference,
        pattern,
        lines,
    } = question;
    let Ok((client, opening)) = Client::begin(alloc, reference, pattern) else {
        return QueryEnd::NoMemory;
    };
    match host.dial(alloc, addr) {
        Ok(()) => {
            let asker = Asker {
                client,
                left: lines,
            };
            ask(alloc, host, out, opening, asker)
        }
        Err(HostFault::Failed) => QueryEnd::DialFailed,
        Err(HostFault::NoMemory) => QueryEnd::NoMemory,
    }
}
