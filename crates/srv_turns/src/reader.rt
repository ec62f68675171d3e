//! The reader of a connection, which commits what its peer sends.
ghost use Rattle.std.specs.Prelude.{◌≡◌, ◌≤◌, ℕ, List, ◌++◌, Some, true, false};
ghost use Rattle.std.specs.Prelude.{[], length, IfSome, IfNone};
ghost use Rattle.out_ports.specs.Ports.{Rose};
ghost use Rattle.rl_stream.specs.declared.nexts.Next.TheVariants as next;
ghost use Rattle.rl_stream.specs.Nexts.{IsNext};
ghost use Rattle.rl_stream.specs.Streams.{StreamState, read_off};
ghost use Rattle.hub_machine.specs.declared.steps.Step.TheVariants as steps;
ghost use Rattle.srv_turns.specs.Rounds.{Pair};
ghost use Rattle.srv_turns.specs.Reading.{HasRead, AreTaken, is_at_end};
ghost use Rattle.srv_turns.specs.Keeping.{IsReading, HaveCourses};
ghost use Rattle.srv_turns.specs.Keeping.{end_of, after_turn, end_at, said, is_of_link};
ghost use Rattle.srv_turns.specs.Keeping.{Closes, IsRefusal, Sends, IsWaiting, ReadsOn};

use crate::committing::Turns;
use crate::receiving::Received;
use crate::rounds::round;
use crate::rows::Row;
use hub_machine::{Fault, Reply, Step};
use out_ports::ports::{Incoming, Took};
use pv_value::NoMemory;
use rl_packet::{Packet, Turn};
use rl_stream::{Next, next_is_decided, one_course};
use std::alloc::Global;
use std::sync::Wait;
use turn_gate::GateFault;

/// Why a reader ended.
#[derive(Clone, Copy, Debug, PartialEq, Eq)]
pub enum ReaderEnd {
    /// The link ended between packets.
    Clean,
    /// The link ended inside a packet.
    Cut,
    /// The peer sent an error.
    PeerError,
    /// The link failed.
    ReadFault,
    /// What the peer sent was refused for this fault.
    Refused(Fault),
    /// The connection had ended.
    Gone,
    /// The numbers of handles are used up.
    Worn,
    /// 2^40 bytes were taken, or as many steps stand as are taken.
    Spent,
    /// Memory ran out.
    NoMemory,
}

/// How a reader ends for a reply to what its peer sent that isn't `Taken`.
fn end_of(reply: Reply) -> ReaderEnd
    ensures { result ≡ end_of reply }
{
    match reply {
        Reply::Refused(fault) => ReaderEnd::Refused(fault),
        Reply::Gone => ReaderEnd::Gone,
        _ => ReaderEnd::Worn,
    }
}

/// How a reader ends for a reply to a turn that its peer sent, where it does.
fn after_turn(reply: Reply) -> Option<ReaderEnd>
    ensures { result ≡ after_turn reply }
{
    match reply {
        Reply::Taken => None,
        reply => Some(end_of(reply)),
    }
}

/// How a reader ends where no step was done.
fn end_at(fault: GateFault) -> ReaderEnd
    ensures { result ≡ end_at fault }
{
    match fault {
        GateFault::Spent => ReaderEnd::Spent,
        GateFault::NoMemory => ReaderEnd::NoMemory,
    }
}

/// Bytes have a course.
fn bytes_have_courses()
    ensures { HaveCourses }
{
    next_is_decided();
    one_course();
}

/// Closes the connection, for this end.
fn close<Rt: Wait, T: Turns>(
    rt: &Rt,
    connection: u32,
    end: ReaderEnd,
    row: &mut Row,
    turns: &mut T,
) -> ReaderEnd
    ensures { Closes connection (T.pairs turns.old) (T.pairs turns.new) (T.spent turns.new) end
        result }
{
    match round(rt, Step::Close(connection), row, turns) {
        Ok(reply) => {
            drop(reply);
            end
        }
        Err(fault) => end_at(fault),
    }
}

/// The peer sent what is no packet.
fn refuse<Rt: Wait, T: Turns>(
    rt: &Rt,
    connection: u32,
    fault: Fault,
    row: &mut Row,
    turns: &mut T,
) -> ReaderEnd
    ensures { IsRefusal (steps.Bad connection fault) (T.pairs turns.old) (T.pairs turns.new)
        (T.spent turns.new) result }
{
    match round(rt, Step::Bad(connection, fault), row, turns) {
        Ok(reply) => end_of(reply),
        Err(fault) => end_at(fault),
    }
}

/// The peer sent a turn. Answers the end where it wasn't taken.
fn send<Rt: Wait, T: Turns>(
    rt: &Rt,
    connection: u32,
    turn: Turn,
    row: &mut Row,
    turns: &mut T,
) -> Option<ReaderEnd>
    ensures { Sends connection turn (T.pairs turns.old) (T.pairs turns.new)
        (T.spent turns.new) result }
{
    match round(rt, Step::Packet(connection, turn), row, turns) {
        Ok(reply) => after_turn(reply),
        Err(fault) => Some(end_at(fault)),
    }
}

/// What a packet tells a reader.
#[derive(Drop)]
enum Heard {
    Turn(Turn),
    Error,
    Nothing,
}

/// What this packet tells.
fn said(packet: Packet) -> Heard
    ensures { result ≡ said packet }
{
    match packet {
        Packet::Turn(turn) => Heard::Turn(turn),
        Packet::Error(_, _) => Heard::Error,
        Packet::Nop | Packet::Extension(_) => Heard::Nothing,
    }
}

/// A packet was read. Answers the end where no more is read.
fn packet<Rt: Wait, T: Turns>(
    rt: &Rt,
    connection: u32,
    packet: Packet,
    row: &mut Row,
    turns: &mut T,
) -> Option<ReaderEnd>
    ensures reads { (b : List ℕ) (st : StreamState) (size : ℕ) (before : List Pair)
        → IsReading connection b st before (T.pairs turns.old)
        → IsNext st.rest st.place (next.Whole packet size)
        → ReadsOn connection b (read_off size st) before (T.pairs turns.new) (T.spent turns.new)
        result }
    ensures inside { IfSome result (λ x. is_of_link x ≡ false) }
{
    bytes_have_courses();
    match said(packet) {
        Heard::Turn(turn) => send(rt, connection, turn, row, turns),
        Heard::Error => Some(close(rt, connection, ReaderEnd::PeerError, row, turns)),
        Heard::Nothing => None,
    }
}

/// Reads all packets that are there. Answers the end where no more is taken.
fn packets<Rt: Wait, T: Turns>(
    rt: &Rt,
    alloc: Global,
    connection: u32,
    received: &mut Received,
    row: &mut Row,
    turns: &mut T,
) -> Option<ReaderEnd>
    ensures reads { (b : List ℕ) (before : List Pair)
        → IsReading connection b received.old.stream before (T.pairs turns.old)
        → ReadsOn connection b received.new.stream before (T.pairs turns.new) (T.spent turns.new)
        result }
    ensures inside { IfSome result (λ x. is_of_link x ≡ false) }
    ensures waits { IfNone result (IsWaiting received.new.stream) }
    ensures taken { received.new.taken ≡ received.old.taken }
{
    bytes_have_courses();
    loop {
        let Ok(next) = received.first(alloc) else {
            return Some(ReaderEnd::NoMemory);
        };
        match next {
            Next::Whole(it, size) => {
                received.read_off(size);
                if let Some(end) = packet(rt, connection, it, row, turns) {
                    return Some(end);
                }
            }
            Next::BadBytes(number, place) => {
                let fault = Fault::BadBytes(number, place);
                return Some(refuse(rt, connection, fault, row, turns));
            }
            Next::BadPacket => {
                return Some(refuse(rt, connection, Fault::BadPacket, row, turns));
            }
            Next::Waits => return None,
        }
    }
}

/// Takes a piece, once all packets are read that are there. Answers the end where no more is taken.
fn take<Rt: Wait, R: Incoming, T: Turns>(
    rt: &Rt,
    connection: u32,
    link: &mut R,
    received: &mut Received,
    row: &mut Row,
    turns: &mut T,
) -> Option<ReaderEnd>
    requires waits { IsWaiting received.old.stream }
    ensures reads { (b : List ℕ) (before : List Pair)
        → IsReading connection b received.old.stream before (T.pairs turns.old)
        → length b ≡ received.old.taken
        → (more : List ℕ)
        × AreTaken more (R.left link.old) (R.left link.new) (R.given link.old) (R.given link.new)
        × IfNone result (length (b ++ more) ≡ received.new.taken)
        × ReadsOn connection (b ++ more) received.new.stream before (T.pairs turns.new)
        (T.spent turns.new) result }
    ensures at_end { IfSome result (λ x. is_at_end x ≡ true → (R.ended link.new ≡ true)
        × IfSome (R.left link.old) (λ bytes. R.left link.new ≡ Some [])) }
    ensures cause { IfSome result (λ x. x ≡ ReaderEnd.ReadFault
        → Rose (R.faults link.old) (R.faults link.new)) }
    ensures lasting { R.faults link.old ≤ R.faults link.new }
{
    bytes_have_courses();
    let room = received.room();
    if room == 0 {
        return Some(close(rt, connection, ReaderEnd::Spent, row, turns));
    }
    match received.take_from(link) {
        Ok(took) => match took {
            Took::Some(_) => None,
            Took::End => {
                let end = received.end();
                Some(close(rt, connection, end, row, turns))
            }
            Took::Failed => Some(close(rt, connection, ReaderEnd::ReadFault, row, turns)),
        },
        Err(NoMemory) => Some(ReaderEnd::NoMemory),
    }
}

/// Once a packet was read, the link is told that what comes may take any time.
fn settle<R: Incoming>(link: &mut R, received: &Received)
    ensures content { R.left link.new ≡ R.left link.old }
    ensures counted { R.given link.new ≡ R.given link.old }
    ensures at_end { R.ended link.new ≡ R.ended link.old }
    ensures count { R.faults link.new ≡ R.faults link.old }
{
    if received.has_read() {
        link.settle();
    }
}

/// Commits what the peer of a connection sends, until its link ends or no more is taken.
///
/// It takes up to 65,536 bytes at once, and reads all packets in them before it takes more. Each
/// packet's step and the work behind it are done in one hold, 33 steps at most.
pub fn serve_reader<Rt: Wait, R: Incoming, T: Turns>(
    rt: &Rt,
    alloc: Global,
    connection: u32,
    link: &mut R,
    turns: &mut T,
) -> ReaderEnd
    ensures read { (b : List ℕ)
        × AreTaken b (R.left link.old) (R.left link.new) (R.given link.old) (R.given link.new)
        × HasRead connection b (T.pairs turns.old) (T.pairs turns.new) (T.spent turns.new) result }
    ensures at_end { is_at_end result ≡ true → (R.ended link.new ≡ true)
        × IfSome (R.left link.old) (λ bytes. R.left link.new ≡ Some []) }
    ensures cause { result ≡ ReaderEnd.ReadFault → Rose (R.faults link.old) (R.faults link.new) }
    ensures lasting { R.faults link.old ≤ R.faults link.new }
{
    bytes_have_courses();
    let Ok(mut row) = Row::new(alloc) else {
        return ReaderEnd::NoMemory;
    };
    let mut received = Received::new(alloc);
    for _ in rt.forever() {
        if let Some(end) = packets(rt, alloc, connection, &mut received, &mut row, turns) {
            return end;
        }
        settle(link, &received);
        if let Some(end) = take(rt, connection, link, &mut received, &mut row, turns) {
            return end;
        }
    }
    unreachable!()
}
