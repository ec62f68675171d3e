//! The writer of a connection, which puts what the connection is sent.
ghost use Rattle.std.specs.Prelude.{◌≡◌, ◌<◌, ◌≤◌, ◌^◌, ◌++◌, ℕ, List, length, take};
ghost use Rattle.std.specs.Prelude.{IfOk, OnOk, OnErr, vec_capacity};
ghost use Rattle.out_ports.specs.Ports.{raised, Rose, Appends, AppendsFront};
ghost use Rattle.hub_machine.specs.declared.steps.Reply.{Reply as ReplyOf};
ghost use Rattle.pv_binary.specs.Written.{written};
ghost use Rattle.rl_packet.specs.Packets.{packet_value};
ghost use Rattle.srv_turns.specs.Writing.{HasWritten, AreTurned, spelled_of, spelled_in};
ghost use Rattle.srv_turns.specs.Gathering.{IsGathered, IsPaused, IsShut, IsLooked, after_turn};
ghost use Rattle.srv_turns.specs.Gathering.{after_row, end_at};

use crate::committing::{Behind, Turns};
use crate::receiving::PIECE;
use crate::rounds::round;
use crate::rows::Row;
use ac_world::BEFORE_CONNECTIONS;
use hub_machine::{Reply, Step};
use out_ports::ports::{Offered, Outgoing};
use out_ports::streams::WriteFault;
use pv_value::NoMemory;
use rl_packet::{Packet, write_packet_into};
use std::alloc::Global;
use std::sync::Wait;
use turn_gate::GateFault;

/// A buffer with more room than this is let go once what it holds is put.
const LARGE: usize = 131_072;

/// Why a writer ended.
#[derive(Clone, Copy, Debug, PartialEq, Eq)]
pub enum WriterEnd {
    /// The connection has ended, and its peer was told all.
    Ended,
    /// The numbers of handles are used up.
    Worn,
    /// The link failed, and the connection was closed.
    WriteFault,
    /// As many steps stand as are taken.
    Spent,
    /// Memory ran out.
    NoMemory,
}

/// Why a writer makes no more turns for now.
#[derive(Clone, Copy)]
enum Pause {
    /// As many bytes are gathered as are put at once.
    Full,
    /// Nothing waits for the connection.
    Idle,
    /// Once what is gathered is put it ends.
    Over(WriterEnd),
}

/// Writes a packet behind what is gathered. For want of memory nothing is written.
fn gather(packet: &Packet, gathered: &mut Vec<u8>) -> Result<(), NoMemory>
    ensures written { OnOk result (gathered.new.items
        ≡ gathered.old.items ++ written (packet_value packet.now)) }
    ensures undone { OnErr result (gathered.new.items ≡ gathered.old.items) }
{
    let before = gathered.len();
    let done = write_packet_into(gathered, packet);
    if done.is_err() {
        gathered.truncate(before);
    }
    done
}

/// Writes the packet that a reply sends, where it sends one, behind what is gathered. For want of
/// memory nothing is written.
fn gather_reply(reply: &Reply, gathered: &mut Vec<u8>) -> Result<(), NoMemory>
    ensures written { OnOk result (gathered.new.items
        ≡ gathered.old.items ++ spelled_of reply.now) }
    ensures undone { OnErr result (gathered.new.items ≡ gathered.old.items) }
{
    match reply {
        Reply::Sent(packet) => gather(packet, gathered),
        _ => Ok(()),
    }
}

/// Writes the packets that these replies send behind what is gathered. For want of memory those
/// of a front are written.
fn gather_all(replies: &[Reply], gathered: &mut Vec<u8>) -> Result<(), NoMemory>
    ensures written { OnOk result (gathered.new.items
        ≡ gathered.old.items ++ spelled_in replies.now) }
    ensures front { OnErr result ((bytes rest : List ℕ)
        × (gathered.new.items ≡ gathered.old.items ++ bytes)
        × (spelled_in replies.now ≡ bytes ++ rest)) }
{
    for reply in replies {
        gather_reply(reply, gathered)?;
    }
    Ok(())
}

/// Why no more turns are made for now behind this reply, where that is so.
fn after_turn(reply: Reply) -> Option<Pause>
    ensures { result ≡ after_turn reply }
{
    match reply {
        Reply::Idle => Some(Pause::Idle),
        Reply::Gone => Some(Pause::Over(WriterEnd::Ended)),
        Reply::Worn => Some(Pause::Over(WriterEnd::Worn)),
        _ => None,
    }
}

/// Why no more turns are made for now behind a row with this last reply, where that is so.
fn after_row(last: Option<Reply>) -> Option<Pause>
    ensures { result ≡ after_row last }
{
    match last {
        Some(reply) => after_turn(reply),
        None => None,
    }
}

/// How a writer ends where no turn was made.
fn end_at(fault: GateFault) -> WriterEnd
    ensures { result ≡ end_at fault }
{
    match fault {
        GateFault::Spent => WriterEnd::Spent,
        GateFault::NoMemory => WriterEnd::NoMemory,
    }
}

/// Makes a row of turns of a connection and gathers what they send. Answers why no more turns are
/// made for now, where that is so.
fn make_row<Rt: Wait, T: Turns>(
    rt: &Rt,
    connection: u32,
    row: &mut Row,
    gathered: &mut Vec<u8>,
    turns: &mut T,
) -> Option<Pause>
    requires { connection ≤ 2 ^ 31 }
    ensures { (rs : List ReplyOf)
        × AreTurned connection rs (T.pairs turns.old) (T.pairs turns.new)
        × IsGathered rs gathered.old.items gathered.new.items (T.spent turns.new) result }
{
    let actor = BEFORE_CONNECTIONS + connection;
    let done = row.commit(rt, Step::Turn(actor), Behind::Turns(actor), turns);
    let all = gather_all(row.replies(), gathered);
    let last = row.last();
    if let Err(NoMemory) = all {
        return Some(Pause::Over(WriterEnd::NoMemory));
    }
    match done {
        Ok(()) => after_row(last),
        Err(fault) => Some(Pause::Over(end_at(fault))),
    }
}

/// Makes turns of a connection in rows and gathers what they send, until nothing waits for it or
/// behind one of these rows 65,536 bytes are gathered.
fn make_turns<Rt: Wait, T: Turns>(
    rt: &Rt,
    connection: u32,
    row: &mut Row,
    gathered: &mut Vec<u8>,
    turns: &mut T,
) -> Pause
    requires { connection ≤ 2 ^ 31 }
    ensures { (rs : List ReplyOf)
        × AreTurned connection rs (T.pairs turns.old) (T.pairs turns.new)
        × IsPaused rs gathered.new.items (T.spent turns.new) result }
{
    gathered.clear();
    for _ in rt.forever() {
        if let Some(pause) = make_row(rt, connection, row, gathered, turns) {
            return pause;
        }
        if gathered.len() >= PIECE {
            return Pause::Full;
        }
    }
    unreachable!()
}

/// Closes the connection, since its link failed, and works off what that leaves.
fn close<Rt: Wait, T: Turns>(rt: &Rt, connection: u32, row: &mut Row, turns: &mut T) -> WriterEnd
    ensures { IsShut connection (T.pairs turns.old) (T.pairs turns.new) (T.spent turns.new)
        result }
{
    match round(rt, Step::Close(connection), row, turns) {
        Ok(reply) => {
            drop(reply);
            WriterEnd::WriteFault
        }
        Err(GateFault::Spent) => WriterEnd::WriteFault,
        Err(GateFault::NoMemory) => WriterEnd::NoMemory,
    }
}

/// Has the link hurry, once, where the connection has ended.
fn hurry<Rt: Wait, W: Outgoing, T: Turns>(
    rt: &Rt,
    connection: u32,
    link: &mut W,
    hurries: &mut bool,
    turns: &mut T,
)
    ensures content { W.held link.new ≡ W.held link.old }
    ensures unfinished { W.finishes link.new ≡ W.finishes link.old }
    ensures count { W.faults link.new ≡ W.faults link.old }
    ensures turns { IsLooked (T.pairs turns.old) (T.pairs turns.new) (T.spent turns.old)
        (T.spent turns.new) }
{
    if *hurries {
        return;
    }
    *hurries = turns.has_ended(rt, connection);
    if *hurries {
        link.hurry();
    }
}

/// Offers a piece to the link, and answers how many bytes of it were taken: none where its peer
/// took nothing for a while. Once the connection has ended the link then hurries.
fn offer<Rt: Wait, W: Outgoing, T: Turns>(
    rt: &Rt,
    connection: u32,
    link: &mut W,
    piece: &[u8],
    hurries: &mut bool,
    turns: &mut T,
) -> Result<usize, WriteFault>
    requires { 0 < length piece.now }
    ensures size { IfOk result (λ n. n ≤ length piece.now) }
    ensures content { IfOk result (λ n.
        Appends (W.held link.old) (W.held link.new) (take n piece.now)) }
    ensures undone { OnErr result (W.held link.new ≡ W.held link.old) }
    ensures cause { OnErr result (Rose (W.faults link.old) (W.faults link.new)) }
    ensures lasting { W.faults link.old ≤ W.faults link.new }
    ensures unfinished { W.finishes link.new ≡ W.finishes link.old }
    ensures turns { IsLooked (T.pairs turns.old) (T.pairs turns.new) (T.spent turns.old)
        (T.spent turns.new) }
{
    match link.offer(piece) {
        Offered::Some(n) => Ok(n),
        Offered::Waits => {
            hurry(rt, connection, link, hurries, turns);
            Ok(0)
        }
        Offered::Failed => Err(WriteFault),
    }
}

/// Puts all the bytes, in as many pieces as the link takes.
fn put_all<Rt: Wait, W: Outgoing, T: Turns>(
    rt: &Rt,
    connection: u32,
    link: &mut W,
    bytes: &[u8],
    hurries: &mut bool,
    turns: &mut T,
) -> Result<(), WriteFault>
    ensures written { OnOk result (Appends (W.held link.old) (W.held link.new) bytes.now) }
    ensures front { OnErr result (AppendsFront (W.held link.old) (W.held link.new) bytes.now) }
    ensures cause { OnErr result (Rose (W.faults link.old) (W.faults link.new)) }
    ensures lasting { W.faults link.old ≤ W.faults link.new }
    ensures unfinished { W.finishes link.new ≡ W.finishes link.old }
    ensures turns { IsLooked (T.pairs turns.old) (T.pairs turns.new) (T.spent turns.old)
        (T.spent turns.new) }
{
    let mut at = 0;
    for _ in rt.forever() {
        if at >= bytes.len() {
            return Ok(());
        }
        match offer(rt, connection, link, &bytes[at..], hurries, turns) {
            Ok(n) => at += n,
            Err(WriteFault) => return Err(WriteFault),
        }
    }
    unreachable!()
}

/// Lets go what a large buffer held, with its room.
fn let_go(alloc: Global, gathered: &mut Vec<u8>)
    ensures { vec_capacity gathered.new ≤ 131072 }
{
    if gathered.capacity() > LARGE {
        *gathered = Vec::new(alloc);
    }
}

/// Puts what turns of the connection send, until it has ended.
fn put_turns<Rt: Wait, W: Outgoing, T: Turns>(
    rt: &Rt,
    alloc: Global,
    connection: u32,
    link: &mut W,
    row: &mut Row,
    turns: &mut T,
) -> WriterEnd
    requires { connection ≤ 2 ^ 31 }
    ensures written { (rs : List ReplyOf) × HasWritten connection rs (T.pairs turns.old)
        (T.pairs turns.new) (T.spent turns.new) (W.held link.old) (W.held link.new) result }
    ensures unfinished { W.finishes link.new ≡ W.finishes link.old }
    ensures cause { result ≡ WriterEnd.WriteFault →
        Rose (W.faults link.old) (W.faults link.new) }
    ensures lasting { W.faults link.old ≤ W.faults link.new }
{
    let mut gathered = Vec::new(alloc);
    let mut hurries = false;
    for _ in rt.forever() {
        let pause = make_turns(rt, connection, row, &mut gathered, turns);
        if let Err(WriteFault) = put_all(rt, connection, link, &gathered, &mut hurries, turns) {
            return close(rt, connection, row, turns);
        }
        let_go(alloc, &mut gathered);
        match pause {
            Pause::Full => {}
            Pause::Idle => turns.rest(rt),
            Pause::Over(end) => return end,
        }
    }
    unreachable!()
}

/// Makes room for a row, and puts what turns of the connection send, until it has ended.
fn write<Rt: Wait, W: Outgoing, T: Turns>(
    rt: &Rt,
    alloc: Global,
    connection: u32,
    link: &mut W,
    turns: &mut T,
) -> WriterEnd
    requires { connection ≤ 2 ^ 31 }
    ensures written { (rs : List ReplyOf) × HasWritten connection rs (T.pairs turns.old)
        (T.pairs turns.new) (T.spent turns.new) (W.held link.old) (W.held link.new) result }
    ensures unfinished { W.finishes link.new ≡ W.finishes link.old }
    ensures cause { result ≡ WriterEnd.WriteFault →
        Rose (W.faults link.old) (W.faults link.new) }
    ensures lasting { W.faults link.old ≤ W.faults link.new }
{
    let Ok(mut row) = Row::new(alloc) else {
        return WriterEnd::NoMemory;
    };
    put_turns(rt, alloc, connection, link, &mut row, turns)
}

/// Puts what a connection is sent, until it has ended, and finishes its link.
///
/// It makes turns, up to 33 in one hold, until nothing waits for the connection or 65,536 bytes are
/// gathered, and puts these at once. Once the connection has ended it waits no longer than the link
/// lets it.
pub fn serve_writer<Rt: Wait, W: Outgoing, T: Turns>(
    rt: &Rt,
    alloc: Global,
    connection: u32,
    link: &mut W,
    turns: &mut T,
) -> WriterEnd
    requires { connection ≤ 2 ^ 31 }
    ensures written { (rs : List ReplyOf) × HasWritten connection rs (T.pairs turns.old)
        (T.pairs turns.new) (T.spent turns.new) (W.held link.old) (W.held link.new) result }
    ensures finished { W.finishes link.new ≡ raised 1 (W.finishes link.old) }
    ensures cause { result ≡ WriterEnd.WriteFault →
        Rose (W.faults link.old) (W.faults link.new) }
    ensures lasting { W.faults link.old ≤ W.faults link.new }
{
    let end = write(rt, alloc, connection, link, turns);
    link.finish();
    end
}
