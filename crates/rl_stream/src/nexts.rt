//! What stands next in the bytes that a peer has sent.
ghost use Rattle.std.specs.Prelude.{◌≡◌, ◌<◌, ◌+◌, ◌^◌, ℕ, List, length, IfOk, IfSome};
ghost use Rattle.pv_binary.specs.Reads.{BeginsWith};
ghost use Rattle.pv_stream.specs.Feeds.{FeedState, given};
ghost use Rattle.pv_stream.specs.Nexts as values;
ghost use Rattle.rl_packet.specs.Packets.{turn_value};
ghost use Rattle.rl_packet.specs.Grammar.{IsTurn};
ghost use Rattle.rl_stream.specs.Nexts.{front_of, IsNext};

use pv_stream::{Found, first_in, front_of};
use pv_value::{NoMemory, Value};
use rl_packet::{Packet, PacketFault, Turn, packet_of, turn_in};
use std::alloc::Global;

/// What is told of a value that doesn't end within a packet's length, in place of a fault's number.
const TOO_LONG: u8 = 9;

/// What stands next.
#[derive(Drop)]
pub enum Next {
    /// A packet, and how many bytes spell it.
    Whole(Packet, usize),
    /// What is no value: the number of the fault, and its place in all that was sent.
    BadBytes(u8, u64),
    /// A value that is no packet.
    BadPacket,
    /// A value begins, or nothing is left: more is to come.
    Waits,
}

/// What stands next in the rest, whose first byte is at this place of all that was sent. It is
/// decided on the first 262,144 bytes: where these begin a value and don't end it, it is too long.
pub fn next_packet(alloc: Global, rest: &[u8], place: u64) -> Result<Next, NoMemory>
    requires { place + length rest.now < 2 ^ 63 }
    ensures { IfOk result (IsNext rest.now place) }
{
    if let Some(next) = turn_next(alloc, rest)? {
        return Ok(next);
    }
    let found = first_in(alloc, rest, place)?;
    as_packet(alloc, found, place)
}

/// The turn that stands next, which is read with no value between; none where another thing is
/// next, or a turn isn't whole.
pub(crate) fn turn_next(alloc: Global, rest: &[u8]) -> Result<Option<Next>, NoMemory>
    ensures { (place : ℕ) → IfOk result (λ o. IfSome o (IsNext rest.now place)) }
{
    match turn_in(alloc, front_of(rest))? {
        Some((turn, size)) => Ok(Some(whole_turn(turn, size))),
        None => Ok(None),
    }
}

/// The turn stands next, where the first so many bytes spell it.
fn whole_turn(turn: Turn, size: usize) -> Next
    ensures { (rest : List ℕ) (place : ℕ) → BeginsWith (front_of rest) size (turn_value turn)
        → IsTurn turn → IsNext rest place result }
{
    Next::Whole(Packet::Turn(turn), size)
}

/// What was found at this place, of which a value is a packet or none.
pub(crate) fn as_packet(alloc: Global, found: Found, place: u64) -> Result<Next, NoMemory>
    ensures { (rest : List ℕ) → let f : FeedState = record { left = rest; before = place } in
        values.IsNext f found.next (given found.size f) → IfOk result (IsNext rest place) }
{
    let Found { next, size } = found;
    match next {
        pv_stream::Next::Value(value) => packet_or_not(alloc, &value, size),
        pv_stream::Next::More => Ok(Next::Waits),
        pv_stream::Next::Fault(kind, at) => Ok(Next::BadBytes(kind.number(), at)),
        pv_stream::Next::TooLong => Ok(Next::BadBytes(TOO_LONG, place)),
    }
}

/// What stands next, where the first so many bytes spell the value.
fn packet_or_not(alloc: Global, value: &Value, size: usize) -> Result<Next, NoMemory>
    ensures { (rest : List ℕ) (place : ℕ) → BeginsWith (front_of rest) size value.now
        → IfOk result (IsNext rest place) }
{
    match packet_of(alloc, value) {
        Ok(packet) => Ok(Next::Whole(packet, size)),
        Err(PacketFault::BadPacket) => Ok(Next::BadPacket),
        Err(PacketFault::NoMemory) => Err(NoMemory),
    }
}
