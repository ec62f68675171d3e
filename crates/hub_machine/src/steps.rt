//! What can happen to the server, and what it answers.

use crate::faults::Fault;
use ac_world::Watched;
use gk_sturdy::Binding;
use rl_packet::{Packet, Turn};

/// What can happen to the server. Connections are named by their numbers, which count from 1.
#[derive(Drop)]
pub enum Step {
    /// An oid is bound to a key and to the reference that it gives. No connection has come yet.
    Bind(Binding),
    /// A watcher begins. No connection has come yet.
    Watch(Watched),
    /// A connection comes, whose object 0 is the gatekeeper, for 0, or the dataspace of this
    /// number.
    Arrive(u8),
    /// A connection sends a turn.
    Packet(u32, Turn),
    /// A connection sends what is no packet.
    Bad(u32, Fault),
    /// A connection goes.
    Close(u32),
    /// An actor takes the first batch of its inbox; a connection that has ended is told why.
    Turn(u32),
    /// The lowest of the system's actors takes the first batch of its inbox, where one waits.
    Work,
    /// No connection is to come any more.
    Stop,
}

/// What the server answers to a step. Where two fit, the first of this list comes.
#[derive(Drop)]
pub enum Reply {
    /// The numbers of handles or of connections are used up. Nothing changes.
    Worn,
    /// There is no such dataspace, the reference can't be bound, or the watcher can't begin.
    /// Nothing changes.
    Barred,
    /// The server is to stop: no connection comes, and the system's actors have nothing to do.
    /// Nothing changes.
    Halted,
    /// As many connections are live as may be. Nothing changes.
    Full,
    /// The connection's number, from 1.
    Opened(u32),
    /// There is no such actor, and nothing to tell of it. Nothing changes.
    Gone,
    /// The connection has ended for this fault. Nothing of the packet stands.
    Refused(Fault),
    /// The actor's inbox is empty, or all of the system's are. Nothing changes.
    Idle,
    /// A connection's turn: the packet that it gets.
    Sent(Packet),
    /// A system actor's turn is done.
    Ran,
    /// The step is done.
    Taken,
}
