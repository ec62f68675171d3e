//! What a connection does.

use pv_value::Value;

/// One of a connection's acts. The target is an object of an actor.
#[derive(Drop)]
pub enum Act {
    /// Asserts a value at the object (the second number) of the actor (the first).
    Assert(u32, u64, Value),
    /// Takes back the row under a handle, where it is the connection's own.
    Retract(u64),
    /// Says a value to the object of the actor.
    Message(u32, u64, Value),
    /// Asks the object of the actor for an answer to a peer, the value of whose reference is given.
    Sync(u32, u64, Value),
}
