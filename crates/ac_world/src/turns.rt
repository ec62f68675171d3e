//! What a turn answers.

use crate::spreads::Spreads;
use ac_table::Batch;

/// What became of a turn.
#[derive(Drop)]
pub enum Turned {
    /// A system actor took its batch; these are to end.
    Ran(Spreads),
    /// A connection took this batch.
    Taken(Batch),
    /// No batch waits for the actor. Nothing changes.
    Idle,
    /// The actor isn't live. Nothing changes.
    Gone,
}
