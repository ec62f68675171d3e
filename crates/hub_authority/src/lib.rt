//! Authority: what connections may do, what they can name, and in which dialect they speak. Each
//! law is the contract of a function that does nothing, and is proved of the definitions alone.
#![tactic(auto)]

ghost use Rattle.hub_authority.specs.Dialects.{DialectsStay, TakenTurnsFix, RefusedFixNone};
ghost use Rattle.hub_authority.specs.Laws.{TakenPackets, Exports, InForce, Names};

/// In each state to which allowed steps lead, a packet that is taken makes exactly the rows and
/// sends exactly the messages for which its events ask, at the objects that the connection's
/// exports in force name. An event that is stale asks for none.
pub fn packets_do_what_they_ask()
    ensures { TakenPackets }
{}

/// A live connection's exports, pins and notes are what the batches that it was told make of its
/// first object. In force are exactly its object 0, the references to objects of others, or with
/// caveats, in the rows that it has got, and those whose numbers are pinned.
pub fn exports_are_what_was_told()
    ensures told { Exports }
    ensures in_force { InForce }
{}

/// Names: what a live connection was sent is what was told, with a name in place of each reference:
/// `[1 e]` for an object of its own, and `[0 n]` for the reference to which n was given. A number
/// is given once, and what is in force stands under the number that was given to it.
pub fn names_mean_what_was_told()
    ensures { Names }
{}

/// Dialects: once a connection's dialect is fixed it stays, as long as the connection lives. A turn
/// that is taken fixes it where none was; a packet that is refused fixes none, since the connection
/// ends.
pub fn a_dialect_stays()
    ensures stays { DialectsStay }
    ensures taken { TakenTurnsFix }
    ensures refused { RefusedFixNone }
{}
