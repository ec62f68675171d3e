//! Laws of replies: each is the contract of a function that does nothing.
ghost use Rattle.srv_turns.specs.Replies.{PacketsAreReplied, BadIsReplied};

/// A packet step gets the reply `Taken`, `Refused`, `Gone` or `Worn`, and a bad one `Refused`,
/// `Gone` or `Worn`.
pub fn replies_to_peers()
    ensures packet { PacketsAreReplied }
    ensures bad { BadIsReplied }
{}
