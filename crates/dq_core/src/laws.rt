//! Laws of what a client makes of packets: each is the contract of a function that does nothing.
ghost use Rattle.dq_core.specs.Laws.{AddedLinesAreHeld, PacketsGoOn};

/// After any packets without a fault, the values of the `+` lines less those of the `-` lines are,
/// as a bag, the values that the server's peer holds at the object to which what is observed goes.
pub fn added_lines_are_held()
    ensures { AddedLinesAreHeld }
{}

/// What packets without a fault bring, and then what others bring, is what all of them bring.
pub fn packets_go_on()
    ensures { PacketsGoOn }
{}
