//! Laws of the definitions: each is the contract of a function that does nothing.
ghost use Rattle.rl_packet.specs.Grammar.{OnePacket};

/// A value is that of one packet.
pub fn one_packet_a_value()
    ensures { OnePacket }
{}
