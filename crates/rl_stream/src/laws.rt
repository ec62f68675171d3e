//! Laws of what is next: each is the contract of a function that does nothing.
ghost use Rattle.rl_stream.specs.Nexts.{HasDecider, OneNext};
ghost use Rattle.rl_stream.specs.Laws.{DecidersTellPackets, OneCourse, ReadingGoesOn};
ghost use Rattle.rl_stream.specs.Laws.{EndsStay, AnyCutIsOneCourse};

use pv_binary::one_of_three;
use rl_packet::one_packet_a_value;

/// What is next is one alone.
pub fn one_next()
    ensures { OneNext }
{
    one_of_three();
    one_packet_a_value();
}

/// What is next can be told of any bytes.
pub fn next_is_decided()
    ensures { HasDecider }
{
    one_of_three();
}

/// The packets of a stream are what each decider tells, and they alone.
pub fn one_course()
    ensures told { DecidersTellPackets }
    ensures one { OneCourse }
{
    one_next();
}

/// Bytes that come in pieces have the packets that they have as a whole, wherever they are cut.
pub fn any_cut_is_one_course()
    ensures goes_on { ReadingGoesOn }
    ensures stays { EndsStay }
    ensures pieces { AnyCutIsOneCourse }
{
    one_next();
}
