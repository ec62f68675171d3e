//! Streams that are cut, as where a link breaks: what is told of a stream's first bytes and of the
//! whole, and what a reader commits of them. Each law is the contract of a function that does
//! nothing.
#![tactic(auto)]

ghost use Rattle.srv_cuts.specs.Laws.{CutsAreFronts, CutReadersReadAFront};

use rl_stream::{next_is_decided, one_course};

/// The packets of a stream that was cut, anywhere, are the first packets of the whole; where the
/// cut doesn't end in waiting they are all of them, and the whole has the cut's end.
pub fn cuts_are_fronts()
    ensures { CutsAreFronts }
{
    next_is_decided();
    one_course();
}

/// Of a connection's bytes that were cut a reader commits the first packets that are due for the
/// whole, and behind them at most the one step for how the cut ends.
pub fn cut_readers_read_a_front()
    ensures { CutReadersReadAFront }
{
    cuts_are_fronts();
    one_course();
}
