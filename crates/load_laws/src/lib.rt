//! Laws of loads: each is the contract of a function that does nothing, proved of the definitions
//! alone.
#![tactic(auto)]

ghost use Rattle.load_laws.specs.LoadEvents.{LoadsAreOfEvents};
ghost use Rattle.load_laws.specs.Loads.{LoadsStopForLimits, LoadsStopForTwoLimits, LoadsNeverStop};

use rl_stream::one_next;
use sc_events::one_reading;

/// In the script of each load every value writes an event: first its connections come, ten at most,
/// and each event behind them is a turn that one of these sends, or has the work done. So none is
/// no event, and none binds, watches or gives a schema.
pub fn loads_are_of_events()
    ensures { LoadsAreOfEvents }
{}

/// The script of a load of 20,000 items at most stops for a limit, or runs to its end: no value of
/// it is malformed, none is an event that can't stand where it stands, and none gives a schema. Of
/// the limits none but those on what is sent and on numbers stops it, even where packets are told
/// in another way than they stand.
pub fn loads_stop_for_limits_alone()
    ensures limits { LoadsStopForLimits }
    ensures two { LoadsStopForTwoLimits }
{
    one_reading();
}

/// The script of a load of 20,000 items at most runs to its end, where packets are told as they
/// stand.
pub fn loads_never_stop()
    ensures { LoadsNeverStop }
{
    one_next();
    one_reading();
}
