//! Laws of gates. Each is the contract of a function that does nothing.
ghost use Rattle.turn_gate.specs.Laws.{IsOneThreads, EachStandsOnce, RuleStands};

use crate::replayed::Replayed;

/// What a legal history leaves, and its replies, are what one thread gets that does its steps in
/// their order.
pub fn history_is_one_threads<T: Replayed>()
    ensures { IsOneThreads T.next }
{}

/// In the history of a closed gate each entry is one caller's alone, and stands once in its `mine`.
pub fn each_stands_once<T: Replayed>()
    ensures { EachStandsOnce T.next }
{}

/// Between any two steps on the table of a gate its rule holds in all six parts: counting, custody,
/// home, holder, floors and names.
pub fn rule_stands<T: Replayed>()
    ensures { RuleStands T.next }
{}
