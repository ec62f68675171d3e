//! The laws of kept bindings.
ghost use Rattle.std.specs.Prelude.{◌≡◌};
ghost use Rattle.kp_keeper.specs.Keeping.{most_records};
ghost use Rattle.kp_keeper.specs.Commands.{CommandsDecide};

use crate::keeper::MOST_RECORDS;

/// After a list of commands the records ascend as before, and an oid is kept where the last command
/// that did something to it kept it.
pub fn commands_decide()
    ensures { CommandsDecide }
{}

/// The limit is the one that the definitions have.
pub fn limit_is_as_defined()
    ensures { MOST_RECORDS ≡ most_records }
{}
