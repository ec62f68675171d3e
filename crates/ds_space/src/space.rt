//! Spaces: rows that come and go, and the exact changes of what is wanted over their values.
ghost use Rattle.std.specs.Prelude.{◌≡◌, ℕ, List, [], IfOk};
ghost use Rattle.std.specs.Map.{values_of};
ghost use Rattle.pv_value.specs.Plain.{Plain};
ghost use Rattle.ds_space.specs.Spaces.{IsNew, IsApplied, IsFan, has_row};

use pv_value::{Items, NoMemory, Value};
use std::alloc::Global;

/// What happens to a space.
#[derive(Drop)]
pub enum SpaceEvent {
    /// A row of this number, which is new, comes with this value.
    Add(u64, Value),
    /// The row of this number goes, where there is one.
    Gone(u64),
}

/// A key `[observation captures]` that is no longer wanted, or is wanted now.
#[derive(Drop)]
pub enum Change {
    Left(Value),
    Came(Value),
}

/// The keys that left, ascending, and then those that came, ascending.
pub type Changes = Vec<Change>;

/// What became of an event.
#[derive(Drop)]
pub enum Applied<S> {
    /// The space after it, and how what is wanted changed.
    Done(S, Changes),
    /// More would be wanted than may be: so much. The space is the same as before.
    Over(S, u64),
}

/// An observation, and what its pattern captures of a message.
#[derive(Drop)]
pub struct Fanned {
    pub observe: Value,
    pub captures: Items,
}

/// The observations that a message matches, ascending, each with its captures.
pub type FanList = Vec<Fanned>;

/// To whom a message goes.
#[derive(Drop)]
pub enum Fan {
    Each(FanList),
    /// The captures would weigh more than may be sent: so much.
    Over(u64),
}

/// Rows of values under numbers.
pub trait Space {
    /// The rows, ascending by number.
    ghost rows: { Self → List (ℕ × Plain) };

    /// No rows. It takes no memory.
    fn fresh(alloc: Global) -> Self
        ensures { rows result ≡ [] };

    /// A row comes or goes. For want of memory the space is gone.
    fn apply(self, alloc: Global, event: SpaceEvent) -> Result<Applied<Self>, NoMemory>
        requires { IsNew (rows self) event }
        ensures { IfOk result (IsApplied rows (rows self) event) };

    /// Whether a row has this number.
    fn has(&self, number: u64) -> bool
        ensures { result ≡ has_row number (rows self.now) };

    /// The observations among the values that a message matches, with their captures.
    fn fan(&self, alloc: Global, message: &Value) -> Result<Fan, NoMemory>
        ensures { IfOk result (IsFan (values_of (rows self.now)) message.now) };
}
