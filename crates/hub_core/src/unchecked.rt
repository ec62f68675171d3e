//! Of whom it isn't known that no more is held and waits for them than may be.
ghost use Rattle.std.specs.Prelude.{◌≡◌};
ghost use Rattle.std.specs.List.{list_any};
ghost use Rattle.hub_core.specs.Looking.{and_one, and_waiting, is_at_connection, and_acted};
ghost use Rattle.hub_core.specs.Looking.{and_turned};

use ac_world::{Act, BEFORE_CONNECTIONS, Turned};
use hub_machine::DATASPACES;

/// The connections that are left to be looked at at the step's end.
#[derive(Clone, Copy)]
pub(crate) enum Unchecked {
    Nobody,
    One(u32),
    /// Those for which a batch waits.
    Waiting,
    All,
}

/// Whether an act waits for a connection.
fn is_at_connection(act: &Act) -> bool
    ensures { result ≡ is_at_connection act.now }
{
    match act {
        Act::Assert(target, _, _) | Act::Message(target, _, _) | Act::Sync(target, _, _) => {
            *target > u32::from(DATASPACES)
        }
        Act::Retract(_) => false,
    }
}

/// Whether an act of these waits for a connection.
fn are_at_connections(acts: &[Act]) -> bool
    ensures { result ≡ list_any is_at_connection acts.now }
{
    acts.iter().any(|act| is_at_connection(act))
}

impl Unchecked {
    /// One connection more is left.
    pub(crate) fn and(self, connection: u32) -> Unchecked
        ensures { result ≡ and_one connection self }
    {
        match self {
            Unchecked::Nobody => Unchecked::One(connection),
            Unchecked::One(other) if other == connection => Unchecked::One(connection),
            _ => Unchecked::All,
        }
    }

    /// A connection did these acts, and what it names was changed.
    pub(crate) fn and_acted(self, connection: u32, acts: &[Act]) -> Unchecked
        ensures { result ≡ and_acted connection acts.now self }
    {
        if are_at_connections(acts) {
            Unchecked::All
        } else {
            self.and(connection)
        }
    }

    /// All for which a batch waits are left.
    fn and_waiting(self) -> Unchecked
        ensures { result ≡ and_waiting self }
    {
        match self {
            Unchecked::Nobody | Unchecked::Waiting => Unchecked::Waiting,
            _ => Unchecked::All,
        }
    }

    /// An actor took a turn, if one was taken: this became of it.
    pub(crate) fn and_turned(self, actor: u32, turned: &Turned) -> Unchecked
        ensures { result ≡ and_turned actor turned.now self }
    {
        match turned {
            Turned::Ran(_) => self.and_waiting(),
            Turned::Taken(_) => self.and(actor.saturating_sub(BEFORE_CONNECTIONS)),
            Turned::Idle | Turned::Gone => self,
        }
    }
}
