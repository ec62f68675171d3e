//! The rule of the table, and what each step on the table tells. These types are for the proofs
//! alone.
use crate::replayed::Replayed;
use crate::view::{Held, View};
use atomic_table::{Join, Play, Split, TableRule};
use std::snapshot::Snapshot;

pub struct Law;

impl<T: Replayed> TableRule<Held<T, T::Step>, View<T, T::Step, T::Reply>, Snapshot<T>> for Law {
    ghost use Rattle.turn_gate.specs.Table.{Kept, first_view};

    ghost holds = { λ opening s. Kept T.next opening.value s };

    ghost first = { λ opening. first_view opening.value };
}

/// The lock is taken, and the slot with it.
pub struct Take;

impl<T: Replayed> Play<Held<T, T::Step>, View<T, T::Step, T::Reply>> for Take {
    ghost use Rattle.turn_gate.specs.Table.{took};

    ghost then = { took T.next };
}

/// The next step is announced, and the slot stays with the pass.
pub struct Again;

impl<T: Replayed> Play<Held<T, T::Step>, View<T, T::Step, T::Reply>> for Again {
    ghost use Rattle.turn_gate.specs.Table.{again};

    ghost then = { λ st m r w. again st m w };
}

/// The step is noted.
pub struct Note;

impl<T: Replayed> Play<Held<T, T::Step>, View<T, T::Step, T::Reply>> for Note {
    ghost use Rattle.turn_gate.specs.Table.{noted};

    ghost then = { λ st m r w. noted T.next m w };
}

/// The slot is given back.
pub struct Give;

impl<T: Replayed> Play<Held<T, T::Step>, View<T, T::Step, T::Reply>> for Give {
    ghost use Rattle.turn_gate.specs.Table.{gave};

    ghost then = { λ st m r w. gave m w };
}

/// The number of steps is looked at.
pub struct Look;

impl<T: Replayed> Play<Held<T, T::Step>, View<T, T::Step, T::Reply>> for Look {
    ghost use Rattle.turn_gate.specs.Table.{looked};

    ghost then = { λ st m r w. looked m r w };
}

/// Two lists are found to begin one list.
pub struct Compare;

impl<T: Replayed> Play<Held<T, T::Step>, View<T, T::Step, T::Reply>> for Compare {
    ghost use Rattle.turn_gate.specs.Table.{compared};

    ghost then = { λ st m r w. compared m w };
}

/// A word changes of which the rule says nothing.
pub struct Touch;

impl<T: Replayed> Play<Held<T, T::Step>, View<T, T::Step, T::Reply>> for Touch {
    ghost use Rattle.std.specs.Prelude.{◌≡◌};

    ghost then = { λ st m r w. w ≡ m };
}

/// A seat is made that knows nothing, to change such a word.
pub struct Visit;

impl<T: Replayed> Play<Held<T, T::Step>, View<T, T::Step, T::Reply>> for Visit {
    ghost then = { λ st m r w. Unit {0} };
}

/// A pass is split from the first one, or joined into it.
pub struct Family;

impl<T, S, R> Split<View<T, S, R>> for Family {
    ghost use Rattle.turn_gate.specs.Table.{parent, child};

    ghost left = { parent };

    ghost right = { child };
}

impl<T, S, R> Join<View<T, S, R>> for Family {
    ghost use Rattle.turn_gate.specs.Table.{together, nobody};

    ghost both = { together };

    ghost spent = { nobody };
}
