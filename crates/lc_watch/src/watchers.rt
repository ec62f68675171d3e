//! A function that answers the table of behaviours, stored.
ghost use Rattle.std.specs.Prelude.{◌≡◌};
ghost use Rattle.lc_watch.specs.Behaviours.{is_behaviour};

use crate::{Behaves, Behaviour};
use pv_value::{Items, NoMemory};
use std::alloc::Global;

/// What watchers act by, through a function that it keeps.
#[derive(Drop)]
pub struct Watcher<F: Behaviour + Drop> {
    behaviour: F,
}

impl<F: Behaviour + Drop> Watcher<F> {
    pub fn new(behaviour: F) -> Watcher<F> {
        Watcher { behaviour }
    }
}

impl<F: Behaviour + Drop> Behaves for Watcher<F> {
    fn knows(&self, name: &[u8]) -> bool {
        is_known(name)
    }

    fn behave(&self, alloc: Global, name: &[u8], captures: &Items) -> Result<Items, NoMemory> {
        if !is_known(name) {
            return Items::from_vec(alloc, Vec::new(alloc));
        }
        self.behaviour.made(alloc, name, captures)
    }
}

/// Whether the name has a behaviour.
fn is_known(name: &[u8]) -> bool
    ensures { result ≡ is_behaviour name.now }
{
    name == b"each".as_slice() || name == b"tuple".as_slice() || name == b"size".as_slice()
}
