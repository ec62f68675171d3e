//! A system actor: what it has got, the handle of its own row for each key that it wants, the
//! facets in which these rows stand, and the references that it has read.
ghost use Rattle.std.specs.Prelude.{◌≡◌, []};

use crate::readings::Readings;
use crate::systems::System;
use ac_groups::Groups;
use std::alloc::Global;

/// A system actor.
#[derive(Drop)]
pub struct Resident<Y: System + Drop> {
    pub system: Y,
    pub groups: Groups,
    pub readings: Readings,
}

impl<Y: System + Drop> Resident<Y> {
    /// It has no rows of its own, and has read nothing.
    pub fn new(alloc: Global, system: Y) -> Resident<Y>
        ensures system { result.system ≡ system }
        ensures handles { result.groups.handles ≡ [] }
        ensures facets { result.groups.facets ≡ [] }
    {
        Resident {
            system,
            groups: Groups::new(alloc),
            readings: Readings::new(alloc),
        }
    }
}
