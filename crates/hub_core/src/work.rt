//! Who has something to do, by classes: class 0 is that of the system's actors, and each of the
//! others that of the connections whose numbers leave the same rest.
ghost use Rattle.std.specs.Prelude.{◌≡◌, ℕ, ◌<◌, ◌==◌, ◌||◌, ◌&&◌, true, false, get_or};
ghost use Rattle.hub_core.specs.Work.{class_of, is_work_left, is_in_connections};
ghost use Rattle.hub_core.specs.Work.{is_in_faults, has_work};

use crate::hub::Hub;
use crate::packets::keeps_its_order;
use ac_world::FIRST_CONNECTION;
use ds_space::Space;
use hub_machine::WORN_HANDLE;
use lc_watch::Behaves;
use sr_pass::Judge;

/// In how many classes the system's actors and connections fall.
pub const CLASSES: usize = 64;

/// The class of a connection, from 1 to 63.
pub fn class_of(connection: u32) -> usize
    ensures class { result ≡ class_of connection }
    ensures small { result < 64 }
{
    1 + (connection % 63) as usize
}

/// Nothing is to be done in any class.
fn none_marked() -> [bool; CLASSES]
    ensures { (p : ℕ) → p < 64 → get_or result p false ≡ false }
{
    [false; CLASSES]
}

/// Something is to be done in each class.
fn all_marked() -> [bool; CLASSES]
    ensures { (p : ℕ) → p < 64 → get_or result p false ≡ true }
{
    [true; CLASSES]
}

/// Something is to be done in the class of a connection.
fn mark(classes: &mut [bool; CLASSES], connection: u32)
    ensures { (p : ℕ) → p < 64 → get_or classes.new p false
        ≡ (class_of connection == p || get_or classes.old p false) }
{
    classes[class_of(connection)] = true;
}

impl<S: Space + Drop, J: Judge + Drop, B: Behaves + Drop> Hub<S, J, B> {
    /// Whether something is left to do for the system's actors: a batch waits for one of them, or
    /// they are to stop.
    fn is_work_left(&self) -> bool
        ensures { result ≡ is_work_left self.now }
    {
        match self.world.lowest() {
            Some(actor) => self.stopped || actor < FIRST_CONNECTION,
            None => self.stopped,
        }
    }

    /// Marks the classes of the connections for which a batch waits.
    fn mark_waiting(&self, classes: &mut [bool; CLASSES])
        ensures { (p : ℕ) → p < 64 → get_or classes.new p false
            ≡ (is_in_connections p self.now || get_or classes.old p false) }
    {
        keeps_its_order(&self.connections);
        for actor in self.world.busy().iter() {
            if let Some(connection) = self.named_by(*actor) {
                mark(classes, connection);
            }
        }
    }

    /// Marks the classes of the connections that are to be told why they ended.
    fn mark_failed(&self, classes: &mut [bool; CLASSES])
        ensures { (p : ℕ) → p < 64 → get_or classes.new p false
            ≡ (is_in_faults p self.now || get_or classes.old p false) }
    {
        for connection in self.faults.keys() {
            mark(classes, *connection);
        }
    }

    /// Marks the class of the system's actors, where something is left to do for them.
    fn mark_system(&self, classes: &mut [bool; CLASSES])
        ensures { (p : ℕ) → p < 64 → get_or classes.new p false
            ≡ (p == 0 && is_work_left self.now || get_or classes.old p false) }
    {
        if self.is_work_left() {
            classes[0] = true;
        }
    }

    /// In which classes something is to be done: for class 0 by the system's actors, in another
    /// one by a connection. Where the numbers of handles are used up it is in all of them.
    pub fn work_by_class(&self) -> [bool; CLASSES]
        ensures { (p : ℕ) → p < 64 → get_or result p false ≡ has_work p self.now }
    {
        if self.world.next_handle() >= WORN_HANDLE {
            return all_marked();
        }
        let mut classes = none_marked();
        self.mark_waiting(&mut classes);
        self.mark_failed(&mut classes);
        self.mark_system(&mut classes);
        classes
    }
}
