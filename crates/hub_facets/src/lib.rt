//! Facets: in which facet of its actor each row stands, and which facets there are. What holds
//! after every list of steps whose callers saw to their conditions. Each law is the contract of a
//! function that does nothing, and is proved of the definitions alone.
#![tactic(auto)]

ghost use Rattle.hub_facets.specs.Laws.{Rooms, Roots, Comings, Nothings, Leavings};

/// Rooms: the row for each key of a live system actor stands in the facet of the key's group, and
/// any other row of the actor's in facet 0; the actor has facet 0, the facets of its groups right
/// below it, no two groups one, and no others; in each of these a row stands. A live connection has
/// facet 0 alone, and its rows stand there. Which number a facet gets isn't said, nor when in a
/// step it comes or goes.
pub fn rows_stand_in_facets()
    ensures rooms { Rooms }
    ensures roots { Roots }
{}

/// Comings: a group has a facet exactly where a key of it is kept, so that its row stands; what a
/// system actor has got and makes nothing of, as a watcher by `each` of no captures, has none.
pub fn facets_come_with_rows()
    ensures rows { Comings }
    ensures nothing { Nothings }
{}

/// Leavings: no facets are kept of an actor that isn't live.
pub fn facets_end_with_actors()
    ensures { Leavings }
{}
