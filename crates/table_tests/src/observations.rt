//! The facets of a dataspace's rows, one for each observation. Connection 1 is actor 17, which
//! makes all; dataspace 1 is told and makes rows at it.
use ac_world::{Act, World};
use ds_space::PlainSpace;
use lc_watch::{Table, Watcher};
use pv_text::read_text;
use sr_pass::NoNames;
use std::alloc::Global;
use std::test::Fail;

const PEER: u32 = 17;

const SPACE: u32 = 1;

type Room = World<PlainSpace, NoNames, Watcher<Table>>;

/// A room with one connection.
fn room(alloc: Global) -> Result<Room, Fail> {
    let (room, _) = Room::begin(alloc, NoNames, Watcher::new(Table))?.arrive()?;
    Ok(room)
}

/// The assertion of a value at the dataspace.
fn asserts(alloc: Global, text: &str) -> Result<Act, Fail> {
    let (value, _) = read_text(alloc, text.as_bytes())?;
    Ok(Act::Assert(SPACE, 0, value))
}

/// The connection's acts, and the dataspace's turn over them.
fn told(alloc: Global, room: Room, acts: Vec<Act>) -> Result<Room, Fail> {
    if !room.live(PEER) {
        return Ok(room);
    }
    let (room, _) = room.send(alloc, PEER, acts)?.turn(alloc, SPACE)?;
    Ok(room)
}

/// One act, and the dataspace's turn over it.
fn told_one(alloc: Global, room: Room, act: Act) -> Result<Room, Fail> {
    let mut acts = Vec::new(alloc);
    acts.push(act)?;
    told(alloc, room, acts)
}

/// Whether the dataspace's rows under these handles stand in these facets; none for one that isn't
/// there.
fn stand(room: &Room, wanted: &[(u64, Option<u32>)]) -> bool {
    for (handle, facet) in wanted {
        let given = match room.row(*handle) {
            Some(row) => Some(row.facet),
            None => None,
        };
        if given != *facet {
            return false;
        }
    }
    true
}

/// A room in which two observations stand, of which the first has captured two facts, and the
/// second one. The facts have the handles 3, 4 and 5, and the captures 6, 7 and 8.
fn observed(alloc: Global) -> Result<Room, Fail> {
    let mut acts = Vec::new(alloc);
    for text in [
        "<Observe <group <rec P> {0: <bind <_>>}> #:[17 1]>",
        "<Observe <group <rec Q> {0: <bind <_>>}> #:[17 1]>",
        "<P 1>",
        "<Q 1>",
        "<P 2>",
    ] {
        acts.push(asserts(alloc, text)?)?;
    }
    told(alloc, room(alloc)?, acts)
}

/// Whether each observation has its facet, and what a connection asserts stands in facet 0.
fn has_its_facet(alloc: Global) -> Result<bool, Fail> {
    let room = observed(alloc)?;
    let facets = [
        (1, Some(0)),
        (3, Some(0)),
        (6, Some(1)),
        (7, Some(2)),
        (8, Some(1)),
    ];
    Ok(stand(&room, &facets))
}

/// Whether a facet stays with one of two rows gone.
fn stays_with_a_row(alloc: Global) -> Result<bool, Fail> {
    let room = told_one(alloc, observed(alloc)?, Act::Retract(3))?;
    let room = told_one(alloc, room, asserts(alloc, "<P 3>")?)?;
    Ok(stand(&room, &[(6, None), (8, Some(1)), (10, Some(1))]))
}

/// Whether the number of a facet whose last row went is taken by the next observation, and the
/// earlier one, where it captures again, has the next.
fn goes_and_comes(alloc: Global) -> Result<bool, Fail> {
    let room = told_one(alloc, observed(alloc)?, Act::Retract(4))?;
    let more = "<Observe <group <rec R> {0: <bind <_>>}> #:[17 1]>";
    let room = told_one(alloc, room, asserts(alloc, more)?)?;
    let room = told_one(alloc, room, asserts(alloc, "<R 1>")?)?;
    let room = told_one(alloc, room, asserts(alloc, "<Q 2>")?)?;
    Ok(stand(&room, &[(7, None), (11, Some(2)), (13, Some(3))]))
}

#[test]
fn each_observation_has_its_facet(rt: HostRuntime) -> Result<(), Fail> {
    assert!(rt; has_its_facet(rt.alloc())?);
    Ok(())
}

#[test]
fn a_facet_stays_with_a_row(rt: HostRuntime) -> Result<(), Fail> {
    assert!(rt; stays_with_a_row(rt.alloc())?);
    Ok(())
}

#[test]
fn a_facet_goes_with_its_last_row(rt: HostRuntime) -> Result<(), Fail> {
    assert!(rt; goes_and_comes(rt.alloc())?);
    Ok(())
}
