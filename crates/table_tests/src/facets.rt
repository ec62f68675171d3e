//! Facets that come and stop, with their rows.
use ac_table::{Table, TableFault};
use pv_value::Value;
use std::alloc::Global;
use std::test::Fail;

const ACTOR: u32 = 20;

/// The facet above each of those numbered from 1: two branches that are three deep.
const ABOVE: [u32; 6] = [0, 1, 2, 0, 4, 5];

/// One row in a facet, at the gatekeeper.
fn put(table: &mut Table, facet: u32) -> Result<u64, TableFault> {
    table.assert_row(ACTOR, facet, (0, 0), Value::boolean(true))
}

/// An actor with these facets, in each of which two rows stand: the earlier ones ascend with the
/// facets, the later ones descend.
fn grown(alloc: Global) -> Result<Table, TableFault> {
    let mut table = Table::new(alloc);
    table.add_actor(ACTOR)?;
    for above in ABOVE {
        table.add_facet(ACTOR, above)?;
    }
    for facet in 0..7 {
        put(&mut table, facet)?;
    }
    for facet in 0..7 {
        put(&mut table, 6 - facet)?;
    }
    Ok(table)
}

/// Whether exactly these rows and facets are there.
fn has(table: &Table, rows: &[u64], facets: &[u32]) -> bool {
    for handle in 0..20 {
        if table.row(handle).is_some() != rows.contains(&handle) {
            return false;
        }
    }
    for facet in 0..10 {
        if table.has_facet(ACTOR, facet) != facets.contains(&facet) {
            return false;
        }
    }
    true
}

/// Whether stopping a facet tells these handles, and leaves these rows and facets.
fn stops(
    alloc: Global,
    facet: u32,
    told: &[u64],
    rows: &[u64],
    facets: &[u32],
) -> Result<bool, TableFault> {
    let mut table = grown(alloc)?;
    let handles = table.stop_facet(ACTOR, facet)?;
    Ok(handles.as_slice() == told && has(&table, rows, facets))
}

#[test]
fn a_stop_takes_what_is_below_in_the_first_branch(rt: HostRuntime) -> Result<(), Fail> {
    let alloc = rt.alloc();
    assert!(rt;
        stops(
            alloc,
            1,
            &[2, 3, 4, 11, 12, 13],
            &[1, 5, 6, 7, 8, 9, 10, 14],
            &[0, 4, 5, 6]
        )?
    );
    assert!(rt;
        stops(
            alloc,
            2,
            &[3, 4, 11, 12],
            &[1, 2, 5, 6, 7, 8, 9, 10, 13, 14],
            &[0, 1, 4, 5, 6]
        )?
    );
    assert!(rt;
        stops(
            alloc,
            3,
            &[4, 11],
            &[1, 2, 3, 5, 6, 7, 8, 9, 10, 12, 13, 14],
            &[0, 1, 2, 4, 5, 6]
        )?
    );
    Ok(())
}

#[test]
fn a_stop_takes_what_is_below_in_the_other_branch(rt: HostRuntime) -> Result<(), Fail> {
    let alloc = rt.alloc();
    assert!(rt;
        stops(
            alloc,
            4,
            &[5, 6, 7, 8, 9, 10],
            &[1, 2, 3, 4, 11, 12, 13, 14],
            &[0, 1, 2, 3]
        )?
    );
    assert!(rt;
        stops(
            alloc,
            5,
            &[6, 7, 8, 9],
            &[1, 2, 3, 4, 5, 10, 11, 12, 13, 14],
            &[0, 1, 2, 3, 4]
        )?
    );
    assert!(rt;
        stops(
            alloc,
            6,
            &[7, 8],
            &[1, 2, 3, 4, 5, 6, 9, 10, 11, 12, 13, 14],
            &[0, 1, 2, 3, 4, 5]
        )?
    );
    Ok(())
}

#[test]
fn a_stop_of_the_root_takes_all(rt: HostRuntime) -> Result<(), Fail> {
    let alloc = rt.alloc();
    assert!(rt;
        stops(
            alloc,
            0,
            &[1, 2, 3, 4, 5, 6, 7, 8, 9, 10, 11, 12, 13, 14],
            &[],
            &[]
        )?
    );
    Ok(())
}

/// The numbers of two facets that come after one has stopped, and of a third.
fn taken_again(alloc: Global) -> Result<bool, TableFault> {
    let mut table = grown(alloc)?;
    table.stop_facet(ACTOR, 2)?;
    let first = table.add_facet(ACTOR, 6)?;
    let second = table.add_facet(ACTOR, first)?;
    let third = table.add_facet(ACTOR, 0)?;
    Ok(first == 2 && second == 3 && third == 7)
}

/// Whether a facet that stands where another one was stops with the branch that it stands in now.
fn stops_where_it_stands(alloc: Global) -> Result<bool, TableFault> {
    let mut table = grown(alloc)?;
    table.stop_facet(ACTOR, 2)?;
    let facet = table.add_facet(ACTOR, 6)?;
    let handle = put(&mut table, facet)?;
    let first = table.stop_facet(ACTOR, 1)?;
    let second = table.stop_facet(ACTOR, 4)?;
    Ok(
        handle == 15
            && first.as_slice() == [2, 13].as_slice()
            && second.as_slice() == [5, 6, 7, 8, 9, 10, 15].as_slice(),
    )
}

/// Whether the rows of a facet that has stopped leave the actor's sums too.
fn weighs_less(alloc: Global) -> Result<bool, TableFault> {
    let mut table = grown(alloc)?;
    let before = table.row_weight(ACTOR);
    table.stop_facet(ACTOR, 4)?;
    let after = table.row_weight(ACTOR);
    let rows = table.end_actor(ACTOR)?;
    Ok(before > after && rows.len() == 8)
}

#[test]
fn the_least_number_is_taken_again(rt: HostRuntime) -> Result<(), Fail> {
    assert!(rt; taken_again(rt.alloc())?);
    assert!(rt; stops_where_it_stands(rt.alloc())?);
    assert!(rt; weighs_less(rt.alloc())?);
    Ok(())
}

fn is_no_actor<T: Drop>(answer: Result<T, TableFault>) -> bool {
    match answer {
        Err(TableFault::NoActor) => true,
        _ => false,
    }
}

fn is_no_facet<T: Drop>(answer: Result<T, TableFault>) -> bool {
    match answer {
        Err(TableFault::NoFacet) => true,
        _ => false,
    }
}

/// Whether calls at an actor or at a facet that isn't there tell so, and change nothing.
fn told_of_what_is_missing(alloc: Global) -> Result<bool, TableFault> {
    let mut table = grown(alloc)?;
    let actors = is_no_actor(table.add_facet(21, 0)) && is_no_actor(table.stop_facet(21, 0));
    let facets = is_no_facet(table.add_facet(ACTOR, 7)) && is_no_facet(table.stop_facet(ACTOR, 7));
    let row = is_no_facet(put(&mut table, 7));
    let all = [1, 2, 3, 4, 5, 6, 7, 8, 9, 10, 11, 12, 13, 14];
    Ok(actors && facets && row && has(&table, &all, &[0, 1, 2, 3, 4, 5, 6]))
}

/// Whether nothing comes any more where the root has stopped.
fn nothing_without_the_root(alloc: Global) -> Result<bool, TableFault> {
    let mut table = grown(alloc)?;
    table.stop_facet(ACTOR, 0)?;
    let facet = is_no_facet(table.add_facet(ACTOR, 0));
    let row = is_no_facet(put(&mut table, 0));
    let stop = is_no_facet(table.stop_facet(ACTOR, 0));
    Ok(facet && row && stop && table.live(ACTOR) && has(&table, &[], &[]))
}

#[test]
fn what_is_missing_is_told(rt: HostRuntime) -> Result<(), Fail> {
    assert!(rt; told_of_what_is_missing(rt.alloc())?);
    assert!(rt; nothing_without_the_root(rt.alloc())?);
    Ok(())
}
