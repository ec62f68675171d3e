//! The accept loop at a gate over the hub, with links that nobody ends.
use ds_skeleton::Skeleton;
use ds_space::Space;
use lc_watch::{Behaves, Table, Watcher};
use out_ports::memory::{MemLink, MemListen, MemSink, MemSource, MemSpawner};
use sr_pass::{Judge, NoNames};
use srv_desk::GateDesk;
use srv_loop::{Tally, accept_all};
use srv_session::Served;
use std::alloc::{AllocError, Global};
use std::sync::Wait;
use std::test::Fail;
use turn_gate::Gate;

/// A listener with so many links.
fn listener(alloc: Global, count: u32) -> Result<MemListen, AllocError> {
    let mut links = Vec::new(alloc);
    for _ in 0..count {
        links.push(MemLink {
            reads: MemSource::new(Vec::new(alloc), 1, Vec::new(alloc)),
            writes: MemSink::new(Vec::new(alloc), Vec::new(alloc)),
        })?;
    }
    Ok(MemListen::new(links, Vec::new(alloc)))
}

/// How 33 links fare whose jobs are taken and never run, and how many jobs there are.
fn held_links<Rt: Wait, S, J, B>(
    rt: &Rt,
    alloc: Global,
    judge: J,
    behaves: B,
) -> Option<(Tally, usize)>
where
    S: Space + Drop,
    J: Judge + Drop,
    B: Behaves + Drop,
{
    let served = Served::<S, J, B>::begin(alloc, judge, behaves).ok()?;
    let Ok((gate, pass)) = Gate::begin(alloc, served, 1) else {
        return None;
    };
    let mut desk = GateDesk::new(alloc, &gate, pass);
    let mut listener = listener(alloc, 33).ok()?;
    let room = Vec::with_capacity(alloc, 80).ok()?;
    let mut spawner = MemSpawner::new(room, Vec::new(alloc));
    let tally = accept_all(rt, alloc, &mut listener, &mut desk, &mut spawner, 33).ok()?;
    Some((tally, spawner.jobs().len()))
}

/// Whether 32 are served, by two jobs each, and one finds no seat.
fn one_finds_no_seat<Rt: Wait>(rt: &Rt, alloc: Global) -> bool {
    let behaves = Watcher::new(Table);
    match held_links::<Rt, Skeleton, NoNames, Watcher<Table>>(rt, alloc, NoNames, behaves) {
        Some((tally, jobs)) => {
            let served = tally.served == 32 && tally.full == 1;
            served && tally.failed == 0 && tally.unserved == 0 && jobs == 64
        }
        None => false,
    }
}

#[test]
fn of_33_links_that_are_held_one_finds_no_seat(rt: HostRuntime) -> Result<(), Fail> {
    assert!(rt; one_finds_no_seat(&rt, rt.alloc()));
    Ok(())
}
