//! The accept loop in memory.
ghost use Rattle.std.specs.Prelude.{◌≡◌, true, false, [], None, Some};
ghost use Rattle.out_ports.specs.Dialled.{no_link};

use crate::{Desk, NoMemory, Tally, accept_all};
use out_ports::memory::{MemLink, MemListen, MemSink, MemSource, MemSpawner};
use out_ports::ports::{Accepted, Listen, Spawner};
use std::alloc::{AllocError, Global};
use std::sync::Wait;
use std::test::Fail;

/// A job that does nothing: one half of a link.
#[derive(Drop)]
struct Half {
    number: u32,
    reads: bool,
}

/// A desk that opens links while a seat is free, numbered from 1.
#[derive(Drop)]
struct Seats {
    free: u32,
    last: u32,
    opened: Vec<u32>,
    full: u64,
    dismissed: Vec<u32>,
    over: bool,
}

impl Desk<MemSource, MemSink> for Seats {
    type Job = Half;

    ghost deeds = { λ s. record {
      opened = s.opened.items;
      full = s.full;
      dismissed = s.dismissed.items;
      spent = false;
    } };

    ghost is_first = { λ number half. (half.number ≡ number) × (half.reads ≡ true) };

    ghost is_second = { λ number half. (half.number ≡ number) × (half.reads ≡ false) };

    fn welcome<Rt: Wait>(
        &mut self,
        _rt: &Rt,
        _reads: MemSource,
        _writes: MemSink,
    ) -> Result<Option<(u32, Half, Half)>, NoMemory> {
        if self.free == 0 {
            self.full = self.full.saturating_add(1);
            return Ok(None);
        }
        self.free -= 1;
        self.last = self.last.wrapping_add(1);
        let number = self.last;
        if self.opened.push(number).is_err() {
            return Err(NoMemory);
        }
        let reads = Half {
            number,
            reads: true,
        };
        let writes = Half {
            number,
            reads: false,
        };
        Ok(Some((number, reads, writes)))
    }

    fn is_over(&self) -> bool {
        self.over
    }

    fn dismiss<Rt: Wait>(&mut self, _rt: &Rt, number: u32) -> Result<(), NoMemory> {
        if self.dismissed.push(number).is_err() {
            return Err(NoMemory);
        }
        Ok(())
    }
}

/// A listener with so many empty links, which fails at these accepts.
fn listener(alloc: Global, links: u32, failing: &[u64]) -> Result<MemListen, AllocError> {
    let mut all = Vec::new(alloc);
    for _ in 0..links {
        all.push(MemLink {
            reads: MemSource::new(Vec::new(alloc), 1, Vec::new(alloc)),
            writes: MemSink::new(Vec::new(alloc), Vec::new(alloc)),
        })?;
    }
    Ok(MemListen::new(all, Vec::from_slice(alloc, failing)?))
}

/// A desk with so many seats.
fn desk(alloc: Global, free: u32) -> Seats {
    Seats {
        free,
        last: 0,
        opened: Vec::new(alloc),
        full: 0,
        dismissed: Vec::new(alloc),
        over: false,
    }
}

/// A spawner with room for eighty jobs, which fails at these starts.
fn spawner(alloc: Global, failing: &[u64]) -> Result<MemSpawner<Half>, AllocError> {
    let room = Vec::with_capacity(alloc, 80)?;
    Ok(MemSpawner::new(room, Vec::from_slice(alloc, failing)?))
}

/// The numbers served, not opened, failed and not served.
fn counts(tally: Result<Tally, NoMemory>) -> Option<(u32, u32, u32, u32)> {
    let tally = tally.ok()?;
    Some((tally.served, tally.full, tally.failed, tally.unserved))
}

/// Two links and a spawner whose first start fails: the first link is dismissed, and nothing of its
/// second half is started.
fn first_start_fails<Rt: Wait>(rt: &Rt, alloc: Global) -> Result<bool, AllocError> {
    let mut listener = listener(alloc, 2, &[])?;
    let mut desk = desk(alloc, 2);
    let mut spawner = spawner(alloc, &[0])?;
    let tally = accept_all(rt, alloc, &mut listener, &mut desk, &mut spawner, 2);
    let jobs = spawner.jobs().iter().all(|half| half.number == 2);
    let dismissed = desk.dismissed.as_slice() == [1].as_slice();
    Ok(counts(tally) == Some((1, 0, 0, 1)) && dismissed && jobs && spawner.jobs().len() == 2)
}

#[test]
fn a_link_whose_job_fails_is_dismissed(rt: HostRuntime) -> Result<(), Fail> {
    assert!(rt; first_start_fails(&rt, rt.alloc())?);
    Ok(())
}

/// Three links at a desk with one seat, an accept that fails, and a stop: of the one link that is
/// opened the second start fails.
fn all_kinds<Rt: Wait>(rt: &Rt, alloc: Global) -> Result<bool, AllocError> {
    let mut listener = listener(alloc, 3, &[1])?;
    let mut desk = desk(alloc, 1);
    let mut spawner = spawner(alloc, &[1])?;
    let tally = accept_all(rt, alloc, &mut listener, &mut desk, &mut spawner, 9);
    let dismissed = desk.dismissed.as_slice() == [1].as_slice();
    let stopped = listener.stops() == 1 && listener.is_closed() && spawner.faults() == 1;
    Ok(counts(tally) == Some((0, 2, 1, 1)) && dismissed && stopped)
}

#[test]
fn each_link_is_counted_once(rt: HostRuntime) -> Result<(), Fail> {
    assert!(rt; all_kinds(&rt, rt.alloc())?);
    Ok(())
}

/// Links that nobody ends, one more than there are seats: the last isn't opened, and the listener
/// is closed behind it, though one link more waits for it.
fn links_that_are_held<Rt: Wait>(rt: &Rt, alloc: Global) -> Result<bool, AllocError> {
    let mut listener = listener(alloc, 34, &[])?;
    let mut desk = desk(alloc, 32);
    let mut spawner = spawner(alloc, &[])?;
    let tally = accept_all(rt, alloc, &mut listener, &mut desk, &mut spawner, 33);
    let opened = desk.opened.len() == 32 && desk.dismissed.is_empty();
    let gave = listener.gave() == 33 && listener.is_closed();
    let refused = matches!(listener.accept(alloc), Accepted::Stopped) && listener.gave() == 33;
    Ok(counts(tally) == Some((32, 1, 0, 0)) && opened && gave && refused)
}

#[test]
fn a_link_past_the_seats_is_full(rt: HostRuntime) -> Result<(), Fail> {
    assert!(rt; links_that_are_held(&rt, rt.alloc())?);
    Ok(())
}

/// A listener to which nobody comes.
#[derive(Drop)]
struct Deserted {
    stops: u64,
    closed: bool,
}

impl Listen for Deserted {
    type R = MemSource;

    type W = MemSink;

    ghost gave = { λ _. 0 };

    ghost stops = { λ l. l.stops };

    ghost faults = { λ _. 0 };

    ghost address = { λ _. Some [] };

    ghost closed = { λ l. l.closed };

    ghost files = { λ _. None };

    ghost file_faults = { λ _. 0 };

    ghost port_faults = { λ _. 0 };

    ghost link = { λ _. no_link };

    fn faults(&self) -> u64 {
        0
    }

    fn accept(&mut self, _alloc: Global) -> Accepted<MemSource, MemSink> {
        if !self.closed {
            return Accepted::Nobody;
        }
        self.stops = self.stops.saturating_add(1);
        Accepted::Stopped
    }

    fn close(&mut self) {
        self.closed = true;
    }
}

/// Nobody comes to a desk that is over.
fn ends_with_its_desk<Rt: Wait>(rt: &Rt, alloc: Global) -> Result<bool, AllocError> {
    let mut listener = Deserted {
        stops: 0,
        closed: false,
    };
    let mut desk = desk(alloc, 1);
    desk.over = true;
    let mut spawner = spawner(alloc, &[])?;
    let tally = accept_all(rt, alloc, &mut listener, &mut desk, &mut spawner, 1);
    Ok(counts(tally).is_none() && listener.closed && listener.stops == 0)
}

#[test]
fn a_loop_ends_with_its_desk(rt: HostRuntime) -> Result<(), Fail> {
    assert!(rt; ends_with_its_desk(&rt, rt.alloc())?);
    Ok(())
}
