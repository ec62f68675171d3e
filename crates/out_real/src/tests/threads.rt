//! Jobs in threads of a scope.
use super::links::{Ends, link_to};
use super::waits::hardly_draining;
use crate::{RealHost, ScopeSpawner, TcpSink, TcpSource, start_in};
use out_ports::ports::{Host, Run, Sink, Source, Spawner, Took};
use std::alloc::Global;
use std::net::{Net, TcpListener, TcpStream};
use std::rt::Files;
use std::sync::Wait;
use std::sync::atomic::{AtomicU64, Ordering};
use std::test::Fail;
use std::thread::{self, Threads};
use std::time::Clock;

/// A job that adds to a sum.
#[derive(Drop)]
struct Add<'a> {
    sum: &'a AtomicU64,
    n: u64,
}

impl<'a> Run for Add<'a> {
    fn run<Rt: Wait>(self, _rt: &Rt) {
        self.sum.fetch_add(self.n, Ordering::SeqCst);
    }
}

/// The sum of 1 to 4 by four jobs, each in a thread, and how many were not started.
fn four_jobs<Rt: Threads + Wait + Sync>(rt: &Rt) -> (u64, u64) {
    let sum = AtomicU64::new(0);
    let shared = &sum;
    let faults = thread::scope(thread::scope_env(), rt, |scope| {
        let mut spawner = ScopeSpawner::new(|job| start_in(rt, scope, job));
        for n in 1..5 {
            spawner.start(Add { sum: shared, n });
        }
        Spawner::<Add>::faults(&spawner)
    });
    (sum.into_inner(), faults)
}

#[test]
fn a_scope_ends_once_its_jobs_have_ended(rt: HostRuntime) -> Result<(), Fail> {
    assert!(rt; four_jobs(&rt) == (10, 0));
    Ok(())
}

/// A half of a link as a job: the reading one waits for the end, and counts one where it comes, and
/// the writing one is finished.
#[derive(Drop)]
enum Half<'a, Rt> {
    Reads(TcpSource<'a, Rt>, &'a AtomicU64),
    Writes(TcpSink<'a, Rt>),
}

impl<'a, C: Clock> Run for Half<'a, C> {
    fn run<Rt: Wait>(self, _rt: &Rt) {
        match self {
            Half::Reads(reads, ends) => count_end(reads, ends),
            Half::Writes(mut writes) => writes.finish(),
        }
    }
}

fn count_end<Rt: Clock>(mut reads: TcpSource<'_, Rt>, ends: &AtomicU64) {
    if reads.take(&mut [0; 8]) == Took::End {
        ends.fetch_add(1, Ordering::SeqCst);
    }
}

/// How many readers come to an end, of a link whose client stays and says nothing.
fn ends_of_two_halves<Rt>(rt: &Rt, alloc: Global) -> Option<u64>
where
    Rt: Clock + Files + Net<Listener = TcpListener, Stream = TcpStream> + Threads + Wait + Sync,
{
    let mut host = RealHost::new(rt);
    host.waits = hardly_draining();
    host.port(alloc, "127.0.0.1:0").ok()?;
    let Ends {
        client: _client,
        reads,
        writes,
    } = link_to(rt, alloc, &mut host, "127.0.0.1")?;
    let ends = AtomicU64::new(0);
    let shared = &ends;
    thread::scope(thread::scope_env(), rt, move |scope| {
        let mut spawner = ScopeSpawner::new(|job| start_in(rt, scope, job));
        spawner.start(Half::Reads(reads, shared));
        spawner.start(Half::Writes(writes));
    });
    Some(ends.into_inner())
}

#[test]
fn a_reader_that_waits_ends_with_its_writer(rt: HostRuntime) -> Result<(), Fail> {
    assert!(rt; ends_of_two_halves(&rt, rt.alloc()) == Some(1));
    Ok(())
}
