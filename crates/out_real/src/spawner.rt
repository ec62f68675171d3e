//! Jobs in threads.
ghost use Rattle.std.specs.Prelude.{◌≡◌, None};

use out_ports::ports::{Run, Spawner};
use std::sync::Wait;
use std::thread::{Builder, Scope};

/// The stack of each thread, 256 MiB: as many addresses, and as much memory as it has touched.
///
/// It is to hold what a walk over the deepest value takes. What is read nests at most 64 deep, but
/// what watchers make of what they made goes on until it weighs more than 33,554,432, and a level
/// of it weighs 105 at least: so no value has 320,000 levels, with what stands around it in a key.
/// That is 838 bytes for each, which is what each of ten thousand levels has in the 8 MiB of a
/// first thread, in which tests let so deep a value cross.
pub const STACK_BYTES: usize = 268_435_456;

/// Starts each job by a closure, which is to call [`start_in`] for a scope that it holds. The scope
/// ends once all jobs have ended.
#[derive(Drop)]
pub struct ScopeSpawner<F> {
    start: F,
    took: u64,
    faults: u64,
}

impl<F> ScopeSpawner<F> {
    pub fn new(start: F) -> ScopeSpawner<F>
        ensures start { result.start ≡ start }
        ensures took { result.took ≡ 0 }
        ensures faults { result.faults ≡ 0 }
    {
        ScopeSpawner {
            start,
            took: 0,
            faults: 0,
        }
    }
}

impl<J, F: Fn(J) -> bool> Spawner<J> for ScopeSpawner<F> {
    ghost can_start = { λ s job. F.pre s.start job };

    ghost jobs = { λ _. None };

    ghost took = { λ s. s.took };

    ghost faults = { λ s. s.faults };

    fn faults(&self) -> u64 {
        self.faults
    }

    fn start(&mut self, job: J) -> bool {
        let started = (self.start)(job);
        if started {
            self.took = self.took.saturating_add(1);
        } else {
            self.faults = self.faults.saturating_add(1);
        }
        started
    }
}

/// Starts a thread of the scope for the job, with a stack of [`STACK_BYTES`], or drops it and
/// answers false where none can be made.
pub fn start_in<'s, E, Rt: Wait + Sync, J: Run + Send + Drop + 's>(
    rt: &'s Rt,
    scope: &Scope<'s, E>,
    job: J,
) -> bool {
    Builder::new()
        .stack_size(STACK_BYTES)
        .spawn_scoped(scope, move || job.run(rt))
        .is_ok()
}
