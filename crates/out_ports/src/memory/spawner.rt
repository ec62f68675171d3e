//! A spawner in memory.
ghost use Rattle.std.specs.Prelude.{◌≡◌, ◌≤◌, Some, length, vec_capacity};
ghost use Rattle.out_ports.specs.Ports.{IsStarted, took_after};
ghost use Rattle.out_ports.specs.MemSpawner.{spawner_of, start_answer, after_start};

use super::calls::Calls;
use crate::ports::Spawner;
use std::marker::Model;

/// A spawner that keeps the jobs that it takes, and has room for so many.
#[derive(Drop)]
pub struct MemSpawner<J> {
    jobs: Vec<J>,
    room: usize,
    calls: Calls,
}

impl<J> Model for MemSpawner<J> {
    ghost use Rattle.std.specs.Prelude.{◌≤◌, length, vec_capacity};
    ghost use Rattle.out_ports.specs.MemSpawner.{ToldSpawner};

    ghost Value = { ToldSpawner J };

    ghost view = { λ s. record { jobs = s.jobs.items; room = s.room; calls = s.calls } };

    ghost invariant = { λ s. (length s.jobs.items ≤ s.room) × (s.room ≤ vec_capacity s.jobs) };
}

impl<J: Drop> MemSpawner<J> {
    /// A spawner with as much room as the vector has, whose jobs are dropped. It fails at these
    /// starts, and at each job that it has no room for.
    pub fn new(mut room: Vec<J>, failing: Vec<u64>) -> Self
        ensures { result ≡ spawner_of (vec_capacity room) failing.items }
    {
        room.clear();
        MemSpawner {
            room: room.capacity(),
            jobs: room,
            calls: Calls::new(failing),
        }
    }

    /// The jobs that it took.
    pub fn jobs(&self) -> &[J]
        ensures { result.now ≡ self.now.jobs }
    {
        &self.jobs
    }
}

impl<J: Drop> Spawner<J> for MemSpawner<J> {
    ghost jobs = { λ s. Some s.jobs };

    ghost took = { λ s. length s.jobs };

    ghost faults = { λ s. s.calls.faults };

    fn faults(&self) -> u64 {
        self.calls.faults()
    }

    fn start(&mut self, job: J) -> bool
        // The answer and the spawner after it are these and no others.
        ensures exact { result ≡ start_answer self.old }
        ensures after { self.new ≡ after_start result job self.old }
        ensures content { IsStarted result job (Some self.old.jobs) (Some self.new.jobs) }
        ensures counted { length self.new.jobs ≡ took_after result (length self.old.jobs) }
        ensures lasting { self.old.calls.faults ≤ self.new.calls.faults }
    {
        if self.calls.fails() {
            return false;
        }
        if self.jobs.len() >= self.room {
            self.calls.fail();
            return false;
        }
        self.jobs.push(job).unwrap();
        true
    }
}
