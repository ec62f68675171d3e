//! Which calls of a memory form are to fail.
ghost use Rattle.std.specs.Prelude.{◌≡◌, ◌≤◌};
ghost use Rattle.out_ports.specs.Calls.{is_next_listed, before_calls, after_call, after_fault};

use std::marker::Model;

/// Counts calls, and knows which of them are to fail.
#[derive(Drop)]
pub struct Calls {
    failing: Vec<u64>,
    made: u64,
    faults: u64,
}

impl Model for Calls {
    ghost use Rattle.out_ports.specs.Calls.{CallCounts};

    ghost Value = { CallCounts };

    ghost view = { λ c. record { failing = c.failing.items; made = c.made; faults = c.faults } };
}

impl Calls {
    pub fn new(failing: Vec<u64>) -> Self
        ensures { result ≡ before_calls failing.items }
    {
        Calls {
            failing,
            made: 0,
            faults: 0,
        }
    }

    /// How often a call failed.
    pub fn faults(&self) -> u64
        ensures { result ≡ self.now.faults }
    {
        self.faults
    }

    /// Counts a call, and tells whether it is to fail. The counts stop at the greatest u64.
    pub fn fails(&mut self) -> bool
        ensures listed { result ≡ is_next_listed self.old }
        ensures counted { self.new ≡ after_call result self.old }
        ensures lasting { self.old.faults ≤ self.new.faults }
    {
        let fails = self.failing.contains(&self.made);
        self.made = self.made.saturating_add(1);
        if fails {
            self.faults = self.faults.saturating_add(1);
        }
        fails
    }

    /// Counts a fault of the call that was counted last.
    pub fn fail(&mut self)
        ensures counted { self.new ≡ after_fault self.old }
        ensures lasting { self.old.faults ≤ self.new.faults }
    {
        self.faults = self.faults.saturating_add(1);
    }
}
