//! A sum that is changed by adding to it, and that answers what it has come to.
use turn_gate::{Course, NoMemory, PLACES, Replayed};

/// A sum. It refuses to grow by more than a thousand in one step, as if there were no memory.
#[derive(Drop)]
pub struct Sum {
    pub total: u64,
}

impl Replayed for Sum {
    ghost use Rattle.gate_tests.specs.Sums.{sum_next, sum_over};

    type Step = u64;

    type Reply = u64;

    ghost next = { sum_next };

    ghost over = { sum_over };

    // Behind a step of 200 those at place 2 look again.
    fn called_by(s: &u64) -> Option<usize> {
        Some((*s / 100) as usize)
    }

    // Something is to be done at place 63 once the sum is above a thousand.
    fn work(&self) -> [bool; PLACES] {
        let mut work = [false; PLACES];
        if self.total > 1000 {
            work[63] = true;
        }
        work
    }

    // Whether the sum has come to so much.
    fn is_over(&self, about: u32) -> bool {
        self.total >= u64::from(about)
    }

    fn step(self, s: u64) -> Result<(Sum, u64), NoMemory> {
        if s > 1000 {
            return Err(NoMemory);
        }
        let total = self.total.wrapping_add(s);
        Ok((Sum { total }, total))
    }
}

/// Adds the same step again and again while the sum is below a limit.
#[derive(Drop)]
pub struct UpTo {
    pub limit: u64,
    pub step: u64,
}

impl Course<Sum> for UpTo {
    ghost use Rattle.gate_tests.specs.Sums.{further_up_to};

    ghost further = { further_up_to };

    fn further(&self, total: &u64) -> Option<u64> {
        if *total < self.limit {
            Some(self.step)
        } else {
            None
        }
    }
}
