//! The handle that is drawn next.
ghost use Rattle.std.specs.Prelude.{◌≡◌, ◌<◌, ◌≤◌, ◌+◌, ◌^◌};

use std::marker::Model;

/// The handle that is drawn next, at most 2^63.
#[derive(Drop)]
pub(crate) struct NextHandle {
    handle: u64,
}

impl Model for NextHandle {
    ghost use Rattle.std.specs.Prelude.{ℕ, ◌≤◌, ◌^◌};

    ghost Value = { ℕ };

    ghost view = { λ n. n.handle };

    ghost invariant = { λ n. n.handle ≤ 2 ^ 63 };
}

impl NextHandle {
    /// The first one.
    pub(crate) fn first() -> NextHandle
        ensures { result ≡ 1 }
    {
        NextHandle { handle: 1 }
    }

    pub(crate) fn get(&self) -> u64
        ensures handle { result ≡ self.now }
        ensures small { result ≤ 2 ^ 63 }
    {
        self.handle
    }

    /// The next one, behind this one.
    pub(crate) fn advance(&mut self)
        requires { self.old < 2 ^ 63 }
        ensures { self.new ≡ self.old + 1 }
    {
        self.handle += 1;
    }
}
