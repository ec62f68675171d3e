//! What answers for behaviours.
use pv_value::{Items, NoMemory};
use std::alloc::Global;

/// What watchers act by.
pub trait Behaves {
    ghost use Rattle.std.specs.Prelude.{◌≡◌, IfOk};
    ghost use Rattle.lc_watch.specs.Behaviours.{is_behaviour, behave};

    /// Whether a name has a behaviour.
    fn knows(&self, name: &[u8]) -> bool
        ensures { result ≡ is_behaviour name.now };

    /// What the name's behaviour makes of the captures. A name that has none makes nothing.
    fn behave(&self, alloc: Global, name: &[u8], captures: &Items) -> Result<Items, NoMemory>
        ensures { IfOk result (λ made. made ≡ behave name.now captures.now) };
}

/// A function that is asked of a name that has a behaviour, and of captures, and answers what the
/// behaviour makes of them.
pub trait Behaviour {
    ghost use Rattle.std.specs.Prelude.{◌≡◌, true, IfOk};
    ghost use Rattle.lc_watch.specs.Behaviours.{is_behaviour, behave};

    fn made(&self, alloc: Global, name: &[u8], captures: &Items) -> Result<Items, NoMemory>
        requires { is_behaviour name.now ≡ true }
        ensures { IfOk result (λ made. made ≡ behave name.now captures.now) };
}
