//! A law of behaviours.
ghost use Rattle.lc_watch.specs.Behaviours.{MakesEightAtMost};

/// A behaviour makes eight values at most.
pub fn eight_at_most()
    ensures { MakesEightAtMost }
{}
