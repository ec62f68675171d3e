//! Bounds of references, and of the values that pass them.
ghost use Rattle.std.specs.Prelude.{◌≡◌};
ghost use Rattle.sr_caveat.specs.Limits.{value_weight, value_depth};
ghost use Rattle.sr_caveat.specs.Limits.{reference_caveats, reference_weight};

/// The most that a value weighs, as the server keeps it. A fault tells it as 6.
pub const VALUE_WEIGHT: u64 = 1_048_576;

/// How deep such a value nests at most. A fault tells it as 7.
pub const VALUE_DEPTH: u32 = 48;

/// The most caveats of a reference. A fault tells it as 8.
pub const REFERENCE_CAVEATS: usize = 32;

/// The most that a reference weighs with its caveats. A fault tells it as 9.
pub const REFERENCE_WEIGHT: u64 = 65_536;

/// These are the limits that the definitions have.
pub fn limits_are_as_defined()
    ensures weight { VALUE_WEIGHT ≡ value_weight }
    ensures depth { VALUE_DEPTH ≡ value_depth }
    ensures caveats { REFERENCE_CAVEATS ≡ reference_caveats }
    ensures reference { REFERENCE_WEIGHT ≡ reference_weight }
{}
