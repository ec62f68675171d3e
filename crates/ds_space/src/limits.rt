//! How much may be wanted.
ghost use Rattle.std.specs.Prelude.{◌≡◌, nat_lt};
ghost use Rattle.ds_space.specs.Limits.{most_wanted_weight};

/// How much may be wanted over a space, and how much a message may fan out to.
pub const WANTED_WEIGHT: u64 = 33_554_432;

/// Whether that is more than may be wanted, or sent on. Exactly as much may be.
pub fn is_over(weight: u64) -> bool
    ensures { result ≡ nat_lt most_wanted_weight weight }
{
    weight > WANTED_WEIGHT
}
