//! How many values a pattern binds.
ghost use Rattle.std.specs.Prelude.{◌≡◌, min};
ghost use Rattle.sr_caveat.specs.Written.{binds, all_binds};
ghost use Rattle.sr_caveat.specs.View.{listed_patterns};

use crate::{CPat, PatternForm};

/// How many values a pattern binds. It stops at `u64::MAX`.
#[cycle(binds)]
pub(crate) fn binds(pattern: &CPat) -> u64
    ensures { result ≡ min (binds pattern.now) u64.MAX }
{
    match &pattern.form {
        PatternForm::Bind(inside) => binds(inside).saturating_add(1),
        PatternForm::And(patterns) => all_binds(patterns),
        PatternForm::Rec(_, patterns) => all_binds(patterns),
        PatternForm::Arr(patterns) => all_binds(patterns),
        PatternForm::Dict(_, patterns) => all_binds(patterns),
        _ => 0,
    }
}

#[cycle(binds)]
fn all_binds(patterns: &[CPat]) -> u64
    ensures { result ≡ min (all_binds (listed_patterns patterns.now)) u64.MAX }
{
    let mut total: u64 = 0;
    for pattern in patterns {
        total = total.saturating_add(binds(pattern));
    }
    total
}
