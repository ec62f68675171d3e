//! A law of first values.
ghost use Rattle.sc_schema.specs.Firsts.{OneVerdict, SomeVerdict};

use ps_read::one_verdict;

/// Of what a first value gives there is one verdict at most, and some where the text that it gives,
/// if any, is a schema or is refused.
pub fn one_first_schema()
    ensures one { OneVerdict }
    ensures some { SomeVerdict }
{
    one_verdict();
}
