//! Laws of the values of a stream: each is the contract of a function that does nothing.
ghost use Rattle.std.specs.Prelude.{ℕ, List};
ghost use Rattle.pv_binary.specs.OneOfThree.{AreBytes};
ghost use Rattle.pv_stream.specs.Nexts.{SomeNext, OneNext, NeverTruncated};
ghost use Rattle.pv_stream.specs.Laws.{OneCourse, ValuesAreAPrefix, ValuesAreAll};
ghost use Rattle.pv_stream.specs.Laws.{EndsAreOfTheWhole, EndsStay};
ghost use Rattle.pv_stream.specs.Laws.{ScanIsReading, ScanTellsNoRepeat, ScanIsExact};

use pv_binary::{one_of_three, reading_tells};

/// Something is next, and one thing alone; that the bytes end is never told as a fault.
pub fn one_next()
    ensures some { SomeNext }
    ensures one { OneNext }
    ensures never_truncated { NeverTruncated }
{
    one_of_three();
}

/// A stream has one course of values.
pub fn one_course()
    ensures { OneCourse }
{
    one_next();
}

/// The values of a stream are the same in whatever pieces it comes, and whenever a value is asked
/// for.
pub fn any_pieces()
    ensures prefix { ValuesAreAPrefix }
    ensures all { ValuesAreAll }
    ensures ends { EndsAreOfTheWhole }
    ensures stays { EndsStay }
{}

/// A scan passes what reading reads and stops where it stops, but that it doesn't look for what
/// repeats.
pub fn scan_is_reading()
    ensures reading { ScanIsReading }
    ensures no_repeat { ScanTellsNoRepeat }
{}

/// A scan tells a value, a front and a fault as what they are, and tells nothing else but where
/// elements repeat.
pub fn scan_is_exact()
    ensures { (bytes : List ℕ) → AreBytes bytes → ScanIsExact bytes }
{
    one_of_three();
    reading_tells();
}
