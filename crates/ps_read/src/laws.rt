//! A law of the definitions: it is the contract of a function that does nothing.
ghost use Rattle.ps_read.specs.Laws.{OneSchema, NoFaultBeside};

use pv_text::texts_are_read_one_way;

/// A text writes one schema at most, and one that writes a schema has no fault.
pub fn one_verdict()
    ensures schema { OneSchema }
    ensures fault { NoFaultBeside }
{
    texts_are_read_one_way();
    ps_schema::one_verdict();
}
