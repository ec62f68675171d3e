//! The function by which the guards of scripts judge.
use lc_guard::Predicate;
use ps_check::conforms;
use ps_schema::Schema;
use pv_value::Value;

/// Answers whether a value conforms to a name's definition.
#[derive(Clone, Copy, Drop)]
pub struct Conformance;

impl Predicate for Conformance {
    fn holds(&self, schema: &Schema, name: &[u8], value: &Value) -> bool {
        conforms(schema, name, value)
    }
}
