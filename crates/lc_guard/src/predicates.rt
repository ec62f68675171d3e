//! Functions that answer whether values conform to names.
use ps_schema::Schema;
use pv_value::Value;

/// A function that is asked of a schema, a name that it defines and a value, and answers whether
/// the value conforms to the name.
pub trait Predicate {
    ghost use Rattle.std.specs.Prelude.{◌≡◌, true};
    ghost use Rattle.ps_schema.specs.Names.{knows};
    ghost use Rattle.ps_schema.specs.Conforms.{conforms};

    fn holds(&self, schema: &Schema, name: &[u8], value: &Value) -> bool
        requires { knows schema.now name.now ≡ true }
        ensures { result ≡ conforms schema.now name.now value.now };
}
