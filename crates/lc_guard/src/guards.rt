//! A schema, kept beside a function that answers which values conform to its names.
ghost use Rattle.std.specs.Prelude.{◌≡◌};

use crate::Predicate;
use ps_schema::Schema;
use pv_value::Value;
use sr_pass::Judge;
use std::marker::Model;

/// What guards judge by where names have definitions.
///
/// Contracts see the schema's definitions.
#[derive(Drop)]
pub struct Guards<F: Predicate + Drop> {
    schema: Schema,
    predicate: F,
}

impl<F: Predicate + Drop> Model for Guards<F> {
    ghost use Rattle.std.specs.Prelude.{List};
    ghost use Rattle.ps_schema.specs.declared.Definition.{Definition};
    ghost use Rattle.std.specs.Coded.{coded_list};
    ghost use Rattle.ps_schema.specs.Lemmas.CodedDefinitions.{definition_code};

    ghost Value = { List Definition };

    ghost coded = { coded_list definition_code };

    ghost view = { λ g. g.schema };
}

impl<F: Predicate + Drop> Guards<F> {
    /// Guards that judge by the schema, through the function.
    pub fn new(schema: Schema, predicate: F) -> Guards<F>
        ensures { result ≡ schema }
    {
        Guards { schema, predicate }
    }
}

impl<F: Predicate + Drop> Judge for Guards<F> {
    ghost schema = { λ g. g };

    fn knows(&self, name: &[u8]) -> bool {
        self.schema.knows(name)
    }

    fn judge(&self, name: &[u8], value: &Value) -> bool {
        self.schema.knows(name) && self.predicate.holds(&self.schema, name, value)
    }
}
