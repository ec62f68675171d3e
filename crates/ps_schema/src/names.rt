//! The names of definitions, and what they stand for.
ghost use Rattle.std.specs.Prelude.{◌≡◌, None, MatchOption};
ghost use Rattle.ps_schema.specs.Names.{knows, pattern_under};
ghost use Rattle.ps_schema.specs.Places.{IsPlace};
ghost use Rattle.ps_schema.specs.Schemas.{IsSchema};

use crate::{Definition, Schema};

impl Schema {
    /// Whether there is a definition of this name.
    pub fn knows(&self, name: &[u8]) -> bool
        ensures { result ≡ knows self.now name.now }
    {
        self.defs.knows(name)
    }

    /// Where the definition of the name stands among all.
    pub fn place(&self, name: &[u8]) -> Option<usize>
        ensures { MatchOption result (pattern_under self.now name.now ≡ None)
            (IsPlace self.now name.now) }
    {
        self.defs.place(name)
    }

    /// All definitions, in their order.
    pub fn definitions(&self) -> &[Definition]
        ensures same { result.now ≡ self.now }
        ensures schema { IsSchema self.now }
    {
        self.defs.all()
    }
}
