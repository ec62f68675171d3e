//! Definitions, and where the one of each name stands.
ghost use Rattle.std.specs.Prelude.{◌≡◌, None, IfOk, IfErr, OnOk, MatchOption, option_copied};
ghost use Rattle.ps_schema.specs.Names.{knows, pattern_under, named_twice};
ghost use Rattle.ps_schema.specs.Places.{IsPlace, IsIndex, IsIndexFrom, place_of};
ghost use Rattle.ps_schema.specs.Schemas.{IsRefused};

use crate::{Definition, Pattern, SchemaFault};
use pv_value::{NoMemory, Text};
use std::alloc::Global;
use std::collections::BTreeMap;
use std::marker::Model;

/// Where the definition of each name stands.
type Places = BTreeMap<Vec<u8>, usize>;

/// Definitions, whose names are looked for by halves.
#[derive(Drop)]
pub(crate) struct Indexed {
    defs: Vec<Definition>,
    places: Places,
}

impl Model for Indexed {
    ghost use Rattle.std.specs.Prelude.{List};
    ghost use Rattle.ps_schema.specs.declared.Definition.{Definition};
    ghost use Rattle.ps_schema.specs.Places.{IsIndex};
    ghost use Rattle.std.specs.Coded.{coded_list};
    ghost use Rattle.ps_schema.specs.Lemmas.CodedDefinitions.{definition_code};

    ghost Value = { List Definition };

    ghost coded = { coded_list definition_code };

    ghost view = { λ a. a.defs.items };

    ghost invariant = { λ a. IsIndex a.defs.items a.places.entries };
}

impl Indexed {
    /// The same definitions, unless a name has two of them.
    pub(crate) fn new(alloc: Global, defs: Vec<Definition>) -> Result<Indexed, SchemaFault>
        ensures ok { IfOk result (λ s. s ≡ defs.items) }
        ensures once { OnOk result (named_twice defs.items ≡ None) }
        ensures err { IfErr result (IsRefused defs.items) }
    {
        let (places, twice) = places_of(alloc, &defs)?;
        match twice {
            Some(name) => Err(SchemaFault::NameTwice(String::from_str(alloc, name.as_str())?)),
            None => Ok(Indexed { defs, places }),
        }
    }

    /// All definitions, in their order.
    pub(crate) fn all(&self) -> &[Definition]
        ensures { result.now ≡ self.now }
    {
        &self.defs
    }

    /// Where the definition of the name stands.
    pub(crate) fn place(&self, name: &[u8]) -> Option<usize>
        ensures place { result ≡ place_of self.now name.now }
        ensures found { MatchOption result (pattern_under self.now name.now ≡ None)
            (IsPlace self.now name.now) }
    {
        self.places.get(name).copied()
    }

    /// Whether there is a definition of this name.
    pub(crate) fn knows(&self, name: &[u8]) -> bool
        ensures { result ≡ knows self.now name.now }
    {
        self.place(name).is_some()
    }

    /// The pattern that the name stands for.
    pub(crate) fn pattern(&self, name: &[u8]) -> Option<&Pattern>
        ensures { option_copied result ≡ pattern_under self.now name.now }
    {
        let place = self.place(name)?;
        Some(&self.defs[place].pattern)
    }
}

/// Where the first definition of each name stands, and the first name that has another one behind.
fn places_of(alloc: Global, defs: &[Definition]) -> Result<(Places, Option<&Text>), NoMemory>
    ensures places { IfOk result (λ r. IsIndex defs.now r.0.entries) }
    ensures twice { IfOk result (λ r. option_copied r.1 ≡ named_twice defs.now) }
{
    let mut places = BTreeMap::new(alloc);
    let mut twice = None;
    let mut at = defs.len();
    while at > 0 {
        at -= 1;
        let name = &defs[at].name;
        let before = places.insert(Vec::from_slice(alloc, name.as_bytes())?, at)?;
        if before.is_some() {
            twice = Some(name);
        }
    }
    Ok((places, twice))
}
