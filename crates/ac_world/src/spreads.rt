//! Who is to end, since more would be wanted or sent than may be.
ghost use Rattle.std.specs.Prelude.{◌≡◌, [], ◌∷◌, ◌++◌, ◌==◌, ◌&&◌, not, OnOk};
ghost use Rattle.ac_world.specs.Turns.{is_listed, spread_by};

use pv_value::NoMemory;
use std::alloc::Global;
use std::marker::Model;

/// An actor that is to end, and the first weight that was too much.
#[derive(Clone, Copy, Debug, PartialEq, Eq)]
pub struct Spread {
    pub actor: u32,
    pub weight: u64,
}

/// Those that are to end, in the order of their events, each actor once.
#[derive(Drop)]
pub struct Spreads {
    list: Vec<Spread>,
}

impl Model for Spreads {
    ghost use Rattle.std.specs.Prelude.{List};
    ghost use Rattle.std.specs.Coded.{codes};
    ghost use Rattle.ac_world.specs.declared.spreads.Spread.{Spread};

    ghost Value = { List Spread };

    ghost view = { λ s. s.list.items };
}

impl Spreads {
    /// Nobody.
    pub(crate) fn new(alloc: Global) -> Spreads
        ensures { result ≡ [] }
    {
        Spreads {
            list: Vec::new(alloc),
        }
    }

    pub fn as_slice(&self) -> &[Spread]
        ensures { result.now ≡ self.now }
    {
        &self.list
    }

    fn lists(&self, actor: u32) -> bool
        ensures { result ≡ is_listed actor self.now }
    {
        self.list.iter().any(|spread| spread.actor == actor)
    }

    /// One more, where it is to end and isn't listed.
    pub(crate) fn add(&mut self, ends: bool, actor: u32, weight: u64) -> Result<(), NoMemory>
        ensures { OnOk result (self.new ≡ spread_by ends actor weight self.old) }
    {
        if ends && !self.lists(actor) {
            self.list.push(Spread { actor, weight })?;
        }
        Ok(())
    }
}
