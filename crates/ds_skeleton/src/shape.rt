//! What the index has of one outline.
ghost use Rattle.std.specs.Prelude.{◌≡◌, OnOk, IfOk};
ghost use Rattle.std.specs.BTreeMap as tree;
ghost use Rattle.ds_facts.specs.Keeping.{AreFacts};
ghost use Rattle.ds_skeleton.specs.Places.{stand};
ghost use Rattle.ds_skeleton.specs.Shapes.{IsBlank, IsBumped, IsDropped, IsWatched, IsUnwatched};
ghost use Rattle.ds_skeleton.specs.Shapes.{at_leaf};

use crate::capturing::captures_of;
use crate::index::Values;
use crate::leaf::{Leaves, begin, bump, drop_one, join, unwatch};
use crate::standing::{Parts, constants_in, with_captures};
use ds_facts::Facts;
use ds_shape::Outline;
use pv_value::{NoMemory, Value};
use std::alloc::Global;
use std::collections::BTreeMap;

/// An outline, and how many of the distinct values are observations of it, with the leaves by the
/// constants.
#[derive(Drop)]
pub(crate) struct Shape {
    pub(crate) outline: Outline,
    pub(crate) observations: u64,
    pub(crate) leaves: Leaves,
}

impl Shape {
    /// The outline with no leaves.
    pub(crate) fn new(alloc: Global, outline: Outline) -> Shape
        ensures { IsBlank outline result }
    {
        Shape {
            outline,
            observations: 0,
            leaves: BTreeMap::new(alloc),
        }
    }

    /// The parts of a value, where a leaf stands for its constants. Else no captures are made.
    pub(crate) fn parts_of(&self, alloc: Global, value: &Value) -> Result<Option<Parts>, NoMemory>
        ensures { IfOk result
            (λ parts. parts ≡ at_leaf self.now.leaves (stand self.now.outline value.now)) }
    {
        let Some(constants) = constants_in(alloc, &self.outline, value)? else {
            return Ok(None);
        };
        if self.leaves.contains_key(&constants) {
            return with_captures(alloc, &self.outline, value, constants);
        }
        Ok(None)
    }

    /// One more value.
    pub(crate) fn bump(&mut self, alloc: Global, value: &Value) -> Result<(), NoMemory>
        ensures { OnOk result (IsBumped value.now self.old self.new) }
    {
        match self.parts_of(alloc, value)? {
            Some(parts) => {
                let Parts {
                    constants,
                    captures,
                } = parts;
                bump(&mut self.leaves, &constants, captures)
            }
            None => Ok(()),
        }
    }

    /// One value fewer.
    pub(crate) fn drop_one(&mut self, alloc: Global, value: &Value) -> Result<(), NoMemory>
        ensures { OnOk result (IsDropped value.now self.old self.new) }
    {
        match self.parts_of(alloc, value)? {
            Some(parts) => {
                let Parts {
                    constants,
                    captures,
                } = parts;
                drop_one(&mut self.leaves, &constants, captures)
            }
            None => Ok(()),
        }
    }

    /// One more observation, with these constants. A new leaf has the values counted.
    pub(crate) fn watch(
        &mut self,
        alloc: Global,
        values: &Values,
        facts: &Facts,
        constants: Value,
        observer: &Value,
    ) -> Result<(), NoMemory>
        ensures outline { OnOk result (self.new.outline ≡ self.old.outline) }
        ensures watched { OnOk result (AreFacts (tree.keys values.now) facts.now
            → IsWatched (tree.keys values.now) constants observer.now self.old self.new) }
    {
        let Some(more) = self.observations.checked_add(1) else {
            return Err(NoMemory);
        };
        self.observations = more;
        let joined = join(&mut self.leaves, &constants, observer)?;
        if joined {
            return Ok(());
        }
        let captured = captures_of(alloc, values, facts, &self.outline, &constants)?;
        begin(alloc, &mut self.leaves, constants, captured, observer)
    }

    /// One observation fewer.
    pub(crate) fn unwatch(&mut self, constants: &Value, observer: &Value)
        ensures { IsUnwatched constants.now observer.now self.old self.new }
    {
        self.observations = self.observations.saturating_sub(1);
        unwatch(&mut self.leaves, constants, observer);
    }
}
