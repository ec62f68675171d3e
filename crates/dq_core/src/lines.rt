//! The lines that tell what comes and goes.
ghost use Rattle.std.specs.Prelude.{◌≡◌, ◌++◌, ◌∷◌, ◌==◌, [], length, OnOk, OnErr};

use pv_value::{NoMemory, Value};
use std::alloc::Global;
use std::marker::Model;

/// What one line tells.
#[derive(Drop)]
pub enum Line {
    /// A value is asserted: `+` and the value.
    Added(Value),
    /// An assertion of a value is taken back: `-` and the value.
    Removed(Value),
    /// A value is said: `!` and the value.
    Said(Value),
}

/// Lines, in order.
#[derive(Drop)]
pub struct Lines {
    list: Vec<Line>,
}

impl Model for Lines {
    ghost use Rattle.std.specs.Prelude.{List};
    ghost use Rattle.std.specs.Coded.{codes};
    ghost use Rattle.pv_value.specs.Lemmas.Coded.{plain_code};
    ghost use Rattle.dq_core.specs.declared.lines.Line.{Line};

    ghost Value = { List Line };

    ghost coded = { Prim.hlevel (codes, plain_code) };

    ghost view = { λ a. a.list.items };
}

impl Lines {
    /// No lines.
    pub fn new(alloc: Global) -> Lines
        ensures { result ≡ [] }
    {
        Lines {
            list: Vec::new(alloc),
        }
    }

    /// One line more, behind the others. For want of memory none is.
    pub(crate) fn push(&mut self, line: Line) -> Result<(), NoMemory>
        ensures longer { OnOk result (self.new ≡ self.old ++ line ∷ []) }
        ensures undone { OnErr result (self.new ≡ self.old) }
    {
        self.list.push(line)?;
        Ok(())
    }

    pub fn as_slice(&self) -> &[Line]
        ensures { result.now ≡ self.now }
    {
        &self.list
    }

    pub fn into_vec(self) -> Vec<Line>
        ensures { result.items ≡ self }
    {
        let Lines { list } = self;
        list
    }

    /// How many lines there are.
    pub fn len(&self) -> usize
        ensures { result ≡ length self.now }
    {
        self.list.len()
    }

    pub fn is_empty(&self) -> bool
        ensures { result ≡ (length self.now == 0) }
    {
        self.list.is_empty()
    }
}
