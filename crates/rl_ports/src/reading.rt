//! References as exports keep them: the value of each, which is read once.
ghost use Rattle.std.specs.Prelude.{◌≡◌, IfOk};
ghost use Rattle.std.specs.Option.{option_copied};
ghost use Rattle.sr_caveat.specs.Caps.{cap_of};

use pv_value::{NoMemory, Value};
use sr_caveat::Cap;
use std::alloc::Global;
use std::marker::Model;

/// The value of a reference, and what is read of it, where it is the value of one.
///
/// Contracts see the value alone: what is read is that of the value.
#[derive(Drop)]
pub struct ReadReference {
    value: Value,
    cap: Option<Cap>,
}

impl Model for ReadReference {
    ghost use Rattle.std.specs.Prelude.{◌≡◌};
    ghost use Rattle.pv_value.specs.Plain.{Plain};
    ghost use Rattle.pv_value.specs.Lemmas.Coded.{plain_code};
    ghost use Rattle.sr_caveat.specs.Caps.{cap_of};

    ghost Value = { Plain };

    ghost coded = { plain_code };

    ghost view = { λ r. r.value };

    ghost invariant = { λ r. r.cap ≡ cap_of r.value };
}

impl ReadReference {
    /// The reference of this value. For want of memory the value is gone.
    pub(crate) fn new(alloc: Global, value: Value) -> Result<ReadReference, NoMemory>
        ensures { IfOk result (λ r. r ≡ value) }
    {
        let cap = Cap::of_value(alloc, &value)?;
        Ok(ReadReference { value, cap })
    }

    /// The value.
    pub fn value(&self) -> &Value
        ensures { result.now ≡ self.now }
    {
        &self.value
    }

    /// What is read of the value.
    pub fn cap(&self) -> Option<&Cap>
        ensures { option_copied result ≡ cap_of self.now }
    {
        self.cap.as_ref()
    }
}
