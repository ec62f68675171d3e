//! The values of an input one behind another, and what is made of them.
ghost use Rattle.std.specs.Prelude.{◌≡◌, IfOk, IfErr};
ghost use Rattle.dsd_top.specs.declared.values.InputFault.TheVariants as fault;
ghost use Rattle.dsd_top.specs.Forms.{made_of, IsKnown};
ghost use Rattle.dsd_top.specs.Values.{AreMade, IsInputFaultOf};

use crate::forms::{Each, push_made};
use pv_value::NoMemory;
use sc_events::{Form as Input, INPUT_BYTES, NextFault, Values};
use std::alloc::Global;
use thiserror::Error;

/// Why an input isn't values to its end.
#[derive(Clone, Copy, Debug, PartialEq, Eq, Error)]
pub enum InputFault {
    /// After so many values comes what begins no value.
    #[error("bad value {0}")]
    Bad(u64),
    /// The input has more than [`INPUT_BYTES`].
    #[error("the input is too long")]
    TooLong,
    #[error("out of memory")]
    NoMemory,
}

impl From<NoMemory> for InputFault {
    ghost from_gives = { λ _ e. e ≡ fault.NoMemory };

    fn from(_: NoMemory) -> InputFault {
        InputFault::NoMemory
    }
}

/// What is made of each value of an input, one behind another. Its length is looked at first, and
/// whether a text is UTF-8; then its values in order.
pub fn values_to_end(
    alloc: Global,
    bytes: &[u8],
    input: Input,
    each: Each,
) -> Result<Vec<u8>, InputFault>
    requires { IsKnown each }
    ensures made { IfOk result (λ out. AreMade input (made_of each.entry) bytes.now out.items) }
    ensures fault { IfErr result (IsInputFaultOf input bytes.now) }
{
    if bytes.len() > INPUT_BYTES {
        return Err(InputFault::TooLong);
    }
    let mut out = Vec::new(alloc);
    let mut values = Values::of(bytes, input);
    let mut place = 0;
    loop {
        match values.next(alloc) {
            Ok(Some(value)) => push_made(alloc, &mut out, value, each)?,
            Ok(None) => return Ok(out),
            Err(NextFault::Bad) => return Err(InputFault::Bad(place)),
            Err(NextFault::NoMemory) => return Err(InputFault::NoMemory),
        }
        place += 1;
    }
}
