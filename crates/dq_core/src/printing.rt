//! Lines as text.
ghost use Rattle.std.specs.Prelude.{◌≡◌, ◌++◌, OnOk};
ghost use Rattle.std.specs.Io.{StartsWith};
ghost use Rattle.dq_core.specs.Lines.{line_text, signed};

use crate::lines::Line;
use pv_print::print_into;
use pv_value::{NoMemory, Value, push_byte};

/// A sign, a space, the value's text and a line feed.
fn write_signed(out: &mut Vec<u8>, sign: u8, value: &Value) -> Result<(), NoMemory>
    ensures exact { OnOk result (out.new.items ≡ out.old.items ++ signed sign value.now) }
    ensures front { StartsWith out.new.items out.old.items }
{
    push_byte(out, sign)?;
    push_byte(out, b' ')?;
    print_into(out, value)?;
    push_byte(out, b'\n')
}

impl Line {
    /// Appends the line. Where memory runs out, a front of it may stand there.
    pub fn write_into(&self, out: &mut Vec<u8>) -> Result<(), NoMemory>
        ensures exact { OnOk result (out.new.items ≡ out.old.items ++ line_text self.now) }
        ensures front { StartsWith out.new.items out.old.items }
    {
        match self {
            Line::Added(value) => write_signed(out, b'+', value),
            Line::Removed(value) => write_signed(out, b'-', value),
            Line::Said(value) => write_signed(out, b'!', value),
        }
    }
}
