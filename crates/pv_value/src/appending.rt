//! Bytes at the end of what is made of values: what was there stays in front.
ghost use Rattle.std.specs.Prelude.{◌≡◌, ◌++◌, ◌∷◌, [], OnOk};
ghost use Rattle.std.specs.Io.{StartsWith};

use crate::NoMemory;

/// Appends the bytes.
pub fn push_bytes(out: &mut Vec<u8>, bytes: &[u8]) -> Result<(), NoMemory>
    ensures all { OnOk result (out.new.items ≡ out.old.items ++ bytes.now) }
    ensures front { StartsWith out.new.items out.old.items }
{
    out.extend_from_slice(bytes)?;
    Ok(())
}

/// Appends one byte.
pub fn push_byte(out: &mut Vec<u8>, byte: u8) -> Result<(), NoMemory>
    ensures all { OnOk result (out.new.items ≡ out.old.items ++ byte ∷ []) }
    ensures front { StartsWith out.new.items out.old.items }
{
    out.push(byte)?;
    Ok(())
}
