//! Bytes in hexadecimal and base64, at the end of the text that is made.
ghost use Rattle.std.specs.Prelude.{◌≡◌, ◌++◌, ◌∷◌, [], OnOk};
ghost use Rattle.std.specs.Io.{StartsWith};
ghost use Rattle.pv_print.specs.Hex.{hex_pairs};
ghost use Rattle.pv_print.specs.Base64.{in_base64};

use base64::engine::general_purpose::STANDARD;
use pv_value::{NoMemory, push_bytes};

/// Two lower-case hexadecimal digits for each byte.
pub(crate) fn push_hex(out: &mut Vec<u8>, bytes: &[u8]) -> Result<(), NoMemory>
    ensures exact { OnOk result (out.new.items ≡ out.old.items ++ hex_pairs bytes.now) }
    ensures front { StartsWith out.new.items out.old.items }
{
    let digits = hex::encode(*out.allocator(), bytes)?;
    push_bytes(out, digits.as_bytes())
}

/// Base64 in the standard alphabet with padding.
pub(crate) fn push_base64(out: &mut Vec<u8>, bytes: &[u8]) -> Result<(), NoMemory>
    ensures exact { OnOk result (out.new.items ≡ out.old.items ++ in_base64 bytes.now) }
    ensures front { StartsWith out.new.items out.old.items }
{
    let digits = STANDARD.encode(*out.allocator(), bytes)?;
    push_bytes(out, digits.as_bytes())
}
