//! Hexadecimal text, in either case and with white space.
ghost use Rattle.std.specs.Prelude.{◌≡◌, IfOk, option_map, vec_items};
ghost use Rattle.pv_lex.specs.ByteTexts.{hex_bytes, double_bits};

use crate::characters::without_spaces;
use hex::FromHexError;
use std::alloc::{AllocError, Global};

/// The bytes that the text stands for.
pub(crate) fn hex_bytes(alloc: Global, text: &[u8]) -> Result<Option<Vec<u8>>, AllocError>
    ensures { IfOk result (λ r. option_map vec_items r ≡ hex_bytes text.now) }
{
    let digits = without_spaces(alloc, text)?;
    match hex::decode(alloc, digits.as_slice()) {
        Ok(bytes) => Ok(Some(bytes)),
        Err(FromHexError::OutOfMemory) => Err(AllocError),
        Err(_) => Ok(None),
    }
}

/// The bits of a double: eight bytes, big-endian.
#[tactic(auto, unfolding(crate::specs::ByteTexts::double_bits))]
pub(crate) fn double_bits(alloc: Global, text: &[u8]) -> Result<Option<u64>, AllocError>
    ensures { IfOk result (λ r. r ≡ double_bits text.now) }
{
    let Some(bytes) = hex_bytes(alloc, text)? else {
        return Ok(None);
    };
    if bytes.len() != 8 {
        return Ok(None);
    }
    let mut eight = [0u8; 8];
    eight.copy_from_slice(&bytes);
    Ok(Some(u64::from_be_bytes(eight)))
}
