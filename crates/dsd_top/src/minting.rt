//! Signed references of words.
ghost use Rattle.std.specs.Prelude.{◌≡◌, IfOk};
ghost use Rattle.pv_value.specs.Plain.{Plain};
ghost use Rattle.dsd_top.specs.Asked.{texts};
ghost use Rattle.dsd_top.specs.Minting.{IsPlainText, IsLone, IsKey, IsNarrowedBy, IsMintedBy};
ghost use Rattle.dsd_top.specs.Minting.{IsReferenceLine, IsFound, IsShort, digits_fault};
ghost use Rattle.dsd_top.specs.declared.minting.WordsFault.TheVariants as fault;

use crate::forms::{Form, value_in};
use crate::words::Minting;
use gk_sturdy::{SturdyRef, attenuate, mint};
use hex::FromHexError;
use pv_text::{TextFault, read_all};
use pv_value::{NoMemory, Value};
use sr_caveat::has_embedded;
use std::alloc::Global;
use thiserror::Error;

/// The most bytes of a key.
const KEY_BYTES: usize = 64;

/// Why words give no reference, no value or no key.
#[derive(Clone, Copy, Debug, PartialEq, Eq, Error)]
pub enum WordsFault {
    /// They aren't what they have to be.
    #[error("bad words")]
    Bad,
    #[error("out of memory")]
    NoMemory,
}

impl From<NoMemory> for WordsFault {
    ghost from_gives = { λ _ e. e ≡ fault.NoMemory };

    fn from(_: NoMemory) -> WordsFault {
        WordsFault::NoMemory
    }
}

/// The signed reference that the words of `mint` ask for, printed on a line.
pub fn reference_line(alloc: Global, minting: &Minting) -> Result<Vec<u8>, WordsFault>
    ensures { IsFound (λ line. line.items) (IsReferenceLine minting.now) result }
{
    let reference = reference_of(alloc, minting)?;
    let value = reference.to_value(alloc)?;
    Ok(value_in(alloc, &value, Form::Printed)?)
}

/// The reference that the words ask for.
fn reference_of(alloc: Global, minting: &Minting) -> Result<SturdyRef, WordsFault>
    ensures { IsFound (λ r. r) (IsMintedBy minting.now) result }
{
    let oid = plain_value(alloc, minting.oid)?;
    let key = key_of(alloc, minting.key)?;
    let reference = mint(alloc, &key, oid)?;
    narrowed_by(alloc, reference, minting.caveats)
}

/// The reference with a caveat more for each text, behind the others.
fn narrowed_by(
    alloc: Global,
    reference: SturdyRef,
    caveats: &[String],
) -> Result<SturdyRef, WordsFault>
    ensures { IsFound (λ r. r) (IsNarrowedBy (texts caveats.now) reference) result }
{
    let mut narrowed = reference;
    for caveat in caveats {
        let caveat = plain_value(alloc, caveat.as_str())?;
        narrowed = attenuate(alloc, narrowed, caveat)?;
    }
    Ok(narrowed)
}

/// The value that a word is in text, where it is one with nothing embedded in it. White space,
/// comments and annotations may stand around it.
pub fn plain_value(alloc: Global, text: &str) -> Result<Value, WordsFault>
    ensures found { IsFound (λ v. v) (IsPlainText text.now) result }
    ensures only { IfOk result (λ v. (w : Plain) → IsPlainText text.now w → w ≡ v) }
{
    match read_all(alloc, text.as_bytes()) {
        Ok(values) => lone_value(values.as_slice()),
        Err(TextFault::Bad(_, _)) => Err(WordsFault::Bad),
        Err(TextFault::NoMemory) => Err(WordsFault::NoMemory),
    }
}

/// The value that stands alone, where nothing is embedded in it.
fn lone_value(values: &[Value]) -> Result<Value, WordsFault>
    ensures { IsFound (λ v. v) (IsLone values.now) result }
{
    match values {
        [value] if !has_embedded(value) => Ok(value.copy()?),
        _ => Err(WordsFault::Bad),
    }
}

/// The key that a word is in hexadecimal digits of either case: at most 64 bytes, or none at all.
pub fn key_of(alloc: Global, text: &str) -> Result<Vec<u8>, WordsFault>
    ensures { IsFound (λ key. key.items) (IsKey text.now) result }
{
    match hex::decode(alloc, text) {
        Ok(key) => short_key(key),
        Err(fault) => Err(digits_fault(fault)),
    }
}

/// The key, where it has no more bytes than a key may have.
fn short_key(key: Vec<u8>) -> Result<Vec<u8>, WordsFault>
    ensures { IsFound (λ bytes. bytes.items) (IsShort key.items) result }
{
    if key.len() > KEY_BYTES {
        return Err(WordsFault::Bad);
    }
    Ok(key)
}

fn digits_fault(fault: FromHexError) -> WordsFault
    ensures { result ≡ digits_fault fault }
{
    match fault {
        FromHexError::OutOfMemory => WordsFault::NoMemory,
        _ => WordsFault::Bad,
    }
}
