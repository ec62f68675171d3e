//! How references are signed, and how that is checked.
ghost use Rattle.std.specs.Prelude.{◌≡◌, ◌↔◌, ◌++◌, ◌∷◌, [], ℕ, List, IsTrue, IfOk};
ghost use Rattle.gk_sturdy.specs.Chain.{minted, narrowed, IsValidRef};

use crate::links::{due, is_same, signed};
use crate::refs::SturdyRef;
use pv_value::{Blob, Items, NoMemory, Value};
use std::alloc::Global;

/// A reference to an oid, without caveats, signed under a key of any length.
pub fn mint(alloc: Global, key: &[u8], oid: Value) -> Result<SturdyRef, NoMemory>
    ensures minted { IfOk result (λ r. r ≡ minted key.now oid) }
    ensures valid { IfOk result (λ r. IsValidRef key.now r) }
{
    let sig = signed(alloc, key, &oid)?;
    let sig = Blob::from_slice(alloc, &sig)?;
    let caveats = Items::from_vec(alloc, Vec::new(alloc))?;
    Ok(SturdyRef { oid, sig, caveats })
}

/// The reference with one caveat more, behind the others. No key is needed: the signature so far
/// signs it.
pub fn attenuate(alloc: Global, r: SturdyRef, caveat: Value) -> Result<SturdyRef, NoMemory>
    ensures narrowed { IfOk result (λ s. s ≡ narrowed caveat r) }
    ensures valid { (key : List ℕ) → IsValidRef key r → IfOk result (λ s. IsValidRef key s) }
{
    let sig = signed(alloc, r.sig.as_slice(), &caveat)?;
    let sig = Blob::from_slice(alloc, &sig)?;
    let caveats = with_last(alloc, r.caveats.as_slice(), caveat)?;
    Ok(SturdyRef {
        oid: r.oid,
        sig,
        caveats,
    })
}

/// Whether a reference is valid under a key.
pub fn verify(alloc: Global, key: &[u8], r: &SturdyRef) -> Result<bool, NoMemory>
    ensures { IfOk result (λ valid. IsTrue valid ↔ IsValidRef key.now r.now) }
{
    let due = due(alloc, key, r)?;
    Ok(is_same(r.sig.as_slice(), &due))
}

/// The list with one value more behind it.
fn with_last(alloc: Global, values: &[Value], last: Value) -> Result<Items, NoMemory>
    ensures { IfOk result (λ xs. xs ≡ values.now ++ last ∷ []) }
{
    let mut all = Vec::new(alloc);
    for value in values {
        all.push(value.copy()?)?;
    }
    all.push(last)?;
    Items::from_vec(alloc, all)
}
