//! Laws of the definitions: each is the contract of a function that does nothing.
ghost use Rattle.gk_sturdy.specs.Laws.{LinksHaveSixteenBytes, MintedIsValid, NarrowedIsValid};
ghost use Rattle.gk_sturdy.specs.Laws.{ValidIsMinted, LastCaveatIsSigned, AcceptedIsGiven};

/// A signature has 16 bytes. What is minted under a key is valid under it, and so is a valid
/// reference with one caveat more; and there are no others.
pub fn signed_is_valid()
    ensures sixteen { LinksHaveSixteenBytes }
    ensures minted { MintedIsValid }
    ensures narrowed { NarrowedIsValid }
    ensures only { ValidIsMinted }
{}

/// A reference of which the last caveat was taken away is valid only by chance: where the link
/// before is the same 16 bytes as the last one.
pub fn last_caveat_is_signed()
    ensures { LastCaveatIsSigned }
{}

/// A value is accepted exactly where it is a reference, its oid has a binding, it was signed under
/// that one's key, and what that gives, with its caveats behind, is within the bounds.
pub fn accepted_is_given()
    ensures { AcceptedIsGiven }
{}
