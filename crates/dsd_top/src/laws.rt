//! A law of what the program prints: the contract of a function that does nothing.
ghost use Rattle.dsd_top.specs.Laws.{MintedReadBack};

use gk_sturdy::signed_is_valid;
use pv_print::printed_texts_read_back;

/// What `mint` prints reads back, as the text of one value, which is the reference that was minted;
/// and that verifies under the key. This is so where the value nests at most 64 deep: an oid that
/// nests 63 deep, or a caveat that nests 62, is printed in a line that can't be read. That the
/// value is well formed is a fact of its type.
pub fn minted_references_verify()
    ensures { MintedReadBack }
{
    signed_is_valid();
    printed_texts_read_back();
}
