//! Symbols, and which of them stand without quotes.
ghost use Rattle.std.specs.Prelude.{◌≡◌, ◌++◌, OnOk, if◌then◌else◌};
ghost use Rattle.pv_lex.specs.Characters.{all_of};
ghost use Rattle.pv_print.specs.Bare.{is_bare_ascii, stands_bare};
ghost use Rattle.pv_print.specs.Escaped.{quoted};
ghost use Rattle.std.specs.Io.{StartsWith};

use crate::atoms::push_quoted;
use pv_lex::{is_bare, is_decimal_double, is_integer_text};
use pv_value::{NoMemory, push_bytes};

/// A symbol as it is where it can't be taken for anything else, and else between bars.
pub(crate) fn push_symbol(out: &mut Vec<u8>, text: &[u8]) -> Result<(), NoMemory>
    ensures exact { OnOk result (out.new.items ≡ out.old.items
        ++ (if stands_bare text.now then text.now else quoted 124 text.now)) }
    ensures front { StartsWith out.new.items out.old.items }
{
    if stands_bare(text) {
        push_bytes(out, text)
    } else {
        push_quoted(out, b'|', text)
    }
}

/// Whether there are bare characters of ASCII, one at least, that read as no number.
fn stands_bare(text: &[u8]) -> bool
    ensures { result ≡ stands_bare text.now }
{
    !text.is_empty() && are_bare_ascii(text) && !is_integer_text(text) && !is_decimal_double(text)
}

fn are_bare_ascii(text: &[u8]) -> bool
    ensures { result ≡ all_of is_bare_ascii text.now }
{
    for b in text {
        if !(is_bare(*b) && *b < 128) {
            return false;
        }
    }
    true
}
