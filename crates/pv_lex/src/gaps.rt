//! What is passed over between tokens.
ghost use Rattle.std.specs.Prelude.{◌≡◌, ◌≤◌, length};
ghost use Rattle.pv_lex.specs.Characters.{begins_comment};
ghost use Rattle.pv_lex.specs.Gaps.{is_blank, after_blank};

use crate::characters::{is_line_end, is_space};

/// What follows white space and comments, and commas where they count as white space.
pub fn skip_blank(commas: bool, bytes: &[u8]) -> &[u8]
    ensures value { result.now ≡ after_blank commas bytes.now }
    ensures within { length result.now ≤ length bytes.now }
{
    let mut rest = bytes;
    let mut in_comment = false;
    while let Some((first, after)) = rest.split_first() {
        if in_comment {
            in_comment = !is_line_end(*first);
        } else if *first == b'#' && begins_comment(after) {
            in_comment = true;
        } else if !is_blank(commas, *first) {
            return rest;
        }
        rest = after;
    }
    rest
}

fn is_blank(commas: bool, b: u8) -> bool
    ensures { result ≡ is_blank commas b }
{
    is_space(b) || (commas && b == b',')
}

/// Whether a `#` begins a comment, by what follows it.
fn begins_comment(bytes: &[u8]) -> bool
    ensures { result ≡ begins_comment bytes.now }
{
    match bytes {
        [] => false,
        [first, ..] => is_space(*first) || *first == b'!',
    }
}
