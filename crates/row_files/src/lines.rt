//! What the lines of both kinds of files have in common.
ghost use Rattle.std.specs.Prelude.{◌≡◌};
ghost use Rattle.row_files.specs.Lines.{is_left_out, first_word, behind_word, without_blank};

/// Whether a line is empty, or a comment.
pub fn is_left_out(line: &str) -> bool
    ensures { result ≡ is_left_out line.now }
{
    match line.as_bytes() {
        [] => true,
        [first, ..] => *first == b'#',
    }
}

/// What stands before and behind the first blank: all and nothing, where there is none.
pub fn word_and_rest(text: &str) -> (&str, &str)
    ensures word { result.0.now ≡ first_word text.now }
    ensures rest { result.1.now ≡ behind_word text.now }
{
    match text.split_once(' ') {
        Some((word, rest)) => (word, rest),
        None => (text, ""),
    }
}

/// The text without a blank before it.
pub fn without_blank(text: &str) -> &str
    ensures { result.now ≡ without_blank text.now }
{
    match text.strip_prefix(' ') {
        Some(rest) => rest,
        None => text,
    }
}
