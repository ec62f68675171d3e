//! What the first word picks.
ghost use Rattle.std.specs.Prelude.{◌≡◌};
ghost use Rattle.dsd_top.specs.Asked.{texts};
ghost use Rattle.dsd_program.specs.Words.{Pick};

/// Which call does the words.
#[derive(Clone, Copy)]
pub(crate) enum Word {
    Query,
    Bindings,
    ServeKept,
    Main,
}

/// What the first word picks.
pub(crate) fn word_of(words: &[String]) -> Word
    ensures { Pick (texts words.now) result }
{
    let Some(first) = words.first() else {
        return Word::Main;
    };
    match first.as_str() {
        "query" => Word::Query,
        "bindings" => Word::Bindings,
        "serve-kept" => Word::ServeKept,
        _ => Word::Main,
    }
}
