//! Laws of tokens.
ghost use Rattle.pv_lex.specs.LexemeLaws.{AtomsAreRead, AtomsAreFound, MarksAreRead};
ghost use Rattle.pv_lex.specs.LexemeLaws.{MarksAreFound, FaultsAreRead, FaultsAreFound};
ghost use Rattle.pv_lex.specs.LexemeLaws.{TokensAreJudged};

/// What is read of bytes is the token that stands first, or what is wrong with it: an atom, in the
/// form that it has, or a mark is read whatever follows it, and nothing else is read as one. In a
/// text that is UTF-8 no token has the fault that it isn't.
pub fn lexemes_are_tokens()
    ensures atom_read { AtomsAreRead }
    ensures atom_found { AtomsAreFound }
    ensures mark_read { MarksAreRead }
    ensures mark_found { MarksAreFound }
    ensures fault_read { FaultsAreRead }
    ensures fault_found { FaultsAreFound }
    ensures judged { TokensAreJudged }
{}
