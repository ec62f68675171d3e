//! The tokens of a text.
ghost use Rattle.std.specs.Prelude.{suc, false, ◌≡◌, length, List, IfOk};
ghost use Rattle.pv_read.specs.Results.{Fault};
ghost use Rattle.pv_read.specs.Answers.{Gives, IsAnswer, IsExact, IsFault};
ghost use Rattle.pv_lex.specs.Gaps.{after_blank};
ghost use Rattle.pv_lex.specs.Lexing.{kind_of, tokens_in};
ghost use Rattle.pv_lex.specs.Tokens.{AreInOrder, AreTokensOf, TokensStand};
ghost use Rattle.pv_lex.specs.declared.kinds.Token.{Token};
ghost use Rattle.pv_lex.specs.declared.faults.TextKind.{TextKind};

use crate::faults::{TextFault, TextKind};
use crate::gaps::skip_blank;
use crate::kinds::{Lexeme, Token, TokenKind, Tokens};
use crate::lexing::lexeme_at;
use pv_read::ReadFault;
use simdutf8::compat::from_utf8;
use std::alloc::Global;

/// All tokens of a text, which must be UTF-8 as a whole, in order; or the first fault.
pub fn tokens(alloc: Global, text: &[u8]) -> Result<Tokens, TextFault>
    ensures found { IfOk result (AreTokensOf text.now) }
    ensures only { (ts : List Token) → AreTokensOf text.now ts → IsAnswer (λ t. t) result ts }
    ensures exact { IsExact result (TokensStand text.now) }
    ensures only_fault { (f : Fault TextKind) → TokensStand text.now f → IsFault result f }
    ensures in_order { IfOk result (AreInOrder (length text.now) 0) }
{
    match from_utf8(text) {
        Ok(_) => all_tokens(alloc, text),
        Err(_) => Err(ReadFault::Bad(TextKind::BadUtf8, 0)),
    }
}

/// The tokens up to the end or to the first fault.
fn all_tokens(alloc: Global, text: &[u8]) -> Result<Tokens, TextFault>
    ensures { let total = length text.now in
        Gives (λ t. t) result (tokens_in total (suc total) (after_blank false text.now)) }
{
    let total = text.len();
    let mut tokens = Tokens::new(alloc);
    let mut rest = skip_blank(false, text);
    while !rest.is_empty() {
        let start = total - rest.len();
        let (lexeme, after) = lexeme_at(alloc, total, rest)?;
        let end = total - after.len();
        let kind = kind_of(lexeme);
        tokens.push(Token { kind, start, end })?;
        rest = skip_blank(false, after);
    }
    Ok(tokens)
}

fn kind_of(lexeme: Lexeme) -> TokenKind
    ensures { result ≡ kind_of lexeme }
{
    match lexeme {
        Lexeme::Mark(mark) => TokenKind::Mark(mark),
        Lexeme::Atom(form, _) => TokenKind::Atom(form),
    }
}
