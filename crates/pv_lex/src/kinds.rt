//! Tokens and lists of them.
ghost use Rattle.std.specs.Prelude.{◌≡◌, ◌==◌, [], ◌∷◌, ◌++◌, length, OnOk, OnErr};

use pv_value::Value;
use std::alloc::{AllocError, Global};
use std::marker::Model;

/// Tokens that end, part or begin something.
#[derive(Clone, Copy, Debug, PartialEq, Eq)]
pub enum Mark {
    /// `<`
    RecordOpen,
    /// `>`
    RecordClose,
    /// `[`
    SequenceOpen,
    /// `]`
    SequenceClose,
    /// `#{`
    SetOpen,
    /// `{`
    DictionaryOpen,
    /// `}`
    BraceClose,
    /// `:`
    Colon,
    /// `,`
    Comma,
    /// `@`
    Annotation,
    /// `#:`
    Embedded,
}

/// How an atom is written.
#[derive(Clone, Copy, Debug, PartialEq, Eq)]
pub enum AtomForm {
    /// `#f`
    False,
    /// `#t`
    True,
    /// An optional sign and digits, of at most 128 bits.
    Integer,
    /// A bare token that is no number.
    Symbol,
    /// `|...|`
    QuotedSymbol,
    /// `"..."`
    String,
    /// `#"..."`
    AsciiBytes,
    /// `#x"..."`
    HexBytes,
    /// `#[...]`
    Base64Bytes,
    /// `#xd"..."`
    Double,
}

/// What a token is.
#[derive(Clone, Copy, Debug, PartialEq, Eq)]
pub enum TokenKind {
    Mark(Mark),
    Atom(AtomForm),
}

/// A token with its content: an atom is the value that it stands for.
#[derive(Drop)]
pub enum Lexeme {
    Mark(Mark),
    Atom(AtomForm, Value),
}

/// A token, and where its text stands: from `start` up to `end`, in bytes.
#[derive(Clone, Copy, Debug, PartialEq, Eq)]
pub struct Token {
    pub kind: TokenKind,
    pub start: usize,
    pub end: usize,
}

/// A list of tokens.
#[derive(Drop)]
pub struct Tokens {
    list: Vec<Token>,
}

impl Model for Tokens {
    ghost use Rattle.std.specs.Prelude.{List};
    ghost use Rattle.pv_lex.specs.declared.kinds.Token.{Token};

    ghost Value = { List Token };

    ghost view = { λ a. a.list.items };
}

impl Tokens {
    pub fn new(alloc: Global) -> Tokens
        ensures { result ≡ [] }
    {
        Tokens {
            list: Vec::new(alloc),
        }
    }

    /// After an error the list is as it was.
    pub fn push(&mut self, token: Token) -> Result<(), AllocError>
        ensures ok { OnOk result (self.new ≡ self.old ++ token ∷ []) }
        ensures err { OnErr result (self.new ≡ self.old) }
    {
        self.list.push(token)?;
        Ok(())
    }

    pub fn as_slice(&self) -> &[Token]
        ensures { result.now ≡ self.now }
    {
        &self.list
    }

    pub fn len(&self) -> usize
        ensures { result ≡ length self.now }
    {
        self.as_slice().len()
    }

    pub fn is_empty(&self) -> bool
        ensures { result ≡ (length self.now == 0) }
    {
        self.as_slice().is_empty()
    }
}
