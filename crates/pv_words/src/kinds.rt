//! The kinds of atoms.
ghost use Rattle.std.specs.Prelude.{◌≡◌};
ghost use Rattle.pv_words.specs.Kinds.{is_of_kind};

use pv_value::{Node, Value};

/// The kinds of atoms (Preserves, section "Values").
#[derive(Clone, Copy, Debug, Drop)]
pub enum AtomKind {
    Boolean,
    Double,
    SignedInteger,
    String,
    ByteString,
    Symbol,
}

impl AtomKind {
    /// Whether the value is an atom of this kind.
    pub fn has(self, value: &Value) -> bool
        ensures { result ≡ is_of_kind self value.now }
    {
        match (self, &value.node) {
            (AtomKind::Boolean, Node::Bool(_)) => true,
            (AtomKind::Double, Node::Double(_)) => true,
            (AtomKind::SignedInteger, Node::Int(_)) => true,
            (AtomKind::String, Node::Str(_)) => true,
            (AtomKind::ByteString, Node::Bytes(_)) => true,
            (AtomKind::Symbol, Node::Sym(_)) => true,
            _ => false,
        }
    }
}
