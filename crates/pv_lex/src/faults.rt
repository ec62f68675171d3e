//! Why a text gives no value.
ghost use Rattle.std.specs.Prelude.{◌≡◌};
ghost use Rattle.pv_lex.specs.KindNumbers.{kind_number};

use pv_read::ReadFault;

/// Why a text gives no value, and the offset at which the offending token begins.
pub type TextFault = ReadFault<TextKind>;

/// The faults of the text form.
#[derive(Clone, Copy, Debug, PartialEq, Eq)]
pub enum TextKind {
    /// A character or a token that can't stand there, or the end where no value was begun.
    Unexpected,
    /// A bad escape, or a surrogate without its fellow.
    BadEscape,
    /// A double in decimal: doubles are written by their bits.
    DecimalDouble,
    /// A byte string or a double with a foreign character, a wrong count of digits or bits left
    /// over.
    BadBytes,
    /// The text ends inside a token, a compound, an embedded value or an annotation.
    Unclosed,
    /// An integer of more than 128 bits.
    TooWide,
    /// A mark that would open a level past the bound on nesting.
    TooDeep,
    /// A set with equal elements, or a dictionary with equal keys.
    Duplicate,
    /// A text that isn't UTF-8.
    BadUtf8,
}

impl TextKind {
    /// The number that names the fault. No packet shows it.
    pub fn number(self) -> u8
        ensures { result ≡ kind_number self }
    {
        match self {
            TextKind::Unexpected => 10,
            TextKind::BadEscape => 11,
            TextKind::DecimalDouble => 12,
            TextKind::BadBytes => 13,
            TextKind::Unclosed => 14,
            TextKind::TooWide => 15,
            TextKind::TooDeep => 16,
            TextKind::Duplicate => 17,
            TextKind::BadUtf8 => 18,
        }
    }
}
