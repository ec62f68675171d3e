//! What the first byte of a value announces.
ghost use Rattle.std.specs.Prelude.{◌≡◌};
ghost use Rattle.pv_binary.specs.Tags.{tag_of};
ghost use Rattle.pv_binary.specs.Reading.{is_compound};

use crate::tags;

/// What the first byte of a value announces.
#[derive(Clone, Copy)]
pub enum Tag {
    False,
    True,
    Embedded,
    Double,
    Integer,
    String,
    ByteString,
    Symbol,
    Record,
    Sequence,
    Set,
    Dictionary,
    Other,
}

impl Tag {
    pub fn of(byte: u8) -> Tag
        ensures { result ≡ tag_of byte }
    {
        match byte {
            tags::FALSE => Tag::False,
            tags::TRUE => Tag::True,
            tags::EMBEDDED => Tag::Embedded,
            tags::DOUBLE => Tag::Double,
            tags::INTEGER => Tag::Integer,
            tags::STRING => Tag::String,
            tags::BYTE_STRING => Tag::ByteString,
            tags::SYMBOL => Tag::Symbol,
            tags::RECORD => Tag::Record,
            tags::SEQUENCE => Tag::Sequence,
            tags::SET => Tag::Set,
            tags::DICTIONARY => Tag::Dictionary,
            _ => Tag::Other,
        }
    }

    /// Whether it opens a level of nesting.
    pub fn is_compound(self) -> bool
        ensures { result ≡ is_compound self }
    {
        match self {
            Tag::Embedded | Tag::Record | Tag::Sequence | Tag::Set | Tag::Dictionary => true,
            _ => false,
        }
    }
}
