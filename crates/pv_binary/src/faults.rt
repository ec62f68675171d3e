//! Why bytes give no value.
ghost use Rattle.std.specs.Prelude.{◌≡◌};
ghost use Rattle.pv_binary.specs.Kinds.{kind_number};

use pv_read::ReadFault;

/// Why bytes give no value.
///
/// The place of a fault is the offset of the tag of the innermost value in which it lies. For
/// `BadTag` that is the bad byte itself, or the 87 behind which another byte than 08 stands. For
/// `Truncated` it is the tag of the atom that is cut off, or, where a tag is due, the end of the
/// bytes.
pub type BinFault = ReadFault<BinKind>;

/// The faults of the binary form; the numbers are those that an error packet shows.
#[derive(Clone, Copy, Debug, PartialEq, Eq)]
pub enum BinKind {
    /// The bytes end before the value does.
    Truncated = 1,
    /// A byte that begins no value stands where one is due, or another byte than 08 behind an 87.
    BadTag = 2,
    /// A count that isn't in its shortest form, or is 2^64 or more.
    LongVarint = 3,
    /// An integer that isn't in the fewest bytes.
    LongInteger = 4,
    /// An integer of more than 128 bits.
    TooWide = 5,
    /// Text that isn't UTF-8.
    BadUtf8 = 6,
    /// A set with equal elements, or a dictionary with equal keys.
    Duplicate = 7,
    /// A tag that would open a level past the bound on nesting.
    TooDeep = 8,
}

impl BinKind {
    /// The number that an error packet shows.
    pub fn number(self) -> u8
        ensures { result ≡ kind_number self }
    {
        self as u8
    }
}
