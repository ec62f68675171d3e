//! What a scan tells of the first value.

use pv_binary::BinKind;

/// What stands first in some bytes.
#[derive(Clone, Copy, PartialEq, Eq)]
pub enum Scan {
    /// A value, of so many bytes; elements may repeat in it.
    Whole(usize),
    /// The bytes end before the value does.
    Part,
    /// What is no value: a fault, and its place.
    Fault(BinKind, usize),
}

/// Why no value is passed, and where.
#[derive(Clone, Copy)]
pub(crate) struct Stop {
    pub(crate) kind: BinKind,
    pub(crate) place: usize,
}
