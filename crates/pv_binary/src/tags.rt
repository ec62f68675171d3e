//! The bytes that begin values, and the one that ends a compound: Preserves binary specification,
//! the table of tags.

pub const FALSE: u8 = 0x80;

pub const TRUE: u8 = 0x81;
/// It ends a record, a sequence, a set or a dictionary.
pub const END: u8 = 0x84;

pub const EMBEDDED: u8 = 0x86;
/// A double; the number of its bytes, `DOUBLE_BYTES`, stands behind it.
pub const DOUBLE: u8 = 0x87;

pub const DOUBLE_BYTES: u8 = 8;

pub const INTEGER: u8 = 0xb0;

pub const STRING: u8 = 0xb1;

pub const BYTE_STRING: u8 = 0xb2;

pub const SYMBOL: u8 = 0xb3;

pub const RECORD: u8 = 0xb4;

pub const SEQUENCE: u8 = 0xb5;

pub const SET: u8 = 0xb6;

pub const DICTIONARY: u8 = 0xb7;
