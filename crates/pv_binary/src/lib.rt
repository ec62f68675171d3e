//! The binary form of values, by the Preserves binary specification.
#![tactic(auto)]

mod atoms;
mod faults;
mod laws;
mod reading;
mod tag;
pub mod tags;
mod writing;

pub use atoms::{read_counted, read_double, read_int, read_text};
pub use faults::{BinFault, BinKind};
pub use laws::{one_of_three, reading_tells, spellings_are_unique};
pub use reading::{read, read_within};
pub use writing::{push_counted, write, write_integer_into, write_into};
