//! Values from a stream of bytes that comes in pieces.
//!
//! `scan` and `Scan` stand in two modules, since the kit makes a file of each name, and two names
//! in one module may not differ in case alone. The readers of atoms of `pv_binary` are its own, so
//! `scan` has the few lines on counts and texts once more, and its proofs what is said there of
//! tags, powers of two and cuts.
#![tactic(auto)]

mod buffers;
mod feeds;
mod laws;
mod nexts;
mod passing;
mod scans;
mod stops;
mod walks;

pub use feeds::Feed;
pub use laws::{any_pieces, one_course, one_next, scan_is_exact, scan_is_reading};
pub use nexts::{Found, Next, first_in, front_of};
pub use scans::scan;
pub use stops::Scan;
