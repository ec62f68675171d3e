//! Sessions: what a connection's reader and writer and a worker commit, by the bytes and by the
//! replies that they get.
//!
//! A session commits through [`Turns`], which a seat at a gate is, and reads and writes a link's
//! halves. [`serve_reader`] commits the packets that the bytes of a link spell, [`serve_writer`]
//! puts the packets that a connection is sent, and [`serve_worker`] does the work of the system's
//! actors. `specs/Reading.antt`, `specs/Writing.antt` and `specs/Working.antt` say which steps each
//! commits, and why it ends.
#![tactic(auto)]

mod committing;
mod laws;
mod reader;
mod receiving;
mod rounds;
mod rows;
mod worker;
mod writer;

pub use committing::{Behind, ROW, Turns};
pub use laws::replies_to_peers;
pub use reader::{ReaderEnd, serve_reader};
pub use worker::{WorkerEnd, serve_worker};
pub use writer::{WriterEnd, serve_writer};
