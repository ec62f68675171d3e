//! The outside world in memory, for tests. Each form fails at the calls whose numbers, counted
//! from 0, it is given, and otherwise only where its comment says so. To make one takes no memory:
//! it is handed what it holds, and the room that it needs.
mod calls;
mod host;
mod links;
mod sink;
mod source;
mod spawner;

pub use host::{MemFile, MemHost};
pub use links::{MemLink, MemListen};
pub use sink::MemSink;
pub use source::MemSource;
pub use spawner::MemSpawner;
