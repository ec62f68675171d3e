//! What connections have sent: a stream for each of them.
ghost use Rattle.std.specs.Prelude.{◌≡◌, [], unwrap_or, IfOk, OnOk, OnErr};
ghost use Rattle.ac_world.specs.Worlds.{entry_of, with_entry, without_entry};
ghost use Rattle.rl_stream.specs.Streams.{no_stream, with_bytes};

use pv_value::NoMemory;
use rl_stream::Stream;
use std::alloc::Global;
use std::collections::BTreeMap;
use std::marker::Model;

/// The streams of connections, by their numbers.
#[derive(Drop)]
pub struct Streams {
    alloc: Global,
    list: BTreeMap<u32, Stream>,
}

impl Model for Streams {
    ghost use Rattle.std.specs.Prelude.{List, ℕ};
    ghost use Rattle.std.specs.Coded.{codes};
    ghost use Rattle.rl_stream.specs.Streams.{StreamState};

    ghost Value = { List (ℕ × StreamState) };

    ghost view = { λ s. s.list.entries };

    ghost use Rattle.std.specs.BTreeMap.{IsOrdered};
    ghost use Rattle.std.specs.Ordering.{nat_cmp};

    ghost invariant = { λ s. IsOrdered nat_cmp s.list };
}

impl Streams {
    /// Nothing was sent.
    pub fn new(alloc: Global) -> Streams
        ensures { result ≡ [] }
    {
        Streams {
            alloc,
            list: BTreeMap::new(alloc),
        }
    }

    /// A connection's stream, with more bytes in it. It is taken out, and for want of memory it is
    /// gone.
    pub fn take(&mut self, connection: u32, more: &[u8]) -> Result<Stream, NoMemory>
        ensures stream { IfOk result (λ st. st
            ≡ with_bytes more.now (unwrap_or (entry_of connection self.old) no_stream)) }
        ensures others { self.new ≡ without_entry connection self.old }
    {
        let mut stream = match self.list.remove(&connection) {
            Some(stream) => stream,
            None => Stream::new(self.alloc),
        };
        stream.add(more)?;
        Ok(stream)
    }

    /// A connection's stream is put in. For want of memory it is gone, and the others stand.
    pub fn put(&mut self, connection: u32, stream: Stream) -> Result<(), NoMemory>
        ensures put { OnOk result (self.new ≡ with_entry connection stream self.old) }
        ensures undone { OnErr result (self.new ≡ self.old) }
    {
        self.list.insert(connection, stream)?;
        Ok(())
    }
}
