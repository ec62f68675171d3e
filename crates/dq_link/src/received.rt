//! What was heard of a server.
ghost use Rattle.std.specs.Prelude.{◌≡◌, ◌+◌, ◌-◌, ◌≤◌, ◌<◌, ◌^◌, length, min, IfOk, OnOk, OnErr};
ghost use Rattle.pv_binary.specs.OneOfThree.{AreBytes};
ghost use Rattle.rl_stream.specs.Nexts.{IsNext};
ghost use Rattle.rl_stream.specs.Streams.{no_stream, with_bytes, read_off};

use crate::dialling::QUERY_BYTES;
use pv_value::NoMemory;
use rl_stream::{Next, Stream};
use std::alloc::Global;

/// The bytes that were heard: how many, and those that aren't read yet.
#[derive(Drop)]
pub(crate) struct Received {
    stream: Stream,
    count: u64,
    ghost few: { count ≤ 2 ^ 40 },
}

impl Received {
    /// Nothing was heard.
    pub(crate) fn new(alloc: Global) -> Received
        ensures stream { result.stream ≡ no_stream }
        ensures count { result.count ≡ 0 }
    {
        Received {
            stream: Stream::new(alloc),
            count: 0,
        }
    }

    /// How many bytes more are heard at once, where these are most: none once all are heard that
    /// may be.
    pub(crate) fn room(&self, most: usize) -> usize
        ensures { result ≡ min (2 ^ 40 - self.now.count) most }
    {
        (QUERY_BYTES - self.count).min(most as u64) as usize
    }

    /// What is next in the bytes that aren't read.
    pub(crate) fn first(&mut self, alloc: Global) -> Result<Next, NoMemory>
        ensures same { self.new ≡ self.old }
        ensures next { IfOk result (IsNext self.old.stream.rest self.old.stream.place) }
    {
        self.stream.first(alloc)
    }

    /// So many more of them are read.
    pub(crate) fn read_off(&mut self, size: usize)
        requires { size ≤ length self.old.stream.rest }
        ensures stream { self.new.stream ≡ read_off size self.old.stream }
        ensures count { self.new.count ≡ self.old.count }
    {
        self.stream.read_off(size);
    }

    /// A piece is heard. For want of memory it isn't kept.
    pub(crate) fn add(&mut self, piece: &[u8]) -> Result<(), NoMemory>
        requires { self.old.count + length piece.now ≤ 2 ^ 40 }
        ensures bytes { AreBytes piece.now }
        ensures stream { OnOk result (self.new.stream ≡ with_bytes piece.now self.old.stream) }
        ensures count { OnOk result (self.new.count ≡ self.old.count + length piece.now) }
    {
        self.stream.add(piece)?;
        self.count += piece.len() as u64;
        Ok(())
    }
}
