//! The bytes of a feed that are left, with room behind them into which a source writes.
ghost use Rattle.std.specs.Prelude.{◌≡◌, ◌+◌, ◌≤◌, ◌<◌, ◌^◌, ◌++◌, [], length, drop};
ghost use Rattle.std.specs.Prelude.{OnOk, OnErr};
ghost use Rattle.out_ports.specs.Ports.{Rose, FitsBuffer, IsTaken, given_after, ended_after};
ghost use Rattle.pv_binary.specs.OneOfThree.{AreBytes};
ghost use Rattle.pv_stream.specs.Takes.{IsTakenBehind};

use out_ports::ports::{Source, Took};
use pv_value::NoMemory;
use std::alloc::Global;
use std::marker::Model;

/// With how many bytes the room begins.
const FIRST: usize = 65_536;

/// How much room is enough for a source to be asked.
const ENOUGH: usize = 32_768;

/// The bytes that are left, and room behind them.
///
/// What is left stands from `start` to `end`. Behind it the vector has bytes that mean nothing, so
/// that a source writes there at once. What is left is moved to the front only where the room
/// behind it runs out.
#[derive(Drop)]
pub(crate) struct Buffer {
    bytes: Vec<u8>,
    start: usize,
    end: usize,
}

impl Model for Buffer {
    ghost use Rattle.std.specs.Prelude.{drop, take, length, ◌≤◌};
    ghost use Rattle.pv_stream.specs.Buffers.{BufferState};

    ghost Value = { BufferState };

    ghost view = { λ b. record {
      held = drop b.start (take b.end b.bytes.items);
      free = drop b.end b.bytes.items;
    } };

    ghost invariant = { λ b. (b.start ≤ b.end) × (b.end ≤ length b.bytes.items) };
}

/// The bytes behind the first so many.
fn bytes_behind(bytes: &[u8], count: usize) -> &[u8]
    requires { count ≤ length bytes.now }
    ensures left { result.now ≡ drop count bytes.now }
    ensures bytes { AreBytes result.now }
{
    &bytes[count..]
}

/// The source is asked once, for what fits in this room.
fn ask<S: Source>(source: &mut S, room: &mut [u8]) -> Took
    requires { 0 < length room.old }
    ensures size { FitsBuffer result (length room.old) }
    ensures content { IsTaken result room.new (S.left source.old) (S.left source.new) }
    ensures counted { S.given source.new ≡ given_after result (S.given source.old) }
    ensures at_end { S.ended source.new ≡ ended_after result (S.ended source.old) }
    ensures lasting { S.faults source.old ≤ S.faults source.new }
    ensures cause { result ≡ Took.Failed → Rose (S.faults source.old) (S.faults source.new) }
    ensures same { length room.new ≡ length room.old }
    ensures bytes { AreBytes room.new }
{
    source.take(room)
}

impl Buffer {
    /// Nothing is left, and there is no room. It takes no memory.
    pub(crate) fn new(alloc: Global) -> Buffer
        ensures { result.held ≡ [] }
    {
        Buffer {
            bytes: Vec::new(alloc),
            start: 0,
            end: 0,
        }
    }

    /// The bytes that are left.
    pub(crate) fn as_slice(&self) -> &[u8]
        ensures left { result.now ≡ self.now.held }
        ensures bytes { AreBytes self.now.held }
    {
        bytes_behind(&self.bytes[..self.end], self.start)
    }

    /// How many bytes are left.
    pub(crate) fn len(&self) -> usize
        ensures { result ≡ length self.now.held }
    {
        self.as_slice().len()
    }

    /// How many bytes there is room for.
    pub(crate) fn free(&self) -> usize
        ensures free { result ≡ length self.now.free }
        ensures few { result < 2 ^ 63 }
    {
        self.bytes.len() - self.end
    }

    /// The first so many bytes are let go. They stay where they are, and so does what is left.
    pub(crate) fn let_go(&mut self, count: usize)
        requires { count ≤ length self.old.held }
        ensures { self.new.held ≡ drop count self.old.held }
    {
        self.start += count;
    }

    /// What is left moves to the front, where it is at most twice what was let go before it. So for
    /// each byte that is let go two are moved at most.
    fn settle(&mut self)
        ensures { self.new.held ≡ self.old.held }
    {
        let count = self.end - self.start;
        if count <= 2 * self.start {
            self.bytes.copy_within(self.start..self.end, 0);
            self.start = 0;
            self.end = count;
        }
    }

    /// The room doubles.
    fn grow(&mut self) -> Result<(), NoMemory>
        ensures same { self.new.held ≡ self.old.held }
        ensures room { OnOk result (0 < length self.new.free) }
    {
        let size = (2 * self.bytes.len()).max(FIRST);
        self.bytes.resize(size, 0)?;
        Ok(())
    }

    /// There is room, and enough of it. For want of memory there may be none.
    pub(crate) fn make_room(&mut self) -> Result<(), NoMemory>
        ensures same { self.new.held ≡ self.old.held }
        ensures room { OnOk result (0 < length self.new.free) }
    {
        if self.start == self.end || self.free() < ENOUGH {
            self.settle();
        }
        if self.free() < ENOUGH {
            self.grow()?;
        }
        Ok(())
    }

    /// The source is asked once, for so many bytes at most. It writes them behind what is left.
    pub(crate) fn take_from<S: Source>(&mut self, source: &mut S, most: usize) -> Took
        requires some { 0 < most }
        requires room { most ≤ length self.old.free }
        ensures size { FitsBuffer result most }
        ensures taken { IsTakenBehind result (S.left source.old) (S.left source.new)
            self.old.held self.new.held }
        ensures counted { S.given source.new ≡ given_after result (S.given source.old) }
        ensures at_end { S.ended source.new ≡ ended_after result (S.ended source.old) }
        ensures lasting { S.faults source.old ≤ S.faults source.new }
        ensures cause { result ≡ Took.Failed → Rose (S.faults source.old) (S.faults source.new) }
    {
        let took = ask(source, &mut self.bytes[self.end..self.end + most]);
        if let Took::Some(n) = took {
            self.end += n;
        }
        took
    }

    /// A piece is put behind what is left, in place of the room. For want of memory none is.
    pub(crate) fn append(&mut self, piece: &[u8]) -> Result<(), NoMemory>
        ensures longer { OnOk result (self.new.held ≡ self.old.held ++ piece.now) }
        ensures undone { OnErr result (self.new.held ≡ self.old.held) }
    {
        self.settle();
        self.bytes.truncate(self.end);
        self.bytes.extend_from_slice(piece)?;
        self.end += piece.len();
        Ok(())
    }
}
