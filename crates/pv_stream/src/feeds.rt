//! What has come of a stream and isn't given yet.
ghost use Rattle.std.specs.Prelude.{◌≡◌, ◌+◌, ◌≤◌, ◌<◌, ◌^◌, length};
ghost use Rattle.std.specs.Prelude.{IfOk, OnOk, OnErr, IsTrue};
ghost use Rattle.out_ports.specs.Ports.{Rose, FitsBuffer, given_after, ended_after};
ghost use Rattle.pv_binary.specs.OneOfThree.{AreBytes, IsFront};
ghost use Rattle.pv_stream.specs.Feeds.{no_bytes, with_bytes, given};
ghost use Rattle.pv_stream.specs.Nexts.{IsNext, IsOnlyNext};
ghost use Rattle.pv_stream.specs.Takes.{IsTakenBehind};

use crate::buffers::Buffer;
use crate::nexts::{Found, MOST_BYTES, Next, first_in, more};
use crate::walks::{Level, walk};
use out_ports::ports::{Source, Took};
use pv_value::NoMemory;
use std::alloc::Global;
use std::marker::Model;

/// A stream of values that comes in pieces.
///
/// Contracts see the bytes that are left, and how many of the stream's bytes stand before them.
/// A value that comes bit by bit is looked at once, and not anew with each piece: the feed keeps
/// which compounds are open, up to a place.
#[derive(Drop)]
pub struct Feed {
    buffer: Buffer,
    gone: u64,
    place: usize,
    levels: Vec<Level>,
}

impl Model for Feed {
    ghost use Rattle.std.specs.Prelude.{length, ◌+◌, ◌<◌, ◌^◌};
    ghost use Rattle.pv_stream.specs.Feeds.{FeedState};

    ghost Value = { FeedState };

    ghost view = { λ f. record { left = f.buffer.held; before = f.gone } };

    ghost use Rattle.pv_stream.specs.Walks.{IsAt};

    ghost invariant = { λ f.
        (f.gone + length f.buffer.held < 2 ^ 63) × IsAt f.buffer.held f.place f.levels.items };
}

impl Feed {
    /// Nothing was pushed. It takes no memory.
    pub fn new(alloc: Global) -> Feed
        ensures { result ≡ no_bytes }
    {
        Feed {
            buffer: Buffer::new(alloc),
            gone: 0,
            place: 0,
            levels: Vec::new(alloc),
        }
    }

    /// How many bytes are left. It takes no memory.
    pub fn left(&self) -> u64
        ensures { result ≡ length self.now.left }
    {
        self.buffer.len() as u64
    }

    /// A piece comes, behind what is left. For want of memory nothing does, and so where the
    /// stream would have 2^63 bytes.
    pub fn push(&mut self, piece: &[u8]) -> Result<(), NoMemory>
        ensures longer { OnOk result (self.new ≡ with_bytes piece.now self.old) }
        ensures undone { OnErr result (self.new ≡ self.old) }
    {
        if self.gone + self.left() + piece.len() as u64 >= 1 << 63 {
            return Err(NoMemory);
        }
        self.buffer.append(piece)
    }

    /// The source is asked once, for so many bytes at most, which it writes behind what is left.
    /// For want of memory it isn't asked, and so where the stream might have 2^63 bytes then.
    pub fn take_from<S: Source>(&mut self, source: &mut S, most: usize) -> Result<Took, NoMemory>
        requires { 0 < most }
        ensures size { IfOk result (λ t. FitsBuffer t most) }
        ensures taken { IfOk result (λ t. IsTakenBehind t (S.left source.old) (S.left source.new)
            self.old.left self.new.left) }
        ensures before { self.new.before ≡ self.old.before }
        ensures undone { OnErr result ((self.new ≡ self.old) × (source.new ≡ source.old)) }
        ensures counted { IfOk result (λ t.
            S.given source.new ≡ given_after t (S.given source.old)) }
        ensures at_end { IfOk result (λ t.
            S.ended source.new ≡ ended_after t (S.ended source.old)) }
        ensures lasting { S.faults source.old ≤ S.faults source.new }
        ensures cause { IfOk result (λ t. t ≡ Took.Failed
            → Rose (S.faults source.old) (S.faults source.new)) }
    {
        self.buffer.make_room()?;
        let room = self.buffer.free().min(most);
        if self.gone + self.left() + room as u64 >= 1 << 63 {
            return Err(NoMemory);
        }
        Ok(self.buffer.take_from(source, room))
    }

    /// What is next. A value is given, and no longer left.
    pub fn next(&mut self, alloc: Global) -> Result<Next, NoMemory>
        ensures told { IfOk result (λ x. IsNext self.old x self.new) }
        ensures only { IfOk result (λ x. IsOnlyNext self.old x self.new) }
        ensures undone { OnErr result (self.new ≡ self.old) }
    {
        let Found { next, size } = self.first(alloc)?;
        self.give(size);
        Ok(next)
    }

    /// What is next. Nothing is given: only what was looked at is known better.
    pub fn first(&mut self, alloc: Global) -> Result<Found, NoMemory>
        ensures same { self.new ≡ self.old }
        ensures told { IfOk result (λ x. IsNext self.old x.next (given x.size self.old)) }
        ensures only { IfOk result (λ x. IsOnlyNext self.old x.next (given x.size self.old)) }
        ensures fits { IfOk result (λ x. x.size ≤ length self.old.left) }
        ensures bytes { IfOk result (λ x. AreBytes self.old.left) }
    {
        if self.goes_on(alloc)? {
            return Ok(more(self.as_slice(), self.before()));
        }
        let found = first_in(alloc, self.as_slice(), self.before())?;
        self.look_at(alloc, &found.next)?;
        Ok(found)
    }

    /// Whether a value that was looked at before is known not to end yet. Where nothing was, it is
    /// read at once: most values come whole, and are looked at once so. The one value that is read
    /// anew with each piece is an atom that is cut, and its count is looked at before its content.
    fn goes_on(&mut self, alloc: Global) -> Result<bool, NoMemory>
        ensures same { self.new ≡ self.old }
        ensures waits { IfOk result (λ b. IsTrue b
            → (length self.old.left < 262144) × IsFront self.old.left) }
    {
        if self.is_fresh() {
            return Ok(false);
        }
        self.waits(alloc)
    }

    /// Where more is to come, what is there is looked at, so that a later piece goes on behind it.
    /// At least the first tag of a compound is passed so.
    fn look_at(&mut self, alloc: Global, next: &Next) -> Result<(), NoMemory>
        ensures { self.new ≡ self.old }
    {
        match next {
            Next::More => {
                self.waits(alloc)?;
                Ok(())
            }
            _ => Ok(()),
        }
    }

    /// So many bytes are given, and no longer left.
    pub fn give(&mut self, count: usize)
        requires { count ≤ length self.old.left }
        ensures { self.new ≡ given count self.old }
    {
        if count > 0 {
            self.buffer.let_go(count);
            self.gone += count as u64;
            self.place = 0;
            self.levels.clear();
        }
    }

    /// Whether a value is known to begin and not to end yet. Where it isn't known, the value is to
    /// be read.
    fn waits(&mut self, alloc: Global) -> Result<bool, NoMemory>
        ensures same { self.new ≡ self.old }
        ensures waits { IfOk result (λ b. IsTrue b
            → (length self.old.left < 262144) × IsFront self.old.left) }
    {
        if self.buffer.len() >= MOST_BYTES {
            return Ok(false);
        }
        match walk(alloc, self.buffer.as_slice(), self.place, &mut self.levels) {
            Ok(Some(place)) => {
                self.place = place;
                Ok(true)
            }
            Ok(None) => {
                self.place = 0;
                self.levels.clear();
                Ok(false)
            }
            Err(NoMemory) => {
                self.place = 0;
                self.levels.clear();
                Err(NoMemory)
            }
        }
    }

    /// The bytes that are left. It takes no memory.
    pub fn as_slice(&self) -> &[u8]
        ensures left { result.now ≡ self.now.left }
        ensures bytes { AreBytes self.now.left }
        ensures few { self.now.before + length self.now.left < 2 ^ 63 }
    {
        self.buffer.as_slice()
    }

    /// Whether nothing of what is left was looked at yet, so that `first` reads it from the front.
    /// It takes no memory, and is no promise: it serves a caller that reads the bytes itself before
    /// it asks, which is in vain where `first` goes on from what it knows. Costs alone hang on it.
    pub fn is_fresh(&self) -> bool {
        self.place == 0
    }

    /// How many bytes of the stream stand before what is left. It takes no memory.
    pub fn before(&self) -> u64
        ensures { result ≡ self.now.before }
    {
        self.gone
    }
}
