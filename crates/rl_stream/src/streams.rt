//! What a peer has sent, as far as it isn't read.
ghost use Rattle.std.specs.Prelude.{◌≡◌, ◌≤◌, ◌<◌, length, IfOk, IfSome, OnOk, OnErr};
ghost use Rattle.out_ports.specs.Ports.{Rose, FitsBuffer, given_after, ended_after};
ghost use Rattle.pv_stream.specs.Takes.{IsTakenBehind};
ghost use Rattle.rl_stream.specs.Nexts.{IsNext, AllTell};
ghost use Rattle.rl_stream.specs.Streams.{no_stream, with_bytes, read_off};

use crate::laws::one_next;
use crate::nexts::{Next, as_packet, turn_next};
use out_ports::ports::{Source, Took};
use pv_stream::Feed;
use pv_value::NoMemory;
use std::alloc::Global;
use std::marker::Model;

/// The bytes that one peer has sent, of which the first so many are read.
///
/// Places count from the first byte that was sent, but what is read is let go. A packet that comes
/// bit by bit is looked at once.
#[derive(Drop)]
pub struct Stream {
    feed: Feed,
}

impl Model for Stream {
    ghost use Rattle.std.specs.Coded.{codes};
    ghost use Rattle.rl_stream.specs.Streams.{StreamState};

    ghost Value = { StreamState };

    ghost view = { λ s. record { rest = s.feed.left; place = s.feed.before } };
}

impl Stream {
    /// Nothing was sent.
    pub fn new(alloc: Global) -> Stream
        ensures { result ≡ no_stream }
    {
        Stream {
            feed: Feed::new(alloc),
        }
    }

    /// How many bytes aren't read yet.
    pub fn left(&self) -> u64
        ensures { result ≡ length self.now.rest }
    {
        self.feed.left()
    }

    /// What is next in the bytes that aren't read yet. None is read: only what was looked at is
    /// known better.
    pub fn first(&mut self, alloc: Global) -> Result<Next, NoMemory>
        ensures same { self.new ≡ self.old }
        ensures next { IfOk result (IsNext self.old.rest self.old.place) }
        ensures told { IfOk result (AllTell self.old.rest self.old.place) }
    {
        if let Some(next) = self.first_turn(alloc)? {
            return Ok(next);
        }
        one_next();
        let place = self.feed.before();
        let found = self.feed.first(alloc)?;
        as_packet(alloc, found, place)
    }

    /// The turn that is next, which is read with no value between. Where the feed knows already how
    /// far what is next is there, it isn't whole as yet, or another thing, and isn't looked for.
    fn first_turn(&self, alloc: Global) -> Result<Option<Next>, NoMemory>
        ensures next { IfOk result (λ o. IfSome o (IsNext self.now.rest self.now.place)) }
        ensures told { IfOk result (λ o. IfSome o (AllTell self.now.rest self.now.place)) }
    {
        one_next();
        if !self.feed.is_fresh() {
            return Ok(None);
        }
        turn_next(alloc, self.feed.as_slice())
    }

    /// More bytes come, behind those that are there. For want of memory none does.
    pub fn add(&mut self, more: &[u8]) -> Result<(), NoMemory>
        ensures longer { OnOk result (self.new ≡ with_bytes more.now self.old) }
        ensures undone { OnErr result (self.new ≡ self.old) }
    {
        self.feed.push(more)
    }

    /// A source is asked once, for so many bytes at most, which it writes behind those that are
    /// there. For want of memory it isn't asked.
    pub fn take_from<S: Source>(&mut self, source: &mut S, most: usize) -> Result<Took, NoMemory>
        requires { 0 < most }
        ensures size { IfOk result (λ t. FitsBuffer t most) }
        ensures taken { IfOk result (λ t. IsTakenBehind t (S.left source.old) (S.left source.new)
            self.old.rest self.new.rest) }
        ensures place { self.new.place ≡ self.old.place }
        ensures undone { OnErr result ((self.new ≡ self.old) × (source.new ≡ source.old)) }
        ensures counted { IfOk result (λ t.
            S.given source.new ≡ given_after t (S.given source.old)) }
        ensures at_end { IfOk result (λ t.
            S.ended source.new ≡ ended_after t (S.ended source.old)) }
        ensures lasting { S.faults source.old ≤ S.faults source.new }
        ensures cause { IfOk result (λ t. t ≡ Took.Failed
            → Rose (S.faults source.old) (S.faults source.new)) }
    {
        self.feed.take_from(source, most)
    }

    /// So many of the bytes are read.
    pub fn read_off(&mut self, count: usize)
        requires { count ≤ length self.old.rest }
        ensures { self.new ≡ read_off count self.old }
    {
        self.feed.give(count);
    }
}
