//! What a reader has taken from its link.
ghost use Rattle.std.specs.Prelude.{◌≡◌, ◌-◌, ◌≤◌, ◌<◌, ◌^◌, length, min, nat_lt, IfOk, OnErr};
ghost use Rattle.out_ports.specs.Ports.{Rose, given_after, ended_after};
ghost use Rattle.pv_stream.specs.Takes.{IsTakenBehind};
ghost use Rattle.rl_stream.specs.Nexts.{IsNext};
ghost use Rattle.srv_turns.specs.Keeping.{link_end, taken_after};
ghost use Rattle.rl_stream.specs.Streams.{no_stream, read_off};

use crate::reader::ReaderEnd;
use out_ports::ports::{Source, Took};
use pv_value::NoMemory;
use rl_stream::{Next, Stream};
use std::alloc::Global;

/// The most bytes that one take asks for.
pub(crate) const PIECE: usize = 65_536;

/// The most bytes that a reader takes in all.
const MOST: u64 = 1 << 40;

/// The bytes that a reader has taken: how many, and those that are still undecided.
#[derive(Drop)]
pub(crate) struct Received {
    stream: Stream,
    taken: u64,
    ghost few: { taken ≤ 2 ^ 40 },
}

impl Received {
    /// Nothing was taken.
    pub(crate) fn new(alloc: Global) -> Received
        ensures stream { result.stream ≡ no_stream }
        ensures taken { result.taken ≡ 0 }
    {
        Received {
            stream: Stream::new(alloc),
            taken: 0,
        }
    }

    /// How many bytes more are taken at once at most: none once a reader has taken all it may.
    pub(crate) fn room(&self) -> usize
        ensures { result ≡ min (2 ^ 40 - self.now.taken) 65536 }
    {
        (MOST - self.taken).min(65_536) as usize
    }

    /// How a reader ends whose link ends here, where no packet is next.
    pub(crate) fn end(&self) -> ReaderEnd
        ensures { result ≡ link_end self.now.stream }
    {
        if self.stream.left() == 0 {
            ReaderEnd::Clean
        } else {
            ReaderEnd::Cut
        }
    }

    /// Whether a packet was read.
    pub(crate) fn has_read(&self) -> bool
        ensures { result ≡ nat_lt (length self.now.stream.rest) self.now.taken }
    {
        (self.stream.left() as u64) < self.taken
    }

    /// What is next in the bytes that aren't decided.
    pub(crate) fn first(&mut self, alloc: Global) -> Result<Next, NoMemory>
        ensures same { self.new ≡ self.old }
        ensures next { IfOk result (IsNext self.old.stream.rest self.old.stream.place) }
    {
        self.stream.first(alloc)
    }

    /// So many more of them are decided.
    pub(crate) fn read_off(&mut self, size: usize)
        requires { size ≤ length self.old.stream.rest }
        ensures stream { self.new.stream ≡ read_off size self.old.stream }
        ensures taken { self.new.taken ≡ self.old.taken }
    {
        self.stream.read_off(size);
    }

    /// The link is asked once for bytes, as many as are taken at once at most. What it brings is
    /// counted. For want of memory it isn't asked.
    pub(crate) fn take_from<R: Source>(&mut self, link: &mut R) -> Result<Took, NoMemory>
        requires { self.old.taken < 2 ^ 40 }
        ensures came { IfOk result (λ t. IsTakenBehind t (R.left link.old) (R.left link.new)
            self.old.stream.rest self.new.stream.rest) }
        ensures place { self.new.stream.place ≡ self.old.stream.place }
        ensures taken { IfOk result (λ t. self.new.taken ≡ taken_after t self.old.taken) }
        ensures unasked { OnErr result (link.new ≡ link.old) }
        ensures counted { IfOk result (λ t. R.given link.new ≡ given_after t (R.given link.old)) }
        ensures at_end { IfOk result (λ t. R.ended link.new ≡ ended_after t (R.ended link.old)) }
        ensures lasting { R.faults link.old ≤ R.faults link.new }
        ensures cause { IfOk result (λ t. t ≡ Took.Failed
            → Rose (R.faults link.old) (R.faults link.new)) }
    {
        let most = self.room();
        let took = self.stream.take_from(link, most)?;
        if let Took::Some(n) = took {
            self.taken += n as u64;
        }
        Ok(took)
    }
}
