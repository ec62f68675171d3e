//! A source in memory.
ghost use Rattle.std.specs.Prelude.{◌≡◌, ◌<◌, ◌≤◌, true, Some, length};
ghost use Rattle.out_ports.specs.Ports.{FitsBuffer, IsTaken};
ghost use Rattle.out_ports.specs.MemSource.{source_of, take_answer, after_take, buffer_after};

use super::calls::Calls;
use crate::ports::{Incoming, Source, Took};
use std::marker::Model;

/// A source that gives these bytes.
#[derive(Drop)]
pub struct MemSource {
    bytes: Vec<u8>,
    at: usize,
    piece: usize,
    ended: bool,
    calls: Calls,
    settled: bool,
}

impl Model for MemSource {
    ghost use Rattle.std.specs.Prelude.{◌≤◌, drop, length};
    ghost use Rattle.out_ports.specs.MemSource.{ToldSource};

    ghost Value = { ToldSource };

    ghost view = { λ s. record {
      left = drop s.at s.bytes.items;
      given = s.at;
      piece = s.piece;
      ended = s.ended;
      calls = s.calls;
      settled = s.settled;
    } };

    ghost invariant = { λ s. (s.at ≤ length s.bytes.items) × (1 ≤ s.piece) };
}

impl MemSource {
    /// A source that gives at most `piece` bytes at once, and fails at these takes.
    pub fn new(bytes: Vec<u8>, piece: usize, failing: Vec<u64>) -> Self
        requires { 1 ≤ piece }
        ensures { result ≡ source_of bytes.items piece failing.items }
    {
        MemSource {
            bytes,
            at: 0,
            piece,
            ended: false,
            calls: Calls::new(failing),
            settled: false,
        }
    }

    /// What is left to be taken.
    pub fn left(&self) -> &[u8]
        ensures { result.now ≡ self.now.left }
    {
        &self.bytes[self.at..]
    }

    /// Whether it was settled.
    pub fn is_settled(&self) -> bool
        ensures { result ≡ self.now.settled }
    {
        self.settled
    }
}

impl Source for MemSource {
    ghost left = { λ s. Some s.left };

    ghost given = { λ s. s.given };

    ghost ended = { λ s. s.ended };

    ghost faults = { λ s. s.calls.faults };

    fn faults(&self) -> u64 {
        self.calls.faults()
    }

    fn take(&mut self, buf: &mut [u8]) -> Took
        requires { 0 < length buf.old }
        // The answer, the buffer and the source after it are these and no others.
        ensures exact { result ≡ take_answer self.old (length buf.old) }
        ensures buffer { buf.new ≡ buffer_after result self.old.left buf.old }
        ensures after { self.new ≡ after_take result self.old }
        ensures size { FitsBuffer result (length buf.old) }
        ensures content { IsTaken result buf.new (Some self.old.left) (Some self.new.left) }
        ensures lasting { self.old.calls.faults ≤ self.new.calls.faults }
    {
        if self.calls.fails() {
            return Took::Failed;
        }
        let left = &self.bytes[self.at..];
        if left.is_empty() {
            self.ended = true;
            return Took::End;
        }
        let n = left.len().min(self.piece).min(buf.len());
        buf[..n].copy_from_slice(&left[..n]);
        self.at += n;
        Took::Some(n)
    }
}

impl Incoming for MemSource {
    /// It waits for nobody, before and afterwards.
    fn settle(&mut self)
        ensures { self.new ≡ record self.old { settled = true } }
    {
        self.settled = true;
    }
}
