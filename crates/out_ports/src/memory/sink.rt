//! A sink in memory.
ghost use Rattle.std.specs.Prelude.{◌≡◌, ◌<◌, ◌≤◌, true, Some, length, vec_capacity};
ghost use Rattle.out_ports.specs.Ports.{FitsPiece, IsPut, FitsOffer, IsOffered, raised};
ghost use Rattle.out_ports.specs.MemSink.{sink_of, put_answer, after_put, waiting_at};
ghost use Rattle.out_ports.specs.MemSink.{offer_answer, after_offer};

use super::calls::Calls;
use crate::ports::{Offered, Outgoing, Put, Sink};
use std::marker::Model;

/// A sink with room for so many bytes.
#[derive(Drop)]
pub struct MemSink {
    held: Vec<u8>,
    room: usize,
    finishes: u64,
    calls: Calls,
    offers: Calls,
    hurried: bool,
}

impl Model for MemSink {
    ghost use Rattle.std.specs.Prelude.{◌≤◌, length, vec_capacity};
    ghost use Rattle.out_ports.specs.MemSink.{ToldSink};

    ghost Value = { ToldSink };

    ghost view = { λ s. record {
      held = s.held.items;
      room = s.room;
      finishes = s.finishes;
      calls = s.calls;
      offers = s.offers;
      hurried = s.hurried;
    } };

    ghost invariant = { λ s. (length s.held.items ≤ s.room) × (s.room ≤ vec_capacity s.held) };
}

impl MemSink {
    /// An empty sink with as much room as the vector has, whose bytes are gone. It fails at these
    /// puts, and at each piece that its room doesn't hold.
    pub fn new(mut room: Vec<u8>, failing: Vec<u64>) -> Self
        ensures { result ≡ sink_of (vec_capacity room) failing.items }
    {
        room.clear();
        let none = Vec::new(*failing.allocator());
        MemSink {
            room: room.capacity(),
            held: room,
            finishes: 0,
            calls: Calls::new(failing),
            offers: Calls::new(none),
            hurried: false,
        }
    }

    /// The sink that answers `Waits` at these offers, counted from now. At all others it puts.
    pub fn with_waits(self, waiting: Vec<u64>) -> Self
        ensures { result ≡ waiting_at waiting.items self }
    {
        MemSink {
            offers: Calls::new(waiting),
            ..self
        }
    }

    /// What it holds.
    pub fn held(&self) -> &[u8]
        ensures { result.now ≡ self.now.held }
    {
        &self.held
    }

    /// How often it was finished.
    pub fn finishes(&self) -> u64
        ensures { result ≡ self.now.finishes }
    {
        self.finishes
    }

    /// Whether it was hurried.
    pub fn is_hurried(&self) -> bool
        ensures { result ≡ self.now.hurried }
    {
        self.hurried
    }
}

impl Sink for MemSink {
    ghost held = { λ s. Some s.held };

    ghost finishes = { λ s. s.finishes };

    ghost faults = { λ s. s.calls.faults };

    fn faults(&self) -> u64 {
        self.calls.faults()
    }

    fn put(&mut self, piece: &[u8]) -> Put
        requires { 0 < length piece.now }
        // The answer and the sink after it are these and no others.
        ensures exact { result ≡ put_answer self.old (length piece.now) }
        ensures after { self.new ≡ after_put result piece.now self.old }
        ensures size { FitsPiece result (length piece.now) }
        ensures content { IsPut result piece.now (Some self.old.held) (Some self.new.held) }
        ensures lasting { self.old.calls.faults ≤ self.new.calls.faults }
    {
        if self.calls.fails() {
            return Put::Failed;
        }
        if piece.len() > self.room - self.held.len() {
            self.calls.fail();
            return Put::Failed;
        }
        self.held.extend_from_slice(piece).unwrap();
        Put::Some(piece.len())
    }

    fn finish(&mut self)
        ensures { self.new ≡ record self.old { finishes = raised 1 self.old.finishes } }
    {
        self.finishes = self.finishes.saturating_add(1);
    }
}

impl Outgoing for MemSink {
    fn offer(&mut self, piece: &[u8]) -> Offered
        requires { 0 < length piece.now }
        // The answer and the sink after it are these and no others.
        ensures exact { result ≡ offer_answer self.old (length piece.now) }
        ensures after { self.new ≡ after_offer piece.now self.old }
        ensures size { FitsOffer result (length piece.now) }
        ensures content { IsOffered result piece.now (Some self.old.held) (Some self.new.held) }
        ensures lasting { self.old.calls.faults ≤ self.new.calls.faults }
    {
        if self.offers.fails() {
            return Offered::Waits;
        }
        match self.put(piece) {
            Put::Some(n) => Offered::Some(n),
            Put::Failed => Offered::Failed,
        }
    }

    /// It waits as it did before.
    fn hurry(&mut self)
        ensures { self.new ≡ record self.old { hurried = true } }
    {
        self.hurried = true;
    }
}
