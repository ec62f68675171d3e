//! A sink that takes a byte at a put.
ghost use Rattle.std.specs.Prelude.{None};

use out_ports::ports::{Offered, Outgoing, Put, Sink};

/// Another sink, which gets a byte at a time.
#[derive(Drop)]
pub struct Drip<W> {
    pub sink: W,
}

impl<W: Sink> Sink for Drip<W> {
    ghost held = { λ _. None };

    ghost finishes = { λ s. W.finishes s.sink };

    ghost faults = { λ s. W.faults s.sink };

    fn faults(&self) -> u64 {
        self.sink.faults()
    }

    fn put(&mut self, piece: &[u8]) -> Put {
        self.sink.put(&piece[..1])
    }

    fn finish(&mut self) {
        self.sink.finish();
    }
}

impl<W: Outgoing> Outgoing for Drip<W> {
    fn offer(&mut self, piece: &[u8]) -> Offered {
        self.sink.offer(&piece[..1])
    }

    fn hurry(&mut self) {
        self.sink.hurry();
    }
}
