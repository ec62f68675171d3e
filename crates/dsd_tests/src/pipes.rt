//! Links between two parties of a test: what one puts the other takes, a byte at a time.
ghost use Rattle.std.specs.Prelude.{◌≡◌, Some, None, option_map};
ghost use Rattle.std.specs.String.{string_bytes};

use crate::guests::wait_for;
use out_ports::ports::{
    Accepted, Host, HostFault, Incoming, Listen, Offered, Outgoing, Put, Sink, Source, Took,
};
use std::alloc::{AllocError, Global};
use std::sync::Arc;
use std::sync::atomic::{AtomicU64, Ordering};

/// What an ended pipe has more than its bytes.
const ENDED: u64 = 1 << 32;

/// The bytes that one puts, each as one more than it is, or 0 where none came yet; how many came,
/// with much more once none comes any more; and how often one waited for some in vain.
#[derive(Drop)]
pub struct Pipe {
    places: Vec<AtomicU64>,
    came: AtomicU64,
    lost: AtomicU64,
}

/// A pipe with room for so many bytes.
pub fn pipe_with_room(alloc: Global, room: usize) -> Result<Arc<Pipe>, AllocError> {
    let mut places = Vec::new(alloc);
    for _ in 0..room {
        places.push(AtomicU64::new(0))?;
    }
    let pipe = Pipe {
        places,
        came: AtomicU64::new(0),
        lost: AtomicU64::new(0),
    };
    Ok(Arc::new(alloc, pipe)?)
}

impl Pipe {
    /// Waits until so many bytes came.
    pub fn wait(&self, count: u64) {
        wait_for(&self.came, count, &self.lost);
    }

    /// Whether one waited in vain.
    pub fn is_lost(&self) -> bool {
        self.lost.load(Ordering::SeqCst) > 0
    }

    /// No more bytes come.
    pub fn end(&self) {
        self.came.fetch_add(ENDED, Ordering::SeqCst);
    }

    /// Puts these bytes where none came yet.
    pub fn fill(&self, bytes: &[u8]) {
        for byte in bytes {
            self.set(self.came.load(Ordering::SeqCst) as usize, *byte);
        }
    }

    /// Whether there was room for the byte behind so many others.
    fn set(&self, place: usize, byte: u8) -> bool {
        let Some(kept) = self.places.get(place) else {
            return false;
        };
        kept.fetch_add(u64::from(byte) + 1, Ordering::SeqCst);
        self.came.fetch_add(1, Ordering::SeqCst);
        true
    }

    /// The byte behind so many others, where it came.
    fn at(&self, place: usize) -> Option<u8> {
        let kept = self.places.get(place)?.load(Ordering::SeqCst);
        u8::try_from(kept.checked_sub(1)?).ok()
    }
}

/// Where bytes of a pipe are taken.
#[derive(Drop)]
pub struct Taker {
    pipe: Arc<Pipe>,
    next: usize,
    given: u64,
    ended: bool,
}

impl Source for Taker {
    ghost left = { λ _. None };

    ghost given = { λ s. s.given };

    ghost ended = { λ s. s.ended };

    ghost faults = { λ _. 0 };

    fn faults(&self) -> u64 {
        0
    }

    fn take(&mut self, buf: &mut [u8]) -> Took {
        self.pipe.wait((self.next as u64).saturating_add(1));
        let Some(byte) = self.pipe.at(self.next) else {
            self.ended = true;
            return Took::End;
        };
        buf[0] = byte;
        self.next = self.next.saturating_add(1);
        self.given = self.given.saturating_add(1);
        Took::Some(1)
    }
}

impl Incoming for Taker {
    fn settle(&mut self) {}
}

/// Where bytes of a pipe are put. It fails where there is no room for one.
#[derive(Drop)]
pub struct Putter {
    pipe: Arc<Pipe>,
    next: usize,
    finishes: u64,
    faults: u64,
}

impl Sink for Putter {
    ghost held = { λ _. None };

    ghost finishes = { λ s. s.finishes };

    ghost faults = { λ s. s.faults };

    fn faults(&self) -> u64 {
        self.faults
    }

    fn put(&mut self, piece: &[u8]) -> Put {
        if !self.pipe.set(self.next, piece[0]) {
            self.faults = self.faults.saturating_add(1);
            return Put::Failed;
        }
        self.next = self.next.saturating_add(1);
        Put::Some(1)
    }

    fn finish(&mut self) {
        self.finishes = self.finishes.saturating_add(1);
    }
}

impl Outgoing for Putter {
    /// Its peer never waits.
    fn offer(&mut self, piece: &[u8]) -> Offered {
        match self.put(piece) {
            Put::Some(n) => Offered::Some(n),
            Put::Failed => Offered::Failed,
        }
    }

    fn hurry(&mut self) {}
}

/// A link's two halves.
#[derive(Drop)]
pub struct Line {
    reads: Taker,
    writes: Putter,
}

/// The link of one who takes what came by the first pipe and puts into the second.
pub fn line_of(from: &Arc<Pipe>, into: &Arc<Pipe>) -> Result<Line, AllocError> {
    let reads = Taker {
        pipe: Arc::try_clone(from)?,
        next: 0,
        given: 0,
        ended: false,
    };
    let writes = Putter {
        pipe: Arc::try_clone(into)?,
        next: 0,
        finishes: 0,
        faults: 0,
    };
    Ok(Line { reads, writes })
}

/// A host with one file, these links, which are given from the last one on, and a peer, who answers
/// at any address.
#[derive(Drop)]
pub struct Party {
    config: Vec<u8>,
    links: Vec<Line>,
    peer: Line,
    dialled: Option<String>,
    address: Option<String>,
    closed: bool,
    gave: u64,
    stops: u64,
}

/// A host with this file, these links and this peer.
pub fn party_with(config: Vec<u8>, links: Vec<Line>, peer: Line) -> Party {
    Party {
        config,
        links,
        peer,
        dialled: None,
        address: None,
        closed: false,
        gave: 0,
        stops: 0,
    }
}

impl Listen for Party {
    type R = Taker;

    type W = Putter;

    ghost gave = { λ h. h.gave };

    ghost stops = { λ h. h.stops };

    ghost faults = { λ _. 0 };

    ghost address = { λ h. option_map string_bytes h.address };

    ghost closed = { λ h. h.closed };

    ghost files = { λ _. None };

    ghost file_faults = { λ _. 0 };

    ghost port_faults = { λ _. 0 };

    ghost link = { λ h. record {
      address = option_map string_bytes h.dialled;
      dial_faults = 0;
      heard = record {
        left = None;
        given = h.peer.reads.given;
        ended = h.peer.reads.ended;
        faults = 0;
      };
      said = record { held = None; faults = h.peer.writes.faults };
    } };

    fn faults(&self) -> u64 {
        0
    }

    fn accept(&mut self, _alloc: Global) -> Accepted<Taker, Putter> {
        if self.closed || self.address.is_none() {
            self.stops = self.stops.saturating_add(1);
            return Accepted::Stopped;
        }
        match self.links.pop() {
            Some(Line { reads, writes }) => {
                self.gave = self.gave.saturating_add(1);
                Accepted::Link(reads, writes)
            }
            None => {
                self.stops = self.stops.saturating_add(1);
                Accepted::Stopped
            }
        }
    }

    fn close(&mut self) {
        self.closed = true;
    }
}

impl Host for Party {
    fn file_faults(&self) -> u64 {
        0
    }

    fn port_faults(&self) -> u64 {
        0
    }

    fn dial_faults(&self) -> u64 {
        0
    }

    fn hear_faults(&self) -> u64 {
        0
    }

    fn say_faults(&self) -> u64 {
        self.peer.writes.faults
    }

    /// Any name is that of the one file, where it isn't long.
    fn file(&mut self, alloc: Global, _name: &str) -> Result<Vec<u8>, HostFault> {
        if self.config.len() > 1000 {
            return Err(HostFault::NoMemory);
        }
        Ok(Vec::from_slice(alloc, &self.config)?)
    }

    fn port(&mut self, alloc: Global, addr: &str) -> Result<(), HostFault> {
        self.address = Some(String::from_str(alloc, addr)?);
        self.closed = false;
        Ok(())
    }

    fn dial(&mut self, alloc: Global, addr: &str) -> Result<(), HostFault> {
        self.dialled = Some(String::from_str(alloc, addr)?);
        Ok(())
    }

    fn hear(&mut self, buf: &mut [u8]) -> Took {
        self.peer.reads.take(buf)
    }

    fn say(&mut self, piece: &[u8]) -> Put {
        self.peer.writes.put(piece)
    }
}
