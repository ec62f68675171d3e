//! Links of a test: each gives its next piece once a counter is high enough.
ghost use Rattle.std.specs.Prelude.{◌≡◌, [], true, Some, None, option_map};
ghost use Rattle.std.specs.String.{string_bytes};

use out_ports::ports::{
    Accepted, Host, HostFault, Incoming, Listen, Offered, Outgoing, Put, Sink, Source, Took,
};
use std::alloc::Global;
use std::sync::atomic::{AtomicU64, Ordering};
use std::thread;

/// How often a source looks at a counter before it gives up.
const TURNS: u64 = 10_000_000;

/// A piece, and how high the counter is before it is given.
#[derive(Drop)]
pub struct Piece {
    pub least: u64,
    pub bytes: Vec<u8>,
}

/// What one gives and is to hear, both in reverse, and how high the counter is before the link
/// ends.
#[derive(Drop)]
pub struct Part {
    pub pieces: Vec<Piece>,
    pub texts: Vec<Vec<u8>>,
    pub last: u64,
}

/// The reading half of a link. `pieces` stand in reverse. A piece that is given counts in `gave`.
/// The end comes once the counter is at `last`. What gives up counts in `lost`.
#[derive(Drop)]
pub struct Guest<'a> {
    counter: &'a AtomicU64,
    gave: &'a AtomicU64,
    lost: &'a AtomicU64,
    pieces: Vec<Piece>,
    last: u64,
    given: u64,
    ended: bool,
    faults: u64,
}

/// Waits until the counter is so high, or it or another gives up.
pub fn wait_for(counter: &AtomicU64, least: u64, lost: &AtomicU64) {
    for _ in 0..TURNS {
        if counter.load(Ordering::SeqCst) >= least || lost.load(Ordering::SeqCst) > 0 {
            return;
        }
        thread::yield_now();
    }
    lost.fetch_add(1, Ordering::SeqCst);
}

impl<'a> Source for Guest<'a> {
    ghost left = { λ _. None };

    ghost given = { λ s. s.given };

    ghost ended = { λ s. s.ended };

    ghost faults = { λ s. s.faults };

    fn faults(&self) -> u64 {
        self.faults
    }

    fn take(&mut self, buf: &mut [u8]) -> Took {
        let Some(piece) = self.pieces.pop() else {
            wait_for(self.counter, self.last, self.lost);
            self.ended = true;
            return Took::End;
        };
        wait_for(self.counter, piece.least, self.lost);
        if piece.bytes.is_empty() {
            self.faults = self.faults.saturating_add(1);
            return Took::Failed;
        }
        let count = piece.bytes.len().min(buf.len());
        buf[..count].copy_from_slice(&piece.bytes[..count]);
        self.given = self.given.saturating_add(count as u64);
        self.gave.fetch_add(1, Ordering::SeqCst);
        Took::Some(count)
    }
}

impl<'a> Incoming for Guest<'a> {
    fn settle(&mut self) {}
}

/// The writing half of a link. It counts the texts that come in it, each once it is there and those
/// before it came. `texts` stand in reverse.
#[derive(Drop)]
pub struct Hearer<'a> {
    heard: &'a AtomicU64,
    texts: Vec<Vec<u8>>,
    held: Vec<u8>,
    finishes: u64,
    faults: u64,
}

/// Whether the text stands somewhere in the bytes.
fn contains(bytes: &[u8], text: &[u8]) -> bool {
    for at in 0..bytes.len() {
        if bytes[at..].starts_with(text) {
            return true;
        }
    }
    false
}

/// Counts the texts that are there.
fn count(texts: &mut Vec<Vec<u8>>, held: &[u8], heard: &AtomicU64) {
    for _ in 0..texts.len() {
        match texts.last() {
            Some(text) if contains(held, text) => {}
            _ => return,
        }
        texts.pop();
        heard.fetch_add(1, Ordering::SeqCst);
    }
}

impl<'a> Sink for Hearer<'a> {
    ghost held = { λ _. None };

    ghost finishes = { λ s. s.finishes };

    ghost faults = { λ s. s.faults };

    fn faults(&self) -> u64 {
        self.faults
    }

    fn put(&mut self, piece: &[u8]) -> Put {
        if self.held.extend_from_slice(piece).is_err() {
            self.faults = self.faults.saturating_add(1);
            return Put::Failed;
        }
        count(&mut self.texts, &self.held, self.heard);
        Put::Some(piece.len())
    }

    fn finish(&mut self) {
        self.finishes = self.finishes.saturating_add(1);
    }
}

impl<'a> Outgoing for Hearer<'a> {
    /// Its peer never waits.
    fn offer(&mut self, piece: &[u8]) -> Offered {
        match self.put(piece) {
            Put::Some(n) => Offered::Some(n),
            Put::Failed => Offered::Failed,
        }
    }

    fn hurry(&mut self) {}
}

/// A link's two halves.
#[derive(Drop)]
pub struct Link<'a> {
    reads: Guest<'a>,
    writes: Hearer<'a>,
}

/// A link for this part. Its pieces wait for the counter, in which its texts count.
pub fn link_for<'a>(
    alloc: Global,
    part: Part,
    counter: &'a AtomicU64,
    gave: &'a AtomicU64,
    lost: &'a AtomicU64,
) -> Link<'a> {
    let reads = Guest {
        counter,
        gave,
        lost,
        pieces: part.pieces,
        last: part.last,
        given: 0,
        ended: false,
        faults: 0,
    };
    let writes = Hearer {
        heard: counter,
        texts: part.texts,
        held: Vec::new(alloc),
        finishes: 0,
        faults: 0,
    };
    Link { reads, writes }
}

/// A host with one file and these links, which are given from the last one on. It has no memory to
/// dial with.
#[derive(Drop)]
pub struct Door<'a> {
    config: Vec<u8>,
    links: Vec<Link<'a>>,
    address: Option<String>,
    closed: bool,
    gave: u64,
    stops: u64,
}

/// A host with this file and these links.
pub fn door_with<'a>(config: Vec<u8>, links: Vec<Link<'a>>) -> Door<'a> {
    Door {
        config,
        links,
        address: None,
        closed: false,
        gave: 0,
        stops: 0,
    }
}

impl<'a> Listen for Door<'a> {
    type R = Guest<'a>;

    type W = Hearer<'a>;

    ghost gave = { λ h. h.gave };

    ghost stops = { λ h. h.stops };

    ghost faults = { λ _. 0 };

    ghost address = { λ h. option_map string_bytes h.address };

    ghost closed = { λ h. h.closed };

    ghost files = { λ _. None };

    ghost file_faults = { λ _. 0 };

    ghost port_faults = { λ _. 0 };

    // Whoever asks hears the end, and what is said is lost.
    ghost link = { λ _. record {
      address = Some [];
      dial_faults = 0;
      heard = record { left = None; given = 0; ended = true; faults = 0 };
      said = record { held = None; faults = 0 };
    } };

    fn faults(&self) -> u64 {
        0
    }

    fn accept(&mut self, _alloc: Global) -> Accepted<Guest<'a>, Hearer<'a>> {
        if self.closed || self.address.is_none() {
            self.stops = self.stops.saturating_add(1);
            return Accepted::Stopped;
        }
        match self.links.pop() {
            Some(Link { reads, writes }) => {
                self.gave = self.gave.saturating_add(1);
                Accepted::Link(reads, writes)
            }
            None => {
                self.stops = self.stops.saturating_add(1);
                Accepted::Stopped
            }
        }
    }

    fn close(&mut self) {
        self.closed = true;
    }
}

impl<'a> Host for Door<'a> {
    fn file_faults(&self) -> u64 {
        0
    }

    fn port_faults(&self) -> u64 {
        0
    }

    fn dial_faults(&self) -> u64 {
        0
    }

    fn hear_faults(&self) -> u64 {
        0
    }

    fn say_faults(&self) -> u64 {
        0
    }

    /// Any name is that of the one file, where it isn't long.
    fn file(&mut self, alloc: Global, _name: &str) -> Result<Vec<u8>, HostFault> {
        if self.config.len() > 1000 {
            return Err(HostFault::NoMemory);
        }
        Ok(Vec::from_slice(alloc, &self.config)?)
    }

    fn port(&mut self, alloc: Global, addr: &str) -> Result<(), HostFault> {
        self.address = Some(String::from_str(alloc, addr)?);
        self.closed = false;
        Ok(())
    }

    fn dial(&mut self, _alloc: Global, _addr: &str) -> Result<(), HostFault> {
        Err(HostFault::NoMemory)
    }

    fn hear(&mut self, _buf: &mut [u8]) -> Took {
        Took::End
    }

    fn say(&mut self, piece: &[u8]) -> Put {
        Put::Some(piece.len())
    }
}
