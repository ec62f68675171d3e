//! Links over TCP.
ghost use Rattle.std.specs.Prelude.{◌≡◌, ◌≤◌, None, false, length, IfSome};
ghost use Rattle.out_ports.specs.Ports.{FitsOffer};

use crate::waits::{DRAIN_BYTES, SHORT_OFFERS, Waits};
use out_ports::ports::{Incoming, Offered, Outgoing, Put, Sink, Source, Took};
use std::io::{ErrorKind, Read, Write};
use std::net::{Shutdown, TcpStream};
use std::time::{Clock, Duration, Instant};

/// The reading half of a link. Until it is settled, its takes wait up to a moment, and then fail.
///
/// Both halves are one socket, so they share the time that a read waits, which the other half sets
/// too where it is finished. So no read waits without an end: one that got nothing reads again.
#[derive(Drop)]
pub struct TcpSource<'a, Rt> {
    rt: &'a Rt,
    stream: TcpStream,
    until: Option<Instant>,
    at_once: Duration,
    given: u64,
    ended: bool,
    faults: u64,
}

impl<'a, Rt> TcpSource<'a, Rt> {
    /// The first packet has to be there at that moment, where there is one.
    pub(crate) fn new(
        rt: &'a Rt,
        stream: TcpStream,
        until: Option<Instant>,
        waits: Waits,
    ) -> TcpSource<'a, Rt>
        ensures given { result.given ≡ 0 }
        ensures ended { result.ended ≡ false }
        ensures faults { result.faults ≡ 0 }
    {
        TcpSource {
            rt,
            stream,
            until,
            at_once: waits.first_packet,
            given: 0,
            ended: false,
            faults: 0,
        }
    }
}

impl<'a, Rt: Clock> Source for TcpSource<'a, Rt> {
    ghost left = { λ _. None };

    ghost given = { λ s. s.given };

    ghost ended = { λ s. s.ended };

    ghost faults = { λ s. s.faults };

    fn faults(&self) -> u64 {
        self.faults
    }

    fn take(&mut self, buf: &mut [u8]) -> Took {
        match read_until(self.rt, &mut self.stream, buf, self.until) {
            Some(0) => {
                self.ended = true;
                Took::End
            }
            Some(n) => {
                self.given = self.given.saturating_add(n as u64);
                Took::Some(n)
            }
            None => {
                self.faults = self.faults.saturating_add(1);
                Took::Failed
            }
        }
    }
}

impl<'a, Rt: Clock> Incoming for TcpSource<'a, Rt> {
    fn settle(&mut self) {
        self.until = None;
        let _ = self.stream.set_read_timeout(Some(self.at_once));
    }
}

/// Reads once, and again where nothing came for a while or a signal came between, until that
/// moment, where there is one.
fn read_until<C: Clock>(
    clock: &C,
    stream: &mut TcpStream,
    buf: &mut [u8],
    until: Option<Instant>,
) -> Option<usize>
    ensures { IfSome result (λ n. n ≤ length buf.new) }
{
    for _ in 0..u64::MAX {
        if !waits_until(clock, stream, until) {
            return None;
        }
        match stream.read(buf) {
            Ok(n) => return Some(n),
            Err(e) => {
                if !is_wait(e.kind()) {
                    return None;
                }
            }
        }
    }
    None
}

/// Has the next read end at that moment, where there is one and it isn't past.
fn waits_until<C: Clock>(clock: &C, stream: &TcpStream, until: Option<Instant>) -> bool {
    let Some(until) = until else {
        return true;
    };
    let Ok(now) = Instant::now(clock) else {
        return false;
    };
    stream
        .set_read_timeout(Some(until.duration_since(now)))
        .is_ok()
}

/// Nothing came or went for a while, or a signal came between.
fn is_wait(kind: ErrorKind) -> bool {
    matches!(
        kind,
        ErrorKind::WouldBlock | ErrorKind::TimedOut | ErrorKind::Interrupted
    )
}

/// The writing half of a link. A peer that has gone is a fault and no signal.
#[derive(Drop)]
pub struct TcpSink<'a, Rt> {
    rt: &'a Rt,
    stream: TcpStream,
    drain: Duration,
    /// Once it is hurried, how many offers more may give less than the whole piece.
    patience: Option<u32>,
    finishes: u64,
    faults: u64,
}

impl<'a, Rt> TcpSink<'a, Rt> {
    pub(crate) fn new(rt: &'a Rt, stream: TcpStream, waits: Waits) -> TcpSink<'a, Rt>
        ensures finishes { result.finishes ≡ 0 }
        ensures faults { result.faults ≡ 0 }
    {
        TcpSink {
            rt,
            stream,
            drain: waits.drain,
            patience: None,
            finishes: 0,
            faults: 0,
        }
    }

    /// Whether the answer to an offer of so many bytes can be given: it is no failure, and it is no
    /// short one of a link that is hurried and has had its share of those.
    fn bears(&mut self, offered: Offered, len: usize) -> bool
        ensures failed { offered ≡ Offered.Failed → result ≡ false }
        ensures finishes { self.new.finishes ≡ self.old.finishes }
        ensures faults { self.new.faults ≡ self.old.faults }
    {
        match offered {
            Offered::Failed => return false,
            Offered::Some(n) if n >= len => return true,
            Offered::Some(_) | Offered::Waits => {}
        }
        match self.patience {
            None => true,
            Some(0) => false,
            Some(left) => {
                self.patience = Some(left - 1);
                true
            }
        }
    }
}

impl<'a, Rt: Clock> Sink for TcpSink<'a, Rt> {
    ghost held = { λ _. None };

    ghost finishes = { λ s. s.finishes };

    ghost faults = { λ s. s.faults };

    fn faults(&self) -> u64 {
        self.faults
    }

    /// Offers until the peer takes something.
    fn put(&mut self, piece: &[u8]) -> Put {
        for _ in 0..u64::MAX {
            match self.offer(piece) {
                Offered::Some(n) => return Put::Some(n),
                Offered::Failed => return Put::Failed,
                Offered::Waits => {}
            }
        }
        self.faults = self.faults.saturating_add(1);
        Put::Failed
    }

    /// Shuts the link for writing, reads off what the peer still sends, and shuts it both ways, so
    /// that a reader that waits on it ends too. A link that is closed with bytes unread is reset,
    /// and its peer may lose what was sent to it last. A link that is down already stays so.
    fn finish(&mut self) {
        self.finishes = self.finishes.saturating_add(1);
        if self.stream.shutdown(Shutdown::Write).is_ok() {
            drain(self.rt, &mut self.stream, self.drain);
        }
        let _ = self.stream.shutdown(Shutdown::Both);
    }
}

impl<'a, Rt: Clock> Outgoing for TcpSink<'a, Rt> {
    fn offer(&mut self, piece: &[u8]) -> Offered {
        let offered = offer_once(&mut self.stream, piece);
        if self.bears(offered, piece.len()) {
            return offered;
        }
        self.faults = self.faults.saturating_add(1);
        Offered::Failed
    }

    fn hurry(&mut self) {
        if self.patience.is_none() {
            self.patience = Some(SHORT_OFFERS);
        }
    }
}

/// Writes once, and again where a signal came between. A write that takes nothing is a failure.
fn offer_once(stream: &mut TcpStream, piece: &[u8]) -> Offered
    ensures { FitsOffer result (length piece.now) }
{
    for _ in 0..u64::MAX {
        match stream.write(piece) {
            Ok(0) => return Offered::Failed,
            Ok(n) => return Offered::Some(n),
            Err(e) => match e.kind() {
                ErrorKind::Interrupted => {}
                ErrorKind::WouldBlock | ErrorKind::TimedOut => return Offered::Waits,
                _ => return Offered::Failed,
            },
        }
    }
    Offered::Failed
}

/// Reads off what comes, up to the end, for so long and no more than so many bytes.
fn drain<C: Clock>(clock: &C, stream: &mut TcpStream, time: Duration) {
    let Some(until) = moment_in(clock, time) else {
        return;
    };
    let mut buf = [0; 4096];
    let mut left = DRAIN_BYTES;
    while left > 0 {
        match read_until(clock, stream, &mut buf, Some(until)) {
            Some(n) if n > 0 => left = left.saturating_sub(n),
            _ => return,
        }
    }
}

/// The moment after so long, where the clock has it.
pub(crate) fn moment_in<C: Clock>(clock: &C, time: Duration) -> Option<Instant> {
    Instant::now(clock).ok()?.checked_add(time)
}
