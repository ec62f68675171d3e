//! Real readers and writers as sources and sinks. They tell nothing of content.
ghost use Rattle.std.specs.Prelude.{◌≡◌, ◌≤◌, None, false, length, IfSome};
ghost use Rattle.out_ports.specs.Ports.{raised};

use out_ports::ports::{Put, Sink, Source, Took};
use std::io::{ErrorKind, Read, Write};

/// A reader as a source.
#[derive(Drop)]
pub struct ReadSource<R> {
    reader: R,
    given: u64,
    ended: bool,
    faults: u64,
}

impl<R: Read> ReadSource<R> {
    pub fn new(reader: R) -> ReadSource<R>
        ensures given { result.given ≡ 0 }
        ensures ended { result.ended ≡ false }
        ensures faults { result.faults ≡ 0 }
    {
        ReadSource {
            reader,
            given: 0,
            ended: false,
            faults: 0,
        }
    }
}

impl<R: Read> Source for ReadSource<R> {
    ghost left = { λ _. None };

    ghost given = { λ s. s.given };

    ghost ended = { λ s. s.ended };

    ghost faults = { λ s. s.faults };

    fn faults(&self) -> u64 {
        self.faults
    }

    fn take(&mut self, buf: &mut [u8]) -> Took {
        match read_some(&mut self.reader, buf) {
            Some(0) => {
                self.ended = true;
                Took::End
            }
            Some(n) => {
                self.given = self.given.saturating_add(n as u64);
                Took::Some(n)
            }
            None => {
                self.faults = self.faults.saturating_add(1);
                Took::Failed
            }
        }
    }
}

/// Reads once, and again where a signal came between.
pub(crate) fn read_some<R: Read>(reader: &mut R, buf: &mut [u8]) -> Option<usize>
    ensures { IfSome result (λ n. n ≤ length buf.new) }
{
    for _ in 0..u64::MAX {
        match reader.read(buf) {
            Ok(n) => return Some(n),
            Err(e) => {
                if e.kind() != ErrorKind::Interrupted {
                    return None;
                }
            }
        }
    }
    None
}

/// A writer as a sink. A write that takes nothing is a fault.
#[derive(Drop)]
pub struct WriteSink<W> {
    writer: W,
    finishes: u64,
    faults: u64,
}

impl<W: Write> WriteSink<W> {
    pub fn new(writer: W) -> WriteSink<W>
        ensures finishes { result.finishes ≡ 0 }
        ensures faults { result.faults ≡ 0 }
    {
        WriteSink {
            writer,
            finishes: 0,
            faults: 0,
        }
    }
}

impl<W: Write> Sink for WriteSink<W> {
    ghost held = { λ _. None };

    ghost finishes = { λ s. s.finishes };

    ghost faults = { λ s. s.faults };

    fn faults(&self) -> u64 {
        self.faults
    }

    fn put(&mut self, piece: &[u8]) -> Put {
        match write_some(&mut self.writer, piece) {
            Some(n) => Put::Some(n),
            None => {
                self.faults = self.faults.saturating_add(1);
                Put::Failed
            }
        }
    }

    fn finish(&mut self) {
        self.finishes = self.finishes.saturating_add(1);
    }
}

/// Writes once, and again where a signal came between.
pub(crate) fn write_some<W: Write>(writer: &mut W, piece: &[u8]) -> Option<usize>
    ensures { IfSome result (λ n. (1 ≤ n) × (n ≤ length piece.now)) }
{
    for _ in 0..u64::MAX {
        match writer.write(piece) {
            Ok(0) => return None,
            Ok(n) => return Some(n),
            Err(e) => {
                if e.kind() != ErrorKind::Interrupted {
                    return None;
                }
            }
        }
    }
    None
}
