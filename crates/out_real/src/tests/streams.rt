//! A reader and a writer that fail in the midst.
use crate::{ReadSource, WriteSink};
use out_ports::ports::{Put, Sink, Source, Took};
use std::io::{self, ErrorKind, Read, Write};
use std::test::Fail;

/// A reader of `ab` that a signal interrupts first, and a writer: of five calls the first is
/// interrupted, the second and the third take a byte each, the fourth takes nothing, and the fifth
/// fails.
#[derive(Drop)]
struct Halting {
    calls: u32,
}

impl Halting {
    /// The answer to a call, where a byte is taken that byte.
    fn next(&mut self) -> io::Result<Option<u8>> {
        self.calls = self.calls.saturating_add(1);
        match self.calls {
            1 => Err(io::Error::from(ErrorKind::Interrupted)),
            2 => Ok(Some(b'a')),
            3 => Ok(Some(b'b')),
            4 => Ok(None),
            _ => Err(io::Error::from(ErrorKind::ConnectionReset)),
        }
    }
}

impl Read for Halting {
    fn read(&mut self, buf: &mut [u8]) -> io::Result<usize> {
        match (self.next()?, buf.first_mut()) {
            (Some(byte), Some(first)) => {
                *first = byte;
                Ok(1)
            }
            _ => Ok(0),
        }
    }
}

impl Write for Halting {
    fn write(&mut self, buf: &[u8]) -> io::Result<usize> {
        match self.next()? {
            Some(_) if !buf.is_empty() => Ok(1),
            _ => Ok(0),
        }
    }

    fn flush(&mut self) -> io::Result<()> {
        Ok(())
    }
}

/// A signal is no answer, nothing more is the end, and an error is a fault.
fn source_tells_its_end() -> bool {
    let mut source = ReadSource::new(Halting { calls: 0 });
    let mut buf = [0; 4];
    let bytes = source.take(&mut buf) == Took::Some(1)
        && source.take(&mut buf[1..]) == Took::Some(1);
    let end = source.take(&mut buf) == Took::End && source.faults() == 0;
    let failed = source.take(&mut buf) == Took::Failed && source.faults() == 1;
    bytes && end && failed && buf == *b"ab\0\0"
}

#[test]
fn a_reader_tells_its_end_from_its_failure(rt: HostRuntime) -> Result<(), Fail> {
    assert!(rt; source_tells_its_end());
    Ok(())
}

/// A signal is no answer, and a write that takes nothing is a fault as an error is.
fn sink_counts_its_faults() -> bool {
    let mut sink = WriteSink::new(Halting { calls: 0 });
    let put = sink.put(b"abc") == Put::Some(1) && sink.put(b"bc") == Put::Some(1);
    let empty = sink.put(b"c") == Put::Failed && sink.faults() == 1;
    put && empty && sink.put(b"c") == Put::Failed && sink.faults() == 2
}

#[test]
fn a_write_that_takes_nothing_is_a_fault(rt: HostRuntime) -> Result<(), Fail> {
    assert!(rt; sink_counts_its_faults());
    Ok(())
}
