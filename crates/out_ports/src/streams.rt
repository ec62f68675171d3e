//! Whole texts over sources and sinks: reading one to its end or its front, and writing one.
ghost use Rattle.std.specs.Prelude.{◌≡◌, ◌≤◌, ◌++◌, ℕ, List, true, take, vec_len};
ghost use Rattle.std.specs.Prelude.{IfOk, IfSome, IsErrOf, OnOk, OnErr};
ghost use Rattle.out_ports.specs.declared.streams.ReadFault.TheVariants.{NoMemory};
ghost use Rattle.out_ports.specs.Ports.{Rose, Appends, AppendsFront};
ghost use Rattle.out_ports.specs.Dialled.{IsDialled, OnlySaying};

use crate::ports::{Host, Put, Sink, Source, Took};
use std::alloc::{AllocError, Global};
use thiserror::Error;

/// How many bytes one take asks for: as many as a pipe holds.
const PIECE: usize = 65_536;

/// Why a source couldn't be read to its end.
#[derive(Clone, Copy, Debug, PartialEq, Eq, Error)]
pub enum ReadFault {
    #[error("the source failed")]
    Failed,
    #[error("out of memory")]
    NoMemory,
}

impl From<AllocError> for ReadFault {
    ghost from_gives = { λ _ fault. fault ≡ NoMemory };

    fn from(_: AllocError) -> Self {
        ReadFault::NoMemory
    }
}

/// The sink failed.
#[derive(Clone, Copy, Debug, PartialEq, Eq, Error)]
#[error("the sink failed")]
pub struct WriteFault;

/// Reads all that a source gives until it ends. A source that gives 2^64 - 1 pieces without an end
/// counts as more than there is memory for. After a fault, what was read is gone.
pub fn read_to_end<I: Source>(alloc: Global, source: &mut I) -> Result<Vec<u8>, ReadFault>
    ensures content { IfOk result (λ all. IfSome (I.left source.old) (λ bytes. all.items ≡ bytes)) }
    ensures at_end { OnOk result (I.ended source.new ≡ true) }
    ensures lasting { I.faults source.old ≤ I.faults source.new }
    ensures cause { IsErrOf result ReadFault.Failed →
        Rose (I.faults source.old) (I.faults source.new) }
{
    let mut all = Vec::new(alloc);
    let mut buf = [0; PIECE];
    for _ in 0..u64::MAX {
        match source.take(&mut buf) {
            Took::Some(n) => all.extend_from_slice(&buf[..n])?,
            Took::End => return Ok(all),
            Took::Failed => return Err(ReadFault::Failed),
        }
    }
    Err(ReadFault::NoMemory)
}

/// Reads the first `most` bytes of a source, or all where it ends before them. After a fault, what
/// was read is gone; what was taken past them is gone too.
pub fn read_front<I: Source>(
    alloc: Global,
    source: &mut I,
    most: usize,
) -> Result<Vec<u8>, ReadFault>
    ensures content { IfOk result (λ front. IfSome (I.left source.old) (λ bytes.
        front.items ≡ take most bytes)) }
    ensures size { IfOk result (λ front. vec_len front ≤ most) }
    ensures lasting { I.faults source.old ≤ I.faults source.new }
    ensures cause { IsErrOf result ReadFault.Failed →
        Rose (I.faults source.old) (I.faults source.new) }
{
    let mut front = Vec::new(alloc);
    let mut buf = [0; PIECE];
    while front.len() < most {
        match source.take(&mut buf) {
            Took::Some(n) => front.extend_from_slice(&buf[..n])?,
            Took::End => return Ok(front),
            Took::Failed => return Err(ReadFault::Failed),
        }
    }
    front.truncate(most);
    Ok(front)
}

/// Appends as much of a piece as there is room for below `most` bytes.
fn keep(front: &mut Vec<u8>, piece: &[u8], most: usize) -> Result<(), AllocError>
    ensures { (read : List ℕ) → front.old.items ≡ take most read
        → OnOk result (front.new.items ≡ take most (read ++ piece.now)) }
{
    let room = most.saturating_sub(front.len());
    front.extend_from_slice(&piece[..room.min(piece.len())])
}

/// Reads a source to its end, and keeps its first `most` bytes: so what it gives is no bound on the
/// memory that is taken. A source without an end, and what stands after a fault, are as for
/// [`read_to_end`].
pub fn read_kept<I: Source>(
    alloc: Global,
    source: &mut I,
    most: usize,
) -> Result<Vec<u8>, ReadFault>
    ensures content { IfOk result (λ front. IfSome (I.left source.old) (λ bytes.
        front.items ≡ take most bytes)) }
    ensures size { IfOk result (λ front. vec_len front ≤ most) }
    ensures at_end { OnOk result (I.ended source.new ≡ true) }
    ensures lasting { I.faults source.old ≤ I.faults source.new }
    ensures cause { IsErrOf result ReadFault.Failed →
        Rose (I.faults source.old) (I.faults source.new) }
{
    let mut front = Vec::new(alloc);
    let mut buf = [0; PIECE];
    for _ in 0..u64::MAX {
        match source.take(&mut buf) {
            Took::Some(n) => keep(&mut front, &buf[..n], most)?,
            Took::End => return Ok(front),
            Took::Failed => return Err(ReadFault::Failed),
        }
    }
    Err(ReadFault::NoMemory)
}

/// Writes all the bytes, in as many pieces as the sink wants. After a fault the sink holds a front
/// of them.
pub fn write_all<O: Sink>(sink: &mut O, bytes: &[u8]) -> Result<(), WriteFault>
    ensures written { OnOk result (Appends (O.held sink.old) (O.held sink.new) bytes.now) }
    ensures front { OnErr result (AppendsFront (O.held sink.old) (O.held sink.new) bytes.now) }
    ensures cause { OnErr result (Rose (O.faults sink.old) (O.faults sink.new)) }
    ensures lasting { O.faults sink.old ≤ O.faults sink.new }
    ensures unfinished { O.finishes sink.new ≡ O.finishes sink.old }
{
    let mut at = 0;
    while at < bytes.len() {
        match sink.put(&bytes[at..]) {
            Put::Some(n) => at += n,
            Put::Failed => return Err(WriteFault),
        }
    }
    Ok(())
}

/// Says all the bytes to the dialled peer, in as many pieces as the link wants. After a fault a
/// front of them is said.
pub fn say_all<H: Host>(host: &mut H, bytes: &[u8]) -> Result<(), WriteFault>
    requires { IsDialled (H.link host.old) }
    ensures written { OnOk result
        (Appends (H.link host.old).said.held (H.link host.new).said.held bytes.now) }
    ensures front { OnErr result
        (AppendsFront (H.link host.old).said.held (H.link host.new).said.held bytes.now) }
    ensures cause { OnErr result
        (Rose (H.link host.old).said.faults (H.link host.new).said.faults) }
    ensures lasting { (H.link host.old).said.faults ≤ (H.link host.new).said.faults }
    ensures rest { OnlySaying (H.link host.old) (H.link host.new) }
    // What is told of files, ports and links that come stays.
    ensures same_files { H.files host.new ≡ H.files host.old }
    ensures place { H.address host.new ≡ H.address host.old }
    ensures same_closed { H.closed host.new ≡ H.closed host.old }
    ensures links { H.gave host.new ≡ H.gave host.old }
    ensures ends { H.stops host.new ≡ H.stops host.old }
    ensures file_lasting { H.file_faults host.old ≤ H.file_faults host.new }
    ensures port_lasting { H.port_faults host.old ≤ H.port_faults host.new }
    ensures accept_lasting { H.faults host.old ≤ H.faults host.new }
{
    let mut at = 0;
    while at < bytes.len() {
        match host.say(&bytes[at..]) {
            Put::Some(n) => at += n,
            Put::Failed => return Err(WriteFault),
        }
    }
    Ok(())
}
