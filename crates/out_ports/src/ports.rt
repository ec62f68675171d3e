//! The outside world as the program sees it: sources, sinks, listeners, hosts and spawners.
//!
//! Each of them counts its own faults, in a count that never falls and stops at the greatest u64.
//! A call that answers `Failed` has raised that count, and code that is generic over a trait can't
//! raise it. What a source has left, what a sink holds, what files a host has and which jobs a
//! spawner took is told by some and not by others.
ghost use Rattle.std.specs.Prelude.{◌≡◌, ℕ, ◌<◌, ◌≤◌, Bool, true, false, ⊤, List, length, Option};
ghost use Rattle.std.specs.Prelude.{vec_len, IfOk, IsErrOf, OnOk, OnErr};
ghost use Rattle.out_ports.specs.Limits.{most_read};
ghost use Rattle.out_ports.specs.declared.ports.HostFault.TheVariants.{NoMemory};
ghost use Rattle.out_ports.specs.Ports.{raised, Rose, FitsBuffer, IsTaken, given_after};
ghost use Rattle.out_ports.specs.Ports.{ended_after, FitsPiece, IsPut, FitsOffer, IsOffered};
ghost use Rattle.out_ports.specs.Ports.{gave_after, stops_after};
ghost use Rattle.out_ports.specs.Ports.{IsFile, took_after, IsStarted};
ghost use Rattle.out_ports.specs.Dialled.{ToldLink, IsDialled, address_after};
ghost use Rattle.out_ports.specs.Dialled.{OnlyDialling, OnlyHearing, OnlySaying};

use std::alloc::{AllocError, Global};
use std::sync::Wait;
use thiserror::Error;

/// The most bytes of a file that a host gives: one more than a file may have, so that a longer one
/// shows.
pub const FILE_READ: usize = 1_048_577;

/// The answer of a [`Source`] to a take.
#[derive(Clone, Copy, Debug, PartialEq, Eq)]
pub enum Took {
    /// The first so many bytes of the buffer are written.
    Some(usize),
    /// Nothing is left.
    End,
    Failed,
}

/// Something that gives bytes, as standard input or the reading half of a link.
pub trait Source {
    /// What is left to be taken, where the source tells it.
    ghost left: { Self → Option (List ℕ) };

    /// How many bytes it has given, at most the greatest u64.
    ghost given: { Self → ℕ };

    /// Whether a take has answered the end.
    ghost ended: { Self → Bool };

    /// How often it has failed.
    ghost faults: { Self → ℕ };

    /// How often it has failed.
    fn faults(&self) -> u64
        ensures { result ≡ faults self.now };

    /// Writes the next bytes to the front of the buffer, as many as the source likes to give at
    /// once.
    fn take(&mut self, buf: &mut [u8]) -> Took
        requires { 0 < length buf.old }
        ensures size { FitsBuffer result (length buf.old) }
        ensures content { IsTaken result buf.new (left self.old) (left self.new) }
        ensures counted { given self.new ≡ given_after result (given self.old) }
        ensures at_end { ended self.new ≡ ended_after result (ended self.old) }
        ensures lasting { faults self.old ≤ faults self.new }
        ensures cause { result ≡ Took.Failed → Rose (faults self.old) (faults self.new) };
}

/// The reading half of a link, whose peer may say nothing for a while.
pub trait Incoming: Source {
    /// The peer has sent a whole packet: what comes then may take any time. Before it a take waits
    /// for a bounded time in all, and then fails.
    fn settle(&mut self)
        ensures content { Self.left self.new ≡ Self.left self.old }
        ensures counted { Self.given self.new ≡ Self.given self.old }
        ensures at_end { Self.ended self.new ≡ Self.ended self.old }
        ensures count { Self.faults self.new ≡ Self.faults self.old };
}

/// The answer of a [`Sink`] to a put.
#[derive(Clone, Copy, Debug, PartialEq, Eq)]
pub enum Put {
    /// The first so many bytes of the piece are taken.
    Some(usize),
    Failed,
}

/// Something that takes bytes, as standard output or the writing half of a link.
pub trait Sink {
    /// What it holds, where it tells that.
    ghost held: { Self → Option (List ℕ) };

    /// How often it was finished, at most the greatest u64.
    ghost finishes: { Self → ℕ };

    /// How often it has failed.
    ghost faults: { Self → ℕ };

    /// How often it has failed.
    fn faults(&self) -> u64
        ensures { result ≡ faults self.now };

    /// Appends the front of the piece, as much as the sink likes to take at once.
    fn put(&mut self, piece: &[u8]) -> Put
        requires { 0 < length piece.now }
        ensures size { FitsPiece result (length piece.now) }
        ensures content { IsPut result piece.now (held self.old) (held self.new) }
        ensures unfinished { finishes self.new ≡ finishes self.old }
        ensures lasting { faults self.old ≤ faults self.new }
        ensures cause { result ≡ Put.Failed → Rose (faults self.old) (faults self.new) };

    /// Says that no more comes. A link is shut down both ways by it.
    fn finish(&mut self)
        ensures finished { finishes self.new ≡ raised 1 (finishes self.old) }
        ensures content { held self.new ≡ held self.old }
        ensures count { faults self.new ≡ faults self.old };
}

/// The answer of an [`Outgoing`] to an offer.
#[derive(Clone, Copy, Debug, PartialEq, Eq)]
pub enum Offered {
    /// The first so many bytes of the piece are taken.
    Some(usize),
    /// The peer took nothing for a while.
    Waits,
    Failed,
}

/// The writing half of a link, whose peer may take nothing for a while.
pub trait Outgoing: Sink {
    /// As `put`, but where the peer takes nothing for about a second it answers `Waits`, and
    /// nothing is appended.
    fn offer(&mut self, piece: &[u8]) -> Offered
        requires { 0 < length piece.now }
        ensures size { FitsOffer result (length piece.now) }
        ensures content { IsOffered result piece.now (Self.held self.old) (Self.held self.new) }
        ensures unfinished { Self.finishes self.new ≡ Self.finishes self.old }
        ensures lasting { Self.faults self.old ≤ Self.faults self.new }
        ensures cause { result ≡ Offered.Failed →
            Rose (Self.faults self.old) (Self.faults self.new) };

    /// From now on it waits for its peer for a bounded time in all, and then fails.
    fn hurry(&mut self)
        ensures content { Self.held self.new ≡ Self.held self.old }
        ensures unfinished { Self.finishes self.new ≡ Self.finishes self.old }
        ensures count { Self.faults self.new ≡ Self.faults self.old };
}

/// The answer of a [`Listen`] to an accept.
#[derive(Debug, Drop)]
pub enum Accepted<R, W> {
    /// A new link's reading and writing half.
    Link(R, W),
    /// No more links come.
    Stopped,
    /// None came for a while.
    Nobody,
    Failed,
    NoMemory,
}

/// Something that gives links.
pub trait Listen {
    type R: Incoming;

    type W: Outgoing;

    /// How many links it has given, at most the greatest u64.
    ghost gave: { Self → ℕ };

    /// How often it has answered that no more come, at most the greatest u64.
    ghost stops: { Self → ℕ };

    /// How often an accept has failed.
    ghost faults: { Self → ℕ };

    /// Where it accepts, none before it has a port.
    ghost address: { Self → Option (List ℕ) };

    /// Whether it was closed, and accepts no more.
    ghost closed: { Self → Bool };

    /// Of a host, the files, as names and contents, where it tells them. The first of a name
    /// counts. A listener that is no host tells none, and no count of their faults.
    ghost files: { Self → Option (List (List ℕ × List ℕ)) };

    /// Of a host, how often a file couldn't be read.
    ghost file_faults: { Self → ℕ };

    /// Of a host, how often a port couldn't be opened.
    ghost port_faults: { Self → ℕ };

    /// Of a host, what is told of the link that it dials. A listener that is no host dials nobody.
    ghost link: { Self → ToldLink };

    /// How often an accept has failed.
    fn faults(&self) -> u64
        ensures { result ≡ faults self.now };

    /// The next link.
    fn accept(&mut self, alloc: Global) -> Accepted<Self::R, Self::W>
        ensures links { gave self.new ≡ gave_after result (gave self.old) }
        ensures ends { stops self.new ≡ stops_after result (stops self.old) }
        ensures no_port { address self.old ≡ None → result ≡ Accepted.Stopped }
        ensures no_more { closed self.old ≡ true → result ≡ Accepted.Stopped }
        ensures place { address self.new ≡ address self.old }
        ensures same_closed { closed self.new ≡ closed self.old }
        // A host's files and its other counts stay.
        ensures same_files { files self.new ≡ files self.old }
        ensures same_file_faults { file_faults self.new ≡ file_faults self.old }
        ensures same_port_faults { port_faults self.new ≡ port_faults self.old }
        ensures same_link { link self.new ≡ link self.old }
        ensures lasting { faults self.old ≤ faults self.new }
        ensures cause { result ≡ Accepted.Failed → Rose (faults self.old) (faults self.new) };

    /// No more links are to come: accepts answer `Stopped` from now on, and whoever connects later
    /// is refused.
    fn close(&mut self)
        ensures closed { closed self.new ≡ true }
        ensures links { gave self.new ≡ gave self.old }
        ensures ends { stops self.new ≡ stops self.old }
        ensures count { faults self.new ≡ faults self.old }
        // Where it accepted stays told.
        ensures place { address self.new ≡ address self.old }
        ensures same_files { files self.new ≡ files self.old }
        ensures same_file_faults { file_faults self.new ≡ file_faults self.old }
        ensures same_port_faults { port_faults self.new ≡ port_faults self.old }
        ensures same_link { link self.new ≡ link self.old };
}

/// Why a host's call failed.
#[derive(Clone, Copy, Debug, PartialEq, Eq, Error)]
pub enum HostFault {
    #[error("the file, the port or the dialled link failed")]
    Failed,
    #[error("out of memory")]
    NoMemory,
}

impl From<AllocError> for HostFault {
    ghost from_gives = { λ _ fault. fault ≡ NoMemory };

    fn from(_: AllocError) -> Self {
        HostFault::NoMemory
    }
}

/// The files, the port and the dialled link that a program is given.
pub trait Host: Listen {
    /// How often a file couldn't be read.
    fn file_faults(&self) -> u64
        ensures { result ≡ Self.file_faults self.now };

    /// How often a port couldn't be opened.
    fn port_faults(&self) -> u64
        ensures { result ≡ Self.port_faults self.now };

    /// How often a dial failed.
    fn dial_faults(&self) -> u64
        ensures { result ≡ (Self.link self.now).dial_faults };

    /// How often hearing failed.
    fn hear_faults(&self) -> u64
        ensures { result ≡ (Self.link self.now).heard.faults };

    /// How often saying failed.
    fn say_faults(&self) -> u64
        ensures { result ≡ (Self.link self.now).said.faults };

    /// The first [`FILE_READ`] bytes of a file.
    fn file(&mut self, alloc: Global, name: &str) -> Result<Vec<u8>, HostFault>
        ensures size { IfOk result (λ bytes. vec_len bytes ≤ most_read) }
        ensures content { IfOk result (λ bytes. IsFile (Self.files self.old) name.now bytes.items) }
        ensures cause { IsErrOf result HostFault.Failed →
            Rose (Self.file_faults self.old) (Self.file_faults self.new) }
        ensures lasting { Self.file_faults self.old ≤ Self.file_faults self.new }
        ensures same_files { Self.files self.new ≡ Self.files self.old }
        // What is told of ports and links stays.
        ensures place { Self.address self.new ≡ Self.address self.old }
        ensures same_closed { Self.closed self.new ≡ Self.closed self.old }
        ensures links { Self.gave self.new ≡ Self.gave self.old }
        ensures ends { Self.stops self.new ≡ Self.stops self.old }
        ensures same_link { Self.link self.new ≡ Self.link self.old }
        ensures port_lasting { Self.port_faults self.old ≤ Self.port_faults self.new }
        ensures accept_lasting { Self.faults self.old ≤ Self.faults self.new };

    /// Opens a port, from which links are accepted from then on.
    fn port(&mut self, alloc: Global, addr: &str) -> Result<(), HostFault>
        ensures open { OnOk result (Self.address self.new ≡ Some addr.now) }
        ensures accepts { OnOk result (Self.closed self.new ≡ false) }
        ensures stays { OnErr result (Self.address self.new ≡ Self.address self.old) }
        ensures same_closed { OnErr result (Self.closed self.new ≡ Self.closed self.old) }
        ensures cause { IsErrOf result HostFault.Failed →
            Rose (Self.port_faults self.old) (Self.port_faults self.new) }
        ensures lasting { Self.port_faults self.old ≤ Self.port_faults self.new }
        // What is told of files and links stays.
        ensures same_files { Self.files self.new ≡ Self.files self.old }
        ensures links { Self.gave self.new ≡ Self.gave self.old }
        ensures ends { Self.stops self.new ≡ Self.stops self.old }
        ensures same_link { Self.link self.new ≡ Self.link self.old }
        ensures file_lasting { Self.file_faults self.old ≤ Self.file_faults self.new }
        ensures accept_lasting { Self.faults self.old ≤ Self.faults self.new };

    /// Dials an address. From then on what is heard and said goes over the link to it, and no
    /// longer over one that was dialled before; what is told of hearing and saying goes on.
    fn dial(&mut self, alloc: Global, addr: &str) -> Result<(), HostFault>
        ensures dialled { (Self.link self.new).address
            ≡ address_after result addr.now (Self.link self.old).address }
        ensures rest { OnlyDialling (Self.link self.old) (Self.link self.new) }
        ensures lasting { (Self.link self.old).dial_faults ≤ (Self.link self.new).dial_faults }
        ensures cause { IsErrOf result HostFault.Failed →
            Rose (Self.link self.old).dial_faults (Self.link self.new).dial_faults }
        // What is told of files, ports and links that come stays.
        ensures same_files { Self.files self.new ≡ Self.files self.old }
        ensures place { Self.address self.new ≡ Self.address self.old }
        ensures same_closed { Self.closed self.new ≡ Self.closed self.old }
        ensures links { Self.gave self.new ≡ Self.gave self.old }
        ensures ends { Self.stops self.new ≡ Self.stops self.old }
        ensures file_lasting { Self.file_faults self.old ≤ Self.file_faults self.new }
        ensures port_lasting { Self.port_faults self.old ≤ Self.port_faults self.new }
        ensures accept_lasting { Self.faults self.old ≤ Self.faults self.new };

    /// Writes the next bytes that the dialled peer sent to the front of the buffer, as
    /// [`Source::take`] does.
    fn hear(&mut self, buf: &mut [u8]) -> Took
        requires room { 0 < length buf.old }
        requires dialled { IsDialled (Self.link self.old) }
        ensures size { FitsBuffer result (length buf.old) }
        ensures content { IsTaken result buf.new (Self.link self.old).heard.left
            (Self.link self.new).heard.left }
        ensures counted { (Self.link self.new).heard.given
            ≡ given_after result (Self.link self.old).heard.given }
        ensures at_end { (Self.link self.new).heard.ended
            ≡ ended_after result (Self.link self.old).heard.ended }
        ensures lasting { (Self.link self.old).heard.faults ≤ (Self.link self.new).heard.faults }
        ensures cause { result ≡ Took.Failed →
            Rose (Self.link self.old).heard.faults (Self.link self.new).heard.faults }
        ensures rest { OnlyHearing (Self.link self.old) (Self.link self.new) }
        // What is told of files, ports and links that come stays.
        ensures same_files { Self.files self.new ≡ Self.files self.old }
        ensures place { Self.address self.new ≡ Self.address self.old }
        ensures same_closed { Self.closed self.new ≡ Self.closed self.old }
        ensures links { Self.gave self.new ≡ Self.gave self.old }
        ensures ends { Self.stops self.new ≡ Self.stops self.old }
        ensures file_lasting { Self.file_faults self.old ≤ Self.file_faults self.new }
        ensures port_lasting { Self.port_faults self.old ≤ Self.port_faults self.new }
        ensures accept_lasting { Self.faults self.old ≤ Self.faults self.new };

    /// Sends the front of the piece to the dialled peer, as [`Sink::put`] does.
    fn say(&mut self, piece: &[u8]) -> Put
        requires some { 0 < length piece.now }
        requires dialled { IsDialled (Self.link self.old) }
        ensures size { FitsPiece result (length piece.now) }
        ensures content { IsPut result piece.now (Self.link self.old).said.held
            (Self.link self.new).said.held }
        ensures lasting { (Self.link self.old).said.faults ≤ (Self.link self.new).said.faults }
        ensures cause { result ≡ Put.Failed →
            Rose (Self.link self.old).said.faults (Self.link self.new).said.faults }
        ensures rest { OnlySaying (Self.link self.old) (Self.link self.new) }
        // What is told of files, ports and links that come stays.
        ensures same_files { Self.files self.new ≡ Self.files self.old }
        ensures place { Self.address self.new ≡ Self.address self.old }
        ensures same_closed { Self.closed self.new ≡ Self.closed self.old }
        ensures links { Self.gave self.new ≡ Self.gave self.old }
        ensures ends { Self.stops self.new ≡ Self.stops self.old }
        ensures file_lasting { Self.file_faults self.old ≤ Self.file_faults self.new }
        ensures port_lasting { Self.port_faults self.old ≤ Self.port_faults self.new }
        ensures accept_lasting { Self.faults self.old ≤ Self.faults self.new };
}

/// A job of the real spawner.
pub trait Run {
    /// Does the job. It may wait.
    fn run<Rt: Wait>(self, rt: &Rt);
}

/// Something that starts jobs, each of which then runs beside the caller.
pub trait Spawner<J> {
    /// Which jobs it can be asked to start: all of them, but for one that calls a closure.
    ghost can_start: { Self → J → Type 0 } = { λ _ _. ⊤ };

    /// The jobs that it took, in order, where it tells them.
    ghost jobs: { Self → Option (List J) };

    /// How many jobs it took, at most the greatest u64.
    ghost took: { Self → ℕ };

    /// How often it has failed.
    ghost faults: { Self → ℕ };

    /// How often it has failed.
    fn faults(&self) -> u64
        ensures { result ≡ faults self.now };

    /// Takes the job and answers true, or drops it and answers false.
    fn start(&mut self, job: J) -> bool
        requires { can_start self.old job }
        ensures keeps { (other : J) → can_start self.old other → can_start self.new other }
        ensures content { IsStarted result job (jobs self.old) (jobs self.new) }
        ensures counted { took self.new ≡ took_after result (took self.old) }
        ensures lasting { faults self.old ≤ faults self.new }
        ensures cause { result ≡ false → Rose (faults self.old) (faults self.new) };
}
