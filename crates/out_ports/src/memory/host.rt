//! A host in memory.
ghost use Rattle.std.specs.Prelude.{◌≡◌, ◌<◌, ◌≤◌, ◌↔◌, true, Some, length, vec_len};
ghost use Rattle.std.specs.Prelude.{IfOk, IsTrue, IsErrOf, is_ok};
ghost use Rattle.std.specs.Option.{option_copied};
ghost use Rattle.out_ports.specs.Limits.{most_read};
ghost use Rattle.out_ports.specs.Ports.{contents_of, file_front, IsFile};
ghost use Rattle.out_ports.specs.Ports.{FitsBuffer, IsTaken, FitsPiece, IsPut};
ghost use Rattle.out_ports.specs.Dialled.{IsDialled};
ghost use Rattle.out_ports.specs.Calls.{is_next_listed};
ghost use Rattle.out_ports.specs.MemHost.{told_files, host_of, host_answer, after_host_accept};
ghost use Rattle.out_ports.specs.MemHost.{file_fails, after_file, after_port};
ghost use Rattle.out_ports.specs.MemHost.{with_peer, link_of, after_dial};
ghost use Rattle.out_ports.specs.MemSource.{take_answer, after_take, buffer_after};
ghost use Rattle.out_ports.specs.MemSink.{put_answer, after_put};

use super::calls::Calls;
use super::links::MemListen;
use super::sink::MemSink;
use super::source::MemSource;
use crate::ports::{Accepted, FILE_READ, Host, HostFault, Listen, Put, Sink, Source, Took};
use std::alloc::Global;
use std::marker::Model;

/// A named file in memory.
#[derive(Drop)]
pub struct MemFile {
    pub name: String,
    pub bytes: Vec<u8>,
}

/// A host with these files, a listener that gives links once a port is open, and one peer that is
/// dialled, at whatever address.
#[derive(Drop)]
pub struct MemHost {
    files: Vec<MemFile>,
    listen: MemListen,
    address: Option<String>,
    file_calls: Calls,
    port_calls: Calls,
    dialled: Option<String>,
    dial_calls: Calls,
    hears: MemSource,
    says: MemSink,
}

impl Model for MemHost {
    ghost use Rattle.std.specs.Option.{option_map};
    ghost use Rattle.std.specs.String.{string_bytes};
    ghost use Rattle.out_ports.specs.MemHost.{ToldHost, told_files};

    ghost Value = { ToldHost };

    ghost view = { λ h. record {
      files = told_files h.files.items;
      listen = h.listen;
      address = option_map string_bytes h.address;
      file_calls = h.file_calls;
      port_calls = h.port_calls;
      dialled = option_map string_bytes h.dialled;
      dial_calls = h.dial_calls;
      hears = h.hears;
      says = h.says;
    } };
}

impl MemHost {
    /// A host without a port, whose dials are answered by a peer that says and takes nothing. It
    /// fails at these calls of `file` and of `port`, and in `file` at a name that it doesn't hold.
    pub fn new(
        files: Vec<MemFile>,
        listen: MemListen,
        failing_files: Vec<u64>,
        failing_ports: Vec<u64>,
    ) -> Self
        ensures { result ≡ host_of (told_files files.items) listen
            failing_files.items failing_ports.items }
    {
        let alloc = *failing_files.allocator();
        MemHost {
            files,
            listen,
            address: None,
            file_calls: Calls::new(failing_files),
            port_calls: Calls::new(failing_ports),
            dialled: None,
            dial_calls: Calls::new(Vec::new(alloc)),
            hears: MemSource::new(Vec::new(alloc), 1, Vec::new(alloc)),
            says: MemSink::new(Vec::new(alloc), Vec::new(alloc)),
        }
    }

    /// The host that hears and says so where it has dialled, and fails at these dials, counted from
    /// now.
    pub fn with_peer(self, hears: MemSource, says: MemSink, failing_dials: Vec<u64>) -> Self
        ensures { result ≡ with_peer hears says failing_dials.items self }
    {
        MemHost {
            dial_calls: Calls::new(failing_dials),
            hears,
            says,
            ..self
        }
    }

    /// What the dialled peer says, to look at what is left of it.
    pub fn hears(&self) -> &MemSource
        ensures { result.now ≡ self.now.hears }
    {
        &self.hears
    }

    /// What was said to the dialled peer.
    pub fn says(&self) -> &MemSink
        ensures { result.now ≡ self.now.says }
    {
        &self.says
    }

    /// The address of the last dial that was answered.
    pub fn dialled(&self) -> Option<&str>
        ensures { option_copied result ≡ self.now.dialled }
    {
        Some(self.dialled.as_ref()?.as_str())
    }

    /// The listener, to look at its counts.
    pub fn listener(&self) -> &MemListen
        ensures { result.now ≡ self.now.listen }
    {
        &self.listen
    }
}

impl Listen for MemHost {
    type R = MemSource;

    type W = MemSink;

    ghost gave = { λ h. h.listen.gave };

    ghost stops = { λ h. h.listen.stops };

    ghost faults = { λ h. h.listen.calls.faults };

    ghost address = { λ h. h.address };

    ghost closed = { λ h. h.listen.closed };

    ghost files = { λ h. Some h.files };

    ghost file_faults = { λ h. h.file_calls.faults };

    ghost port_faults = { λ h. h.port_calls.faults };

    ghost link = { link_of };

    fn faults(&self) -> u64 {
        self.listen.faults()
    }

    /// An accept before there is a port isn't one of its listener's calls.
    fn accept(&mut self, alloc: Global) -> Accepted<MemSource, MemSink>
        // The answer and the host after it are these and no others.
        ensures exact { result ≡ host_answer self.old.address self.old.listen }
        ensures after { self.new ≡ after_host_accept result self.old }
        ensures lasting { self.old.listen.calls.faults ≤ self.new.listen.calls.faults }
    {
        if self.address.is_none() {
            self.listen.stop();
            return Accepted::Stopped;
        }
        self.listen.accept(alloc)
    }

    fn close(&mut self)
        ensures { self.new ≡ record self.old { listen = record self.old.listen { closed = true } } }
    {
        self.listen.close();
    }
}

/// The contents of the first file of a name.
fn find_file<'a>(files: &'a [MemFile], name: &str) -> Option<&'a [u8]>
    ensures { option_copied result ≡ contents_of name.now (told_files files.now) }
{
    for file in files {
        if file.name.as_str() == name {
            return Some(file.bytes.as_slice());
        }
    }
    None
}

/// The bytes of a file that are given.
fn front(bytes: &[u8]) -> &[u8]
    ensures front { result.now ≡ file_front bytes.now }
    ensures size { length result.now ≤ most_read }
{
    &bytes[..bytes.len().min(FILE_READ)]
}

impl Host for MemHost {
    fn file_faults(&self) -> u64 {
        self.file_calls.faults()
    }

    fn port_faults(&self) -> u64 {
        self.port_calls.faults()
    }

    fn dial_faults(&self) -> u64 {
        self.dial_calls.faults()
    }

    fn hear_faults(&self) -> u64 {
        self.hears.faults()
    }

    fn say_faults(&self) -> u64 {
        self.says.faults()
    }

    fn file(&mut self, alloc: Global, name: &str) -> Result<Vec<u8>, HostFault>
        // It fails where the definition says so and nowhere else, and keeps all but its count.
        ensures fails { IsErrOf result HostFault.Failed ↔ IsTrue (file_fails self.old name.now) }
        ensures content { IfOk result (λ bytes. IsFile (Some self.old.files) name.now bytes.items) }
        ensures after { self.new ≡ after_file self.old name.now }
        ensures size { IfOk result (λ bytes. vec_len bytes ≤ most_read) }
        ensures lasting { self.old.file_calls.faults ≤ self.new.file_calls.faults }
    {
        if self.file_calls.fails() {
            return Err(HostFault::Failed);
        }
        let Some(bytes) = find_file(&self.files, name) else {
            self.file_calls.fail();
            return Err(HostFault::Failed);
        };
        Ok(Vec::from_slice(alloc, front(bytes))?)
    }

    fn port(&mut self, alloc: Global, addr: &str) -> Result<(), HostFault>
        // It fails where the call is to fail and nowhere else.
        ensures fails { IsErrOf result HostFault.Failed ↔
            IsTrue (is_next_listed self.old.port_calls) }
        ensures after { self.new ≡ after_port self.old addr.now (is_ok result) }
        ensures lasting { self.old.port_calls.faults ≤ self.new.port_calls.faults }
    {
        if self.port_calls.fails() {
            return Err(HostFault::Failed);
        }
        self.address = Some(String::from_str(alloc, addr)?);
        self.listen.open();
        Ok(())
    }

    fn dial(&mut self, alloc: Global, addr: &str) -> Result<(), HostFault>
        // It fails where the call is to fail and nowhere else.
        ensures fails { IsErrOf result HostFault.Failed ↔
            IsTrue (is_next_listed self.old.dial_calls) }
        ensures after { self.new ≡ after_dial self.old addr.now (is_ok result) }
        ensures lasting { self.old.dial_calls.faults ≤ self.new.dial_calls.faults }
    {
        if self.dial_calls.fails() {
            return Err(HostFault::Failed);
        }
        self.dialled = Some(String::from_str(alloc, addr)?);
        Ok(())
    }

    fn hear(&mut self, buf: &mut [u8]) -> Took
        requires room { 0 < length buf.old }
        requires dialled { IsDialled (link_of self.old) }
        // The answer, the buffer and the host after it are these and no others.
        ensures exact { result ≡ take_answer self.old.hears (length buf.old) }
        ensures buffer { buf.new ≡ buffer_after result self.old.hears.left buf.old }
        ensures after { self.new ≡ record self.old { hears = after_take result self.old.hears } }
        ensures size { FitsBuffer result (length buf.old) }
        ensures content { IsTaken result buf.new (Some self.old.hears.left)
            (Some self.new.hears.left) }
        ensures lasting { self.old.hears.calls.faults ≤ self.new.hears.calls.faults }
    {
        self.hears.take(buf)
    }

    fn say(&mut self, piece: &[u8]) -> Put
        requires some { 0 < length piece.now }
        requires dialled { IsDialled (link_of self.old) }
        // The answer and the host after it are these and no others.
        ensures exact { result ≡ put_answer self.old.says (length piece.now) }
        ensures after { self.new
            ≡ record self.old { says = after_put result piece.now self.old.says } }
        ensures size { FitsPiece result (length piece.now) }
        ensures content { IsPut result piece.now (Some self.old.says.held)
            (Some self.new.says.held) }
        ensures lasting { self.old.says.calls.faults ≤ self.new.says.calls.faults }
    {
        self.says.put(piece)
    }
}
