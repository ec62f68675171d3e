//! The real host: files by name, and links over TCP, those that come and the one that it dials.
ghost use Rattle.std.specs.Prelude.{◌≡◌, ◌≤◌, true, false, None, take, IfOk, IfSome, IsErrOf};
ghost use Rattle.std.specs.Prelude.{vec_len};
ghost use Rattle.std.specs.Option.{option_map};
ghost use Rattle.std.specs.String.{string_bytes};
ghost use Rattle.out_ports.specs.Limits.{most_read};
ghost use Rattle.out_ports.specs.Ports.{raised, Rose};
ghost use Rattle.out_ports.specs.Dialled.{no_link};
ghost use Rattle.out_ports.specs.declared.ports.HostFault.TheVariants as fault;

use crate::accepting::{Cause, cause_of, listen_at, next_link};
use crate::dialling::Dialled;
use crate::links::{TcpSink, TcpSource};
use crate::streams::ReadSource;
use crate::waits::Waits;
use out_ports::ports::{Accepted, FILE_READ, Host, HostFault, Listen, Put, Source, Took};
use out_ports::streams::{ReadFault, read_front};
use std::alloc::Global;
use std::net::{Net, TcpListener, TcpStream};
use std::rt::Files;
use std::time::Clock;
use std::{fs, thread};

/// The files and the network of the machine.
#[derive(Drop)]
pub struct RealHost<'a, Rt> {
    rt: &'a Rt,
    pub(crate) waits: Waits,
    address: Option<String>,
    listener: Option<TcpListener>,
    closed: bool,
    gave: u64,
    stops: u64,
    faults: u64,
    file_faults: u64,
    port_faults: u64,
    dialled: Dialled,
}

impl<'a, Rt> RealHost<'a, Rt> {
    /// A host without a port.
    pub fn new(rt: &'a Rt) -> RealHost<'a, Rt>
        ensures port { result.address ≡ None }
        ensures closed { result.closed ≡ false }
        ensures gave { result.gave ≡ 0 }
        ensures stops { result.stops ≡ 0 }
        ensures faults { result.faults ≡ 0 }
        ensures file_faults { result.file_faults ≡ 0 }
        ensures port_faults { result.port_faults ≡ 0 }
        ensures link { result.dialled ≡ no_link }
    {
        RealHost {
            rt,
            waits: Waits::new(),
            address: None,
            listener: None,
            closed: false,
            gave: 0,
            stops: 0,
            faults: 0,
            file_faults: 0,
            port_faults: 0,
            dialled: Dialled::new(),
        }
    }

    /// The number of its port, where it has one: another than it was asked for, where that was 0.
    pub fn port_number(&self) -> Option<u16>
        ensures { self.now.address ≡ None → result ≡ None }
    {
        let address = self.open_listener()?.local_addr().ok()?;
        Some(address.port())
    }

    /// The listener, where there is a port that isn't closed.
    fn open_listener(&self) -> Option<&TcpListener>
        ensures no_port { self.now.address ≡ None → result ≡ None }
        ensures closed { self.now.closed ≡ true → result ≡ None }
    {
        if self.closed || self.address.is_none() {
            return None;
        }
        self.listener.as_ref()
    }
}

impl<'a, Rt: Clock> Listen for RealHost<'a, Rt> {
    type R = TcpSource<'a, Rt>;

    type W = TcpSink<'a, Rt>;

    ghost gave = { λ h. h.gave };

    ghost stops = { λ h. h.stops };

    ghost faults = { λ h. h.faults };

    ghost address = { λ h. option_map string_bytes h.address };

    ghost closed = { λ h. h.closed };

    ghost files = { λ _. None };

    ghost file_faults = { λ h. h.file_faults };

    ghost port_faults = { λ h. h.port_faults };

    ghost link = { λ h. h.dialled };

    fn faults(&self) -> u64 {
        self.faults
    }

    /// Nobody came too where a link that came has gone, and where the system has no descriptor or
    /// no memory left for one: it pauses then, and the link waits on.
    fn accept(&mut self, _alloc: Global) -> Accepted<TcpSource<'a, Rt>, TcpSink<'a, Rt>> {
        let Some(listener) = self.open_listener() else {
            self.stops = self.stops.saturating_add(1);
            return Accepted::Stopped;
        };
        let error = match next_link(self.rt, listener, self.waits) {
            Ok((reads, writes)) => {
                self.gave = self.gave.saturating_add(1);
                return Accepted::Link(reads, writes);
            }
            Err(error) => error,
        };
        match cause_of(&error) {
            Cause::Nobody => Accepted::Nobody,
            Cause::NoRoom => {
                thread::sleep(self.rt, self.waits.pause);
                Accepted::Nobody
            }
            Cause::Failure => {
                self.faults = self.faults.saturating_add(1);
                Accepted::Failed
            }
        }
    }

    fn close(&mut self) {
        self.closed = true;
        self.listener = None;
    }
}

impl<'a, Rt> Host for RealHost<'a, Rt>
where
    Rt: Clock + Files + Net<Listener = TcpListener, Stream = TcpStream>,
{
    fn file_faults(&self) -> u64 {
        self.file_faults
    }

    fn port_faults(&self) -> u64 {
        self.port_faults
    }

    fn dial_faults(&self) -> u64 {
        self.dialled.dial_faults()
    }

    fn hear_faults(&self) -> u64 {
        self.dialled.hear_faults()
    }

    fn say_faults(&self) -> u64 {
        self.dialled.say_faults()
    }

    fn file(&mut self, alloc: Global, name: &str) -> Result<Vec<u8>, HostFault> {
        let Ok(file) = fs::open(self.rt, name) else {
            self.file_faults = self.file_faults.saturating_add(1);
            return Err(HostFault::Failed);
        };
        let read = front_of(alloc, &mut ReadSource::new(file));
        if let Err(HostFault::Failed) = &read {
            self.file_faults = self.file_faults.saturating_add(1);
        }
        read
    }

    /// Listens at the address, of whichever family, and no longer where it listened before.
    fn port(&mut self, alloc: Global, addr: &str) -> Result<(), HostFault> {
        let address = String::from_str(alloc, addr)?;
        match listen_at(self.rt, addr, self.waits.accept) {
            Ok(listener) => {
                self.address = Some(address);
                self.listener = Some(listener);
                self.closed = false;
                Ok(())
            }
            Err(_) => {
                self.port_faults = self.port_faults.saturating_add(1);
                Err(HostFault::Failed)
            }
        }
    }

    /// A name or numbers and a port, of whichever family: each address that it is looked up to is
    /// tried in turn. A link that was dialled before is closed.
    fn dial(&mut self, alloc: Global, addr: &str) -> Result<(), HostFault> {
        self.dialled.dial(self.rt, alloc, addr)
    }

    /// It waits for the peer without an end.
    fn hear(&mut self, buf: &mut [u8]) -> Took {
        self.dialled.hear(buf)
    }

    /// It waits for the peer without an end.
    fn say(&mut self, piece: &[u8]) -> Put {
        self.dialled.say(piece)
    }
}

/// The first bytes of a file, as many as are read of one, or all where it has fewer.
fn front_of<I: Source>(alloc: Global, file: &mut I) -> Result<Vec<u8>, HostFault>
    ensures content { IfOk result (λ front. IfSome (I.left file.old) (λ bytes.
        front.items ≡ take most_read bytes)) }
    ensures size { IfOk result (λ front. vec_len front ≤ most_read) }
    ensures cause { IsErrOf result fault.Failed → Rose (I.faults file.old) (I.faults file.new) }
{
    match read_front(alloc, file, FILE_READ) {
        Ok(front) => Ok(front),
        Err(ReadFault::Failed) => Err(HostFault::Failed),
        Err(ReadFault::NoMemory) => Err(HostFault::NoMemory),
    }
}
