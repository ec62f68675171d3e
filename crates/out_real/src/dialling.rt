//! The link that a host dials.
ghost use Rattle.std.specs.Prelude.{◌≡◌, ◌≤◌, length, IsErrOf};
ghost use Rattle.out_ports.specs.Ports.{Rose, FitsBuffer, IsTaken, given_after, ended_after};
ghost use Rattle.out_ports.specs.Ports.{FitsPiece, IsPut};
ghost use Rattle.out_ports.specs.Dialled.{no_link, address_after};
ghost use Rattle.out_ports.specs.Dialled.{OnlyDialling, OnlyHearing, OnlySaying};
ghost use Rattle.out_ports.specs.declared.ports.HostFault.TheVariants as fault;

use crate::streams::{read_some, write_some};
use out_ports::ports::{HostFault, Put, Took};
use std::alloc::Global;
use std::io::{self, ErrorKind};
use std::marker::Model;
use std::net::{Net, TcpStream, ToSocketAddrs};

/// A link over TCP to the address that was dialled last, and how often a call on it failed.
///
/// Contracts see what is told of it. It waits for its peer without an end, both to hear and to say.
#[derive(Drop)]
pub(crate) struct Dialled {
    stream: Option<TcpStream>,
    address: Option<String>,
    dial_faults: u64,
    given: u64,
    ended: bool,
    hear_faults: u64,
    say_faults: u64,
}

impl Model for Dialled {
    ghost use Rattle.std.specs.Prelude.{None};
    ghost use Rattle.std.specs.Option.{option_map};
    ghost use Rattle.std.specs.String.{string_bytes};
    ghost use Rattle.out_ports.specs.Dialled.{ToldLink};

    ghost Value = { ToldLink };

    ghost view = { λ d. record {
      address = option_map string_bytes d.address;
      dial_faults = d.dial_faults;
      heard = record { left = None; given = d.given; ended = d.ended; faults = d.hear_faults };
      said = record { held = None; faults = d.say_faults };
    } };
}

impl Dialled {
    /// Nobody is dialled.
    pub(crate) fn new() -> Dialled
        ensures { result ≡ no_link }
    {
        Dialled {
            stream: None,
            address: None,
            dial_faults: 0,
            given: 0,
            ended: false,
            hear_faults: 0,
            say_faults: 0,
        }
    }

    pub(crate) fn dial_faults(&self) -> u64
        ensures { result ≡ self.now.dial_faults }
    {
        self.dial_faults
    }

    pub(crate) fn hear_faults(&self) -> u64
        ensures { result ≡ self.now.heard.faults }
    {
        self.hear_faults
    }

    pub(crate) fn say_faults(&self) -> u64
        ensures { result ≡ self.now.said.faults }
    {
        self.say_faults
    }

    /// Dials an address. A link that was there before is closed.
    pub(crate) fn dial<N: Net<Stream = TcpStream>>(
        &mut self,
        net: &N,
        alloc: Global,
        addr: &str,
    ) -> Result<(), HostFault>
        ensures dialled { self.new.address ≡ address_after result addr.now self.old.address }
        ensures rest { OnlyDialling self.old self.new }
        ensures lasting { self.old.dial_faults ≤ self.new.dial_faults }
        ensures cause { IsErrOf result fault.Failed →
            Rose self.old.dial_faults self.new.dial_faults }
    {
        let address = String::from_str(alloc, addr)?;
        match link_to(net, addr) {
            Ok(stream) => {
                self.address = Some(address);
                self.stream = Some(stream);
                Ok(())
            }
            Err(_) => {
                self.dial_faults = self.dial_faults.saturating_add(1);
                Err(HostFault::Failed)
            }
        }
    }

    /// Reads from the link, which is a fault where there is none.
    pub(crate) fn hear(&mut self, buf: &mut [u8]) -> Took
        ensures size { FitsBuffer result (length buf.old) }
        ensures content { IsTaken result buf.new self.old.heard.left self.new.heard.left }
        ensures counted { self.new.heard.given ≡ given_after result self.old.heard.given }
        ensures at_end { self.new.heard.ended ≡ ended_after result self.old.heard.ended }
        ensures lasting { self.old.heard.faults ≤ self.new.heard.faults }
        ensures cause { result ≡ Took.Failed → Rose self.old.heard.faults self.new.heard.faults }
        ensures rest { OnlyHearing self.old self.new }
    {
        let read = match &mut self.stream {
            Some(stream) => read_some(stream, buf),
            None => None,
        };
        match read {
            Some(0) => {
                self.ended = true;
                Took::End
            }
            Some(n) => {
                self.given = self.given.saturating_add(n as u64);
                Took::Some(n)
            }
            None => {
                self.hear_faults = self.hear_faults.saturating_add(1);
                Took::Failed
            }
        }
    }

    /// Writes to the link, which is a fault where there is none.
    pub(crate) fn say(&mut self, piece: &[u8]) -> Put
        ensures size { FitsPiece result (length piece.now) }
        ensures content { IsPut result piece.now self.old.said.held self.new.said.held }
        ensures lasting { self.old.said.faults ≤ self.new.said.faults }
        ensures cause { result ≡ Put.Failed → Rose self.old.said.faults self.new.said.faults }
        ensures rest { OnlySaying self.old self.new }
    {
        let written = match &mut self.stream {
            Some(stream) => write_some(stream, piece),
            None => None,
        };
        match written {
            Some(n) => Put::Some(n),
            None => {
                self.say_faults = self.say_faults.saturating_add(1);
                Put::Failed
            }
        }
    }
}

/// A link to an address, the first of those that the text is looked up to at which one is had. Each
/// piece is sent at once.
fn link_to<N: Net<Stream = TcpStream>>(net: &N, text: &str) -> io::Result<TcpStream> {
    let mut last = io::Error::from(ErrorKind::InvalidInput);
    for address in text.to_socket_addrs(net)? {
        match net.connect(address) {
            Ok(stream) => {
                stream.set_nodelay(true)?;
                return Ok(stream);
            }
            Err(error) => last = error,
        }
    }
    Err(last)
}
