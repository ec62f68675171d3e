//! Links in memory, and a listener that gives them.
ghost use Rattle.std.specs.Prelude.{◌≡◌, ◌≤◌, true, false, [], None, Some};
ghost use Rattle.out_ports.specs.Dialled.{no_link};
ghost use Rattle.out_ports.specs.MemListen.{listener_of, accept_answer, after_accept, after_stop};

use super::calls::Calls;
use super::sink::MemSink;
use super::source::MemSource;
use crate::ports::{Accepted, Listen};
use std::alloc::Global;
use std::marker::Model;

/// The two halves of a link in memory.
#[derive(Drop)]
pub struct MemLink {
    pub reads: MemSource,
    pub writes: MemSink,
}

/// A listener that gives these links in order, and then stops. It accepts from the beginning.
#[derive(Drop)]
pub struct MemListen {
    links: Vec<MemLink>,
    gave: u64,
    stops: u64,
    calls: Calls,
    closed: bool,
}

impl Model for MemListen {
    ghost use Rattle.out_ports.specs.MemListen.{ToldListen};

    ghost Value = { ToldListen };

    ghost view = { λ l. record {
      links = l.links.items;
      gave = l.gave;
      stops = l.stops;
      calls = l.calls;
      closed = l.closed;
    } };
}

impl MemListen {
    /// A listener that fails at these accepts. One that is closed stops, which is no call.
    pub fn new(links: Vec<MemLink>, failing: Vec<u64>) -> Self
        ensures { result ≡ listener_of links.items failing.items }
    {
        MemListen {
            links,
            gave: 0,
            stops: 0,
            calls: Calls::new(failing),
            closed: false,
        }
    }

    /// How many links it has given.
    pub fn gave(&self) -> u64
        ensures { result ≡ self.now.gave }
    {
        self.gave
    }

    /// How often it has stopped.
    pub fn stops(&self) -> u64
        ensures { result ≡ self.now.stops }
    {
        self.stops
    }

    /// Whether it was closed.
    pub fn is_closed(&self) -> bool
        ensures { result ≡ self.now.closed }
    {
        self.closed
    }

    /// Counts a stop that is no call.
    pub(super) fn stop(&mut self)
        ensures { self.new ≡ after_stop self.old }
    {
        self.stops = self.stops.saturating_add(1);
    }

    /// Accepts again.
    pub(super) fn open(&mut self)
        ensures { self.new ≡ record self.old { closed = false } }
    {
        self.closed = false;
    }
}

impl Listen for MemListen {
    type R = MemSource;

    type W = MemSink;

    ghost gave = { λ l. l.gave };

    ghost stops = { λ l. l.stops };

    ghost faults = { λ l. l.calls.faults };

    ghost address = { λ _. Some [] };

    ghost closed = { λ l. l.closed };

    ghost files = { λ _. None };

    ghost file_faults = { λ _. 0 };

    ghost port_faults = { λ _. 0 };

    ghost link = { λ _. no_link };

    fn faults(&self) -> u64 {
        self.calls.faults()
    }

    fn accept(&mut self, _alloc: Global) -> Accepted<MemSource, MemSink>
        // The answer and the listener after it are these and no others.
        ensures exact { result ≡ accept_answer self.old }
        ensures after { self.new ≡ after_accept result self.old }
        ensures lasting { self.old.calls.faults ≤ self.new.calls.faults }
    {
        if self.closed {
            self.stop();
            return Accepted::Stopped;
        }
        if self.calls.fails() {
            return Accepted::Failed;
        }
        if self.links.is_empty() {
            self.stops = self.stops.saturating_add(1);
            return Accepted::Stopped;
        }
        self.gave = self.gave.saturating_add(1);
        let link = self.links.remove(0);
        Accepted::Link(link.reads, link.writes)
    }

    /// The links that are left stay, and are given to nobody.
    fn close(&mut self)
        ensures { self.new ≡ record self.old { closed = true } }
    {
        self.closed = true;
    }
}
