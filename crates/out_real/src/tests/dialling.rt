//! The link that a host dials, to another host.
use super::waits::hardly_draining;
use crate::RealHost;
use out_ports::ports::{Accepted, Host, HostFault, Listen, Put, Sink, Source, Took};
use std::alloc::Global;
use std::net::{Net, TcpListener, TcpStream};
use std::rt::Files;
use std::test::Fail;
use std::time::Clock;

/// A host dials one that listens at a free port of this name: each hears what the other one says,
/// and its end. A machine that hasn't got the name shows nothing.
fn talks<Rt>(rt: &Rt, alloc: Global, name: &str) -> Option<bool>
where
    Rt: Clock + Files + Net<Listener = TcpListener, Stream = TcpStream>,
{
    let mut host = RealHost::new(rt);
    host.waits = hardly_draining();
    let free = format!(in alloc; "{name}:0").ok()?;
    if host.port(alloc, &free).is_err() {
        return Some(true);
    }
    let number = host.port_number()?;
    let address = format!(in alloc; "{name}:{number}").ok()?;
    let mut dialler = RealHost::new(rt);
    let Ok(()) = dialler.dial(alloc, &address) else {
        return None;
    };
    let Accepted::Link(mut reads, mut writes) = host.accept(alloc) else {
        return None;
    };
    let mut buf = [0; 8];
    let said = dialler.say(b"ask") == Put::Some(3);
    let asked = reads.take(&mut buf) == Took::Some(3) && buf.starts_with(b"ask");
    let put = writes.put(b"answer") == Put::Some(6);
    let heard = dialler.hear(&mut buf) == Took::Some(6) && buf.starts_with(b"answer");
    writes.finish();
    let ended = dialler.hear(&mut buf) == Took::End;
    let faults = [
        dialler.dial_faults(),
        dialler.hear_faults(),
        dialler.say_faults(),
    ];
    Some(said && asked && put && heard && ended && faults == [0, 0, 0])
}

#[test]
fn a_host_dials_another(rt: HostRuntime) -> Result<(), Fail> {
    assert!(rt; talks(&rt, rt.alloc(), "127.0.0.1") == Some(true));
    Ok(())
}

#[test]
fn a_host_dials_over_the_sixth_version(rt: HostRuntime) -> Result<(), Fail> {
    assert!(rt; talks(&rt, rt.alloc(), "[::1]") == Some(true));
    Ok(())
}

#[test]
fn a_host_dials_a_name(rt: HostRuntime) -> Result<(), Fail> {
    assert!(rt; talks(&rt, rt.alloc(), "localhost") == Some(true));
    Ok(())
}

/// Whether nobody answers at the address.
fn is_unanswered<Rt>(alloc: Global, host: &mut RealHost<'_, Rt>, address: &str) -> bool
where
    Rt: Clock + Files + Net<Listener = TcpListener, Stream = TcpStream>,
{
    host.dial(alloc, address) == Err(HostFault::Failed)
}

/// Nobody listens at a port that was closed, and what is no address is a fault too.
fn nobody_answers<Rt>(rt: &Rt, alloc: Global) -> Option<bool>
where
    Rt: Clock + Files + Net<Listener = TcpListener, Stream = TcpStream>,
{
    let mut host = RealHost::new(rt);
    host.port(alloc, "127.0.0.1:0").ok()?;
    let number = host.port_number()?;
    let address = format!(in alloc; "127.0.0.1:{number}").ok()?;
    host.close();
    let mut dialler = RealHost::new(rt);
    let closed = is_unanswered(alloc, &mut dialler, &address);
    let nowhere = is_unanswered(alloc, &mut dialler, "nowhere");
    Some(closed && nowhere && dialler.dial_faults() == 2)
}

#[test]
fn a_dial_that_nobody_answers(rt: HostRuntime) -> Result<(), Fail> {
    assert!(rt; nobody_answers(&rt, rt.alloc()) == Some(true));
    Ok(())
}
