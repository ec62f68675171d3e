//! Both ends of links over loopback.
use super::waits::hardly_draining;
use crate::{RealHost, TcpSink, TcpSource};
use out_ports::ports::{Accepted, Host, Listen, Put, Sink, Source, Took};
use std::alloc::Global;
use std::io::{Read, Write};
use std::net::{Net, TcpListener, TcpStream};
use std::rt::Files;
use std::test::Fail;
use std::time::Clock;

/// The client's end of a link, and the server's two halves.
#[derive(Drop)]
pub struct Ends<'a, Rt> {
    pub client: TcpStream,
    pub reads: TcpSource<'a, Rt>,
    pub writes: TcpSink<'a, Rt>,
}

/// A link to a host that listens at this address of the machine's own.
pub(super) fn link_to<'a, Rt>(
    rt: &'a Rt,
    alloc: Global,
    host: &mut RealHost<'a, Rt>,
    address: &str,
) -> Option<Ends<'a, Rt>>
where
    Rt: Clock + Files + Net<Listener = TcpListener, Stream = TcpStream>,
{
    let number = host.port_number()?;
    let client = TcpStream::connect(rt, (address, number)).ok()?;
    match host.accept(alloc) {
        Accepted::Link(reads, writes) => Some(Ends {
            client,
            reads,
            writes,
        }),
        _ => None,
    }
}

/// What the client sends comes to the host, and what the host puts comes to the client.
fn talks<Rt: Clock>(ends: &mut Ends<'_, Rt>) -> bool {
    let mut buf = [0; 8];
    let sent = ends.client.write_all(b"ask").is_ok();
    let asked = ends.reads.take(&mut buf) == Took::Some(3) && buf.starts_with(b"ask");
    let put = ends.writes.put(b"answer") == Put::Some(6);
    let answered = ends.client.read_exact(&mut buf[..6]).is_ok() && buf.starts_with(b"answer");
    sent && asked && put && answered
}

/// A client that has read all and goes is the link's end.
fn ends_with_its_client<Rt: Clock>(ends: Ends<'_, Rt>) -> bool {
    let Ends {
        client,
        mut reads,
        writes: _writes,
    } = ends;
    drop(client);
    reads.take(&mut [0; 8]) == Took::End && reads.faults() == 0
}

/// A client that goes with bytes unread resets the link: a failure of both halves, and no signal.
fn fails_where_it_is_reset<Rt: Clock>(ends: Ends<'_, Rt>) -> bool {
    let Ends {
        client,
        mut reads,
        mut writes,
    } = ends;
    let put = writes.put(b"unread") == Put::Some(6);
    drop(client);
    let failed = reads.take(&mut [0; 8]) == Took::Failed && reads.faults() == 1;
    put && failed && writes.put(b"more") == Put::Failed && writes.faults() == 1
}

/// A writer that is finished ends the link's reader, though the client stays.
fn ends_where_it_is_finished<Rt: Clock>(ends: Ends<'_, Rt>) -> bool {
    let Ends {
        client: _client,
        mut reads,
        mut writes,
    } = ends;
    writes.finish();
    reads.take(&mut [0; 8]) == Took::End && writes.put(b"more") == Put::Failed
}

/// Three links to one host, over IP version 4.
fn three_links<Rt>(rt: &Rt, alloc: Global) -> Option<bool>
where
    Rt: Clock + Files + Net<Listener = TcpListener, Stream = TcpStream>,
{
    let mut host = RealHost::new(rt);
    host.waits = hardly_draining();
    let stopped = matches!(host.accept(alloc), Accepted::Stopped);
    host.port(alloc, "127.0.0.1:0").ok()?;
    let mut first = link_to(rt, alloc, &mut host, "127.0.0.1")?;
    let talked = talks(&mut first) && ends_with_its_client(first);
    let reset = fails_where_it_is_reset(link_to(rt, alloc, &mut host, "127.0.0.1")?);
    let finished = ends_where_it_is_finished(link_to(rt, alloc, &mut host, "127.0.0.1")?);
    Some(stopped && talked && reset && finished && host.faults() == 0)
}

#[test]
fn links_over_loopback(rt: HostRuntime) -> Result<(), Fail> {
    assert!(rt; three_links(&rt, rt.alloc()) == Some(true));
    Ok(())
}

/// A link over IP version 6. A machine that hasn't got it shows nothing.
fn sixth_version<Rt>(rt: &Rt, alloc: Global) -> Option<bool>
where
    Rt: Clock + Files + Net<Listener = TcpListener, Stream = TcpStream>,
{
    let mut host = RealHost::new(rt);
    if host.port(alloc, "[::1]:0").is_err() {
        return Some(true);
    }
    let mut link = link_to(rt, alloc, &mut host, "::1")?;
    Some(talks(&mut link))
}

#[test]
fn a_link_over_the_sixth_version(rt: HostRuntime) -> Result<(), Fail> {
    assert!(rt; sixth_version(&rt, rt.alloc()) == Some(true));
    Ok(())
}

/// A link to a host whose address is a name. A machine that hasn't got the name shows nothing.
fn by_name<Rt>(rt: &Rt, alloc: Global) -> Option<bool>
where
    Rt: Clock + Files + Net<Listener = TcpListener, Stream = TcpStream>,
{
    let mut host = RealHost::new(rt);
    if host.port(alloc, "localhost:0").is_err() {
        return Some(true);
    }
    let mut link = link_to(rt, alloc, &mut host, "localhost")?;
    Some(talks(&mut link))
}

#[test]
fn a_link_to_a_name(rt: HostRuntime) -> Result<(), Fail> {
    assert!(rt; by_name(&rt, rt.alloc()) == Some(true));
    Ok(())
}

/// An address in use is a fault, and one that is no address is another.
fn ports_fail<Rt>(rt: &Rt, alloc: Global) -> Option<bool>
where
    Rt: Clock + Files + Net<Listener = TcpListener, Stream = TcpStream>,
{
    let mut host = RealHost::new(rt);
    host.port(alloc, "127.0.0.1:0").ok()?;
    let number = host.port_number()?;
    let mut other = RealHost::new(rt);
    let taken = format!(in alloc; "127.0.0.1:{number}").ok()?;
    let failed = other.port(alloc, &taken).is_err() && other.port(alloc, "nowhere").is_err();
    Some(failed && other.port_faults() == 2 && other.port_number().is_none())
}

#[test]
fn a_port_that_is_taken_is_a_fault(rt: HostRuntime) -> Result<(), Fail> {
    assert!(rt; ports_fail(&rt, rt.alloc()) == Some(true));
    Ok(())
}
