//! Links and accepts that wait.
use super::links::{Ends, link_to};
use crate::RealHost;
use crate::waits::{SHORT_OFFERS, Waits};
use out_ports::ports::{Accepted, Host, Incoming, Listen, Offered, Outgoing, Sink, Source, Took};
use std::alloc::Global;
use std::io::{Read, Write};
use std::net::{Net, TcpListener, TcpStream};
use std::rt::Files;
use std::test::Fail;
use std::time::{Clock, Duration, Instant};

const LOCAL: &str = "127.0.0.1";

/// For how long a test waits in vain. All else that a host waits for keeps its own time, which no
/// machine is too busy for.
fn in_vain() -> Duration {
    Duration::from_millis(100)
}

/// Times of a host that reads for so long what comes off a link that is finished.
pub(super) fn draining(drain: Duration) -> Waits {
    let mut waits = Waits::new();
    waits.drain = drain;
    waits
}

/// Times of a host that reads in vain off a link that is finished.
pub(super) fn hardly_draining() -> Waits {
    draining(in_vain())
}

/// A host that listens.
fn listening<Rt>(rt: &Rt, alloc: Global) -> Option<RealHost<'_, Rt>>
where
    Rt: Clock + Files + Net<Listener = TcpListener, Stream = TcpStream>,
{
    let mut host = RealHost::new(rt);
    host.port(alloc, "127.0.0.1:0").ok()?;
    Some(host)
}

/// A host that listens, and waits for a first packet for a short time.
fn impatient<Rt>(rt: &Rt, alloc: Global) -> Option<RealHost<'_, Rt>>
where
    Rt: Clock + Files + Net<Listener = TcpListener, Stream = TcpStream>,
{
    let mut host = listening(rt, alloc)?;
    let mut waits = Waits::new();
    waits.first_packet = in_vain();
    host.waits = waits;
    Some(host)
}

/// Offers pieces up to an answer, and tells how many were neither it nor whole.
fn offer_up_to<W: Outgoing>(writes: &mut W, last: Offered) -> Option<u32> {
    let piece = [7; 65_536];
    let mut short: u32 = 0;
    for _ in 0..10_000 {
        match writes.offer(&piece) {
            answer if answer == last => return Some(short),
            Offered::Some(65_536) => {}
            _ => short = short.saturating_add(1),
        }
    }
    None
}

/// A peer that reads nothing is waited for, and once the link is hurried so often and no more.
fn offers_wait<Rt>(rt: &Rt, alloc: Global) -> Option<bool>
where
    Rt: Clock + Files + Net<Listener = TcpListener, Stream = TcpStream>,
{
    let mut host = listening(rt, alloc)?;
    let mut waits = Waits::new();
    waits.offer = Duration::from_millis(20);
    host.waits = waits;
    let Ends {
        client: _client,
        reads: _reads,
        mut writes,
    } = link_to(rt, alloc, &mut host, LOCAL)?;
    let waited = offer_up_to(&mut writes, Offered::Waits).is_some() && writes.faults() == 0;
    writes.hurry();
    let short = offer_up_to(&mut writes, Offered::Failed) == Some(SHORT_OFFERS);
    Some(waited && short && writes.faults() == 1)
}

#[test]
fn an_offer_waits(rt: HostRuntime) -> Result<(), Fail> {
    assert!(rt; offers_wait(&rt, rt.alloc()) == Some(true));
    Ok(())
}

/// A peer that never says anything is a fault.
fn silent_peer_fails<Rt>(rt: &Rt, alloc: Global) -> Option<bool>
where
    Rt: Clock + Files + Net<Listener = TcpListener, Stream = TcpStream>,
{
    let mut host = impatient(rt, alloc)?;
    let mut ends = link_to(rt, alloc, &mut host, LOCAL)?;
    let failed = ends.reads.take(&mut [0; 8]) == Took::Failed;
    Some(failed && ends.reads.faults() == 1)
}

#[test]
fn a_peer_that_says_nothing_fails(rt: HostRuntime) -> Result<(), Fail> {
    assert!(rt; silent_peer_fails(&rt, rt.alloc()) == Some(true));
    Ok(())
}

/// A peer that says a little at a time is a fault too, though each piece of it comes soon.
fn slow_peer_fails<Rt>(rt: &Rt, alloc: Global) -> Option<bool>
where
    Rt: Clock + Files + Net<Listener = TcpListener, Stream = TcpStream>,
{
    let mut host = impatient(rt, alloc)?;
    let mut ends = link_to(rt, alloc, &mut host, LOCAL)?;
    for _ in 0..100 {
        ends.client.write_all(b"a").ok()?;
        if ends.reads.take(&mut [0; 8]) == Took::Failed {
            return Some(true);
        }
        rt.sleep(Duration::from_millis(10));
    }
    Some(false)
}

#[test]
fn a_peer_that_says_little_at_a_time_fails(rt: HostRuntime) -> Result<(), Fail> {
    assert!(rt; slow_peer_fails(&rt, rt.alloc()) == Some(true));
    Ok(())
}

/// Once it is settled, what was said after that time is taken, and then the end.
fn settled_peer_may_wait<Rt>(rt: &Rt, alloc: Global) -> Option<bool>
where
    Rt: Clock + Files + Net<Listener = TcpListener, Stream = TcpStream>,
{
    let mut host = impatient(rt, alloc)?;
    let mut ends = link_to(rt, alloc, &mut host, LOCAL)?;
    ends.reads.settle();
    rt.sleep(Duration::from_millis(200));
    ends.client.write_all(b"late").ok()?;
    let taken = ends.reads.take(&mut [0; 8]) == Took::Some(4);
    drop(ends.client);
    Some(taken && ends.reads.take(&mut [0; 8]) == Took::End && ends.reads.faults() == 0)
}

#[test]
fn a_link_that_is_settled_may_wait(rt: HostRuntime) -> Result<(), Fail> {
    assert!(rt; settled_peer_may_wait(&rt, rt.alloc()) == Some(true));
    Ok(())
}

/// What the peer sent and nobody read doesn't reset the link: it gets the last bytes.
fn drained_link_keeps_its_last_bytes<Rt>(rt: &Rt, alloc: Global) -> Option<bool>
where
    Rt: Clock + Files + Net<Listener = TcpListener, Stream = TcpStream>,
{
    let mut host = listening(rt, alloc)?;
    host.waits = draining(Duration::from_secs(2));
    let Ends {
        mut client,
        reads,
        mut writes,
    } = link_to(rt, alloc, &mut host, LOCAL)?;
    client.write_all(&[7; 65_536]).ok()?;
    let put = writes.offer(b"last") == Offered::Some(4);
    writes.finish();
    drop(writes);
    drop(reads);
    let mut buf = [0; 8];
    let last = client.read_exact(&mut buf[..4]).is_ok() && buf.starts_with(b"last");
    Some(put && last && client.read(&mut buf).ok()? == 0)
}

#[test]
fn a_drained_link_keeps_its_last_bytes(rt: HostRuntime) -> Result<(), Fail> {
    assert!(rt; drained_link_keeps_its_last_bytes(&rt, rt.alloc()) == Some(true));
    Ok(())
}

/// A peer that has closed isn't waited for: the host would wait for a minute.
fn closed_peer_is_finished_at_once<Rt>(rt: &Rt, alloc: Global) -> Option<bool>
where
    Rt: Clock + Files + Net<Listener = TcpListener, Stream = TcpStream>,
{
    let drain = Duration::from_secs(60);
    let mut host = listening(rt, alloc)?;
    host.waits = draining(drain);
    let mut ends = link_to(rt, alloc, &mut host, LOCAL)?;
    drop(ends.client);
    let start = Instant::now(rt).ok()?;
    ends.writes.finish();
    Some(start.elapsed(rt).ok()? < drain)
}

#[test]
fn a_link_whose_peer_has_closed_is_finished_at_once(rt: HostRuntime) -> Result<(), Fail> {
    assert!(rt; closed_peer_is_finished_at_once(&rt, rt.alloc()) == Some(true));
    Ok(())
}

/// The host's end of a link of this port number has a timer that asks for a sign of its peer: of
/// those that the system lists, in a line for each below the head, the second kind.
fn asks_for_a_sign(sockets: &str, number: u16, alloc: Global) -> Option<bool> {
    let local = format!(in alloc; ":{number:04X} ").ok()?;
    for line in sockets.lines().skip(1) {
        let mut words = line.split_whitespace().skip(1);
        let here = words.next()?;
        let port = here.split(':').nth(1)?;
        let linked = words.nth(1) == Some("01");
        if linked && local.contains(port) {
            return Some(words.nth(1)?.starts_with("02:"));
        }
    }
    None
}

fn link_is_kept_alive<Rt>(rt: &Rt, alloc: Global) -> Option<bool>
where
    Rt: Clock + Files + Net<Listener = TcpListener, Stream = TcpStream>,
{
    let mut host = listening(rt, alloc)?;
    let _ends = link_to(rt, alloc, &mut host, LOCAL)?;
    let listed = host.file(alloc, "/proc/net/tcp").ok()?;
    let listed = String::from_utf8(listed).ok()?;
    asks_for_a_sign(&listed, host.port_number()?, alloc)
}

#[test]
fn a_link_is_kept_alive(rt: HostRuntime) -> Result<(), Fail> {
    assert!(rt; link_is_kept_alive(&rt, rt.alloc()) == Some(true));
    Ok(())
}

/// Nobody comes, and then somebody who is gone before he is accepted: neither is a fault.
fn nobody_comes<Rt>(rt: &Rt, alloc: Global) -> Option<bool>
where
    Rt: Clock + Files + Net<Listener = TcpListener, Stream = TcpStream>,
{
    let mut host = listening(rt, alloc)?;
    let nobody = matches!(host.accept(alloc), Accepted::Nobody);
    drop(link_to(rt, alloc, &mut host, LOCAL)?);
    drop(TcpStream::connect(rt, (LOCAL, host.port_number()?)).ok()?);
    let gone = matches!(host.accept(alloc), Accepted::Link(..) | Accepted::Nobody);
    Some(nobody && gone && host.faults() == 0)
}

#[test]
fn an_accept_ends_where_nobody_comes(rt: HostRuntime) -> Result<(), Fail> {
    assert!(rt; nobody_comes(&rt, rt.alloc()) == Some(true));
    Ok(())
}

/// Behind a close, accepts stop and who connects is refused, until a port is opened again.
fn closed_host_refuses<Rt>(rt: &Rt, alloc: Global) -> Option<bool>
where
    Rt: Clock + Files + Net<Listener = TcpListener, Stream = TcpStream>,
{
    let mut host = listening(rt, alloc)?;
    let number = host.port_number()?;
    host.close();
    let refused = TcpStream::connect(rt, (LOCAL, number)).is_err();
    let stopped = matches!(host.accept(alloc), Accepted::Stopped) && host.port_number().is_none();
    host.port(alloc, "127.0.0.1:0").ok()?;
    Some(refused && stopped && link_to(rt, alloc, &mut host, LOCAL).is_some())
}

#[test]
fn a_host_that_is_closed_refuses(rt: HostRuntime) -> Result<(), Fail> {
    assert!(rt; closed_host_refuses(&rt, rt.alloc()) == Some(true));
    Ok(())
}
