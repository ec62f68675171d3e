//! The listener and the host in memory.
use out_ports::memory::{MemFile, MemHost, MemLink, MemListen, MemSink, MemSource};
use out_ports::ports::{Accepted, Host, HostFault, Listen, Put, Took};
use out_ports::streams::say_all;
use std::alloc::{AllocError, Global};
use std::test::Fail;

/// A link from which these bytes can be read.
fn link(alloc: Global, bytes: &[u8]) -> Result<MemLink, AllocError> {
    let bytes = Vec::from_slice(alloc, bytes)?;
    Ok(MemLink {
        reads: MemSource::new(bytes, 8, Vec::new(alloc)),
        writes: MemSink::new(Vec::new(alloc), Vec::new(alloc)),
    })
}

/// A listener that gives the links `a` and `b`, and fails at these accepts.
fn listener(alloc: Global, failing: &[u64]) -> Result<MemListen, AllocError> {
    let mut links = Vec::new(alloc);
    links.push(link(alloc, b"a")?)?;
    links.push(link(alloc, b"b")?)?;
    Ok(MemListen::new(links, Vec::from_slice(alloc, failing)?))
}

/// The answer to an accept: `s` for a stop, `n` for nobody, `f` for a fault, `m` for want of
/// memory, and for a link the first byte that can be read of it.
fn answer(answer: Accepted<MemSource, MemSink>) -> u8 {
    match answer {
        Accepted::Link(reads, _) => *reads.left().first().unwrap_or(&b'?'),
        Accepted::Stopped => b's',
        Accepted::Nobody => b'n',
        Accepted::Failed => b'f',
        Accepted::NoMemory => b'm',
    }
}

/// The answers to four accepts, of which the second is to fail.
fn four_answers(alloc: Global) -> Result<[u8; 4], AllocError> {
    let mut listener = listener(alloc, &[1])?;
    let mut answers = [0; 4];
    for given in answers.iter_mut() {
        *given = answer(listener.accept(alloc));
    }
    Ok(answers)
}

#[test]
fn a_listener_gives_its_links_and_stops(rt: HostRuntime) -> Result<(), Fail> {
    assert!(rt; four_answers(rt.alloc())? == *b"afbs");
    Ok(())
}

/// A listener that is closed stops, though its next accept is to fail and a link is left.
fn closed_listener_stops(alloc: Global) -> Result<bool, AllocError> {
    let mut listener = listener(alloc, &[1])?;
    let first = answer(listener.accept(alloc)) == b'a';
    listener.close();
    let stopped = answer(listener.accept(alloc)) == b's' && listener.stops() == 1;
    Ok(first && stopped && listener.is_closed() && listener.faults() == 0)
}

#[test]
fn a_listener_that_is_closed_stops(rt: HostRuntime) -> Result<(), Fail> {
    assert!(rt; closed_listener_stops(rt.alloc())?);
    Ok(())
}

/// A host with one file and the links `a` and `b`, whose call of `file` fails at 2, and of `port`
/// at 0.
fn host(alloc: Global) -> Result<MemHost, AllocError> {
    let mut files = Vec::new(alloc);
    files.push(MemFile {
        name: String::from_str(alloc, "short")?,
        bytes: Vec::from_slice(alloc, b"abc")?,
    })?;
    let failing_files = Vec::from_slice(alloc, &[2])?;
    let failing_ports = Vec::from_slice(alloc, &[0])?;
    Ok(MemHost::new(files, listener(alloc, &[])?, failing_files, failing_ports))
}

/// Whether these are the bytes of a file.
fn gives(alloc: Global, host: &mut MemHost, name: &str, wanted: &[u8]) -> bool {
    match host.file(alloc, name) {
        Ok(bytes) => bytes.as_slice() == wanted,
        Err(_) => false,
    }
}

fn fails(alloc: Global, host: &mut MemHost, name: &str) -> bool {
    matches!(host.file(alloc, name), Err(HostFault::Failed))
}

fn host_gives_its_files(alloc: Global) -> Result<bool, AllocError> {
    let mut host = host(alloc)?;
    let given = gives(alloc, &mut host, "short", b"abc");
    let failed = fails(alloc, &mut host, "other") && fails(alloc, &mut host, "short");
    Ok(given && failed && host.file_faults() == 2)
}

#[test]
fn a_host_gives_its_files(rt: HostRuntime) -> Result<(), Fail> {
    assert!(rt; host_gives_its_files(rt.alloc())?);
    Ok(())
}

/// Before a port is open no link comes, and that is no call of the listener.
fn host_gives_links_behind_its_port(alloc: Global) -> Result<bool, AllocError> {
    let mut host = host(alloc)?;
    let closed = answer(host.accept(alloc)) == b's' && host.port(alloc, "a:1").is_err();
    let open = host.port(alloc, "a:1").is_ok() && answer(host.accept(alloc)) == b'a';
    Ok(closed && open && host.port_faults() == 1 && host.listener().stops() == 1)
}

#[test]
fn a_host_gives_links_behind_its_port(rt: HostRuntime) -> Result<(), Fail> {
    assert!(rt; host_gives_links_behind_its_port(rt.alloc())?);
    Ok(())
}

/// A host that is closed stops until it has a port again.
fn closed_host_opens_again(alloc: Global) -> Result<bool, AllocError> {
    let mut host = host(alloc)?;
    let failed = host.port(alloc, "a:1").is_err();
    let open = host.port(alloc, "a:1").is_ok();
    host.close();
    let closed = answer(host.accept(alloc)) == b's' && host.listener().is_closed();
    let again = host.port(alloc, "a:2").is_ok() && answer(host.accept(alloc)) == b'a';
    Ok(failed && open && closed && again)
}

#[test]
fn a_host_that_is_closed_opens_again(rt: HostRuntime) -> Result<(), Fail> {
    assert!(rt; closed_host_opens_again(rt.alloc())?);
    Ok(())
}

/// The host above, whose dialled peer says `abcde` in pieces of two and takes five bytes. Its call
/// of `hear` fails at 1, of `say` at 1, and of `dial` at these.
fn peered(alloc: Global, failing_dials: &[u64]) -> Result<MemHost, AllocError> {
    let bytes = Vec::from_slice(alloc, b"abcde")?;
    let hears = MemSource::new(bytes, 2, Vec::from_slice(alloc, &[1])?);
    let says = MemSink::new(Vec::with_capacity(alloc, 5)?, Vec::from_slice(alloc, &[1])?);
    let failing_dials = Vec::from_slice(alloc, failing_dials)?;
    Ok(host(alloc)?.with_peer(hears, says, failing_dials))
}

/// A dial that fails leaves the address that was dialled before.
fn host_dials(alloc: Global) -> Result<bool, AllocError> {
    let mut host = peered(alloc, &[0, 2])?;
    let failed = host.dial(alloc, "a:1") == Err(HostFault::Failed) && host.dialled().is_none();
    let answered = host.dial(alloc, "b:2") == Ok(()) && host.dialled() == Some("b:2");
    let stays = host.dial(alloc, "c:3").is_err() && host.dialled() == Some("b:2");
    Ok(failed && answered && stays && host.dial_faults() == 2)
}

#[test]
fn a_host_dials(rt: HostRuntime) -> Result<(), Fail> {
    assert!(rt; host_dials(rt.alloc())?);
    Ok(())
}

/// What is left after a hearing that fails is heard by the next one.
fn host_hears_its_peer(alloc: Global) -> Result<bool, AllocError> {
    let mut host = peered(alloc, &[])?;
    let Ok(()) = host.dial(alloc, "a:1") else {
        return Ok(false);
    };
    let mut buf = [0; 8];
    let first = host.hear(&mut buf) == Took::Some(2) && buf.starts_with(b"ab");
    let failed = host.hear(&mut buf) == Took::Failed && host.hear_faults() == 1;
    let then = host.hear(&mut buf) == Took::Some(2) && buf.starts_with(b"cd");
    let last = host.hear(&mut buf) == Took::Some(1) && host.hears().left().is_empty();
    Ok(first && failed && then && last && host.hear(&mut buf) == Took::End)
}

#[test]
fn a_host_hears_its_peer(rt: HostRuntime) -> Result<(), Fail> {
    assert!(rt; host_hears_its_peer(rt.alloc())?);
    Ok(())
}

/// The third saying goes past the room.
fn host_says_to_its_peer(alloc: Global) -> Result<bool, AllocError> {
    let mut host = peered(alloc, &[])?;
    let Ok(()) = host.dial(alloc, "a:1") else {
        return Ok(false);
    };
    let first = say_all(&mut host, b"abc").is_ok() && host.say(b"de") == Put::Failed;
    let then = host.say(b"def") == Put::Failed && host.say(b"fg") == Put::Some(2);
    Ok(first && then && host.say_faults() == 2 && host.says().held() == b"abcfg".as_slice())
}

#[test]
fn a_host_says_to_its_peer(rt: HostRuntime) -> Result<(), Fail> {
    assert!(rt; host_says_to_its_peer(rt.alloc())?);
    Ok(())
}

/// Without a peer of its own nothing is heard and nothing is taken.
fn nobody_answers(alloc: Global) -> Result<bool, AllocError> {
    let mut host = host(alloc)?;
    let Ok(()) = host.dial(alloc, "a:1") else {
        return Ok(false);
    };
    let heard = host.hear(&mut [0; 8]) == Took::End && host.hear_faults() == 0;
    Ok(heard && host.say(b"a") == Put::Failed && host.say_faults() == 1)
}

#[test]
fn a_peer_that_says_nothing(rt: HostRuntime) -> Result<(), Fail> {
    assert!(rt; nobody_answers(rt.alloc())?);
    Ok(())
}
