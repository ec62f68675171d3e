//! Listening, and the next link.
ghost use Rattle.std.specs.Prelude.{◌≡◌, false, IfOk};

use crate::keeping::keep_alive;
use crate::links::{TcpSink, TcpSource, moment_in};
use crate::waits::Waits;
use std::io::{self, ErrorKind};
use std::net::{Net, TcpListener, TcpStream, ToSocketAddrs};
use std::os::fd::OwnedFd;
use std::thread;
use std::time::{Clock, Duration};

/// The numbers by which the system says that it has no descriptor or no memory left: ENOMEM,
/// ENFILE, EMFILE and ENOBUFS.
const NO_ROOM: [i32; 4] = [12, 23, 24, 105];

/// Listens at an address, the first of those that the text is looked up to at which it can. As many
/// links may wait to be accepted as the system allows. An accept waits for so long.
pub(crate) fn listen_at<N: Net>(net: &N, text: &str, wait: Duration) -> io::Result<TcpListener> {
    let mut last = io::Error::from(ErrorKind::InvalidInput);
    for address in text.to_socket_addrs(net)? {
        match mio::net::TcpListener::bind(net, address) {
            Ok(listener) => return waiting(TcpListener::from(listener), wait),
            Err(error) => last = error,
        }
    }
    Err(last)
}

/// The listener, whose accepts wait for so long, and whose links are kept alive. An accept waits as
/// a read of the socket does, and the time for that is set at a stream.
fn waiting(listener: TcpListener, wait: Duration) -> io::Result<TcpListener> {
    listener.set_nonblocking(false)?;
    let socket = TcpStream::from(OwnedFd::from(listener));
    socket.set_read_timeout(Some(wait))?;
    keep_alive(&socket);
    Ok(TcpListener::from(OwnedFd::from(socket)))
}

/// How often a link that has come is asked for its other half, where the system has no descriptor
/// left for it.
const HALF_TRIES: u32 = 100;

/// The other half of a link. Where the system has no descriptor left for it one is waited for, a
/// bounded time: else the link, which has come, would be lost.
fn other_half<Rt: Clock>(rt: &Rt, link: &TcpStream, pause: Duration) -> io::Result<TcpStream> {
    for _ in 0..HALF_TRIES {
        match link.try_clone() {
            Ok(other) => return Ok(other),
            Err(error) => match cause_of(&error) {
                Cause::NoRoom => thread::sleep(rt, pause),
                _ => return Err(error),
            },
        }
    }
    link.try_clone()
}

/// The next link in two halves, of which each piece is sent at once.
pub(crate) fn next_link<'a, Rt: Clock>(
    rt: &'a Rt,
    listener: &TcpListener,
    waits: Waits,
) -> io::Result<(TcpSource<'a, Rt>, TcpSink<'a, Rt>)>
    ensures reads { IfOk result (λ link. (link.0.given ≡ 0) × (link.0.ended ≡ false)
        × (link.0.faults ≡ 0)) }
    ensures writes { IfOk result (λ link. (link.1.finishes ≡ 0) × (link.1.faults ≡ 0)) }
{
    let (reads, _peer) = listener.accept()?;
    reads.set_nodelay(true)?;
    reads.set_write_timeout(Some(waits.offer))?;
    let writes = other_half(rt, &reads, waits.pause)?;
    let until = moment_in(rt, waits.first_packet);
    Ok((
        TcpSource::new(rt, reads, until, waits),
        TcpSink::new(rt, writes, waits),
    ))
}

/// Why there is no link.
#[derive(Clone, Copy)]
pub(crate) enum Cause {
    /// None came for a while, or the one that came has gone.
    Nobody,
    /// The system has no descriptor or no memory left for it.
    NoRoom,
    /// The listener failed.
    Failure,
}

/// Why there is no link, by the error. An accept also tells what befell a link that waited.
pub(crate) fn cause_of(error: &io::Error) -> Cause {
    if let Some(number) = error.raw_os_error()
        && NO_ROOM.contains(&number)
    {
        return Cause::NoRoom;
    }
    match error.kind() {
        ErrorKind::WouldBlock
        | ErrorKind::TimedOut
        | ErrorKind::Interrupted
        | ErrorKind::ConnectionAborted
        | ErrorKind::ConnectionReset
        | ErrorKind::NotConnected
        | ErrorKind::NetworkDown
        | ErrorKind::NetworkUnreachable
        | ErrorKind::HostUnreachable => Cause::Nobody,
        _ => Cause::Failure,
    }
}
