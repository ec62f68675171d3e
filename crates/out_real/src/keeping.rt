//! Peers that are gone and can't say so.
use libc::net::{
    IPPROTO_TCP, SO_KEEPALIVE, SOL_SOCKET, TCP_KEEPCNT, TCP_KEEPIDLE, TCP_KEEPINTVL, setsockopt,
};
use std::net::TcpStream;
use std::os::fd::AsRawFd;

/// After how long without a sign of its peer a link asks for one, in seconds.
pub const IDLE_SECONDS: u8 = 60;

/// How long it is between two times that it asks, in seconds.
pub const ASKING_SECONDS: u8 = 10;

/// How often it asks for nothing before it fails.
pub const ASKINGS: u8 = 6;

/// The bytes of a C `int`.
const SIZE: u32 = 4;

/// Has the socket ask for a sign of its peer where none comes for long. What is accepted at a
/// socket that listens does the same. The kit's sockets have no call for it but C's. Where the
/// system refuses, a link waits for its peer without that.
pub(crate) fn keep_alive(socket: &TcpStream) {
    let fd = socket.as_raw_fd();
    unsafe {
        setsockopt(fd, SOL_SOCKET, SO_KEEPALIVE, &value(1), SIZE);
        setsockopt(fd, IPPROTO_TCP, TCP_KEEPIDLE, &value(IDLE_SECONDS), SIZE);
        setsockopt(fd, IPPROTO_TCP, TCP_KEEPINTVL, &value(ASKING_SECONDS), SIZE);
        setsockopt(fd, IPPROTO_TCP, TCP_KEEPCNT, &value(ASKINGS), SIZE);
    }
}

/// A number as an option's value, its lowest byte first.
fn value(n: u8) -> [u8; 16] {
    let mut bytes = [0; 16];
    bytes[0] = n;
    bytes
}
