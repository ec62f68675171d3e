//! How long links and accepts wait.
use std::time::Duration;

/// For how long an offer waits for a peer that takes nothing, in seconds.
pub const OFFER_SECONDS: u64 = 1;

/// How many offers of a link that is hurried may give less than the whole piece.
pub const SHORT_OFFERS: u32 = 10;

/// Within what time a link's first packet has to be there, in seconds.
pub const FIRST_PACKET_SECONDS: u64 = 60;

/// For how long what a peer still sends is read off a link that is finished, in seconds.
pub const DRAIN_SECONDS: u64 = 5;

/// How many bytes are read off a link that is finished.
pub const DRAIN_BYTES: usize = 4_194_304;

/// For how long an accept waits for a link, in seconds.
pub const ACCEPT_SECONDS: u64 = 1;

/// How long an accept pauses where the system has no descriptor or no memory left for a link, in
/// thousandths of a second.
pub const PAUSE_MILLISECONDS: u64 = 100;

/// The times for which a host and its links wait.
#[derive(Clone, Copy)]
pub(crate) struct Waits {
    pub(crate) offer: Duration,
    pub(crate) first_packet: Duration,
    pub(crate) drain: Duration,
    pub(crate) accept: Duration,
    pub(crate) pause: Duration,
}

impl Waits {
    /// The times of this module's constants.
    pub(crate) fn new() -> Waits {
        Waits {
            offer: Duration::from_secs(OFFER_SECONDS),
            first_packet: Duration::from_secs(FIRST_PACKET_SECONDS),
            drain: Duration::from_secs(DRAIN_SECONDS),
            accept: Duration::from_secs(ACCEPT_SECONDS),
            pause: Duration::from_millis(PAUSE_MILLISECONDS),
        }
    }
}
