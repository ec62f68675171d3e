//! The numbers of actors: 0 is the gatekeeper, 1 to 8 are the dataspaces, 9 to 16 the watchers, and
//! 16 + k is connection k.

/// The gatekeeper.
pub(crate) const GATEKEEPER: u32 = 0;

/// The gatekeeper and the dataspaces, which are always live, are the actors below this one.
pub(crate) const FIRST_OTHER: u32 = 9;

/// The system's own actors are those below this one.
pub const FIRST_CONNECTION: u32 = 17;

/// Connection k, counted from 1, is actor k above this one.
pub const BEFORE_CONNECTIONS: u32 = 16;
