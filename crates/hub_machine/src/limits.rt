//! The limits. Each is the most that is taken; one more is refused, or ends the connection.
ghost use Rattle.std.specs.Prelude.{◌≡◌};
ghost use Rattle.ac_world.specs.Limits.{most_watchers};
ghost use Rattle.hub_machine.specs.Limits.{most_events, most_handles, most_rows_weight};
ghost use Rattle.hub_machine.specs.Limits.{most_backlog, most_backlog_weight};
ghost use Rattle.hub_machine.specs.Limits.{most_deliveries, most_deliveries_weight};
ghost use Rattle.hub_machine.specs.Limits.{most_connections, last_dataspace};
ghost use Rattle.hub_machine.specs.Limits.{worn_handle, worn_connections};

pub use ds_space::WANTED_WEIGHT;

/// The most events of a turn. A fault tells it as 3.
pub const TURN_EVENTS: u64 = 1_024;

/// The most handles that a connection has in use. A fault tells it as 4.
pub const HANDLES: u64 = 4_096;

/// The greatest weight of all that a connection asserts. A fault tells it as 5.
pub const ROWS_WEIGHT: u64 = 4_194_304;

/// The most events of a connection's that wait for the system's actors. A fault tells it as 10.
pub const BACKLOG: u64 = 65_536;

/// The greatest weight of these events. A fault tells it as 11.
pub const BACKLOG_WEIGHT: u64 = 16_777_216;

/// The most assertions and events that are held for a connection or wait for it.
pub const DELIVERIES: u64 = 65_536;

/// The greatest weight of these.
pub const DELIVERIES_WEIGHT: u64 = 16_777_216;

/// The most live connections.
pub const CONNECTIONS: usize = 32;

/// The last dataspace; the first is 1.
pub const DATASPACES: u8 = 8;

/// The most watchers.
pub const WATCHERS: usize = 8;

/// No step is done where a handle of this number or more would be drawn.
pub const WORN_HANDLE: u64 = 1 << 62;

/// No connection comes where so many were opened.
pub const WORN_CONNECTIONS: u32 = 1 << 31;

/// These are the limits that the definitions have.
pub fn limits_are_as_defined()
    ensures events { TURN_EVENTS ≡ most_events }
    ensures handles { HANDLES ≡ most_handles }
    ensures rows { ROWS_WEIGHT ≡ most_rows_weight }
    ensures backlog { BACKLOG ≡ most_backlog }
    ensures backlog_weight { BACKLOG_WEIGHT ≡ most_backlog_weight }
    ensures deliveries { DELIVERIES ≡ most_deliveries }
    ensures deliveries_weight { DELIVERIES_WEIGHT ≡ most_deliveries_weight }
    ensures connections { CONNECTIONS ≡ most_connections }
    ensures dataspaces { DATASPACES ≡ last_dataspace }
    ensures watchers { WATCHERS ≡ most_watchers }
    ensures handle { WORN_HANDLE ≡ worn_handle }
    ensures opened { WORN_CONNECTIONS ≡ worn_connections }
{}
