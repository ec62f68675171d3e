//! What a run leaves.

use pv_value::Blob;
use rl_packet::Holding;
use std::marker::Model;

/// What a run leaves of a connection.
#[derive(Drop)]
pub struct Connection {
    /// Whether it is there.
    pub live: bool,
    /// The written spellings of the packets that it was sent, one behind another.
    pub out: Blob,
    /// What its peer holds by them, by object and then handle.
    pub held: Vec<Holding>,
}

impl Model for Connection {
    ghost use Rattle.std.specs.Coded.{codes};
    ghost use Rattle.pv_value.specs.Lemmas.Coded.{plain_code};
    ghost use Rattle.sc_report.specs.Reports.{ConnectionState};

    ghost Value = { ConnectionState };

    ghost coded = { Prim.hlevel (codes, plain_code) };

    ghost view = { λ c. record { live = c.live; out = c.out; held = c.held.items } };
}

/// What a run leaves: how many batches and errors wait, and the connections from number 1 on.
#[derive(Drop)]
pub struct Ran {
    pub pending: u64,
    pub connections: Vec<Connection>,
}

impl Model for Ran {
    ghost use Rattle.std.specs.Coded.{codes};
    ghost use Rattle.pv_value.specs.Lemmas.Coded.{plain_code};
    ghost use Rattle.sc_report.specs.Reports.{RanState};

    ghost Value = { RanState };

    ghost coded = { Prim.hlevel (codes, plain_code) };

    ghost view = { λ r. record { pending = r.pending; connections = r.connections.items } };
}
