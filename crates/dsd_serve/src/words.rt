//! The words that ask to serve.
ghost use Rattle.std.specs.Prelude.{◌≡◌, MatchOption};
ghost use Rattle.dsd_top.specs.Commands.{texts};
ghost use Rattle.dsd_serve.specs.Serving.{IsServingBy, AskToServeBy};

use crate::numbers::number_in;
use std::marker::Model;

/// The most workers.
const WORKERS: u32 = 16;

/// The most connections.
const CONNECTIONS: u32 = 1000;

/// Where to serve, by the configuration in which file or by the bindings that it keeps, with how
/// many workers and for how many connections.
#[derive(Drop)]
pub(crate) struct Serving<'a> {
    pub address: &'a str,
    pub file: &'a str,
    pub workers: u32,
    pub connections: u32,
}

impl<'a> Model for Serving<'a> {
    ghost use Rattle.dsd_serve.specs.Serving.{Serving};

    ghost Value = { Serving };

    ghost view = { λ s. record {
      address = s.address.now;
      file = s.file.now;
      workers = s.workers;
      connections = s.connections;
    } };
}

/// What the words ask to serve, by this first one.
pub(crate) fn find_serving<'a>(first: &str, words: &'a [String]) -> Option<Serving<'a>>
    ensures { MatchOption result (AskToServeBy first.now (texts words.now) → ⊥)
        (IsServingBy first.now (texts words.now)) }
{
    if words.len() != 5 || words[0].as_str() != first {
        return None;
    }
    let workers = number_in(words[3].as_str(), 1, WORKERS)?;
    let connections = number_in(words[4].as_str(), 1, CONNECTIONS)?;
    Some(Serving {
        address: words[1].as_str(),
        file: words[2].as_str(),
        workers,
        connections,
    })
}
