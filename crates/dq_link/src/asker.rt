//! Who asks.
ghost use Rattle.std.specs.Prelude.{◌<◌};

use dq_core::Client;

/// The client, and how many lines are still to be written.
#[derive(Drop)]
pub(crate) struct Asker {
    pub(crate) client: Client,
    pub(crate) left: u64,
    ghost some: { 0 < left },
}
