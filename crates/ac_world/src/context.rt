//! What a system actor takes its turn with.

use lc_watch::Behaves;
use sr_pass::Judge;
use std::alloc::Global;

/// What a system actor takes its turn with: guards judge by the one, and watchers act by the other.
#[derive(Drop)]
pub struct Context<'a, J: Judge, B: Behaves> {
    pub alloc: Global,
    pub judge: &'a J,
    pub behaves: &'a B,
    /// The actor whose turn it is.
    pub actor: u32,
    /// The actor that made the batch.
    pub from: u32,
}
