//! What is next in a stream, by the bytes that are left.
ghost use Rattle.std.specs.Prelude.{◌≡◌, ◌<◌, ◌≤◌, ◌+◌, ◌^◌, length, IfOk};
ghost use Rattle.pv_binary.specs.OneOfThree.{IsFront};
ghost use Rattle.pv_binary.specs.Reads.{Stops};
ghost use Rattle.pv_stream.specs.Feeds.{FeedState, given};
ghost use Rattle.pv_stream.specs.Nexts.{front_of, IsNext, IsOnlyNext};

use crate::laws::one_next;
use pv_binary::{BinFault, BinKind, read};
use pv_value::{NoMemory, Value};
use std::alloc::Global;

/// The most bytes of a value.
pub(crate) const MOST_BYTES: usize = 262_144;

/// What is next in a stream.
#[derive(Drop)]
pub enum Next {
    /// A value.
    Value(Value),
    /// A value begins, or nothing is left: more is to come.
    More,
    /// What is no value: a fault, and its place in the stream.
    Fault(BinKind, u64),
    /// A value that has more than 262,144 bytes.
    TooLong,
}

/// What was found to be next, and how many bytes it takes: those of a value, and else none.
#[derive(Drop)]
pub struct Found {
    pub next: Next,
    pub size: usize,
}

/// What is next in these bytes, before which stand so many of the stream. They are read from the
/// first one on.
pub fn first_in(alloc: Global, left: &[u8], before: u64) -> Result<Found, NoMemory>
    requires { before + length left.now < 2 ^ 63 }
    ensures told { IfOk result (λ x. let f : FeedState = record { left = left.now; before = before }
        in IsNext f x.next (given x.size f)) }
    ensures only { IfOk result (λ x. let f : FeedState = record { left = left.now; before = before }
        in IsOnlyNext f x.next (given x.size f)) }
    ensures fits { IfOk result (λ x. x.size ≤ length left.now) }
{
    one_next();
    decided(alloc, left, before)
}

/// More is to come, where these bytes begin a value and don't end it.
pub(crate) fn more(left: &[u8], before: u64) -> Found
    requires few { length left.now < 262144 }
    requires front { IsFront left.now }
    ensures told { let f : FeedState = record { left = left.now; before = before }
        in IsNext f result.next (given result.size f) }
    ensures only { let f : FeedState = record { left = left.now; before = before }
        in IsOnlyNext f result.next (given result.size f) }
    ensures none { result.size ≡ 0 }
{
    one_next();
    Found {
        next: Next::More,
        size: 0,
    }
}

/// The same, as reading tells it.
fn decided(alloc: Global, left: &[u8], before: u64) -> Result<Found, NoMemory>
    requires { before + length left.now < 2 ^ 63 }
    ensures told { IfOk result (λ x. let f : FeedState = record { left = left.now; before = before }
        in IsNext f x.next (given x.size f)) }
    ensures fits { IfOk result (λ x. x.size ≤ length left.now) }
{
    match read(alloc, front_of(left)) {
        Ok((value, size)) => Ok(Found {
            next: Next::Value(value),
            size,
        }),
        Err(BinFault::Bad(kind, at)) => Ok(Found {
            next: stopped(left, before, kind, at),
            size: 0,
        }),
        Err(BinFault::NoMemory) => Err(NoMemory),
    }
}

/// The bytes on which the first value is decided. It takes no memory.
pub fn front_of(left: &[u8]) -> &[u8]
    ensures { result.now ≡ front_of left.now }
{
    &left[..left.len().min(MOST_BYTES)]
}

/// What is next, where this fault stops the reading of the first value.
fn stopped(left: &[u8], before: u64, kind: BinKind, at: usize) -> Next
    requires fits { before + length left.now < 2 ^ 63 }
    requires stops { Stops (front_of left.now) (record { kind = kind; place = at }) }
    ensures { let f : FeedState = record { left = left.now; before = before } in IsNext f result f }
{
    match kind {
        BinKind::Truncated if left.len() < MOST_BYTES => Next::More,
        BinKind::Truncated => Next::TooLong,
        _ => Next::Fault(kind, before + at as u64),
    }
}
