//! Where the first value of some bytes ends. Nothing here takes memory.
ghost use Rattle.std.specs.Prelude.{◌≡◌, length, IsTrue};
ghost use Rattle.pv_binary.specs.Reading.{is_compound};
ghost use Rattle.pv_binary.specs.Tags.{tag_of};
ghost use Rattle.pv_stream.specs.Scans.{past, past_end, past_entry, past_compound, past_value};
ghost use Rattle.pv_stream.specs.Scans.{scan_of, stopped, Tells};

use crate::passing::past_atom;
use crate::stops::{Scan, Stop};
use crate::walks::opens;
use pv_binary::BinKind;
use pv_binary::tags::{DICTIONARY, EMBEDDED, END, RECORD};
use pv_read::READ_DEPTH;

/// What stands first in the bytes. It doesn't look for elements that repeat.
pub fn scan(bytes: &[u8]) -> Scan
    ensures { result ≡ scan_of bytes.now }
{
    match pass(bytes, bytes.len(), READ_DEPTH) {
        Ok(rest) => Scan::Whole(bytes.len().saturating_sub(rest.len())),
        Err(stop) => told(stop),
    }
}

fn told(stop: Stop) -> Scan
    ensures { result ≡ stopped stop.kind stop.place }
{
    match stop.kind {
        BinKind::Truncated => Scan::Part,
        kind => Scan::Fault(kind, stop.place),
    }
}

/// The bytes behind a value that nests at most `budget` deep. They are the last of `total`.
#[cycle(pass)]
#[tactic(auto, unfolding(crate::specs::Scans::past_value))]
fn pass(bytes: &[u8], total: usize, budget: u32) -> Result<&[u8], Stop>
    ensures { Tells (λ x. x.now) result (past_value total budget bytes.now) }
{
    let place = total.saturating_sub(bytes.len());
    let Some((byte, rest)) = bytes.split_first() else {
        return Err(Stop {
            kind: BinKind::Truncated,
            place: total,
        });
    };
    if !opens(*byte) {
        return past_atom(*byte, rest, place);
    }
    if budget == 0 {
        return Err(Stop {
            kind: BinKind::TooDeep,
            place,
        });
    }
    pass_compound(*byte, rest, total, budget - 1)
}

/// What stands behind the tag of a compound.
#[cycle(pass)]
#[tactic(auto, unfolding(crate::specs::Scans::past_compound))]
fn pass_compound(byte: u8, bytes: &[u8], total: usize, budget: u32) -> Result<&[u8], Stop>
    requires { IsTrue (is_compound (tag_of byte)) }
    ensures { Tells (λ x. x.now) result
        (past_compound total (past_value total budget) (tag_of byte) bytes.now) }
{
    match byte {
        EMBEDDED => pass(bytes, total, budget),
        RECORD => {
            let rest = pass(bytes, total, budget)?;
            pass_items(rest, total, budget)
        }
        DICTIONARY => pass_entries(bytes, total, budget),
        _ => pass_items(bytes, total, budget),
    }
}

/// Values up to the end.
#[cycle(pass)]
fn pass_items(bytes: &[u8], total: usize, budget: u32) -> Result<&[u8], Stop>
    ensures { Tells (λ x. x.now) result
        (past_end total (past_value total budget) (length bytes.now) bytes.now) }
{
    let mut rest = bytes;
    for _ in 0..bytes.len() {
        let Some((byte, after)) = rest.split_first() else {
            return Err(Stop {
                kind: BinKind::Truncated,
                place: total,
            });
        };
        if *byte == END {
            return Ok(after);
        }
        rest = pass(rest, total, budget)?;
    }
    Err(Stop {
        kind: BinKind::Truncated,
        place: total,
    })
}

/// Keys and values by turns up to the end.
#[cycle(pass)]
fn pass_entries(bytes: &[u8], total: usize, budget: u32) -> Result<&[u8], Stop>
    ensures { Tells (λ x. x.now) result
        (past_end total (past_entry (past_value total budget)) (length bytes.now) bytes.now) }
{
    let mut rest = bytes;
    for _ in 0..bytes.len() {
        let Some((byte, after)) = rest.split_first() else {
            return Err(Stop {
                kind: BinKind::Truncated,
                place: total,
            });
        };
        if *byte == END {
            return Ok(after);
        }
        let value = pass(rest, total, budget)?;
        rest = pass(value, total, budget)?;
    }
    Err(Stop {
        kind: BinKind::Truncated,
        place: total,
    })
}
