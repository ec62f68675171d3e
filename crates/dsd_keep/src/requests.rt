//! What the words ask to be done.
ghost use Rattle.dsd_top.specs.Asked.{texts};
ghost use Rattle.dsd_top.specs.Minting.{IsFound, IsReferenceLine};
ghost use Rattle.dsd_keep.specs.Requests.{IsAction, IsRequest, minting_of};
ghost use Rattle.dsd_keep.specs.declared.words.Asked.TheVariants as asks;

use crate::spelling::{form_in, record_by};
use crate::words::{Adding, Asked, find_asking};
use dsd_top::{Minting, WordsFault, reference_line};
use kp_keeper::Record;
use pv_value::Blob;
use std::alloc::Global;
use std::marker::Model;

/// What is to be done.
#[derive(Drop)]
pub(crate) enum Action {
    /// The record is to be kept, and then the line of its signed reference is written.
    Add(Record, Vec<u8>),
    List,
    /// The record of the oid is let go.
    Revoke(Blob),
}

/// What is to be done, and with which file.
#[derive(Drop)]
pub(crate) struct Request<'a> {
    pub file: &'a str,
    pub action: Action,
}

impl<'a> Model for Request<'a> {
    ghost use Rattle.dsd_keep.specs.Request.{Request};

    ghost Value = { Request };

    ghost view = { λ w. record { file = w.file.now; action = w.action } };
}

/// The line of the signed reference, as `mint` prints it for the oid and the key. The caveats are
/// the binding's.
fn line_by(alloc: Global, adding: &Adding) -> Result<Vec<u8>, WordsFault>
    ensures { IsFound (λ line. line.items) (IsReferenceLine (minting_of adding.now)) result }
{
    let minting = Minting {
        oid: adding.oid,
        key: adding.key,
        caveats: &[],
    };
    reference_line(alloc, &minting)
}

/// The record that the words behind `add` give, and its line.
fn adding_of(alloc: Global, adding: &Adding) -> Result<Action, WordsFault>
    ensures { IsFound (λ d. d) (IsAction (asks.Add adding.now)) result }
{
    let record = record_by(alloc, adding)?;
    let line = line_by(alloc, adding)?;
    Ok(Action::Add(record, line))
}

/// What is asked, as it is to be done.
fn action_of(alloc: Global, asked: &Asked) -> Result<Action, WordsFault>
    ensures { IsFound (λ d. d) (IsAction asked.now) result }
{
    match asked {
        Asked::Add(adding) => adding_of(alloc, adding),
        Asked::List => Ok(Action::List),
        Asked::Revoke(revoking) => Ok(Action::Revoke(form_in(alloc, revoking.oid)?)),
    }
}

/// What the words ask to be done, and with which file.
pub(crate) fn find_request(alloc: Global, words: &[String]) -> Result<Request<'_>, WordsFault>
    ensures { IsFound (λ w. w) (IsRequest (texts words.now)) result }
{
    let Some(asking) = find_asking(words) else {
        return Err(WordsFault::Bad);
    };
    let action = action_of(alloc, &asking.asked)?;
    Ok(Request {
        file: asking.file,
        action,
    })
}
