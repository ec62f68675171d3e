//! The words that ask something of a file.
ghost use Rattle.std.specs.Prelude.{◌≡◌};
ghost use Rattle.dsd_top.specs.Asked.{texts};
ghost use Rattle.dsd_keep.specs.Words.{asking_of, asked_of, add_of};

use std::marker::Model;

/// The most caveats.
const CAVEATS: usize = 32;

/// The words behind `add`.
#[derive(Drop)]
pub(crate) struct Adding<'a> {
    pub oid: &'a str,
    pub key: &'a str,
    pub space: &'a str,
    pub caveats: &'a [String],
}

impl<'a> Model for Adding<'a> {
    ghost use Rattle.dsd_top.specs.Asked.{texts};
    ghost use Rattle.dsd_keep.specs.Asked.{Adding};

    ghost Value = { Adding };

    ghost view = { λ a. record {
      oid = a.oid.now;
      key = a.key.now;
      space = a.space.now;
      caveats = texts a.caveats.now;
    } };
}

/// The word behind `revoke`.
#[derive(Drop)]
pub(crate) struct Revoking<'a> {
    pub oid: &'a str,
}

impl<'a> Model for Revoking<'a> {
    ghost use Rattle.dsd_keep.specs.Asked.{Revoking};

    ghost Value = { Revoking };

    ghost view = { λ r. record { oid = r.oid.now } };
}

/// What is asked.
#[derive(Drop)]
pub(crate) enum Asked<'a> {
    Add(Adding<'a>),
    List,
    Revoke(Revoking<'a>),
}

/// What is asked, and of which file.
#[derive(Drop)]
pub(crate) struct Asking<'a> {
    pub file: &'a str,
    pub asked: Asked<'a>,
}

impl<'a> Model for Asking<'a> {
    ghost use Rattle.dsd_keep.specs.Words.{Asking};

    ghost Value = { Asking };

    ghost view = { λ a. record { file = a.file.now; asked = a.asked } };
}

/// What `add` asks with these words behind it.
fn find_add<'a>(
    oid: &'a str,
    key: &'a str,
    space: &'a str,
    caveats: &'a [String],
) -> Option<Asked<'a>>
    ensures { result ≡ add_of oid.now key.now space.now (texts caveats.now) }
{
    if caveats.len() > CAVEATS {
        return None;
    }
    Some(Asked::Add(Adding {
        oid,
        key,
        space,
        caveats,
    }))
}

/// What a word asks with these behind it.
fn find_asked<'a>(verb: &str, rest: &'a [String]) -> Option<Asked<'a>>
    ensures { result ≡ asked_of verb.now (texts rest.now) }
{
    if verb == "list" && rest.is_empty() {
        return Some(Asked::List);
    }
    if verb == "revoke" && rest.len() == 1 {
        let oid = rest[0].as_str();
        return Some(Asked::Revoke(Revoking { oid }));
    }
    if verb == "add" && rest.len() >= 3 {
        let (oid, key) = (rest[0].as_str(), rest[1].as_str());
        return find_add(oid, key, rest[2].as_str(), &rest[3..]);
    }
    None
}

/// What the words ask, and of which file.
pub(crate) fn find_asking(words: &[String]) -> Option<Asking<'_>>
    ensures { result ≡ asking_of (texts words.now) }
{
    if words.len() < 3 || words[0].as_str() != "bindings" {
        return None;
    }
    let asked = find_asked(words[2].as_str(), &words[3..])?;
    let file = words[1].as_str();
    Some(Asking { file, asked })
}
