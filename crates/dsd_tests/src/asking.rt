//! A query at the program's own server, in one process: somebody says in a room that she is there,
//! and the query prints who is.
use crate::pipes::{Line, Party, Pipe, line_of, party_with, pipe_with_room};
use crate::room::{CONFIG, RESOLVE};
use crate::running::ends_with;
use std::alloc::{AllocError, Global};
use std::sync::{Arc, Wait};
use std::test::Fail;
use std::thread::{self, Builder, Threads};

/// The room's reference in text.
const REFERENCE: &str = "<ref {oid: \"room\", sig: #x\"be09f04bb8e633725d5a158a2682bbd5\"}>";

/// A pattern of who is present.
const PATTERN: &str = "<group <rec Present> {0: <bind <_>>}>";

/// A turn that says in the room that Ann is there: `[[1 <A <Present "ann"> 2>]]`.
const PRESENT: &[u8] = b"\xb5\xb5\xb0\x01\x01\xb4\xb3\x01A\xb4\xb3\x07Present\xb1\x03ann\x84\
    \xb0\x01\x02\x84\x84\x84";

/// The pipes of one link: what its client puts, and what the server does.
#[derive(Drop)]
struct Pair {
    there: Arc<Pipe>,
    back: Arc<Pipe>,
}

impl Pair {
    fn new(alloc: Global) -> Result<Pair, AllocError> {
        Ok(Pair {
            there: pipe_with_room(alloc, 1000)?,
            back: pipe_with_room(alloc, 1000)?,
        })
    }

    /// The server's end.
    fn served(&self) -> Result<Line, AllocError> {
        line_of(&self.there, &self.back)
    }

    /// The client's end.
    fn asked(&self) -> Result<Line, AllocError> {
        line_of(&self.back, &self.there)
    }

    /// Resolves the room's reference, and once that is answered says that Ann is there.
    fn enter(&self) {
        self.there.fill(RESOLVE);
        self.back.wait(1);
        self.there.fill(PRESENT);
    }

    /// Whether one waited in vain.
    fn is_lost(&self) -> bool {
        self.there.is_lost() || self.back.is_lost()
    }
}

/// Ann, and who asks for her.
#[derive(Drop)]
struct Guests {
    ann: Pair,
    asker: Pair,
}

impl Guests {
    /// Whether one waited in vain.
    fn are_lost(&self) -> bool {
        self.ann.is_lost() || self.asker.is_lost()
    }
}

/// Whether the query prints that Ann is there. Then both leave.
fn is_printed<Rt: Threads + Wait + Sync>(
    rt: &Rt,
    alloc: Global,
    guests: &Guests,
    client: &mut Party,
) -> bool {
    guests.ann.enter();
    let words = ["query", "a", REFERENCE, PATTERN, "1"];
    let printed: (u8, &[u8], &[u8]) = (0, b"+ [\"ann\"]\n", b"");
    let asked = ends_with(rt, alloc, &words, client, printed).unwrap_or(false);
    guests.ann.there.end();
    guests.asker.there.end();
    asked
}

/// Whether it is printed where a server serves both, it in one thread and the query in another.
fn ann_is_there<Rt: Threads + Wait + Sync>(rt: &Rt, alloc: Global) -> Result<bool, AllocError> {
    let guests = Guests {
        ann: Pair::new(alloc)?,
        asker: Pair::new(alloc)?,
    };
    let mut links = Vec::new(alloc);
    links.push(guests.ann.served()?)?;
    links.push(guests.asker.served()?)?;
    let mut server = party_with(Vec::from_slice(alloc, CONFIG)?, links, guests.ann.asked()?);
    let mut client = party_with(Vec::new(alloc), Vec::new(alloc), guests.asker.asked()?);
    let both = thread::scope(thread::scope_env(), rt, |scope| {
        let serving = Builder::new().spawn_scoped(scope, || {
            let words = ["serve", "a", "c", "1", "2"];
            let served: (u8, &[u8], &[u8]) = (0, b"<served 2 0>\n", b"");
            ends_with(rt, alloc, &words, &mut server, served).unwrap_or(false)
        });
        let asking = Builder::new().spawn_scoped(scope, || {
            is_printed(rt, alloc, &guests, &mut client)
        });
        match (serving, asking) {
            (Ok(serving), Ok(asking)) => {
                let asked = asking.join(rt);
                serving.join(rt) && asked
            }
            _ => false,
        }
    });
    Ok(both && !guests.are_lost())
}

#[test]
fn a_query_asks_the_server_beside_it(rt: HostRuntime) -> Result<(), Fail> {
    assert!(rt; ann_is_there(&rt, rt.alloc())?);
    Ok(())
}
