//! A watcher that is made before the first connection comes. It is actor 9, and observes at
//! dataspace 1.
ghost use Rattle.std.specs.Prelude.{◌≡◌, codes, IfOk};

use ac_world::{Watched, World};
use dp_pattern::parse;
use ds_space::PlainSpace;
use lc_watch::{Table, Watcher};
use pv_text::read_text;
use pv_value::Text;
use sr_caveat::has_embedded;
use sr_pass::NoNames;
use std::alloc::Global;
use std::test::Fail;

const WATCHER: u32 = 9;

const SPACE: u32 = 1;

type Room = World<PlainSpace, NoNames, Watcher<Table>>;

/// A watcher of what `<P _>` captures.
fn given(alloc: Global) -> Result<Watched, Fail>
    ensures { IfOk result (λ w. (w.from ≡ 1) × (w.to ≡ 2) × (w.name ≡ codes "each")) }
{
    let (pattern, _) = read_text(alloc, b"<group <rec P> {0: <bind <_>>}>")?;
    let name = Text::from_str(alloc, "each")?;
    Ok(Watched {
        from: 1,
        pattern,
        to: 2,
        name,
    })
}

/// Whether the watcher is live once it is made, and not before, and a batch waits for the dataspace
/// that it watches.
fn is_live_and_observes(alloc: Global) -> Result<bool, Fail> {
    let room = Room::begin(alloc, NoNames, Watcher::new(Table))?;
    let before = room.live(WATCHER);
    let watched = given(alloc)?;
    if has_embedded(&watched.pattern) || parse(alloc, &watched.pattern)?.is_none() {
        return Ok(false);
    }
    let room = room.watch(alloc, watched)?;
    let waits = room.first(SPACE).is_some() && room.lowest() == Some(SPACE);
    Ok(!before && room.live(WATCHER) && room.watches().len() == 1 && waits)
}

#[test]
fn a_watcher_observes(rt: HostRuntime) -> Result<(), Fail> {
    assert!(rt; is_live_and_observes(rt.alloc())?);
    Ok(())
}
