//! Words one after another over one keeper.
use crate::keeping::{A_LINE, B_LINE, KEY, Wanted, comes_of, empty};
use kp_keeper::MemKeeping;
use std::alloc::Global;
use std::test::Fail;

/// `"b"` in space 1 is added, and then `"a"` in space 2 with a caveat; the list is by oid.
fn two_are_listed(alloc: Global, keeper: &mut MemKeeping) -> Result<bool, Fail> {
    let add_b = ["bindings", "f", "add", "\"b\"", KEY, "1"];
    let add_a = ["bindings", "f", "add", "\"a\"", KEY, "2", "<reject <_>>"];
    let list = "<binding \"a\" 2 [<reject <_>>]>\n<binding \"b\" 1 []>\n";
    Ok(
        comes_of(alloc, keeper, &add_b, &Wanted::new(0, B_LINE, ""))?
            && comes_of(alloc, keeper, &add_a, &Wanted::new(0, A_LINE, ""))?
            && comes_of(
                alloc,
                keeper,
                &["bindings", "f", "list"],
                &Wanted::new(0, list, ""),
            )?,
    )
}

/// One that is bound isn't bound again, and what was let go can't be let go again.
fn each_once(alloc: Global, keeper: &mut MemKeeping) -> Result<bool, Fail> {
    let again = ["bindings", "f", "add", "\"a\"", "00", "3"];
    let revoke = ["bindings", "f", "revoke", "\"b\""];
    let bound = Wanted::new(16, "", "dsd: bound already\n");
    let unbound = Wanted::new(17, "", "dsd: not bound\n");
    let left = "<binding \"a\" 2 [<reject <_>>]>\n";
    Ok(
        comes_of(alloc, keeper, &again, &bound)?
            && comes_of(alloc, keeper, &revoke, &Wanted::new(0, "", ""))?
            && comes_of(alloc, keeper, &revoke, &unbound)?
            && comes_of(
                alloc,
                keeper,
                &["bindings", "f", "list"],
                &Wanted::new(0, left, ""),
            )?,
    )
}

fn rows_hold(alloc: Global) -> Result<bool, Fail> {
    let mut keeper = empty(alloc);
    let held = two_are_listed(alloc, &mut keeper)? && each_once(alloc, &mut keeper)?;
    Ok(held && keeper.file() == Some("f"))
}

#[test]
fn bindings_are_added_listed_and_revoked(rt: HostRuntime) -> Result<(), Fail> {
    assert!(rt; rows_hold(rt.alloc())?);
    Ok(())
}
