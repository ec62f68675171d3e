//! A load of one item, whose bytes were written down by hand.

use crate::load_script;
use pv_value::{Blob, NoMemory};
use std::alloc::Global;

/// `<open 1>`, then the observation of item 0 under handle 0, and a drain; then what is asserted
/// under handle 1, and a drain. `load 7 1` draws 278.
const LOAD_7_1: &[u8] = b"\
    \xB4\xB3\x04open\xB0\x01\x01\x84\
    \xB4\xB3\x05bytes\xB0\x01\x01\xB2S\xB5\xB5\xB0\x00\xB4\xB3\x01A\xB4\xB3\x07Observe\
    \xB4\xB3\x05group\xB4\xB3\x03rec\xB3\x04Load\x84\xB7\xB0\x00\xB4\xB3\x03lit\xB0\x00\x84\
    \xB0\x01\x01\xB4\xB3\x04bind\xB4\xB3\x01_\x84\x84\x84\x84\
    \x86\xB5\xB0\x00\xB0\x01\x01\x84\x84\xB0\x00\x84\x84\x84\x84\xB4\xB3\x05drain\xB0\x02'\x10\x84\
    \xB4\xB3\x05bytes\xB0\x01\x01\xB2\x1C\xB5\xB5\xB0\x00\xB4\xB3\x01A\
    \xB4\xB3\x04Load\xB0\x00\xB0\x02\x01\x16\x84\xB0\x01\x01\x84\x84\x84\x84\
    \xB4\xB3\x05drain\xB0\x02'\x10\x84";

/// Whether the load of one item that begins at 7 is these bytes.
fn is_load(alloc: Global, bytes: &[u8]) -> Result<bool, NoMemory> {
    let script = load_script(alloc, 7, 1)?;
    Ok(script.as_slice() == bytes)
}

#[test]
fn one_item(rt: HostRuntime) -> Result<(), NoMemory> {
    assert!(rt; is_load(rt.alloc(), LOAD_7_1)?);
    Ok(())
}
